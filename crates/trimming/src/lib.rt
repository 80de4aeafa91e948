// Step 4 of the elimination: what each row of the new element keeps of its list, the elements that are taken up, the rows that are eliminated with the pivot,
// and the buckets of the rest by their keys. A contract is the function's own model; the laws of `proofs/` say what it does to the lists.
#![tactic(auto)]

ghost use Rattle.std.specs.Prelude.{◌≡◌, ◌+◌, ◌^◌, ◌<◌, ◌≤◌, ◌&&◌, length, ◌==◌};
ghost use Rattle.cells.specs.Rows.{Rows};
ghost use Rattle.cells.specs.Space.{space, SameSize};
ghost use Rattle.cells.specs.View.{Room, wr};
ghost use Rattle.trimming.specs.Model.{Grown, counted, keeping, kept_live, kept_element, kept_elements, kept_variable, kept_variables, kept_all, took_weight, buried, massed, turned, sized, lowered, key_of, keyed, relisted, settled, trimming, updated, updated_at, updated_all};

use cells::{Field, Memory, Part};
use std::marker::Model;

// ---- what is kept

// Of a list: the place behind what is kept, the one behind its elements (once they are done), the sum of their sizes and weights, and that of their numbers.
// No invariant puts `elements` at or before `end`: `count`, `keep_entry` and others are public and ask nothing of it, and a type may not ask more.
#[derive(Clone, Copy)]
pub struct Kept {
    pub elements: usize,
    pub end: usize,
    pub deg: usize,
    pub sum: usize,
}

// How the elements of a list are kept: their marks count from `flag` on, and those at it are dropped into `me`, the new element, where that is aggressive.
#[derive(Clone, Copy)]
pub struct Rule {
    pub me: usize,
    pub flag: usize,
    pub aggressive: bool,
}

// `x`, of this size, is kept.
#[tactic(auto, unfolding(crate::specs::Model::counted, cells::specs::View::wrapped))]
pub fn count(x: usize, size: usize, k: Kept) -> Kept
    requires { k.end < 2 ^ 62 }
    ensures counted { result ≡ counted x size k }
    ensures grown { Grown k result }
{
    Kept {
        end: k.end + 1,
        deg: k.deg.wrapping_add(size),
        sum: k.sum.wrapping_add(x),
        ..k
    }
}

// Row `x` goes to the cell behind what is kept, and is counted.
pub fn keep_entry(lists: &mut [i64], n: usize, x: usize, size: usize, k: Kept) -> Kept
    requires { Rows n lists.old × (x < n) × (x < 2 ^ 63) × (k.end < length lists.old) }
    ensures { (lists.new ≡ wr lists.old k.end x) × Rows n lists.new × (result ≡ counted x size k) × Grown k result }
{
    cells::put_row(lists, n, k.end, x);
    count(x, size, k)
}

impl Rule {
    // Is an element of mark `w` dropped, though it is there?
    pub fn swallows(self, w: usize) -> bool
        ensures { result ≡ (self.aggressive && w == self.flag) }
    {
        self.aggressive && w == self.flag
    }
}

// Element `e` of mark `w`, which is there: kept, or dropped.
#[tactic(auto, unfolding(cells::specs::Space::space, crate::specs::Model::kept_live, crate::specs::Model::kept_entry))]
pub fn keep_live(m: &mut Memory, r: Rule, e: usize, w: usize, k: Kept) -> Kept
    requires { (e < (space m.old).n) × (k.end < length (space m.old).lists) }
    ensures kept { keeping (space m.new).lists (space m.new).scratch result
        ≡ kept_live (space m.old).n r.me r.flag r.aggressive e w (keeping (space m.old).lists (space m.old).scratch k) }
    ensures size { SameSize (space m.old) (space m.new) }
    ensures grown { Grown k result }
{
    if r.flag < w {
        keep_entry(m.rows, m.columns, e, w - r.flag, k)
    } else if r.swallows(w) {
        packed::absorb(m.fields, m.columns, r.me, e);
        k
    } else {
        keep_entry(m.rows, m.columns, e, 0, k)
    }
}

// The element in cell `q`.
#[tactic(auto, unfolding(crate::specs::Model::kept_element))]
pub fn keep_element(m: &mut Memory, r: Rule, q: usize, k: Kept) -> Kept
    requires { (k.end ≤ q) × (q < length (space m.old).lists) }
    ensures kept { keeping (space m.new).lists (space m.new).scratch result
        ≡ kept_element (space m.old).n r.me r.flag r.aggressive q (keeping (space m.old).lists (space m.old).scratch k) }
    ensures size { SameSize (space m.old) (space m.new) }
    ensures grown { Grown k result }
{
    let e = m.row(q);
    let w = m.get(Field::W, e);
    if 0 < w { keep_live(m, r, e, w, k) } else { k }
}

// The elements in a part of the lists: those that are kept move to the left.
// By number, as every loop over a part here: its cells are read while others are written.
#[tactic(auto, using(plain::proofs::Turns::begin, plain::proofs::Turns::finish), unfolding(crate::specs::Model::kept_elements))]
pub fn keep_elements(m: &mut Memory, r: Rule, part: Part) -> Kept
    requires { part.from + part.len ≤ length (space m.old).lists }
    ensures kept { keeping (space m.new).lists (space m.new).scratch result
        ≡ kept_elements (space m.old).n r.me r.flag r.aggressive part.from part.len (space m.old).lists (space m.old).scratch }
    ensures size { SameSize (space m.old) (space m.new) }
    ensures within { (part.from ≤ result.end) × (result.end ≤ part.from + part.len) }
{
    let mut k = Kept {
        elements: part.from,
        end: part.from,
        deg: 0,
        sum: 0,
    };
    prove!(part.len <= m.size() - part.from);
    for t in 0..part.len {
        k = keep_element(m, r, part.from + t, k);
    }
    k
}

// The variable in cell `q`: kept if it is wanted.
#[tactic(auto, unfolding(crate::specs::Model::kept_variable, crate::specs::Model::kept_entry))]
pub fn keep_variable(lists: &mut [i64], s: &[i64], n: usize, q: usize, k: Kept) -> Kept
    requires { Room n s.now × Rows n lists.old × (k.end ≤ q) × (q < length lists.old) }
    ensures kept { keeping lists.new s.now result ≡ kept_variable n q (keeping lists.old s.now k) }
    ensures rows { Rows n lists.new }
    ensures grown { Grown k result }
{
    let v = cells::row(lists, n, q);
    let w = cells::get(s, n, Field::Want, v);
    if 0 < w {
        keep_entry(lists, n, v, w, k)
    } else {
        k
    }
}

// The variables in a part of the lists: those that are kept move to behind what is kept of the elements.
#[tactic(auto, using(plain::proofs::Turns::begin, plain::proofs::Turns::finish), unfolding(crate::specs::Model::kept_variables))]
pub fn keep_variables(lists: &mut [i64], s: &[i64], n: usize, part: Part, start: Kept) -> Kept
    requires { Room n s.now × Rows n lists.old × (start.end ≤ part.from) × (part.from + part.len ≤ length lists.old) }
    ensures kept { keeping lists.new s.now result ≡ kept_variables n part.from part.len (keeping lists.old s.now start) }
    ensures rows { Rows n lists.new }
    ensures elements { result.elements ≡ start.end }
    ensures within { (start.end ≤ result.end) × (result.end ≤ part.from + part.len) }
{
    let mut k = Kept {
        elements: start.end,
        ..start
    };
    prove!(part.len <= lists.len() - part.from);
    for t in 0..part.len {
        k = keep_variable(lists, s, n, part.from + t, k);
    }
    k
}

// What is kept of the list in a part of the lists, whose first `elen` cells are elements.
#[tactic(auto, unfolding(cells::specs::Space::space, crate::specs::Model::kept_all))]
pub fn keep_all(m: &mut Memory, r: Rule, part: Part, elen: usize) -> Kept
    requires { (elen ≤ part.len) × (part.from + part.len ≤ length (space m.old).lists) }
    ensures kept { keeping (space m.new).lists (space m.new).scratch result
        ≡ kept_all (space m.old).n r.me r.flag r.aggressive part.from elen part.len (space m.old).lists (space m.old).scratch }
    ensures size { SameSize (space m.old) (space m.new) }
    ensures within { (part.from ≤ result.elements) × (result.elements ≤ result.end) }
{
    prove!(part.len <= m.size() - part.from);
    let elements = Part { len: elen, ..part };
    let first = keep_elements(m, r, elements);
    let variables = Part {
        from: part.from + elen,
        len: part.len - elen,
    };
    let fields = &mut *m.fields;
    keep_variables(m.rows, fields, m.columns, variables, first)
}

// ---- nothing is kept

// The weight merged into the pivot so far, and the rows in the log: both are numbers of a cell.
#[derive(Clone, Copy)]
pub struct Merged {
    pub weight: usize,
    pub made: usize,
}

impl Model for Merged {
    ghost use Rattle.trimming.specs.Merged.{Totals, Few};

    ghost Value = { Totals };

    ghost view = { λ t. record { weight = t.weight; made = t.made } };

    ghost invariant = { λ t. Few (record { weight = t.weight; made = t.made }) };

    ghost inverse = { λ c. record { weight = c.weight; made = c.made } };
}

// Row `i` is eliminated with the pivot.
#[tactic(auto, unfolding(packed::specs::Model::joined_row, crate::specs::Model::massed, crate::specs::Model::buried, crate::specs::Model::took_weight))]
pub fn mass_eliminate(m: &mut Memory, me: usize, i: usize, t: Merged) -> Merged
    requires { (me < (space m.old).n) × (i < (space m.old).n) }
    ensures massed { result ≡ massed (space m.old).n i (space m.old).scratch t }
    ensures buried { space m.new
        ≡ record (space m.old) { scratch = buried (space m.old).n me i t.made (took_weight (space m.old).n me i (space m.old).scratch) } }
{
    let w = packed::join(m, me, i, t.made);
    Merged {
        weight: cells::plus(t.weight, w),
        made: cells::plus(t.made, 1),
    }
}

// ---- the list of a row that stays

// Of the numbers from `p` to `end` the first goes to place `elements`, the one there to the end, and `me` to the front.
#[tactic(auto, unfolding(crate::specs::Model::turned))]
pub fn turn_list(lists: &mut [i64], n: usize, me: usize, p: usize, elements: usize, end: usize)
    requires { Rows n lists.old × (me < n) × (me < 2 ^ 63) × (p ≤ elements) × (elements ≤ end) × (end < length lists.old) }
    ensures { (lists.new ≡ turned me p elements end lists.old) × Rows n lists.new }
{
    let last = cells::row(lists, n, elements);
    cells::put_row(lists, n, end, last);
    let first = cells::row(lists, n, p);
    cells::put_row(lists, n, elements, first);
    cells::put_row(lists, n, p, me);
}

// The counts of row `i`, with `me` in its list.
#[tactic(auto, unfolding(crate::specs::Model::sized))]
pub fn finish_list(m: &mut Memory, i: usize, elements: usize, cnt: usize)
    requires { (i < (space m.old).n) × (elements < 2 ^ 62) × (cnt < 2 ^ 62) }
    ensures { space m.new ≡ record (space m.old) { scratch = sized (space m.old).n i elements cnt (space m.old).scratch } }
{
    m.set(Field::Elen, i, elements + 1);
    m.set(Field::Len, i, cnt + 1);
}

// The degree without the new element: the smaller of the old and `deg`. Written where it is lower alone: a `min` would write the old one over itself.
#[tactic(auto, unfolding(crate::specs::Model::lowered))]
pub fn lower_degree(m: &mut Memory, i: usize, deg: usize)
    requires { i < (space m.old).n }
    ensures { space m.new ≡ record (space m.old) { scratch = lowered (space m.old).n i deg (space m.old).scratch } }
{
    let old = m.get(Field::Degree, i);
    if deg < old {
        m.set(Field::Degree, i, deg);
    }
}

// The key of a sum.
#[tactic(auto, unfolding(crate::specs::Model::key_of))]
pub fn key_of(n: usize, sum: usize) -> usize
    requires { 0 < n }
    ensures key { result ≡ key_of n sum }
    ensures below { result < n }
{
    sum % n
}

// Row `i` is the newest of its key.
#[tactic(auto, unfolding(crate::specs::Model::keyed))]
pub fn put_key(m: &mut Memory, i: usize, key: usize)
    requires { (i < (space m.old).n) × (key < (space m.old).n) }
    ensures { space m.new ≡ record (space m.old) { scratch = keyed (space m.old).n i key (space m.old).scratch } }
{
    let before = m.get(Field::HHead, key);
    m.set(Field::HNext, i, before);
    m.set(Field::HHead, key, i);
    m.set(Field::HKey, i, key);
}

// Row `i`, which has moved to the front of its place `p` what it keeps, gets its list, its degree and its bucket.
#[tactic(auto, unfolding(cells::specs::Space::space, crate::specs::Model::relisted))]
pub fn relist(m: &mut Memory, me: usize, i: usize, p: usize, k: Kept)
    requires { (me < (space m.old).n) × (i < (space m.old).n) × (p ≤ k.elements) × (k.elements ≤ k.end) × (k.end < length (space m.old).lists) }
    ensures relisted { space m.new
        ≡ record (space m.old) { lists = turned me p k.elements k.end (space m.old).lists; scratch = relisted (space m.old).n i p k (space m.old).scratch } }
    ensures size { length (space m.new).lists ≡ length (space m.old).lists }
{
    prove!(k.end < m.size());
    turn_list(m.rows, m.columns, me, p, k.elements, k.end);
    finish_list(m, i, k.elements - p, k.end - p);
    lower_degree(m, i, k.deg);
    let key = key_of(m.columns(), k.sum);
    put_key(m, i, key);
}

// ---- the rows of the new element

// Row `i`, whose list, `elen` elements and then variables, is there. It keeps fewer, so there is a cell behind it: that is asked once, too.
#[tactic(auto, unfolding(crate::specs::Model::settled, crate::specs::Model::renewed))]
pub fn update_inside(
    m: &mut Memory,
    r: Rule,
    i: usize,
    part: Part,
    elen: usize,
    t: Merged,
) -> Merged
    requires { (r.me < (space m.old).n) × (i < (space m.old).n) × (elen ≤ part.len) × (part.from + part.len ≤ length (space m.old).lists) }
    ensures settled { trimming (space m.new).lists (space m.new).scratch result
        ≡ settled (space m.old).n r.me i part.from (kept_all (space m.old).n r.me r.flag r.aggressive part.from elen part.len (space m.old).lists
        (space m.old).scratch) t }
    ensures size { SameSize (space m.old) (space m.new) }
{
    let k = keep_all(m, r, part, elen);
    if k.end <= part.from {
        return mass_eliminate(m, r.me, i, t);
    }
    if k.end < m.size() {
        relist(m, r.me, i, part.from, k);
    }
    t
}

// Row `i`. Whether its list is there is asked once.
#[tactic(auto, unfolding(crate::specs::Model::updated))]
pub fn update_variable(m: &mut Memory, r: Rule, i: usize, t: Merged) -> Merged
    requires { (r.me < (space m.old).n) × (i < (space m.old).n) }
    ensures updated { trimming (space m.new).lists (space m.new).scratch result
        ≡ updated (space m.old).n r.me r.flag r.aggressive i (trimming (space m.old).lists (space m.old).scratch t) }
    ensures size { SameSize (space m.old) (space m.new) }
{
    let list = Part {
        from: m.get(Field::Pe, i),
        len: m.get(Field::Len, i),
    };
    let elen = m.get(Field::Elen, i);
    if elen <= list.len && list.from + list.len <= m.size() {
        update_inside(m, r, i, list, elen, t)
    } else {
        t
    }
}

// The row in cell `q` of the lists.
#[tactic(auto, unfolding(crate::specs::Model::updated_at))]
pub fn update_at(m: &mut Memory, r: Rule, q: usize, t: Merged) -> Merged
    requires { (r.me < (space m.old).n) × (q < length (space m.old).lists) }
    ensures updated { trimming (space m.new).lists (space m.new).scratch result
        ≡ updated_at (space m.old).n r.me r.flag r.aggressive q (trimming (space m.old).lists (space m.old).scratch t) }
    ensures size { SameSize (space m.old) (space m.new) }
{
    let i = m.row(q);
    update_variable(m, r, i, t)
}

// The rows of the new element, as far as its part of the lists is there; `made` rows are in the log before.
#[tactic(auto, using(plain::proofs::Turns::begin, plain::proofs::Turns::finish), unfolding(crate::specs::Model::updated_all))]
pub fn update_all(m: &mut Memory, r: Rule, part: Part, made: usize) -> Merged
    requires { (r.me < (space m.old).n) × (made < 2 ^ 63) }
    ensures updated { trimming (space m.new).lists (space m.new).scratch result
        ≡ updated_all (space m.old).n r.me r.flag r.aggressive part.from part.len made (space m.old).lists (space m.old).scratch }
    ensures size { SameSize (space m.old) (space m.new) }
{
    let turns = m.clip(part);
    let mut t = Merged { weight: 0, made };
    for j in 0..turns {
        t = update_at(m, r, part.from + j, t);
    }
    t
}
