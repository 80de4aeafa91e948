// Lists packed into one lent space, their collection to the space's beginning, and the list of a new element gathered from others, whose rows leave their
// degree lists. Nothing here asks for a memory that makes sense: a contract is the function's own model.
// The laws of `proofs/` say what it does to the lists.
#![tactic(auto)]

ghost use Rattle.std.specs.Prelude.{◌≡◌, ◌+◌, ◌^◌, ◌<◌, length};
ghost use Rattle.cells.specs.Layout.{NV};
ghost use Rattle.cells.specs.Rows.{Rows};
ghost use Rattle.cells.specs.View.{Room, at, rd};
ghost use Rattle.cells.specs.Space.{space, SameSize};
ghost use Rattle.packed.specs.Places.{places, due};
ghost use Rattle.packed.specs.Model.{copied, heap, moved_one, moved_low, moved_next, moved_new, packed_low, packed_all, laid, entered, joined_row};
ghost use Rattle.packed.specs.Tray.{Tabled, wanted, taking, counted, took_row, took, took_part, absorbed, took_element, took_elements, own_part, took_all};
ghost use Rattle.packed.specs.Gather.{cleared, collected_rest, made_room, outside, summed, gathered_outside, inside, gathered_inside};

use cells::{Field, Memory, TMP};
use std::marker::Model;

// A part of the list space.
pub use cells::Part;

// How far the list space is filled: the end of the lists that go by number, the next free place, and how many elements stand behind in order.
// No invariant bounds its numbers: `collect`, `collect_rest` and `make_room` are public and ask less than a gather, and a type may not ask their callers more.
#[derive(Clone, Copy)]
pub struct Extent {
    pub base: usize,
    pub free: usize,
    pub made: usize,
}

// The end of the lists that go by number, and the end of all, a number of a cell.
#[derive(Clone, Copy)]
pub struct Ends {
    pub base: usize,
    pub end: usize,
}

impl Model for Ends {
    ghost use Rattle.std.specs.Prelude.{◌<◌, ◌^◌};
    ghost use Rattle.packed.specs.Ends.{Edges};

    ghost Value = { Edges };

    ghost view = { λ e. record { base = e.base; end = e.end } };

    ghost invariant = { λ e. e.end < 2 ^ 63 };

    ghost inverse = { λ d. record { base = d.base; end = d.end } };
}

// The `len` numbers from `p` on, moved to `e` on, first the first.
#[tactic(auto, unfolding(crate::specs::Model::copied, plain::specs::Turns::times))]
pub fn copy_down(lists: &mut [i64], n: usize, p: usize, e: usize, len: usize)
    requires { Rows n lists.old × (p < 2 ^ 63) × (e < 2 ^ 63) × (len < 2 ^ 63) }
    ensures { (lists.new ≡ copied p e len lists.old) × Rows n lists.new }
{
    for k in 0..len {
        cells::copy_row(lists, n, p + k, e + k);
    }
}

// The length of the list of `j` if it begins below `top`, else 0.
#[tactic(auto, unfolding(crate::specs::Places::due))]
pub fn due(s: &[i64], n: usize, top: usize, j: usize) -> usize
    requires { Room n s.now }
    ensures { (result ≡ due (places n s.now) top j) × (result < 2 ^ 63) }
{
    let p = cells::rd(s, n, Field::Pe, j);
    if p < top {
        cells::rd(s, n, Field::Len, j)
    } else {
        0
    }
}

// Moves the list of `j` down to `end`, if there is one that begins below `top`. The result is the new end.
#[tactic(auto, unfolding(cells::specs::Space::space, crate::specs::Model::moved_one, crate::specs::Model::moved_down))]
pub fn move_one(m: &mut Memory, top: usize, j: usize, end: usize) -> usize
    requires { end < 2 ^ 63 }
    ensures moved { heap (space m.new).lists (space m.new).scratch result
        ≡ moved_one (space m.old).n top j (heap (space m.old).lists (space m.old).scratch end) }
    ensures size { SameSize (space m.old) (space m.new) }
    ensures small { result < 2 ^ 63 }
{
    let fields = &mut *m.fields;
    let len = due(fields, m.columns, top, j);
    if 0 < len {
        let p = m.rd(Field::Pe, j);
        copy_down(m.rows, m.columns, p, end, len);
        m.up(Field::Pe, j, end);
        cells::plus(end, len)
    } else {
        end
    }
}

// Moves the lists that begin below `top`, by number.
#[tactic(auto, unfolding(crate::specs::Model::moved_low, plain::specs::Turns::times))]
pub fn move_low(m: &mut Memory, top: usize, start: usize) -> usize
    requires { start < 2 ^ 63 }
    ensures moved { heap (space m.new).lists (space m.new).scratch result
        ≡ moved_low (space m.old).n top (space m.old).n (heap (space m.old).lists (space m.old).scratch start) }
    ensures size { SameSize (space m.old) (space m.new) }
    ensures small { result < 2 ^ 63 }
{
    let n = m.columns();
    let mut end = start;
    for j in 0..n {
        end = move_one(m, top, j, end);
    }
    end
}

// Moves the list of the object that the table has at `t`.
#[tactic(auto, unfolding(crate::specs::Model::moved_next))]
pub fn move_next(m: &mut Memory, top: usize, t: usize, end: usize) -> usize
    requires { end < 2 ^ 63 }
    ensures moved { heap (space m.new).lists (space m.new).scratch result
        ≡ moved_next (space m.old).n top t (heap (space m.old).lists (space m.old).scratch end) }
    ensures size { SameSize (space m.old) (space m.new) }
    ensures small { result < 2 ^ 63 }
{
    let j = m.rd(Field::Ord, t);
    move_one(m, top, j, end)
}

// Moves the lists of the first `cnt` objects of the table that begin below `top`.
#[tactic(auto, unfolding(crate::specs::Model::moved_new, plain::specs::Turns::times))]
pub fn move_new(m: &mut Memory, top: usize, cnt: usize, start: usize) -> usize
    requires { start < 2 ^ 63 }
    ensures moved { heap (space m.new).lists (space m.new).scratch result
        ≡ moved_new (space m.old).n top cnt (heap (space m.old).lists (space m.old).scratch start) }
    ensures size { SameSize (space m.old) (space m.new) }
    ensures small { result < 2 ^ 63 }
{
    let mut end = start;
    for t in 0..cnt {
        end = move_next(m, top, t, end);
    }
    end
}

// The collection: the lists that begin below `base`, by number, then those of the table.
#[tactic(auto, unfolding(crate::specs::Model::packed_low, crate::specs::Model::packed_all))]
pub fn collect(m: &mut Memory, e: Extent) -> Ends
    ensures base { result.base ≡ (packed_low (space m.old).n e.base (space m.old).lists (space m.old).scratch).end }
    ensures packed { heap (space m.new).lists (space m.new).scratch result.end
        ≡ packed_all (space m.old).n e.base e.free e.made (space m.old).lists (space m.old).scratch }
    ensures size { SameSize (space m.old) (space m.new) }
{
    let low = move_low(m, e.base, 0);
    let end = move_new(m, e.free, e.made, low);
    Ends { base: low, end }
}

// ---- a list laid at a place

// The first numbers of the scratch table, copied to a part, as far as it is there.
#[tactic(auto, unfolding(crate::specs::Model::laid, plain::specs::Turns::times))]
pub fn lay(lists: &mut [i64], s: &[i64], n: usize, part: Part)
    requires { Room n s.now × Rows n lists.old × Tabled n s.now part.len }
    ensures { (lists.new ≡ laid n s.now part.from part.len lists.old) × Rows n lists.new }
{
    let there = cells::clip(lists.len(), part);
    for t in 0..there {
        // Without a test, so that the compiler moves several at a time.
        let x = cells::get(s, n, TMP, t);
        cells::put_row(lists, n, part.from + t, x);
    }
}

// Object `j` gets the first numbers of the scratch table as its list, in a part, and is the last of the order.
#[tactic(auto, unfolding(cells::specs::Space::space, crate::specs::Model::entered))]
pub fn enter(m: &mut Memory, cnt: usize, j: usize, part: Part)
    requires { (part.from < 2 ^ 63) × Tabled (space m.old).n (space m.old).scratch part.len × (j < (space m.old).n) }
    ensures lists { (space m.new).lists ≡ laid (space m.old).n (space m.old).scratch part.from part.len (space m.old).lists }
    ensures scratch { (space m.new).scratch ≡ entered (space m.old).n (space m.old).scratch cnt j part.from part.len }
    ensures size { SameSize (space m.old) (space m.new) }
{
    // So the row and the length fit a cell.
    prove!(j < m.columns());
    let fields = &mut *m.fields;
    lay(m.rows, fields, m.columns, part);
    m.set(Field::Pe, j, part.from);
    m.set(Field::Len, j, part.len);
    m.up(Field::Ord, cnt, j);
}

// ---- a gather: numbers go from lists into the scratch table and out of their degree lists, no list moving, so that the list space is shared

// How many places there are, `quota`, goes beside it: the models (`counted`, `took`) and the theorems on them take the two apart.
// The numbers in the table, the entries read, and how many had been read with the entry that found no place: 0 where each found one. No Option: `counted` and
// `made_room` of specs/, and the theorems on them, read 0 so, and a view that maps None to 0 is not one to one.
// That the table has a cell for each row still wanted (`Tabled`) stays a clause: it ties a tray to the memory, and a type for it would hold the memory.
#[derive(Clone, Copy, Default)]
pub struct Tray {
    pub cnt: usize,
    pub reads: usize,
    pub mark: usize,
}

// An entry is collected, with which `reads` are read.
#[tactic(auto, unfolding(crate::specs::Tray::counted))]
pub fn count(quota: usize, reads: usize, t: Tray) -> Tray
    requires { t.cnt < 2 ^ 63 }
    ensures { result ≡ counted quota reads t }
{
    Tray {
        cnt: t.cnt + 1,
        reads,
        mark: if t.cnt == quota { reads } else { t.mark },
    }
}

// The entry `x`, with which `reads` are read, goes into the table, which has a cell for it beside those of the rows that are still wanted, and leaves its
// degree list.
#[tactic(auto, unfolding(crate::specs::Tray::took_row))]
pub fn take_row(s: &mut [i64], n: usize, x: usize, quota: usize, reads: usize, t: Tray) -> Tray
    requires { Room n s.old × (x < n) × (t.cnt + wanted n s.old < n) × Tabled n s.old t.cnt }
    ensures took { taking s.new result ≡ took_row n quota x reads (taking s.old t) }
    ensures room { Room n s.new }
    ensures table { Tabled n s.new result.cnt }
{
    cells::set(s, n, TMP, t.cnt, x);
    chain::take_out(s, n, x);
    count(quota, reads, t)
}

// Reads the entry `x`: if it is wanted, it is collected, and wanted no more. So the table has a cell for it, whatever was read before.
#[tactic(auto, unfolding(crate::specs::Tray::took, crate::specs::Tray::passed_by, cells::specs::View::wrapped))]
pub fn take_one(s: &mut [i64], n: usize, x: usize, quota: usize, t: Tray) -> Tray
    requires { Room n s.old × (x < n) × Tabled n s.old t.cnt }
    ensures took { taking s.new result ≡ took n quota x (taking s.old t) }
    ensures room { Room n s.new }
    ensures table { Tabled n s.new result.cnt }
{
    let w = cells::get(s, n, Field::Want, x);
    let reads = t.reads.wrapping_add(1);
    if 0 < w {
        cells::set(s, n, Field::Want, x, 0);
        take_row(s, n, x, quota, reads, t)
    } else {
        Tray { reads, ..t }
    }
}

// The same of the number in cell `q` of the lists.
pub fn take_at(lists: &[i64], s: &mut [i64], n: usize, q: usize, quota: usize, t: Tray) -> Tray
    requires { Room n s.old × Rows n lists.now × (q < length lists.now) × Tabled n s.old t.cnt }
    ensures took { taking s.new result ≡ took n quota (at lists.now q) (taking s.old t) }
    ensures room { Room n s.new }
    ensures table { Tabled n s.new result.cnt }
{
    let x = cells::row(lists, n, q);
    take_one(s, n, x, quota, t)
}

// The same of each number of a part of the list space, as far as it is there.
#[tactic(auto, unfolding(crate::specs::Tray::took_part, plain::specs::Turns::times))]
pub fn take_part(
    lists: &[i64],
    s: &mut [i64],
    n: usize,
    part: Part,
    quota: usize,
    start: Tray,
) -> Tray
    requires { Room n s.old × Rows n lists.now × Tabled n s.old start.cnt }
    ensures took { taking s.new result ≡ took_part n quota lists.now part.from part.len (taking s.old start) }
    ensures room { Room n s.new }
    ensures table { Tabled n s.new result.cnt }
{
    let there = cells::clip(lists.len(), part);
    let mut t = start;
    for i in 0..there {
        t = take_at(lists, s, n, part.from + i, quota, t);
    }
    t
}

// Element `e` is no more: `me` took it up, and it has no list.
#[tactic(auto, unfolding(crate::specs::Tray::absorbed))]
pub fn absorb(s: &mut [i64], n: usize, me: usize, e: usize)
    requires { Room n s.old × (e < n) }
    ensures { (s.new ≡ absorbed n me e s.old) × Room n s.new }
{
    cells::set(s, n, Field::W, e, 0);
    cells::set(s, n, Field::Len, e, 0);
    cells::set_parent(s, n, e, Some(me));
}

// Reads the number of element `e`, which `me` takes up, and then what was its list.
#[tactic(auto, unfolding(crate::specs::Tray::took_element, crate::specs::Tray::passed_by, cells::specs::View::wrapped))]
pub fn take_element(
    lists: &[i64],
    s: &mut [i64],
    n: usize,
    me: usize,
    e: usize,
    quota: usize,
    t: Tray,
) -> Tray
    requires { Room n s.old × Rows n lists.now × (e < n) × Tabled n s.old t.cnt }
    ensures took { taking s.new result ≡ took_element n me quota lists.now e (taking s.old t) }
    ensures room { Room n s.new }
    ensures table { Tabled n s.new result.cnt }
{
    let list = Part {
        from: cells::get(s, n, Field::Pe, e),
        len: cells::get(s, n, Field::Len, e),
    };
    absorb(s, n, me, e);
    let reads = t.reads.wrapping_add(1);
    take_part(lists, s, n, list, quota, Tray { reads, ..t })
}

// The same of each of the elements whose numbers are in a part of the list space, as far as it is there.
#[tactic(auto, unfolding(crate::specs::Tray::took_elements, plain::specs::Turns::times))]
pub fn take_elements(
    lists: &[i64],
    s: &mut [i64],
    n: usize,
    me: usize,
    part: Part,
    quota: usize,
    start: Tray,
) -> Tray
    requires { Room n s.old × Rows n lists.now × Tabled n s.old start.cnt }
    ensures took { taking s.new result ≡ took_elements n me quota lists.now part.from part.len (taking s.old start) }
    ensures room { Room n s.new }
    ensures table { Tabled n s.new result.cnt }
{
    let there = cells::clip(lists.len(), part);
    let mut t = start;
    for i in 0..there {
        let e = cells::row(lists, n, part.from + i);
        t = take_element(lists, s, n, me, e, quota, t);
    }
    t
}

// The part of the list of `me` behind its elements.
#[tactic(auto, unfolding(crate::specs::Tray::own_part))]
pub fn own_part(s: &[i64], n: usize, me: usize) -> Part
    requires { Room n s.now × (me < n) }
    ensures { (result ≡ own_part n s.now me) × (result.from < 2 ^ 63) × (result.len < 2 ^ 63) }
{
    let p = cells::get(s, n, Field::Pe, me);
    let k = cells::get(s, n, Field::Elen, me);
    let len = cells::get(s, n, Field::Len, me);
    Part {
        from: cells::plus(p, k),
        len: len.saturating_sub(k),
    }
}

// Reads the lists of the elements of `me` in order, which it takes up, and then its own variables.
#[tactic(auto, using(crate::proofs::Tables::tabled_none), unfolding(crate::specs::Tray::took_all, crate::specs::Tray::took_own))]
pub fn take_all(lists: &[i64], s: &mut [i64], n: usize, me: usize, quota: usize) -> Tray
    requires { Room n s.old × Rows n lists.now × (me < n) }
    ensures took { taking s.new result ≡ took_all n quota lists.now s.old me }
    ensures room { Room n s.new }
    ensures table { Tabled n s.new result.cnt }
    ensures small { result.cnt < 2 ^ 63 }
{
    let elements = Part {
        from: cells::get(s, n, Field::Pe, me),
        len: cells::get(s, n, Field::Elen, me),
    };
    let t = take_elements(lists, s, n, me, elements, quota, Tray::default());
    let own = own_part(s, n, me);
    take_part(lists, s, n, own, quota, t)
}

// ---- the new element's place

// A collection of what is left. The end is where it stands in the middle of the reading: the entries that are not read yet still have their cells.
#[tactic(auto, unfolding(crate::specs::Gather::collected_rest))]
pub fn collect_rest(m: &mut Memory, e: Extent, t: Tray) -> Ends
    ensures cleared { cleared (space m.new).lists (space m.new).scratch result
        ≡ collected_rest (space m.old).n e.base e.free e.made t (space m.old).lists (space m.old).scratch }
    ensures size { SameSize (space m.old) (space m.new) }
{
    let ends = collect(m, e);
    let unread = t.reads.saturating_sub(t.mark);
    let rest = m.clip(Part {
        from: ends.end,
        len: unread,
    });
    Ends {
        end: ends.end + rest,
        ..ends
    }
}

// `me`, which was read, has no list any more; a collection follows if the reading met the end of the room.
#[tactic(auto, unfolding(crate::specs::Gather::made_room))]
pub fn make_room(m: &mut Memory, me: usize, e: Extent, t: Tray) -> Ends
    requires { (me < (space m.old).n) × (e.free < 2 ^ 63) }
    ensures cleared { cleared (space m.new).lists (space m.new).scratch result
        ≡ made_room (space m.old).n me e.base e.free e.made t (space m.old).lists (space m.old).scratch }
    ensures size { SameSize (space m.old) (space m.new) }
{
    m.set(Field::Len, me, 0);
    if 0 < t.mark {
        collect_rest(m, e, t)
    } else {
        Ends {
            base: e.base,
            end: e.free,
        }
    }
}

// A new element: its place and length, the free end behind it, and how many collections happened, 0 or 1. That is no bool: it is a count that is added, as
// `summed` of specs/ and the theorems of `opening` and `standing` read it. All but `base` are numbers of a cell.
#[derive(Clone, Copy)]
pub struct Made {
    pub start: usize,
    pub count: usize,
    pub free: usize,
    pub base: usize,
    pub made: usize,
    pub collected: usize,
}

impl Model for Made {
    ghost use Rattle.packed.specs.Made.{Arrival, Brief};

    ghost Value = { Arrival };

    ghost view = { λ r. record { start = r.start; count = r.count; free = r.free; base = r.base; made = r.made; collected = r.collected } };

    ghost invariant = { λ r. Brief (record { start = r.start; count = r.count; free = r.free; base = r.base; made = r.made; collected = r.collected }) };

    ghost inverse = { λ a. record { start = a.start; count = a.count; free = a.free; base = a.base; made = a.made; collected = a.collected } };
}

// The numbers that a gather leaves.
#[tactic(auto, unfolding(crate::specs::Gather::summed))]
pub fn summed(ends: Ends, t: Tray, made: usize) -> Made
    requires { (t.cnt < 2 ^ 63) × (made < 2 ^ 63) }
    ensures { result ≡ summed ends t made }
{
    Made {
        start: ends.end,
        count: t.cnt,
        free: cells::plus(ends.end, t.cnt),
        base: ends.base,
        made: cells::plus(made, 1),
        collected: if 0 < t.mark { 1 } else { 0 },
    }
}

// The list of the new element `me`, from the lists of its elements in order and its own variables, stored behind all others.
#[tactic(auto, unfolding(cells::specs::Space::space, crate::specs::Gather::gathered_outside, crate::specs::Gather::settled))]
pub fn gather_outside(m: &mut Memory, me: usize, e: Extent) -> Made
    requires { (me < (space m.old).n) × (e.free < 2 ^ 63) × (e.made < 2 ^ 63) }
    ensures gathered { outside (space m.new).lists (space m.new).scratch result
        ≡ gathered_outside (space m.old).n me e.base e.free e.made (space m.old).lists (space m.old).scratch }
    ensures size { SameSize (space m.old) (space m.new) }
{
    let quota = m.size().saturating_sub(e.free);
    let rows = &mut *m.rows;
    let t = take_all(rows, m.fields, m.columns, me, quota);
    let ends = make_room(m, me, e, t);
    let list = Part {
        from: ends.end,
        len: t.cnt,
    };
    enter(m, e.made, me, list);
    summed(ends, t, e.made)
}

// The list of the new element `me`, which has no elements, from its own variables, in its own place. The result is its length.
#[tactic(auto, using(crate::proofs::Tables::tabled_none), unfolding(cells::specs::Space::space, crate::specs::Gather::gathered_inside, crate::specs::Gather::replaced))]
pub fn gather_in_place(m: &mut Memory, me: usize) -> usize
    requires { me < (space m.old).n }
    ensures gathered { inside (space m.new).lists (space m.new).scratch result ≡ gathered_inside (space m.old).n me (space m.old).lists (space m.old).scratch }
    ensures size { SameSize (space m.old) (space m.new) }
    ensures small { result < 2 ^ 63 }
{
    let list = Part {
        from: m.get(Field::Pe, me),
        len: m.get(Field::Len, me),
    };
    let rows = &mut *m.rows;
    let t = take_part(rows, m.fields, m.columns, list, list.len, Tray::default());
    let fields = &mut *m.fields;
    lay(m.rows, fields, m.columns, Part { len: t.cnt, ..list });
    m.set(Field::Len, me, t.cnt);
    t.cnt
}

// ---- a row that goes to another

// Row `row` goes to `to`: its weight, which is the result. It has no list any more, hangs from `to`, and is number `logged` of the log.
#[tactic(auto, unfolding(crate::specs::Model::joined_row))]
pub fn join(m: &mut Memory, to: usize, row: usize, logged: usize) -> usize
    requires taker { to < (space m.old).n }
    requires taken { row < (space m.old).n }
    ensures weight { result ≡ rd (space m.old).n NV (space m.old).scratch row }
    ensures small { result < 2 ^ 63 }
    ensures joined { space m.new ≡ record (space m.old) { scratch = joined_row (space m.old).n to row logged (space m.old).scratch } }
{
    let weight = m.get(Field::Nv, row);
    let held = m.get(Field::Nv, to);
    m.set(Field::Nv, to, cells::plus(held, weight));
    m.set(Field::Nv, row, 0);
    m.set(Field::Len, row, 0);
    m.set_parent(row, Some(to));
    m.up(Field::Merges, logged, row);
    weight
}
