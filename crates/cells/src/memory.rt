ghost use Rattle.std.specs.Prelude.{◌≡◌, ◌+◌, ◌-◌, ◌*◌, ◌<◌, ◌≤◌, ◌^◌, false, length, replicate, pos, get_or, set, unwrap_or, MatchOption, IfSome};
ghost use Rattle.std.specs.Int.Signed.{mag};
ghost use Rattle.std.proofs.Math.Option.{none, some};
ghost use Rattle.plain.specs.Turns.{times};
ghost use Rattle.cells.specs.Layout.{COLUMN, ENTRY};
ghost use Rattle.cells.specs.View.{Room, at, wr, rd, up, negative, place};
ghost use Rattle.cells.specs.Rows.{Rows, clipped};
ghost use Rattle.cells.specs.Links.{flipped, coded, decoded, named, parent, hang};
ghost use Rattle.cells.specs.Field.{field_number};
ghost use Rattle.cells.specs.Space.{space, Fits};

use crate::field::Field;
use crate::workspaces::Memory;
use crate::{Part, clear, clip, copy_row, natural, poke_row, put_row, row};

// ---- a cell of a slice

// The number in cell `i`; a negative one counts as 0.
#[tactic(auto, unfolding(crate::specs::View::at))]
fn load(l: &[i64], i: usize) -> usize
    requires { i < length l.now }
    ensures { (result ≡ at l.now i) × (result < 2 ^ 63) }
{
    natural(l[i])
}

// The number in cell `i`, which is not negative.
#[tactic(auto, unfolding(crate::specs::View::at, crate::specs::View::negative))]
pub(crate) fn fetch(l: &[i64], i: usize) -> usize
    requires { (i < length l.now) × (negative l.now i ≡ false) }
    ensures { (result ≡ at l.now i) × (result < 2 ^ 63) }
{
    let x = l[i];
    x as usize
}

// Cell `i` becomes `v`.
#[tactic(auto, unfolding(crate::specs::View::wr))]
pub(crate) fn store(l: &mut [i64], i: usize, v: usize)
    requires { (i < length l.old) × (v < 2 ^ 63) }
    ensures { l.new ≡ wr l.old i v }
{
    l[i] = v as i64;
}

// The number in cell `i`; 0 where there is no such cell.
#[tactic(auto, unfolding(crate::specs::View::at))]
pub(crate) fn peek(l: &[i64], i: usize) -> usize
    ensures { (result ≡ at l.now i) × (result < 2 ^ 63) }
{
    if i < l.len() { load(l, i) } else { 0 }
}

// Cell `i` becomes `v`; nothing is done where there is no such cell.
#[tactic(auto, unfolding(crate::specs::View::wr))]
pub(crate) fn poke(l: &mut [i64], i: usize, v: usize)
    requires { v < 2 ^ 63 }
    ensures { l.new ≡ wr l.old i v }
{
    if i < l.len() {
        store(l, i, v);
    }
}

// Cell `i` as it is.
fn signed(l: &[i64], i: usize) -> i64
    requires { i < length l.now }
    ensures { result ≡ get_or l.now i (pos 0) }
{
    l[i]
}

// Cell `i` becomes `x` as it is.
fn store_signed(l: &mut [i64], i: usize, x: i64)
    requires { i < length l.old }
    ensures { l.new ≡ set l.old i x }
{
    l[i] = x;
}

// ---- a field's cell

// The number of a field: a cast is the language's own conversion of an enum without fields.
fn number(field: Field) -> usize
    ensures { result ≡ field_number field }
{
    field as usize
}

// The cell of a field of node `i`.
#[tactic(auto, using(crate::proofs::Spaces::field_small), unfolding(crate::specs::View::place))]
fn place(field: Field, n: usize, i: usize) -> usize
    requires { (i < n) × (16 * n + 16 < 2 ^ 60) }
    ensures { (result ≡ place n (field_number field) i) × (result < 16 * n + 16) }
{
    let number = number(field);
    if number < 8 {
        8 * i + number
    } else {
        number * n + i
    }
}

// ---- the signed coding of parent links

// No parent: the Rust's signed coding is a rule of the project.
const EMPTY: i64 = -1;

// -x - 2, a negation about EMPTY; written so that it fits for every number but the largest.
fn flip(x: i64) -> i64
    requires { mag (flipped x) < 2 ^ 63 }
    ensures { result ≡ flipped x }
{
    -2 - x
}

// The code of a parent; EMPTY where there is none below `n`.
fn code_of(n: usize, p: Option<usize>) -> i64
    requires { n < 2 ^ 62 }
    ensures { result ≡ coded (named n (unwrap_or p n)) }
{
    match p {
        Some(p) if p < n => flip(p as i64),
        _ => EMPTY,
    }
}

// The parent that a cell names.
fn link_of(x: i64) -> Option<usize>
    ensures named { MatchOption result (decoded x ≡ none) (λ p. decoded x ≡ some p) }
    ensures small { IfSome result (λ p. p < 2 ^ 63) }
{
    if x < EMPTY {
        Some(flip(x) as usize)
    } else {
        None
    }
}

// ---- the fields of a scratch, over the slice alone: `Memory` has them as methods

// The field of node `i`. Of all fields PE alone may have a negative cell.
#[tactic(auto, using(crate::proofs::Spaces::field_small, crate::proofs::Spaces::field_above, crate::proofs::Steps::field_calm), unfolding(crate::specs::View::rd, crate::specs::View::within))]
pub fn get(s: &[i64], n: usize, field: Field, i: usize) -> usize
    requires { (i < n) × Room n s.now }
    ensures { (result ≡ rd n (field_number field) s.now i) × (result < 2 ^ 63) }
{
    let cell = place(field, n, i);
    match field {
        Field::Pe => load(s, cell),
        _ => fetch(s, cell),
    }
}

// The field of node `i` becomes `v`.
#[tactic(auto, using(crate::proofs::Spaces::field_small, crate::proofs::Steps::room_field), unfolding(crate::specs::View::up, crate::specs::View::within))]
pub fn set(s: &mut [i64], n: usize, field: Field, i: usize, v: usize)
    requires { (i < n) × Room n s.old × (v < 2 ^ 63) }
    ensures { (s.new ≡ up n (field_number field) s.old i v) × Room n s.new }
{
    store(s, place(field, n, i), v);
}

// The field of node `i`; 0 where `i` is not below `n`.
#[tactic(auto, using(crate::proofs::Spaces::field_small), unfolding(crate::specs::View::rd, crate::specs::View::within))]
pub fn rd(s: &[i64], n: usize, field: Field, i: usize) -> usize
    requires { Room n s.now }
    ensures { (result ≡ rd n (field_number field) s.now i) × (result < 2 ^ 63) }
{
    if n <= i {
        return 0;
    }
    get(s, n, field, i)
}

// The field of node `i` becomes `v`; nothing is done where `i` is not below `n`.
#[tactic(auto, using(crate::proofs::Spaces::field_small), unfolding(crate::specs::View::up, crate::specs::View::within))]
pub fn up(s: &mut [i64], n: usize, field: Field, i: usize, v: usize)
    requires { Room n s.old × (v < 2 ^ 63) }
    ensures { (s.new ≡ up n (field_number field) s.old i v) × Room n s.new }
{
    if i < n {
        set(s, n, field, i, v);
    }
}

// The pointer of column `k`; 0 where `k` is above `n`.
#[tactic(auto, using(crate::proofs::Steps::column_calm), unfolding(crate::specs::View::rd, crate::specs::View::within, crate::specs::View::place))]
pub fn column(s: &[i64], n: usize, k: usize) -> usize
    requires { Room n s.now }
    ensures { (result ≡ rd n COLUMN s.now k) × (result < 2 ^ 63) }
{
    if k <= n { fetch(s, 15 * n + k) } else { 0 }
}

// The pointer of column `k` becomes `v`; nothing is done where `k` is above `n`.
#[tactic(auto, using(crate::proofs::Steps::room_column), unfolding(crate::specs::View::up, crate::specs::View::within, crate::specs::View::place))]
pub fn put_column(s: &mut [i64], n: usize, k: usize, v: usize)
    requires { Room n s.old × (v < 2 ^ 63) }
    ensures { (s.new ≡ up n COLUMN s.old k v) × Room n s.new }
{
    if k <= n {
        store(s, 15 * n + k, v);
    }
}

// Row `p` of the pattern; 0 where there is no room for it.
#[tactic(auto, using(crate::proofs::Steps::entry_calm), unfolding(crate::specs::View::rd, crate::specs::View::within, crate::specs::View::place, crate::specs::View::at))]
pub fn entry(s: &[i64], n: usize, p: usize) -> usize
    requires { Room n s.now }
    ensures { (result ≡ rd n ENTRY s.now p) × (result < 2 ^ 63) }
{
    let from = 16 * n + 16;
    if p < s.len() - from {
        fetch(s, from + p)
    } else {
        0
    }
}

// Row `p` of the pattern becomes `v`; nothing is done where there is no room for it.
#[tactic(auto, using(crate::proofs::Steps::room_entry), unfolding(crate::specs::View::up, crate::specs::View::within, crate::specs::View::place, crate::specs::View::wr))]
pub fn put_entry(s: &mut [i64], n: usize, p: usize, v: usize)
    requires { Room n s.old × (v < 2 ^ 63) }
    ensures { (s.new ≡ up n ENTRY s.old p v) × Room n s.new }
{
    let from = 16 * n + 16;
    if p < s.len() - from {
        store(s, from + p, v);
    }
}

// The parent of object `i`.
#[tactic(auto, unfolding(crate::specs::Links::parent, crate::specs::View::place))]
pub fn parent(s: &[i64], n: usize, i: usize) -> Option<usize>
    requires { Room n s.now }
    ensures named { MatchOption result (parent n s.now i ≡ none) (λ p. parent n s.now i ≡ some p) }
    ensures small { IfSome result (λ p. p < 2 ^ 63) }
{
    if i < n {
        link_of(signed(s, 8 * i))
    } else {
        None
    }
}

// Object `i` gets the parent `p`, or none where `p` is not below `n`.
#[tactic(auto, unfolding(crate::specs::Links::hang, crate::specs::View::place))]
pub fn set_parent(s: &mut [i64], n: usize, i: usize, p: Option<usize>)
    requires { Room n s.old × (i < n) }
    ensures { (s.new ≡ hang n s.old i (named n (unwrap_or p n))) × Room n s.new }
{
    store_signed(s, 8 * i, code_of(n, p));
}

// The same; nothing is done where `i` is not below `n`.
#[tactic(auto, unfolding(crate::specs::Links::hang))]
pub fn put_parent(s: &mut [i64], n: usize, i: usize, p: Option<usize>)
    requires { Room n s.old }
    ensures { (s.new ≡ hang n s.old i (named n (unwrap_or p n))) × Room n s.new }
{
    if i < n {
        set_parent(s, n, i, p);
    }
}

impl<'a, 'b> Memory<'a, 'b> {
    /// Over both workspaces as they are: whatever functions on slices took, a memory can hold.
    #[tactic(auto, unfolding(crate::specs::Space::space))]
    pub fn over(columns: usize, lists: &'a mut [i64], scratch: &'b mut [i64]) -> Self
        requires room { Room columns scratch.old }
        requires rows { Rows columns lists.old }
        ensures { space result ≡ record { n = columns; lists = lists.old; scratch = scratch.old; names = (lists.entry.ghost_name, scratch.entry.ghost_name) } }
    {
        Memory {
            columns,
            rows: lists,
            fields: scratch,
        }
    }

    /// Over both workspaces, cleared, whatever they were lent with.
    #[tactic(auto, using(crate::proofs::Fields::room_cleared, crate::proofs::Rows::rows_cleared), unfolding(crate::specs::Space::space))]
    pub fn new(columns: usize, lists: &'a mut [i64], scratch: &'b mut [i64]) -> Self
        requires some { 0 < columns }
        requires room { 16 * columns + 16 ≤ length scratch.old }
        ensures cleared { space result ≡ record {
          n = columns;
          lists = replicate (length lists.old) (pos 0);
          scratch = replicate (length scratch.old) (pos 0);
          names = (lists.entry.ghost_name, scratch.entry.ghost_name);
        } }
        ensures fits { Fits (space result) }
    {
        clear(lists);
        clear(scratch);
        Self::over(columns, lists, scratch)
    }

    /// Both workspaces, given back: what they hold is known behind these alone. Where it is to be known of the slices that were lent, the memory is taken apart
    /// where it stands: `let Memory { columns: _, rows, fields } = m;`.
    #[tactic(auto, unfolding(crate::specs::Space::space))]
    pub fn into_parts(self) -> (&'a mut [i64], &'b mut [i64])
        ensures lists { result.0.now ≡ (space self.entry).lists }
        ensures scratch { result.1.now ≡ (space self.entry).scratch }
        ensures fits { Fits (space self.entry) }
    {
        let Memory {
            columns: _,
            rows,
            fields,
        } = self;
        (rows, fields)
    }

    /// The number of columns, with what is true of every memory.
    #[tactic(auto, unfolding(crate::specs::Space::space))]
    pub fn columns(&self) -> usize
        ensures value { result ≡ (space self.now).n }
        ensures small { result < 2 ^ 56 }
        ensures fits { Fits (space self.now) }
    {
        self.columns
    }

    // ---- rows in the list space

    /// How many cells the list space has.
    #[tactic(auto, unfolding(crate::specs::Space::space))]
    pub fn size(&self) -> usize
        ensures { (result ≡ length (space self.now).lists) × (result < 2 ^ 60) }
    {
        self.rows.len()
    }

    /// How many cells of a part are there: a loop over them asks once, and counts, since rows are read while fields are stored.
    #[tactic(auto, unfolding(crate::specs::Space::space))]
    pub fn clip(&self, part: Part) -> usize
        ensures clipped { result ≡ clipped (length (space self.now).lists) part.from part.len }
        ensures within { (result ≤ part.len) × (result ≤ length (space self.now).lists - part.from) }
        ensures bound { length (space self.now).lists < 2 ^ 60 }
    {
        clip(self.rows.len(), part)
    }

    /// The row in cell `q`.
    #[tactic(auto, unfolding(crate::specs::Space::space))]
    pub fn row(&self, q: usize) -> usize
        requires { q < length (space self.now).lists }
        ensures read { (result ≡ at (space self.now).lists q) × (result < (space self.now).n) × (result < 2 ^ 63) }
        ensures bound { (space self.now).n < 2 ^ 56 }
    {
        row(self.rows, self.columns, q)
    }

    /// Cell `q` becomes row `v`.
    #[tactic(auto, unfolding(crate::specs::Space::space))]
    pub fn put_row(&mut self, q: usize, v: usize)
        requires { (q < length (space self.old).lists) × (v < (space self.old).n) }
        ensures put { space self.new ≡ record (space self.old) { lists = wr (space self.old).lists q v } }
        ensures size { length (space self.new).lists ≡ length (space self.old).lists }
    {
        put_row(self.rows, self.columns, q, v);
    }

    /// The same; nothing is done where there is no such cell.
    #[tactic(auto, unfolding(crate::specs::Space::space))]
    pub fn poke_row(&mut self, q: usize, v: usize)
        requires { v < (space self.old).n }
        ensures put { space self.new ≡ record (space self.old) { lists = wr (space self.old).lists q v } }
        ensures size { length (space self.new).lists ≡ length (space self.old).lists }
    {
        poke_row(self.rows, self.columns, q, v);
    }

    /// Cell `e` becomes what cell `p` is.
    #[tactic(auto, unfolding(crate::specs::Space::space))]
    pub fn copy_row(&mut self, p: usize, e: usize)
        ensures put { space self.new ≡ record (space self.old) { lists = wr (space self.old).lists e (at (space self.old).lists p) } }
        ensures size { length (space self.new).lists ≡ length (space self.old).lists }
    {
        copy_row(self.rows, self.columns, p, e);
    }

    // ---- a field of the scratch

    /// The field of node `i`.
    #[tactic(auto, unfolding(crate::specs::Space::space))]
    pub fn get(&self, field: Field, i: usize) -> usize
        requires { i < (space self.now).n }
        ensures read { (result ≡ rd (space self.now).n (field_number field) (space self.now).scratch i) × (result < 2 ^ 63) }
        ensures bound { (space self.now).n < 2 ^ 56 }
    {
        get(self.fields, self.columns, field, i)
    }

    /// The field of node `i` becomes `v`.
    #[tactic(auto, unfolding(crate::specs::Space::space))]
    pub fn set(&mut self, field: Field, i: usize, v: usize)
        requires { (i < (space self.old).n) × (v < 2 ^ 63) }
        ensures { space self.new ≡ record (space self.old) { scratch = up (space self.old).n (field_number field) (space self.old).scratch i v } }
    {
        set(self.fields, self.columns, field, i, v);
    }

    /// The field of node `i`; 0 where `i` is not below `n`.
    #[tactic(auto, unfolding(crate::specs::Space::space))]
    pub fn rd(&self, field: Field, i: usize) -> usize
        ensures read { (result ≡ rd (space self.now).n (field_number field) (space self.now).scratch i) × (result < 2 ^ 63) }
        ensures bound { (space self.now).n < 2 ^ 56 }
    {
        rd(self.fields, self.columns, field, i)
    }

    /// The field of node `i` becomes `v`; nothing is done where `i` is not below `n`.
    #[tactic(auto, unfolding(crate::specs::Space::space))]
    pub fn up(&mut self, field: Field, i: usize, v: usize)
        requires { v < 2 ^ 63 }
        ensures { space self.new ≡ record (space self.old) { scratch = up (space self.old).n (field_number field) (space self.old).scratch i v } }
    {
        up(self.fields, self.columns, field, i, v);
    }

    /// The field of every node becomes `v`.
    #[tactic(auto, using(plain::proofs::Turns::turns), unfolding(crate::specs::Space::space))]
    pub fn fill(&mut self, field: Field, v: usize)
        requires { v < 2 ^ 63 }
        ensures { space self.new ≡ record (space self.old) {
          scratch = times (space self.old).n (λ i s. up (space self.old).n (field_number field) s i v) (space self.old).scratch;
        } }
    {
        for node in 0..self.columns {
            self.set(field, node, v);
        }
    }

    // ---- the cleaned pattern

    /// The pointer of column `k`; 0 where `k` is above `n`.
    #[tactic(auto, unfolding(crate::specs::Space::space))]
    pub fn column(&self, k: usize) -> usize
        ensures { (result ≡ rd (space self.now).n COLUMN (space self.now).scratch k) × (result < 2 ^ 63) }
    {
        column(self.fields, self.columns, k)
    }

    /// The pointer of column `k` becomes `v`; nothing is done where `k` is above `n`.
    #[tactic(auto, unfolding(crate::specs::Space::space))]
    pub fn put_column(&mut self, k: usize, v: usize)
        requires { v < 2 ^ 63 }
        ensures { space self.new ≡ record (space self.old) { scratch = up (space self.old).n COLUMN (space self.old).scratch k v } }
    {
        put_column(self.fields, self.columns, k, v);
    }

    /// Row `p` of the pattern; 0 where there is no room for it.
    #[tactic(auto, unfolding(crate::specs::Space::space))]
    pub fn entry(&self, p: usize) -> usize
        ensures { (result ≡ rd (space self.now).n ENTRY (space self.now).scratch p) × (result < 2 ^ 63) }
    {
        entry(self.fields, self.columns, p)
    }

    /// Row `p` of the pattern becomes `v`; nothing is done where there is no room for it.
    #[tactic(auto, unfolding(crate::specs::Space::space))]
    pub fn put_entry(&mut self, p: usize, v: usize)
        requires { v < 2 ^ 63 }
        ensures { space self.new ≡ record (space self.old) { scratch = up (space self.old).n ENTRY (space self.old).scratch p v } }
    {
        put_entry(self.fields, self.columns, p, v);
    }

    // ---- the signed coding of parent links

    /// The parent of object `i`.
    #[tactic(auto, unfolding(crate::specs::Space::space))]
    pub fn parent(&self, i: usize) -> Option<usize>
        ensures named { MatchOption result
            (parent (space self.now).n (space self.now).scratch i ≡ none) (λ p. parent (space self.now).n (space self.now).scratch i ≡ some p) }
        ensures small { IfSome result (λ p. p < 2 ^ 63) }
    {
        parent(self.fields, self.columns, i)
    }

    /// Object `i` gets the parent `p`, or none where `p` is not below `n`.
    #[tactic(auto, unfolding(crate::specs::Space::space))]
    pub fn set_parent(&mut self, i: usize, p: Option<usize>)
        requires { i < (space self.old).n }
        ensures { space self.new ≡ record (space self.old) {
          scratch = hang (space self.old).n (space self.old).scratch i (named (space self.old).n (unwrap_or p (space self.old).n));
        } }
    {
        set_parent(self.fields, self.columns, i, p);
    }

    /// The same; nothing is done where `i` is not below `n`.
    #[tactic(auto, unfolding(crate::specs::Space::space))]
    pub fn put_parent(&mut self, i: usize, p: Option<usize>)
        ensures { space self.new ≡ record (space self.old) {
          scratch = hang (space self.old).n (space self.old).scratch i (named (space self.old).n (unwrap_or p (space self.old).n));
        } }
    {
        put_parent(self.fields, self.columns, i, p);
    }
}
