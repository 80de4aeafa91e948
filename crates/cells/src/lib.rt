// The memory of the ordering: cells of lent slices, read and written as unsigned numbers. The Rust's vectors are fields of the one scratch slice; where each
// lies is known here alone. Where a caller shows no index, a read outside gives 0 and a store outside does nothing. The null link is n.
// A number of a cell is below 2 ^ 63, and contracts say so where one is stored; a type for it would wrap each index, sum and comparison, and be no plainer.
#![tactic(auto)]

ghost use Rattle.std.specs.Prelude.{◌≡◌, ◌-◌, ◌<◌, ◌≤◌, ◌^◌, length, replicate, pos};
ghost use Rattle.cells.specs.Rows.{Rows, clipped};
ghost use Rattle.cells.specs.View.{nat, at, wr, plus, negative};

pub use field::{Field, LARGEST, SIBLING, SP, STACK, TMP, TP};
pub use memory::{
    column, entry, get, parent, put_column, put_entry, put_parent, rd, set, set_parent, up,
};
pub use workspaces::Memory;

mod field;
mod memory;
mod workspaces;

// A part of the list space.
#[derive(Clone, Copy)]
pub struct Part {
    pub from: usize,
    pub len: usize,
}

// ---- slices; `row_at` and `put32` read and store 32-bit numbers as memory.rt's `peek` and `poke` do 64-bit ones: a trait for both would be longer than they
// are

// Every cell 0.
pub fn clear(l: &mut [i64])
    ensures { l.new ≡ replicate (length l.old) (pos 0) }
{
    l.fill(0);
}

// The number of a cell; a negative one counts as 0.
fn natural(x: i64) -> usize
    ensures { (result ≡ nat x) × (result < 2 ^ 63) }
{
    x.max(0) as usize
}

// Number `i` of the slice; a negative one counts as 0, and so does one past the end.
#[tactic(auto, unfolding(crate::specs::View::at))]
pub fn row_at(rows: &[i32], i: usize) -> usize
    ensures { (result ≡ at rows.now i) × (result < 2 ^ 31) }
{
    if i < rows.len() {
        natural(rows[i] as i64)
    } else {
        0
    }
}

// Is number `i` of the slice below 0?
#[tactic(auto, unfolding(crate::specs::View::negative))]
pub fn negative(rows: &[i32], i: usize) -> bool
    ensures { result ≡ negative rows.now i }
{
    if i < rows.len() { rows[i] < 0 } else { false }
}

// Number `i` of the slice becomes `v`; nothing is done past the end.
#[tactic(auto, unfolding(crate::specs::View::wr))]
pub fn put32(out: &mut [i32], i: usize, v: usize)
    requires { v < 2 ^ 31 }
    ensures { out.new ≡ wr out.old i v }
{
    if i < out.len() {
        out[i] = v as i32;
    }
}

// ---- rows in a list space, over the slice alone: `Memory` has them as methods

// The row in cell `q`.
#[tactic(auto, using(crate::proofs::Rows::rows_low, crate::proofs::Rows::rows_calm))]
pub fn row(l: &[i64], n: usize, q: usize) -> usize
    requires { Rows n l.now × (q < length l.now) }
    ensures { (result ≡ at l.now q) × (result < n) × (result < 2 ^ 63) }
{
    memory::fetch(l, q)
}

// Cell `q` becomes row `v`.
#[tactic(auto, using(crate::proofs::Rows::rows_wr))]
pub fn put_row(l: &mut [i64], n: usize, q: usize, v: usize)
    requires { Rows n l.old × (q < length l.old) × (v < n) × (v < 2 ^ 63) }
    ensures { (l.new ≡ wr l.old q v) × Rows n l.new }
{
    memory::store(l, q, v);
}

// The same; nothing is done where there is no such cell.
#[tactic(auto, using(crate::proofs::Rows::rows_wr))]
pub fn poke_row(l: &mut [i64], n: usize, q: usize, v: usize)
    requires { Rows n l.old × (v < n) × (v < 2 ^ 63) }
    ensures { (l.new ≡ wr l.old q v) × Rows n l.new }
{
    memory::poke(l, q, v);
}

// Cell `e` becomes what cell `p` is.
#[tactic(auto, using(crate::proofs::Rows::rows_copy))]
pub fn copy_row(l: &mut [i64], n: usize, p: usize, e: usize)
    requires { Rows n l.old }
    ensures { (l.new ≡ wr l.old e (at l.old p)) × Rows n l.new }
{
    let x = memory::peek(l, p);
    memory::poke(l, e, x);
}

// How many cells of a part are there, of `size` in all: a loop over them asks once, and counts, since rows are read while fields are stored.
#[tactic(auto, unfolding(crate::specs::Rows::clipped))]
pub fn clip(size: usize, part: Part) -> usize
    ensures { (result ≡ clipped size part.from part.len) × (result ≤ part.len) × (result ≤ size - part.from) }
{
    part.len.min(size.saturating_sub(part.from))
}

// ---- sums

// The sum, or the largest number that a cell holds.
#[tactic(auto, unfolding(crate::specs::View::plus))]
pub fn plus(a: usize, b: usize) -> usize
    ensures { (result ≡ plus a b) × (result < 2 ^ 63) }
{
    a.saturating_add(b).min(0x7fff_ffff_ffff_ffff)
}

// One more, or the largest number that a cell holds: of a number of a cell, so that it takes two instructions, in the loops over the pattern's entries.
#[tactic(auto, unfolding(crate::specs::View::plus))]
pub fn one_more(a: usize) -> usize
    requires { a < 2 ^ 63 }
    ensures { (result ≡ plus a 1) × (result < 2 ^ 63) }
{
    let c = a + 1;
    if c < 0x8000_0000_0000_0000 {
        c
    } else {
        0x7fff_ffff_ffff_ffff
    }
}
