// The pattern that is ordered, in the scratch (preprocess.rs), and A+A' in the list space (aat.rs and the first half of amd_1.rs). What the Rust counts first
// and writes then is here one pass, done twice: with every cursor at 0 it counts, and from each list's place it writes. What the first one stores is
// stored over.
// What both passes, of the cleaning and of the pairs, are made of is compiled in place (`inline(always)`): behind a pointer the parts of a memory would be read
// anew at each store, which doubles a pass.
#![tactic(auto)]

ghost use Rattle.std.specs.Prelude.{◌≡◌, ◌+◌, ◌<◌, ◌≤◌, ◌^◌};
ghost use Rattle.cells.specs.Rows.{Rows};
ghost use Rattle.cells.specs.View.{Room, rd};
ghost use Rattle.cells.specs.Space.{space, SameLists, SameSize};
ghost use Rattle.pattern.specs.Reach.{reach, behind, past};
ghost use Rattle.pattern.specs.Model.{copied_pointers, copied_rows, copied, cleared, cleared_all, rowed, visited, visited_column, visited_next, visited_all, spot, placed_row, placed_rows, transposed, tidied, heap, added, paired, paired_at, paired_part, passed, met, met_part, met_column, met_columns, met_rest, met_rests, scanned, emptied_all, placed_list, placed_lists, built, built_free};

use cells::{Field, Memory, SP, TP};

/// The pattern as it is lent: column `j` stands in the rows from pointer `j` up to pointer `j + 1`.
#[derive(Clone, Copy)]
pub struct Columns<'a> {
    pub pointers: &'a [i32],
    pub rows: &'a [i32],
}

// ---- an orderly pattern is copied as it is

#[tactic(auto, using(plain::proofs::Turns::turns), unfolding(crate::specs::Model::copied_pointers, crate::specs::Model::copied_pointer))]
pub fn copy_pointers(m: &mut Memory, pointers: &[i32])
    ensures { space m.new ≡ record (space m.old) { scratch = copied_pointers (space m.old).n pointers.now (space m.old).scratch } }
{
    for k in 0..=m.columns() {
        m.put_column(k, cells::row_at(pointers, k));
    }
}

#[tactic(auto, using(plain::proofs::Turns::turns), unfolding(crate::specs::Model::copied_rows, crate::specs::Model::copied_row))]
pub fn copy_rows(m: &mut Memory, rows: &[i32], count: usize)
    ensures { space m.new ≡ record (space m.old) { scratch = copied_rows (space m.old).n rows.now count (space m.old).scratch } }
{
    for p in 0..count {
        m.put_entry(p, cells::row_at(rows, p));
    }
}

#[tactic(auto, unfolding(crate::specs::Model::copied))]
pub fn copy(m: &mut Memory, pattern: Columns)
    ensures { space m.new ≡ record (space m.old) { scratch = copied (space m.old).n pattern.entry.pointers.now pattern.entry.rows.now (space m.old).scratch } }
{
    copy_pointers(m, pattern.pointers);
    let count = cells::row_at(pattern.pointers, m.columns());
    copy_rows(m, pattern.rows, count);
}

// ---- a jumbled one is transposed, without repeats

#[tactic(auto, unfolding(crate::specs::Model::cleared))]
pub fn clear_row(m: &mut Memory, i: usize)
    ensures { space m.new ≡ record (space m.old) { scratch = cleared (space m.old).n i (space m.old).scratch } }
{
    m.up(SP, i, 0);
    m.up(TP, i, 0);
}

#[tactic(auto, using(plain::proofs::Turns::turns), unfolding(crate::specs::Model::cleared_all))]
pub fn start_cleaning(m: &mut Memory)
    ensures { space m.new ≡ record (space m.old) { scratch = cleared_all (space m.old).n (space m.old).scratch } }
{
    for i in 0..m.columns() {
        clear_row(m, i);
    }
}

// Column `j` becomes the next entry of row `i`.
#[tactic(auto, unfolding(crate::specs::Model::rowed))]
pub fn write_row(m: &mut Memory, j: usize, i: usize)
    requires { j < (space m.old).n }
    ensures { space m.new ≡ record (space m.old) { scratch = rowed (space m.old).n j i (space m.old).scratch } }
{
    prove!(j < m.columns());
    let at = m.rd(SP, i);
    m.put_entry(at, j);
    m.up(SP, i, cells::one_more(at));
    m.up(TP, i, j + 1);
}

// The same where column `j` did not have row `i` before.
#[tactic(auto, unfolding(crate::specs::Model::visited))]
pub fn visit(m: &mut Memory, j: usize, i: usize)
    requires { j < (space m.old).n }
    ensures { space m.new ≡ record (space m.old) { scratch = visited (space m.old).n j i (space m.old).scratch } }
{
    prove!(j < m.columns());
    let last = m.rd(TP, i);
    if last != j + 1 {
        write_row(m, j, i);
    }
}

// By index, as in `copy_rows`, and no slice of the rows: a pointer may lie past their end, and the model is total, so that there the number is 0.
#[inline(always)]
#[tactic(auto, using(plain::proofs::Turns::turns), unfolding(crate::specs::Model::visited_column))]
pub fn visit_column(m: &mut Memory, rows: &[i32], j: usize, from: usize, count: usize)
    requires { (j < (space m.old).n) × (from < 2 ^ 63) × (count < 2 ^ 63) }
    ensures { space m.new ≡ record (space m.old) { scratch = visited_column (space m.old).n rows.now j from count (space m.old).scratch } }
{
    for t in 0..count {
        visit(m, j, cells::row_at(rows, from + t));
    }
}

#[inline(always)]
#[tactic(auto, unfolding(crate::specs::Model::visited_next))]
pub fn visit_next(m: &mut Memory, pattern: Columns, j: usize)
    requires { j < (space m.old).n }
    ensures { space m.new
        ≡ record (space m.old) { scratch = visited_next (space m.old).n pattern.entry.pointers.now pattern.entry.rows.now j (space m.old).scratch } }
{
    prove!(j < m.columns());
    let from = cells::row_at(pattern.pointers, j);
    let to = cells::row_at(pattern.pointers, j + 1);
    visit_column(m, pattern.rows, j, from, to.saturating_sub(from));
}

#[inline(always)]
#[tactic(auto, using(plain::proofs::Turns::turns), unfolding(crate::specs::Model::visited_all))]
pub fn visit_all(m: &mut Memory, pattern: Columns)
    ensures { space m.new
        ≡ record (space m.old) { scratch = visited_all (space m.old).n pattern.entry.pointers.now pattern.entry.rows.now (space m.old).scratch } }
{
    for j in 0..m.columns() {
        visit_next(m, pattern, j);
    }
}

// The place of row `i` is `free`; the result is the next free place. `place_list` is another function: what it stores differs, not a type or a size.
#[tactic(auto, unfolding(crate::specs::Model::placed_row))]
pub fn place_row(m: &mut Memory, i: usize, free: usize) -> usize
    requires { free < 2 ^ 63 }
    ensures memory { spot (space m.new).scratch result ≡ placed_row (space m.old).n i (spot (space m.old).scratch free) }
    ensures lists { SameLists (space m.old) (space m.new) }
    ensures small { result < 2 ^ 63 }
{
    let count = m.rd(SP, i);
    m.put_column(i, free);
    m.up(SP, i, free);
    m.up(TP, i, 0);
    cells::plus(free, count)
}

#[tactic(auto, using(plain::proofs::Turns::turns), unfolding(crate::specs::Model::placed_rows))]
pub fn place_rows(m: &mut Memory) -> usize
    ensures memory { spot (space m.new).scratch result ≡ placed_rows (space m.old).n (space m.old).scratch }
    ensures lists { SameLists (space m.old) (space m.new) }
    ensures small { result < 2 ^ 63 }
{
    let mut free = 0;
    for i in 0..m.columns() {
        free = place_row(m, i, free);
    }
    free
}

#[tactic(auto, unfolding(crate::specs::Model::transposed, crate::specs::Model::closed_rows))]
pub fn clean(m: &mut Memory, pattern: Columns)
    ensures { space m.new
        ≡ record (space m.old) { scratch = transposed (space m.old).n pattern.entry.pointers.now pattern.entry.rows.now (space m.old).scratch } }
{
    start_cleaning(m);
    visit_all(m, pattern);
    let free = place_rows(m);
    m.put_column(m.columns(), free);
    visit_all(m, pattern);
}

// `jumbled` is a bool: of the answers two are accepted, 1 and 0, and `tidied` takes which of them it is.
#[tactic(auto, unfolding(crate::specs::Model::tidied))]
pub fn tidy(m: &mut Memory, pattern: Columns, jumbled: bool)
    ensures { space m.new
        ≡ record (space m.old) { scratch = tidied (space m.old).n pattern.entry.pointers.now pattern.entry.rows.now jumbled (space m.old).scratch } }
{
    if jumbled {
        clean(m, pattern);
    } else {
        copy(m, pattern);
    }
}

// ---- the pairs of A+A', in the order of amd_1.rs

// `x` becomes the next neighbour of `i`.
#[tactic(auto, unfolding(crate::specs::Model::added))]
pub fn add(m: &mut Memory, i: usize, x: usize)
    requires { (i < (space m.old).n) × (x < (space m.old).n) }
    ensures memory { heap (space m.new).lists (space m.new).scratch ≡ added (space m.old).n i x (heap (space m.old).lists (space m.old).scratch) }
    ensures size { SameSize (space m.old) (space m.new) }
{
    let at = m.get(SP, i);
    m.poke_row(at, x);
    m.set(SP, i, cells::one_more(at));
}

#[tactic(auto, unfolding(crate::specs::Model::paired))]
pub fn add_pair(m: &mut Memory, i: usize, j: usize)
    requires { (i < (space m.old).n) × (j < (space m.old).n) }
    ensures memory { heap (space m.new).lists (space m.new).scratch ≡ paired (space m.old).n i j (heap (space m.old).lists (space m.old).scratch) }
    ensures size { SameSize (space m.old) (space m.new) }
{
    add(m, i, j);
    add(m, j, i);
}

// The entry of column `j` at `p`, if it is a row.
#[tactic(auto, unfolding(crate::specs::Model::paired_at))]
pub fn pair_at(m: &mut Memory, j: usize, p: usize)
    requires { j < (space m.old).n }
    ensures memory { heap (space m.new).lists (space m.new).scratch ≡ paired_at (space m.old).n j p (heap (space m.old).lists (space m.old).scratch) }
    ensures size { SameSize (space m.old) (space m.new) }
{
    let i = m.entry(p);
    if i < m.columns() {
        add_pair(m, i, j);
    }
}

// A scan goes from a place up to another: two numbers, of which its loop makes the range, and the first of which it hands on.
// The entries of column `j` from `from` on, before `to`.
#[inline(always)]
#[tactic(auto, using(plain::proofs::Turns::times_after), unfolding(crate::specs::Model::paired_part, plain::specs::Turns::times))]
pub fn pair_part(m: &mut Memory, j: usize, from: usize, to: usize)
    requires { j < (space m.old).n }
    ensures memory { heap (space m.new).lists (space m.new).scratch ≡ paired_part (space m.old).n j from to (heap (space m.old).lists (space m.old).scratch) }
    ensures size { SameSize (space m.old) (space m.new) }
{
    for p in from..to {
        pair_at(m, j, p);
    }
}

// The next place of a column, where row `i` stands at `p`, which is not above row `k`: one further, if it is row `k` itself.
#[tactic(auto, unfolding(crate::specs::Reach::behind))]
fn pass_row(i: usize, k: usize, p: usize) -> usize
    requires { p < 2 ^ 63 }
    ensures { (result ≡ behind i k p) × (result ≤ p + 1) }
{
    if i == k { p + 1 } else { p }
}

// The entries of column `j` from `from` on, before `to` and above row `k`. The result is the next place.
// `meet_above` is this loop with another step: one function for both takes the step, and that step's model and law in its contract are longer than the loop.
#[inline(always)]
pub fn pair_above(m: &mut Memory, j: usize, k: usize, from: usize, to: usize) -> usize
    requires { (j < (space m.old).n) × (k < (space m.old).n) × (from < 2 ^ 63) × (to < 2 ^ 63) }
    ensures memory { heap (space m.new).lists (space m.new).scratch
        ≡ paired_part (space m.old).n j from (reach (rd (space m.old).n 16 (space m.old).scratch) k from to) (heap (space m.old).lists (space m.old).scratch) }
    ensures next { result ≡ past (rd (space m.old).n 16 (space m.old).scratch) k (reach (rd (space m.old).n 16 (space m.old).scratch) k from to) to }
    ensures size { SameSize (space m.old) (space m.new) }
    ensures small { result < 2 ^ 63 }
{
    for p in from..to {
        let i = m.entry(p);
        if k <= i {
            return pass_row(i, k, p);
        }
        add_pair(m, i, j);
    }
    from.max(to)
}

// What waits in column `j` before row `k`: it is in no column above the diagonal. Row `k` itself, if it is next, is the pair that led here.
#[inline(always)]
#[tactic(auto, unfolding(crate::specs::Model::passed, crate::specs::Model::marked, crate::specs::Model::stop_of, crate::specs::Model::next_of))]
pub fn pass(m: &mut Memory, j: usize, k: usize)
    requires { (j < (space m.old).n) × (k < (space m.old).n) }
    ensures memory { heap (space m.new).lists (space m.new).scratch ≡ passed (space m.old).n j k (heap (space m.old).lists (space m.old).scratch) }
    ensures size { SameSize (space m.old) (space m.new) }
{
    prove!(j < m.columns());
    let from = m.get(TP, j);
    let to = m.column(j + 1);
    let next = pair_above(m, j, k, from, to);
    m.set(TP, j, next);
}

// Row `j` of column `k`, above the diagonal.
#[inline(always)]
#[tactic(auto, unfolding(crate::specs::Model::met))]
pub fn meet(m: &mut Memory, k: usize, j: usize)
    requires { (k < (space m.old).n) × (j < (space m.old).n) }
    ensures memory { heap (space m.new).lists (space m.new).scratch ≡ met (space m.old).n k j (heap (space m.old).lists (space m.old).scratch) }
    ensures size { SameSize (space m.old) (space m.new) }
{
    add_pair(m, j, k);
    pass(m, j, k);
}

// The entries of column `k` from `from` on, before `to` and above the diagonal. The result is the next place.
#[inline(always)]
pub fn meet_above(m: &mut Memory, k: usize, from: usize, to: usize) -> usize
    requires { (k < (space m.old).n) × (from < 2 ^ 63) × (to < 2 ^ 63) }
    ensures memory { heap (space m.new).lists (space m.new).scratch
        ≡ met_part (space m.old).n k from (reach (rd (space m.old).n 16 (space m.old).scratch) k from to) (heap (space m.old).lists (space m.old).scratch) }
    ensures next { result ≡ past (rd (space m.old).n 16 (space m.old).scratch) k (reach (rd (space m.old).n 16 (space m.old).scratch) k from to) to }
    ensures size { SameSize (space m.old) (space m.new) }
    ensures small { result < 2 ^ 63 }
{
    for p in from..to {
        let j = m.entry(p);
        if k <= j {
            return pass_row(j, k, p);
        }
        meet(m, k, j);
    }
    from.max(to)
}

// Column `k`: its entries above the diagonal in turn, and what is below waits.
#[inline(always)]
#[tactic(auto, unfolding(crate::specs::Model::met_column, crate::specs::Model::marked, crate::specs::Model::stop_of, crate::specs::Model::next_of))]
pub fn meet_column(m: &mut Memory, k: usize)
    requires { k < (space m.old).n }
    ensures memory { heap (space m.new).lists (space m.new).scratch ≡ met_column (space m.old).n k (heap (space m.old).lists (space m.old).scratch) }
    ensures size { SameSize (space m.old) (space m.new) }
{
    prove!(k < m.columns());
    let from = m.column(k);
    let to = m.column(k + 1);
    let next = meet_above(m, k, from, to);
    m.set(TP, k, next);
}

#[inline(always)]
#[tactic(auto, using(plain::proofs::Turns::turns), unfolding(crate::specs::Model::met_columns))]
pub fn meet_columns(m: &mut Memory)
    ensures memory { heap (space m.new).lists (space m.new).scratch ≡ met_columns (space m.old).n (heap (space m.old).lists (space m.old).scratch) }
    ensures size { SameSize (space m.old) (space m.new) }
{
    for k in 0..m.columns() {
        meet_column(m, k);
    }
}

// What is left of column `j` has no mate above the diagonal.
#[inline(always)]
#[tactic(auto, unfolding(crate::specs::Model::met_rest))]
pub fn meet_rest(m: &mut Memory, j: usize)
    requires { j < (space m.old).n }
    ensures memory { heap (space m.new).lists (space m.new).scratch ≡ met_rest (space m.old).n j (heap (space m.old).lists (space m.old).scratch) }
    ensures size { SameSize (space m.old) (space m.new) }
{
    prove!(j < m.columns());
    let from = m.get(TP, j);
    let to = m.column(j + 1);
    pair_part(m, j, from, to);
}

#[inline(always)]
#[tactic(auto, using(plain::proofs::Turns::turns), unfolding(crate::specs::Model::met_rests))]
pub fn meet_rests(m: &mut Memory)
    ensures memory { heap (space m.new).lists (space m.new).scratch ≡ met_rests (space m.old).n (heap (space m.old).lists (space m.old).scratch) }
    ensures size { SameSize (space m.old) (space m.new) }
{
    for j in 0..m.columns() {
        meet_rest(m, j);
    }
}

// All columns and then all rests, over the slices themselves: behind a memory of somebody else's the place of each would be read anew after each store.
#[tactic(auto, unfolding(cells::specs::Space::space, crate::specs::Model::scanned))]
fn meet_all(lists: &mut [i64], s: &mut [i64], n: usize)
    requires { Room n s.old × Rows n lists.old }
    ensures { (heap lists.new s.new ≡ scanned n (heap lists.old s.old)) × Room n s.new × Rows n lists.new }
{
    let mut m = Memory::over(n, lists, s);
    meet_columns(&mut m);
    meet_rests(&mut m);
}

#[tactic(auto, unfolding(cells::specs::Space::space))]
pub fn scan(m: &mut Memory)
    ensures memory { heap (space m.new).lists (space m.new).scratch ≡ scanned (space m.old).n (heap (space m.old).lists (space m.old).scratch) }
    ensures size { SameSize (space m.old) (space m.new) }
{
    meet_all(m.rows, m.fields, m.columns);
}

// ---- the lists

#[tactic(auto, unfolding(crate::specs::Model::emptied_all, crate::specs::Model::emptied))]
pub fn start_building(m: &mut Memory)
    ensures { space m.new ≡ record (space m.old) { scratch = emptied_all (space m.old).n (space m.old).scratch } }
{
    m.fill(SP, 0);
}

// The list of row `i` begins at `free`; the result is the next free place.
#[tactic(auto, unfolding(crate::specs::Model::placed_list))]
pub fn place_list(m: &mut Memory, i: usize, free: usize) -> usize
    requires { free < 2 ^ 63 }
    ensures memory { spot (space m.new).scratch result ≡ placed_list (space m.old).n i (spot (space m.old).scratch free) }
    ensures lists { SameLists (space m.old) (space m.new) }
    ensures small { result < 2 ^ 63 }
{
    let count = m.rd(SP, i);
    m.up(Field::Len, i, count);
    m.up(Field::Pe, i, free);
    m.up(SP, i, free);
    cells::plus(free, count)
}

#[tactic(auto, using(plain::proofs::Turns::turns), unfolding(crate::specs::Model::placed_lists))]
pub fn place_lists(m: &mut Memory) -> usize
    ensures memory { spot (space m.new).scratch result ≡ placed_lists (space m.old).n (space m.old).scratch }
    ensures lists { SameLists (space m.old) (space m.new) }
    ensures small { result < 2 ^ 63 }
{
    let mut free = 0;
    for i in 0..m.columns() {
        free = place_list(m, i, free);
    }
    free
}

// A+A' of the columns in the scratch, packed from the start of the list space; the result is the next free place.
#[tactic(auto, unfolding(crate::specs::Model::built, crate::specs::Model::placed, crate::specs::Model::counted, crate::specs::Model::built_free))]
pub fn build(m: &mut Memory) -> usize
    ensures memory { heap (space m.new).lists (space m.new).scratch ≡ built (space m.old).n (space m.old).lists (space m.old).scratch }
    ensures free { result ≡ built_free (space m.old).n (space m.old).lists (space m.old).scratch }
    ensures size { SameSize (space m.old) (space m.new) }
    ensures small { result < 2 ^ 63 }
{
    start_building(m);
    scan(m);
    let free = place_lists(m);
    scan(m);
    free
}

// The pattern, jumbled or not, as the lists of A+A'.
pub fn take_pattern(m: &mut Memory, pattern: Columns, jumbled: bool) -> usize
    ensures memory { heap (space m.new).lists (space m.new).scratch
        ≡ built (space m.old).n (space m.old).lists (tidied (space m.old).n pattern.entry.pointers.now pattern.entry.rows.now jumbled (space m.old).scratch) }
    ensures free { result ≡ built_free (space m.old).n (space m.old).lists
        (tidied (space m.old).n pattern.entry.pointers.now pattern.entry.rows.now jumbled (space m.old).scratch) }
    ensures size { SameSize (space m.old) (space m.new) }
    ensures small { result < 2 ^ 63 }
{
    tidy(m, pattern, jumbled);
    build(m)
}
