// The checks of document 01's answer table (valid.rs, and the sizes). Every slice is lent for reading only.
#![tactic(auto)]

ghost use Rattle.std.specs.Prelude.{◌≡◌, true, false, not, ◌&&◌, ◌||◌, map, ℕ, ◌+◌, ◌<◌, ◌≤◌, ltb, eqb, pos, nat_abs, length, get_or, is_some, IfSome, IsTrue, ◌↔◌};
ghost use Rattle.std.specs.List.{list_all};
ghost use Rattle.std.proofs.Math.Seq.{slice};
ghost use Rattle.std.specs.Int.Signed.{le_z, lt_z, non_neg};
ghost use Rattle.plain.specs.Lists.{rises};
ghost use Rattle.definition.specs.Limits.{base_limits, outside, lists_room, scratch_room, room_within};
ghost use Rattle.definition.specs.Pattern.{Pattern as Given, column_count, column, columns, nnz, jumbled, bad_pointers, bad_rows};
ghost use Rattle.definition.specs.Answers.{answer_of, first_of};
ghost use Rattle.numbers.specs.Meaning.{answer_meant};
ghost use Rattle.checks.specs.Given.{pattern_given, problem_given, is_row, pattern_checks};

use numbers::{Answer, Settings};
use std::marker::Model;

// ---- numbers

// A number that is neither below 0 nor above the most.
#[tactic(auto, unfolding(definition::specs::Limits::outside))]
fn within(most: usize, x: i64) -> Option<usize>
    ensures outside { is_some result ≡ not (outside most x) }
    ensures number { IfSome result (λ k. (pos k ≡ x) × (k ≤ most)) }
{
    usize::try_from(x).ok().filter(|&k| k <= most)
}

// The number of columns. There is none, answer 2, of n below 0 or above the most columns.
pub fn column_count(n: i32) -> Option<usize>
    ensures outside { is_some result ≡ not (outside base_limits.most_columns n) }
    ensures number { IfSome result (λ k. (pos k ≡ n) × (k ≤ base_limits.most_columns)) }
{
    within(numbers::most_columns(), i64::from(n))
}

// Answer 4: an output not of length n.
pub fn outputs_wrong(n: usize, permutation: usize, inverse: usize) -> bool
    ensures { result ≡ not (eqb permutation n && eqb inverse n) }
{
    permutation != n || inverse != n
}

// ---- the room: two formulas, no twins; that n and nnz are within the limits stays a clause, since `room_wrong` is public and takes them as two numbers

// The cells of lists that n columns and nnz entries need.
#[tactic(auto, unfolding(definition::specs::Limits::base_limits, definition::specs::Limits::lists_room))]
fn lists_cells(n: usize, nnz: usize) -> usize
    requires { (n ≤ base_limits.most_columns) × (nnz ≤ base_limits.most_entries) }
    ensures { result ≡ lists_room n nnz }
{
    2 * nnz + n
}

// The cells of scratch that n columns and nnz entries need.
#[tactic(auto, unfolding(definition::specs::Limits::base_limits, definition::specs::Limits::scratch_room))]
fn scratch_cells(n: usize, nnz: usize) -> usize
    requires { (n ≤ base_limits.most_columns) × (nnz ≤ base_limits.most_entries) }
    ensures { result ≡ scratch_room n nnz }
{
    nnz + 16 * n + 16
}

// Answer 7: lists or scratch shorter than its room.
pub fn room_wrong(n: usize, nnz: usize, lists: usize, scratch: usize) -> bool
    requires { (n ≤ base_limits.most_columns) × (nnz ≤ base_limits.most_entries) }
    ensures { result ≡ (ltb lists (lists_room n nnz) || ltb scratch (scratch_room n nnz)) }
{
    lists < lists_cells(n, nnz) || scratch < scratch_cells(n, nnz)
}

// A number of columns and one of entries, both within the limits.
fn accept_sizes(n: i64, nnz: i64) -> Option<(usize, usize)>
    ensures outside { is_some result ≡ not (outside base_limits.most_columns n || outside base_limits.most_entries nnz) }
    ensures columns { IfSome result (λ p. (pos p.0 ≡ n) × (p.0 ≤ base_limits.most_columns)) }
    ensures entries { IfSome result (λ p. (pos p.1 ≡ nnz) × (p.1 ≤ base_limits.most_entries)) }
{
    Some((
        within(numbers::most_columns(), n)?,
        within(numbers::most_entries(), nnz)?,
    ))
}

// The room of lists for any two numbers, 0 outside the limits.
#[tactic(auto, unfolding(definition::specs::Limits::room_within))]
pub fn lists_room(n: i64, nnz: i64) -> usize
    ensures { result ≡ room_within base_limits lists_room n nnz }
{
    accept_sizes(n, nnz).map_or(0, |(n, nnz)| lists_cells(n, nnz))
}

// The room of scratch for any two numbers, 0 outside the limits.
#[tactic(auto, unfolding(definition::specs::Limits::room_within))]
pub fn scratch_room(n: i64, nnz: i64) -> usize
    ensures { result ≡ room_within base_limits scratch_room n nnz }
{
    accept_sizes(n, nnz).map_or(0, |(n, nnz)| scratch_cells(n, nnz))
}

// ---- the pointers

// The number at `i`, which is not below zero.
pub fn number_at(numbers: &[i32], i: usize) -> usize
    requires within { i < length numbers.now }
    requires sign { non_neg (get_or numbers.now i (pos 0)) ≡ true }
    ensures { result ≡ nat_abs (get_or numbers.now i (pos 0)) }
{
    numbers[i] as usize
}

// Whether no pointer is below the one before it.
#[tactic(auto, using(crate::proofs::Slices::is_le_told))]
fn climbing(pointers: &[i32]) -> bool
    ensures { IsTrue result ↔ ((k : ℕ) → k + 1 < length pointers.now → IsTrue (le_z (get_or pointers.now k (pos 0)) (get_or pointers.now (k + 1) (pos 0)))) }
{
    pointers.is_sorted()
}

// A pattern whose pointers are right: one more than columns, from 0 on, none below the one before it, the last within the limit and the rows.
#[derive(Drop)]
pub struct Pattern<'a> {
    columns: usize,
    pointers: &'a [i32],
    rows: &'a [i32],
}

impl<'a> Model for Pattern<'a> {
    ghost Value = { Given };

    ghost view = { λ p. pattern_given (pos p.columns) p.pointers.now p.rows.now };

    ghost invariant = { λ p. bad_pointers base_limits (pattern_given (pos p.columns) p.pointers.now p.rows.now) ≡ false };
}

// ---- the rows

// Whether a row is not below 0 and below n.
fn row_right(row: i32, n: usize) -> bool
    ensures { result ≡ is_row (pos n) row }
{
    usize::try_from(row).is_ok_and(|row| row < n)
}

// Whether each row is one of n.
fn rows_right(rows: &[i32], n: usize) -> bool
    ensures { result ≡ list_all (is_row (pos n)) rows.now }
{
    rows.iter().all(|&row| row_right(row, n))
}

// Whether each row is above the one before it.
fn rising(rows: &[i32]) -> bool
    ensures { IsTrue result ↔ ((k : ℕ) → k + 1 < length rows.now → IsTrue (lt_z (get_or rows.now k (pos 0)) (get_or rows.now (k + 1) (pos 0)))) }
{
    rows.windows(2).all(|pair| pair[0] < pair[1])
}

// Whether the rows from `from` up to `to` rise. None of them is below zero.
fn rises(rows: &[i32], from: usize, to: usize) -> bool
    requires order { from ≤ to }
    requires within { to ≤ length rows.now }
    requires signs { (k : ℕ) → k < to → non_neg (get_or rows.now k (pos 0)) ≡ true }
    ensures { result ≡ rises (map nat_abs (slice from to rows.now)) }
{
    rising(&rows[from..to])
}

impl<'a> Pattern<'a> {
    // There is none, answer 5, where a pointer is wrong.
    pub fn new(columns: usize, pointers: &'a [i32], rows: &'a [i32]) -> Option<Pattern<'a>>
        ensures pointed { is_some result ≡ not (bad_pointers base_limits (pattern_given (pos columns) pointers.now rows.now)) }
        ensures given { IfSome result (λ p. p ≡ pattern_given (pos columns) pointers.now rows.now) }
    {
        if pointers.is_empty() || pointers.len() - 1 != columns {
            return None;
        }
        if pointers[0] != 0 || !climbing(pointers) {
            return None;
        }
        let nnz = number_at(pointers, columns);
        if numbers::most_entries() < nnz || rows.len() < nnz {
            return None;
        }
        Some(Pattern {
            columns,
            pointers,
            rows,
        })
    }

    // The number of columns.
    pub fn columns(&self) -> usize
        ensures { result ≡ column_count self.now }
    {
        self.columns
    }

    // The number of entries, which is the last pointer.
    pub fn entries(&self) -> usize
        ensures nnz { result ≡ nnz self.now }
        ensures limited { result ≤ base_limits.most_entries }
    {
        number_at(self.pointers, self.columns)
    }

    // Answer 6: one of the first nnz rows below 0, or n or more. Rows past nnz are not looked at.
    pub fn rows_wrong(&self) -> bool
        ensures { result ≡ bad_rows self.now }
    {
        !rows_right(&self.rows[..self.entries()], self.columns)
    }

    // Whether the rows of column k rise.
    fn column_rises(&self, k: usize) -> bool
        requires within { k < column_count self.now }
        requires rows { bad_rows self.now ≡ false }
        ensures { result ≡ rises (column self.now k) }
    {
        let from = number_at(self.pointers, k);
        let to = number_at(self.pointers, k + 1);
        rises(self.rows, from, to)
    }

    // Answer 1: some column has a row not above the row before it.
    pub fn is_jumbled(&self) -> bool
        requires { bad_rows self.now ≡ false }
        ensures { result ≡ jumbled (columns self.now) }
    {
        (0..self.columns()).any(|k| !self.column_rises(k))
    }
}

// ---- the table

// From answer 5 on: the pattern and the room.
#[tactic(auto, unfolding(crate::specs::Given::pattern_checks, definition::specs::Answers::first_of))]
fn check_pattern(
    columns: usize,
    pointers: &[i32],
    rows: &[i32],
    lists: usize,
    scratch: usize,
) -> Answer
    requires { columns ≤ base_limits.most_columns }
    ensures { answer_meant result ≡ first_of (pattern_checks (pattern_given (pos columns) pointers.now rows.now) lists scratch) }
{
    let Some(pattern) = Pattern::new(columns, pointers, rows) else {
        return Answer::WrongPointers;
    };
    if pattern.rows_wrong() {
        return Answer::WrongRows;
    }
    if room_wrong(columns, pattern.entries(), lists, scratch) {
        return Answer::WrongRoom;
    }
    if pattern.is_jumbled() {
        return Answer::OrderedJumbled;
    }
    Answer::Ordered
}

// The whole table: the first check that applies is the answer. No Result: what is accepted has an answer too, so both sides would be one.
#[tactic(auto, unfolding(definition::specs::Answers::answer_of, definition::specs::Answers::answer_within, definition::specs::Answers::checks, definition::specs::Answers::first_of, definition::specs::Answers::bad_multiplier, definition::specs::Answers::bad_outputs, definition::specs::Answers::bad_room, definition::specs::Pattern::bad_count, crate::specs::Given::pattern_checks))]
pub fn check(
    n: i32,
    pointers: &[i32],
    rows: &[i32],
    settings: Settings,
    permutation: usize,
    inverse: usize,
    lists: usize,
    scratch: usize,
) -> Answer
    ensures { answer_meant result ≡ answer_of (problem_given (pattern_given n pointers.now rows.now) settings.multiplier settings.aggressive permutation inverse lists scratch) }
{
    let Some(columns) = column_count(n) else {
        return Answer::WrongCount;
    };
    if numbers::multiplier_wrong(settings.multiplier) {
        return Answer::WrongMultiplier;
    }
    if outputs_wrong(columns, permutation, inverse) {
        return Answer::WrongOutputs;
    }
    check_pattern(columns, pointers, rows, lists, scratch)
}
