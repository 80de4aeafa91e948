// Step 5 of a pivot: the rows of the new element that have one key stand in one bucket, linked newest first; of those, each is compared with the ones behind
// it, and takes those that have its list. A walk along links makes at most as many turns as the new element has rows, so that it ends in any memory.
// Nothing here asks for a memory that makes sense: a contract is the function's own model, and the laws of `proofs/` say what it does to the graph.
// The null link is n, where a store does nothing: so the models (`followers`, `bucket_run`, `taken_next`) and the theorems on them have it, and no Option.
// `k`, the most turns, goes beside a tally, not into it: it is one for all walks, a tally is handed out, and the theorems on tallies (`Merging`) have none.
#![tactic(auto)]

ghost use Rattle.std.specs.Prelude.{◌≡◌, ◌<◌, ◌^◌, length};
ghost use Rattle.cells.specs.Layout.{W};
ghost use Rattle.cells.specs.Space.{space, SameLists};
ghost use Rattle.cells.specs.View.{at, up};
ghost use Rattle.merging.specs.Model.{Slight, comparing, merging, marking, marked_list, all_marked, tail_marked, same_elements, alike_now};
ghost use Rattle.merging.specs.Model.{joined, taken_next, compared, merged_into, merged_at, bucket_run, merged_key, merged_row, merged_rows};

use cells::{Field, Memory, Part};
use std::marker::Model;

// Where a walk along a bucket stands: the row before the next one, the next one, and how many merges are logged. What bounds them (`Slight`) stays a clause:
// it ties a trail to n, which the trail does not hold.
#[derive(Clone, Copy)]
pub struct Trail {
    pub last: usize,
    pub next: usize,
    pub logged: usize,
}

// The flag to mark with, and how many merges are logged: both are numbers of a cell.
#[derive(Clone, Copy)]
pub struct Tally {
    pub flag: usize,
    pub logged: usize,
}

impl Model for Tally {
    ghost use Rattle.merging.specs.Tally.{Counts, Bounded};

    ghost Value = { Counts };

    ghost view = { λ t. record { flag = t.flag; logged = t.logged } };

    ghost invariant = { λ t. Bounded (record { flag = t.flag; logged = t.logged }) };

    ghost inverse = { λ c. record { flag = c.flag; logged = c.logged } };
}

// What a row is compared with: a list of this length with so many elements, whose entries are marked with the flag.
#[derive(Clone, Copy)]
struct Shape {
    len: usize,
    elen: usize,
    flag: usize,
}

// ---- marks

// The row in cell `q` of the lists is marked.
fn mark_one(m: &mut Memory, q: usize, flag: usize)
    requires cell { q < length (space m.old).lists }
    requires small { flag < 2 ^ 63 }
    ensures { space m.new ≡ record (space m.old) { scratch = up (space m.old).n W (space m.old).scratch (at (space m.old).lists q) flag } }
{
    let x = m.row(q);
    m.set(Field::W, x, flag);
}

// The rows in a part of the lists, as far as it is there, are marked.
#[tactic(auto, unfolding(plain::specs::Turns::times, cells::specs::Rows::clipped, crate::specs::Model::marking))]
fn mark_part(m: &mut Memory, part: Part, flag: usize)
    requires { flag < 2 ^ 63 }
    ensures { space m.new ≡ record (space m.old) { scratch = marking (space m.old).lists (space m.old).n flag part.from part.len (space m.old).scratch } }
{
    for t in 0..m.clip(part) {
        mark_one(m, part.from + t, flag);
    }
}

// The entries of the list of `i` after the first are marked.
#[tactic(auto, unfolding(crate::specs::Model::marked_list))]
fn mark_entries(m: &mut Memory, i: usize, flag: usize)
    requires node { i < (space m.old).n }
    requires small { flag < 2 ^ 63 }
    ensures { space m.new ≡ record (space m.old) { scratch = marked_list (space m.old).lists (space m.old).n flag i (space m.old).scratch } }
{
    let p = m.get(Field::Pe, i);
    let k = m.get(Field::Len, i);
    let entries = Part {
        from: p + 1,
        len: k.saturating_sub(1),
    };
    mark_part(m, entries, flag);
}

// ---- the comparison

// Are the rows in a part of the lists, as far as it is there, all marked?
// The labelled exit stays: the user named this form for the comparison of rows.
#[tactic(auto, using(crate::proofs::Walks::mark_turns))]
fn all_marked(m: &Memory, part: Part, flag: usize) -> bool
    ensures { result ≡ all_marked (space m.now).lists (space m.now).n (space m.now).scratch part.from part.len flag }
{
    let there = m.clip(part);
    let mut t = 0;
    'entries: while t < there {
        let x = m.row(part.from + t);
        if m.get(Field::W, x) == flag {
            t += 1;
            continue 'entries;
        }
        return false;
    }
    true
}

// Are the entries of the list of `j` after the first, `len` being its length, all marked?
#[tactic(auto, unfolding(crate::specs::Model::tail_marked))]
fn tail_marked(m: &Memory, j: usize, len: usize, flag: usize) -> bool
    requires { j < (space m.now).n }
    ensures { result ≡ tail_marked (space m.now).lists (space m.now).n (space m.now).scratch j len flag }
{
    let p = m.get(Field::Pe, j);
    let rest = Part {
        from: p + 1,
        len: len.saturating_sub(1),
    };
    all_marked(m, rest, flag)
}

// Has `j` as many elements as the shape, and is the rest of its list, of the shape's length, marked?
#[tactic(auto, unfolding(crate::specs::Model::same_elements))]
fn same_elements(m: &Memory, j: usize, shape: Shape) -> bool
    requires { j < (space m.now).n }
    ensures { result ≡ same_elements (space m.now).lists (space m.now).n (space m.now).scratch j shape.len shape.elen shape.flag }
{
    shape.elen == m.get(Field::Elen, j) && tail_marked(m, j, shape.len, shape.flag)
}

// Has `j` a list of this shape? Never read past the list of `j`.
#[tactic(auto, unfolding(crate::specs::Model::alike_now))]
fn alike(m: &Memory, j: usize, shape: Shape) -> bool
    requires { j < (space m.now).n }
    ensures { result ≡ alike_now (space m.now).lists (space m.now).n (space m.now).scratch j shape.len shape.elen shape.flag }
{
    shape.len == m.get(Field::Len, j) && same_elements(m, j, shape)
}

// ---- a merge

// Row `j` is merged into `i`, as merge number `logged`.
#[tactic(auto, unfolding(packed::specs::Model::joined_row, crate::specs::Model::joined, crate::specs::Model::weighed, crate::specs::Model::left))]
fn merge(m: &mut Memory, i: usize, j: usize, logged: usize)
    requires taker { i < (space m.old).n }
    requires taken { j < (space m.old).n }
    ensures { space m.new ≡ record (space m.old) { scratch = joined (space m.old).n (space m.old).scratch i j logged } }
{
    packed::join(m, i, j, logged);
}

// ---- a bucket

// The next row of the walk, which `next` stands behind, is merged into `i` and leaves the bucket.
#[tactic(auto, unfolding(crate::specs::Model::taken_next))]
fn take_next(m: &mut Memory, i: usize, next: usize, w: Trail) -> Trail
    requires taker { i < (space m.old).n }
    requires small { next < 2 ^ 63 }
    requires taken { w.next < (space m.old).n }
    requires slight { Slight (space m.old).n w }
    ensures taken { comparing (space m.new).scratch result ≡ taken_next (space m.old).n i next (comparing (space m.old).scratch w) }
    ensures lists { SameLists (space m.old) (space m.new) }
    ensures slight { Slight (space m.old).n result }
{
    merge(m, i, w.next, w.logged);
    m.set(Field::HNext, w.last, next);
    let logged = cells::plus(w.logged, 1);
    Trail { next, logged, ..w }
}

// The same if it has a list of this shape, which `i` has; if not, it is passed by.
#[tactic(auto, unfolding(crate::specs::Model::compared, crate::specs::Model::passed_next))]
fn compare_next(m: &mut Memory, i: usize, shape: Shape, w: Trail) -> Trail
    requires taker { i < (space m.old).n }
    requires next { w.next < (space m.old).n }
    requires slight { Slight (space m.old).n w }
    ensures compared { comparing (space m.new).scratch result
        ≡ compared (space m.old).lists (space m.old).n i shape.len shape.elen shape.flag (comparing (space m.old).scratch w) }
    ensures lists { SameLists (space m.old) (space m.new) }
    ensures slight { Slight (space m.old).n result }
{
    let next = m.get(Field::HNext, w.next);
    if alike(m, w.next, shape) {
        take_next(m, i, next, w)
    } else {
        Trail {
            last: w.next,
            next,
            ..w
        }
    }
}

// Each row behind `i` in its bucket, from `behind` on and at most `k`, that has the marked entries of `i` is merged into it. The result is how many merges are
// logged. What each is compared with is read once: a merge into `i` leaves its list as it is.
#[tactic(auto, using(crate::proofs::Walks::walk_turns))]
fn merge_into(m: &mut Memory, i: usize, behind: usize, k: usize, t: Tally) -> usize
    requires taker { i < (space m.old).n }
    requires small { behind < 2 ^ 63 }
    ensures merged { merging (space m.new).scratch (record { flag = t.flag; logged = result })
        ≡ merged_into (space m.old).lists (space m.old).n k i behind (merging (space m.old).scratch t) }
    ensures lists { SameLists (space m.old) (space m.new) }
    ensures small { result < 2 ^ 63 }
{
    let n = m.columns();
    let shape = Shape {
        len: m.get(Field::Len, i),
        elen: m.get(Field::Elen, i),
        flag: t.flag,
    };
    let mut w = Trail {
        last: i,
        next: behind,
        logged: t.logged,
    };
    for _ in 0..k {
        if n <= w.next {
            break;
        }
        w = compare_next(m, i, shape, w);
    }
    w.logged
}

// Row `i` takes those behind it in its bucket, from `behind` on, that have its list; the flag is used up.
#[tactic(auto, unfolding(crate::specs::Model::merged_at))]
fn merge_at(m: &mut Memory, i: usize, behind: usize, k: usize, t: Tally) -> Tally
    requires taker { i < (space m.old).n }
    requires small { behind < 2 ^ 63 }
    ensures merged { merging (space m.new).scratch result ≡ merged_at (space m.old).lists (space m.old).n k i behind (merging (space m.old).scratch t) }
    ensures lists { SameLists (space m.old) (space m.new) }
{
    mark_entries(m, i, t.flag);
    let logged = merge_into(m, i, behind, k, t);
    let flag = cells::plus(t.flag, 1);
    Tally { flag, logged }
}

// A bucket from its newest row `first` on, at most `k` rows of it, as long as there is anybody behind.
#[tactic(auto, using(crate::proofs::Walks::run_turns))]
fn merge_bucket(m: &mut Memory, first: usize, k: usize, start: Tally) -> Tally
    ensures merged { merging (space m.new).scratch result ≡ bucket_run (space m.old).lists (space m.old).n k k first (merging (space m.old).scratch start) }
    ensures lists { SameLists (space m.old) (space m.new) }
{
    let n = m.columns();
    let mut i = first;
    let mut t = start;
    for _ in 0..k {
        if n <= i {
            break;
        }
        let behind = m.get(Field::HNext, i);
        if n <= behind {
            break;
        }
        t = merge_at(m, i, behind, k, t);
        i = m.get(Field::HNext, i);
    }
    t
}

// ---- all buckets

// The bucket of `key` is emptied, and its rows compared, if there is such a bucket.
#[tactic(auto, unfolding(crate::specs::Model::merged_key))]
fn merge_key(m: &mut Memory, key: usize, k: usize, t: Tally) -> Tally
    ensures merged { merging (space m.new).scratch result ≡ merged_key (space m.old).lists (space m.old).n k key (merging (space m.old).scratch t) }
    ensures lists { SameLists (space m.old) (space m.new) }
{
    let n = m.columns();
    if key < n {
        let first = m.get(Field::HHead, key);
        m.set(Field::HHead, key, n);
        merge_bucket(m, first, k, t)
    } else {
        t
    }
}

// The bucket of the row in cell `q` of the lists, if that row is still there.
#[tactic(auto, unfolding(crate::specs::Model::merged_row, crate::specs::Model::merged_of))]
fn merge_row(m: &mut Memory, q: usize, k: usize, t: Tally) -> Tally
    requires cell { q < length (space m.old).lists }
    ensures merged { merging (space m.new).scratch result ≡ merged_row (space m.old).lists (space m.old).n k q (merging (space m.old).scratch t) }
    ensures lists { SameLists (space m.old) (space m.new) }
{
    let i = m.row(q);
    let weight = m.get(Field::Nv, i);
    if 0 < weight {
        let key = m.get(Field::HKey, i);
        merge_key(m, key, k, t)
    } else {
        t
    }
}

// Step 5, for the new element in a part of the lists. The result is the next flag, and how many merges are logged.
#[tactic(auto, unfolding(plain::specs::Turns::times, cells::specs::Rows::clipped, crate::specs::Model::merged_rows))]
pub fn merge_all(m: &mut Memory, part: Part, start: Tally) -> Tally
    ensures merged { merging (space m.new).scratch result
        ≡ merged_rows (space m.old).lists (space m.old).n part.from part.len (merging (space m.old).scratch start) }
    ensures lists { SameLists (space m.old) (space m.new) }
{
    let mut t = start;
    for i in 0..m.clip(part) {
        t = merge_row(m, part.from + i, part.len, t);
    }
    t
}
