// Runs the ordering on a fixed list of cases and prints a line for each: the answer, the permutation, the inverse, the seven statistics, and what became of the
// slices. The cases are read from standard input; the lines expected are the Rust's own (tools/replay/make.py). Each function is proved safe and ending; that
// what is printed is right is what the comparison with `stdout` shows.
//
// A case is numbers: n; the multiplier as a quotient of two; aggressive as 0 or 1; the lengths of permutation, inverse, lists and scratch; the number of
// pointers and that of rows; then these. The slices that are lent start full of FILL.
#![tactic(auto)]

ghost use Rattle.std.specs.Prelude.{◌≤◌, ◌<◌, length, IfSome};
ghost use Rattle.replay.specs.Fitting.{Fitting};

use numbers::Settings;
use std::io;
use std::io::Write;
use text::Spaced;

const FILL: i32 = -7;

const WIDE_FILL: i64 = FILL as i64;

// The memory is fixed, and there is no heap: a rule of the project. So each slice has a most length, and a part of it is lent.
const MOST_OUTPUT: usize = 160;

const MOST_LISTS: usize = 2048;

const MOST_SCRATCH: usize = 4096;

const MOST_NUMBERS: usize = 49152;

const MOST_BYTES: usize = 131072;

// The numbers that stand before a case's pointers.
const HEAD: usize = 10;

#[derive(Clone, Copy)]
struct Lengths {
    permutation: usize,
    inverse: usize,
    lists: usize,
    scratch: usize,
}

#[derive(Clone, Copy)]
struct Case<'a> {
    n: i32,
    pointers: &'a [i32],
    rows: &'a [i32],
    settings: Settings,
    lengths: Lengths,
}

// ---- what became of the slices

fn all_are<T: Copy + PartialEq>(xs: &[T], x: T) -> bool {
    xs.iter().all(|&y| y == x)
}

fn fate(permutation: &[i32], inverse: &[i32], lists: &[i64], scratch: &[i64]) -> &'static str {
    if all_are(lists, WIDE_FILL)
        && all_are(scratch, WIDE_FILL)
        && all_are(permutation, FILL)
        && all_are(inverse, FILL)
    {
        "kept"
    } else if all_are(lists, 0) && all_are(scratch, 0) {
        "cleared"
    } else {
        "changed"
    }
}

// ---- a case

// A length, a negative one counting as 0, but at most `most`.
fn limit_length(x: i32, most: usize) -> usize
    ensures { result ≤ most }
{
    usize::try_from(x).unwrap_or(0).min(most)
}

// The first case of `xs`, and the numbers behind it; none where it is not whole.
fn split_first_case(xs: &[i32]) -> Option<(Case<'_>, &[i32])>
    ensures shorter { IfSome result (λ r. length r.1.now < length xs.now) }
    ensures fitting { IfSome result (λ r. Fitting r.0.lengths) }
{
    if xs.len() < HEAD {
        return None;
    }
    // The head's places are those of the comment at the top of this file.
    let (head, rest) = xs.split_at(HEAD);
    let (pointers, rest) = rest.split_at(limit_length(head[8], rest.len()));
    let (rows, rest) = rest.split_at(limit_length(head[9], rest.len()));
    let case = Case {
        n: head[0],
        pointers,
        rows,
        settings: Settings {
            multiplier: f64::from(head[1]) / f64::from(head[2]),
            aggressive: head[3] != 0,
        },
        lengths: Lengths {
            permutation: limit_length(head[4], MOST_OUTPUT),
            inverse: limit_length(head[5], MOST_OUTPUT),
            lists: limit_length(head[6], MOST_LISTS),
            scratch: limit_length(head[7], MOST_SCRATCH),
        },
    };
    Some((case, rest))
}

fn replay_case<W: Write>(out: &mut W, case: &Case<'_>) -> io::Result<()>
    requires { Fitting case.now.lengths }
{
    let mut permutation = [FILL; MOST_OUTPUT];
    let mut inverse = [FILL; MOST_OUTPUT];
    let mut lists = [WIDE_FILL; MOST_LISTS];
    let mut scratch = [WIDE_FILL; MOST_SCRATCH];
    // The sizes as numbers, here and in `main`: a constant alone is held by nothing.
    prove!(permutation.len() == 160);
    prove!(inverse.len() == 160);
    prove!(lists.len() == 2048);
    prove!(scratch.len() == 4096);
    let permutation = &mut permutation[..case.lengths.permutation];
    let inverse = &mut inverse[..case.lengths.inverse];
    let lists = &mut lists[..case.lengths.lists];
    let scratch = &mut scratch[..case.lengths.scratch];
    let outcome = ordering::order(
        case.n,
        case.pointers,
        case.rows,
        case.settings,
        permutation,
        inverse,
        lists,
        scratch,
    );
    write!(out, "{}|", i32::from(outcome.answer))?;
    if outcome.answer.is_accepted() {
        write!(out, "{}|{}", Spaced(permutation), Spaced(inverse))?;
    } else {
        write!(out, "|")?;
    }
    let fate = fate(permutation, inverse, lists, scratch);
    writeln!(out, "|{}|{fate}", outcome.statistics)
}

fn replay_all<W: Write>(out: &mut W, xs: &[i32]) -> io::Result<()> {
    let mut left = xs;
    while !left.is_empty() {
        let Some((case, rest)) = split_first_case(left) else {
            return writeln!(out, "the last case is not whole");
        };
        replay_case(out, &case)?;
        left = rest;
    }
    Ok(())
}

fn main(rt: HostRuntime) -> io::Result<()> {
    let mut out = rt.stdout();
    let mut bytes = [0; MOST_BYTES];
    prove!(bytes.len() == 131072);
    let size = text::read_full(&mut rt.stdin(), &mut bytes)?;
    let mut numbers = [0; MOST_NUMBERS];
    prove!(numbers.len() == 49152);
    match text::read_numbers(&bytes[..size], &mut numbers) {
        Ok(count) => replay_all(&mut out, &numbers[..count]),
        Err(_) => writeln!(out, "the cases are not numbers, or too many"),
    }
}
