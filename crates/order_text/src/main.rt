// Orders a pattern that is read as text: decimal numbers, white space between them: n, then the n+1 pointers, then the rows. n is at most 128, and at most
// 1,024 rows are taken; a wrong text is said in one line. What is printed is the outcome at multiplier 10, aggressive, in the least room: the answer; the
// permutation, empty on a refusal; the seven statistics.
#![tactic(auto)]

ghost use Rattle.std.specs.Prelude.{◌≤◌};
ghost use Rattle.order_text.specs.declared.TheConstants.{MOST_COLUMNS, MOST_ROWS};

use numbers::Settings;
use std::error::Error;
use std::io::Write;
use std::{fmt, io};
use text::{Fault, Spaced};

const SETTINGS: Settings = Settings {
    multiplier: 10.0,
    aggressive: true,
};

// The memory is fixed, and there is no heap: a rule of the project. So each slice has a most length, and a part of it is lent.
const MOST_COLUMNS: usize = 128;

const MOST_ROWS: usize = 1024;

const MOST_LISTS: usize = 2 * MOST_ROWS + MOST_COLUMNS;

const MOST_SCRATCH: usize = MOST_ROWS + 16 * MOST_COLUMNS + 16;

// n, the pointers and the rows of the largest text.
const MOST_NUMBERS: usize = MOST_COLUMNS + 2 + MOST_ROWS;

// A text that fills so many bytes is too long.
const TEXT_ROOM: usize = 65536;

// Why a text is no pattern that the program takes.
#[derive(Clone, Copy, PartialEq, Eq, Debug)]
enum Refusal {
    LongText,
    Text(Fault),
    NoCount,
    NegativeCount,
    ManyColumns,
    FewPointers,
    ManyRows,
    NegativeEntries,
    ManyEntries,
}

impl fmt::Display for Refusal {
    fn fmt<W: fmt::Write>(&self, f: &mut fmt::Formatter<W>) -> fmt::Result {
        match self {
            Refusal::LongText => write!(f, "the text is too long: at most 65535 bytes"),
            Refusal::Text(fault) => write!(f, "{fault}"),
            Refusal::NoCount => write!(f, "too few numbers: n is missing"),
            Refusal::NegativeCount => write!(f, "n is below 0"),
            Refusal::ManyColumns => write!(f, "n is above 128"),
            Refusal::FewPointers => write!(f, "too few numbers: the pointers are n + 1"),
            Refusal::ManyRows => write!(f, "too many numbers: the rows are at most 1024"),
            Refusal::NegativeEntries => write!(f, "the last pointer is below 0"),
            Refusal::ManyEntries => write!(f, "the last pointer is above 1024"),
        }
    }
}

impl Error for Refusal {}

impl From<Fault> for Refusal {
    fn from(fault: Fault) -> Refusal {
        Refusal::Text(fault)
    }
}

// A pattern that fits the program's arrays, with n and the last pointer as counts.
#[derive(Clone, Copy)]
struct Input<'a> {
    n: i32,
    pointers: &'a [i32],
    rows: &'a [i32],
    columns: usize,
    entries: usize,
    ghost columns_few: { columns ≤ MOST_COLUMNS },
    ghost entries_few: { entries ≤ MOST_ROWS },
}

impl<'a> Input<'a> {
    // Of the numbers n, the pointers, the rows.
    fn of_numbers(xs: &'a [i32]) -> Result<Input<'a>, Refusal> {
        let Some((&n, rest)) = xs.split_first() else {
            return Err(Refusal::NoCount);
        };
        let Ok(columns) = usize::try_from(n) else {
            return Err(Refusal::NegativeCount);
        };
        if columns > MOST_COLUMNS {
            return Err(Refusal::ManyColumns);
        }
        if rest.len() < columns + 1 {
            return Err(Refusal::FewPointers);
        }
        let (pointers, rows) = rest.split_at(columns + 1);
        if rows.len() > MOST_ROWS {
            return Err(Refusal::ManyRows);
        }
        let Ok(entries) = usize::try_from(pointers[columns]) else {
            return Err(Refusal::NegativeEntries);
        };
        if entries > MOST_ROWS {
            return Err(Refusal::ManyEntries);
        }
        Ok(Input {
            n,
            pointers,
            rows,
            columns,
            entries,
        })
    }

    // Of a text whose numbers go into `numbers`.
    fn of_text(text: &[u8], numbers: &'a mut [i32]) -> Result<Input<'a>, Refusal> {
        if text.len() == TEXT_ROOM {
            return Err(Refusal::LongText);
        }
        let count = text::read_numbers(text, numbers)?;
        Input::of_numbers(&numbers[..count])
    }

    #[tactic(auto, using(crate::proofs::Rooms::lists_few))]
    fn lists_room(&self) -> usize
        ensures { result ≤ MOST_LISTS }
    {
        ordering::lists_room(self.columns as i64, self.entries as i64)
    }

    #[tactic(auto, using(crate::proofs::Rooms::scratch_few))]
    fn scratch_room(&self) -> usize
        ensures { result ≤ MOST_SCRATCH }
    {
        ordering::scratch_room(self.columns as i64, self.entries as i64)
    }
}

fn order_input<W: Write>(out: &mut W, input: &Input<'_>) -> io::Result<()> {
    let mut permutation = [0; MOST_COLUMNS];
    let mut inverse = [0; MOST_COLUMNS];
    let mut lists = [0; MOST_LISTS];
    let mut scratch = [0; MOST_SCRATCH];
    // The sizes as numbers, here and in `main`: a constant alone is held by nothing.
    prove!(permutation.len() == 128);
    prove!(inverse.len() == 128);
    prove!(lists.len() == 2176);
    prove!(scratch.len() == 3088);
    let outcome = ordering::order(
        input.n,
        input.pointers,
        input.rows,
        SETTINGS,
        &mut permutation[..input.columns],
        &mut inverse[..input.columns],
        &mut lists[..input.lists_room()],
        &mut scratch[..input.scratch_room()],
    );
    writeln!(out, "{}", i32::from(outcome.answer))?;
    if outcome.answer.is_accepted() {
        write!(out, "{}", Spaced(&permutation[..input.columns]))?;
    }
    writeln!(out)?;
    writeln!(out, "{}", outcome.statistics)
}

fn main(rt: HostRuntime) -> io::Result<()> {
    let mut out = rt.stdout();
    let mut bytes = [0; TEXT_ROOM];
    prove!(bytes.len() == 65536);
    let size = text::read_full(&mut rt.stdin(), &mut bytes)?;
    let mut numbers = [0; MOST_NUMBERS];
    prove!(numbers.len() == 1154);
    match Input::of_text(&bytes[..size], &mut numbers) {
        Ok(input) => order_input(&mut out, &input),
        Err(refusal) => writeln!(out, "{refusal}"),
    }
}
