// Decimal numbers as text: read from bytes, and written. A number is a minus sign or none, then digits; white space stands between two numbers.
// What is read is promised whole (`read_numbers`). What `Spaced` and a fault print is promised too.
#![tactic(auto)]

ghost use Rattle.std.specs.Prelude.{◌≡◌, ◌≤◌, ◌<◌, ◌^◌, length, take, ℕ, IfOk, IfErr, Some};
ghost use Rattle.std.specs.Io.KnownBytes.{Consumes, IsAtEnd};
ghost use Rattle.text.specs.Numerals.{blank, longer, grown, signed, page, kept, ended, stepped, read_text, reading_of, Small, Within};
ghost use Rattle.text.specs.Printed.{fault_text, floored, spaced};

use std::error::Error;
use std::io::Read;
use std::{fmt, io};

// Why a text is no list of numbers.
#[derive(Clone, Copy, PartialEq, Eq, Debug)]
pub enum Fault {
    NotNumber,
    TooLarge,
    TooMany,
}

impl fmt::Display for Fault {
    ghost output = { λ f. Some (fault_text f) };

    fn fmt<W: fmt::Write>(&self, f: &mut fmt::Formatter<W>) -> fmt::Result {
        match self {
            Fault::NotNumber => write!(f, "not a decimal number"),
            Fault::TooLarge => write!(f, "a number is not below 2147483648"),
            Fault::TooMany => write!(f, "too many numbers: the rows are at most 1024"),
        }
    }
}

impl Error for Fault {}

// What the bytes read so far end in; a number that is open has its sign and its digits' value, as specs/Numerals has them: one signed value would lose the sign
// of -05. That the value is below 2^31 stays a clause (`Small`): an enum can have no invariant.
#[derive(Clone, Copy)]
pub enum Place {
    Between,
    Minus,
    Digits(bool, usize),
}

// So many numbers, and where the text stands behind them.
#[derive(Clone, Copy)]
pub struct Scan {
    pub count: usize,
    pub place: Place,
}

// No number reaches 2^31.
const END: usize = 0x8000_0000;

// ---- reading

// `is_ascii_whitespace` takes form feed too, which is no white space here.
#[tactic(auto, unfolding(crate::specs::Numerals::blank))]
fn is_blank(b: u8) -> bool
    ensures { result ≡ blank b }
{
    matches!(b, b' ' | b'\t' | b'\n' | b'\r')
}

// The number `value` with the digit `b` behind it.
#[tactic(auto, unfolding(crate::specs::Numerals::longer))]
fn longer(negative: bool, value: usize, b: u8) -> Result<Place, Fault>
    requires { (value < 2 ^ 31) × (48 ≤ b) }
    ensures { (result ≡ longer negative value b) × IfOk result Small }
{
    let more = 10 * value + usize::from(b - b'0');
    if more < END {
        Ok(Place::Digits(negative, more))
    } else {
        Err(Fault::TooLarge)
    }
}

// A byte that is not white space.
#[tactic(auto, unfolding(crate::specs::Numerals::grown, crate::specs::Numerals::with_digit, crate::specs::Numerals::with_other))]
fn grown(place: Place, b: u8) -> Result<Place, Fault>
    requires { Small place }
    ensures { (result ≡ grown place b) × IfOk result Small }
{
    match (place, b) {
        (Place::Between, b'-') => Ok(Place::Minus),
        (Place::Between, b'0'..=b'9') => longer(false, 0, b),
        (Place::Minus, b'0'..=b'9') => longer(true, 0, b),
        (Place::Digits(negative, value), b'0'..=b'9') => longer(negative, value, b),
        _ => Err(Fault::NotNumber),
    }
}

#[tactic(auto, unfolding(crate::specs::Numerals::signed))]
fn signed(negative: bool, value: usize) -> i32
    requires { value < 2 ^ 31 }
    ensures { result ≡ signed negative value }
{
    let x = value as i32;
    if negative { -x } else { x }
}

// A number is stored where there is room for it.
#[tactic(auto, unfolding(crate::specs::Numerals::kept))]
fn kept(out: &mut [i32], count: usize, x: i32) -> Result<Scan, Fault>
    ensures { (page out.new result ≡ kept out.old count x) × IfOk result (λ s. s.place ≡ Place.Between) }
{
    if count < out.len() {
        out[count] = x;
        Ok(Scan {
            count: count + 1,
            place: Place::Between,
        })
    } else {
        Err(Fault::TooMany)
    }
}

// A word ends, if there is one.
#[tactic(auto, unfolding(crate::specs::Numerals::ended))]
fn ended(out: &mut [i32], scan: Scan) -> Result<Scan, Fault>
    requires { Small scan.place }
    ensures { (page out.new result ≡ ended out.old scan.count scan.place) × IfOk result (λ s. s.place ≡ Place.Between) }
{
    match scan.place {
        Place::Between => Ok(scan),
        Place::Minus => Err(Fault::NotNumber),
        Place::Digits(negative, value) => kept(out, scan.count, signed(negative, value)),
    }
}

// A byte.
#[tactic(auto, unfolding(crate::specs::Numerals::stepped))]
fn step(out: &mut [i32], scan: Scan, b: u8) -> Result<Scan, Fault>
    requires { Small scan.place }
    ensures { (page out.new result ≡ stepped (page out.old (Ok scan)) b) × IfOk result (λ s. Small s.place) }
{
    if is_blank(b) {
        ended(out, scan)
    } else {
        let place = grown(scan.place, b)?;
        Ok(Scan { place, ..scan })
    }
}

// The numbers of `text`, into `out` from its start: a lent slice and a count, no Vec, since the memory is fixed.
pub fn read_numbers(text: &[u8], out: &mut [i32]) -> Result<usize, Fault>
    ensures { (out.new ≡ (read_text text.now out.old).cells) × (result ≡ reading_of (read_text text.now out.old).scan) × Within result (length out.new) }
{
    let mut scan = Scan {
        count: 0,
        place: Place::Between,
    };
    for &b in text {
        scan = step(out, scan, b)?;
    }
    let whole = ended(out, scan)?;
    Ok(whole.count)
}

// Reads into `bytes` from its start, until it is full or the input ends: how many bytes there are. They are the next of the input, where those are known.
pub fn read_full<R: Read>(input: &mut R, bytes: &mut [u8]) -> io::Result<usize>
    ensures within { IfOk result (λ n. n ≤ length bytes.new) }
    ensures read { IfOk result (λ n. Consumes (R.remaining input.old) (R.remaining input.new) (take n bytes.new)) }
    ensures failed { IfErr result (λ _. (n : ℕ) × (n ≤ length bytes.new) × Consumes (R.remaining input.old) (R.remaining input.new) (take n bytes.new)) }
    ensures whole { IfOk result (λ n. n < length bytes.new → IsAtEnd (R.remaining input.new)) }
{
    let mut count = 0;
    // No `for`: how many bytes a read gives is known behind it alone.
    while count < bytes.len() {
        let more = input.read(&mut bytes[count..])?;
        if more == 0 {
            break;
        }
        count += more;
    }
    Ok(count)
}

// ---- writing

// A negative number becomes 0.
#[tactic(auto, unfolding(crate::specs::Printed::floored))]
fn floored(x: i32) -> i32
    ensures { result ≡ floored x }
{
    x.max(0)
}

// Prints numbers, one blank between two. A negative one is printed as 0: no outcome has any.
#[derive(Clone, Copy)]
pub struct Spaced<'a>(pub &'a [i32]);

impl fmt::Display for Spaced<'_> {
    ghost output = { λ s. Some (spaced s.0.now) };

    fn fmt<W: fmt::Write>(&self, f: &mut fmt::Formatter<W>) -> fmt::Result {
        let mut between = "";
        for x in self.0 {
            let shown = floored(*x);
            write!(f, "{between}{shown}")?;
            between = " ";
        }
        Ok(())
    }
}
