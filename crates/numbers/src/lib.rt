// What speaks of numbers only: the settings and the dense rule read from them, the answers, the threshold, the statistics.
#![tactic(auto)]

ghost use Rattle.std.specs.Prelude.{◌≡◌, false, [], ◌∷◌, ◌+◌, ◌<◌, ◌≤◌, ◌^◌, min, leb, pos, eqb, Some, map, MatchResult};
ghost use Rattle.std.specs.Fmt.{decimal};
ghost use Rattle.std.specs.List.{join_with_byte};
ghost use Rattle.std.proofs.Math.Option.{some, none};
ghost use Rattle.plain.specs.Lists.{is_none};
ghost use Rattle.definition.specs.Limits.{base_limits};
ghost use Rattle.definition.specs.Answers.{number_of, accepts, or_full_rows};
ghost use Rattle.definition.specs.Threshold.{multiplier, rule_of, start, threshold};
ghost use Rattle.definition.specs.Statistics.{gain_q, gain_s, no_six};
ghost use Rattle.definition.specs.Outcome.{seven, refused};
ghost use Rattle.numbers.specs.Meaning.{answer_meant, rule_meant, Accepted, statistics_meant, outcome_meant};
ghost use Rattle.numbers.specs.Gains.{begun, gained, roomy, added_element, counted, Small};

use std::fmt;

#[derive(Clone, Copy)]
pub struct Settings {
    pub multiplier: f64,
    pub aggressive: bool,
}

// The dense rule read from the settings. That a multiplier is an accepted one stays a clause (`Accepted`): an enum can have no invariant.
#[derive(Clone, Copy)]
pub enum DenseRule {
    FullRows,
    Multiplier(f64),
}

// Why a multiplier has no dense rule.
#[derive(Clone, Copy, PartialEq, Eq, Debug)]
pub struct WrongMultiplier;

#[derive(Clone, Copy, PartialEq, Eq, Debug)]
pub enum Answer {
    Ordered,
    OrderedJumbled,
    WrongCount,
    WrongMultiplier,
    WrongOutputs,
    WrongPointers,
    WrongRows,
    WrongRoom,
}

#[derive(Clone, Copy, Default, PartialEq, Eq, Debug)]
pub struct Statistics {
    pub lnz: u64,
    pub n_div: u64,
    pub n_mult_subs_ldl: u64,
    pub n_mult_subs_lu: u64,
    pub n_dense: u64,
    pub d_max: u64,
    pub n_cmp_a: u64,
}

// The seven numbers, with one blank between.
impl fmt::Display for Statistics {
    ghost output = { λ s. Some (join_with_byte 32 (map decimal (s.lnz ∷ s.n_div ∷ s.n_mult_subs_ldl ∷ s.n_mult_subs_lu ∷ s.n_dense ∷ s.d_max ∷ s.n_cmp_a ∷ []))) };

    fn fmt<W: fmt::Write>(&self, f: &mut fmt::Formatter<W>) -> fmt::Result {
        write!(
            f,
            "{} {} {} {} {} {} {}",
            self.lnz,
            self.n_div,
            self.n_mult_subs_ldl,
            self.n_mult_subs_lu,
            self.n_dense,
            self.d_max,
            self.n_cmp_a,
        )
    }
}

#[derive(Clone, Copy, PartialEq, Eq, Debug)]
pub struct Outcome {
    pub answer: Answer,
    pub statistics: Statistics,
}

// ---- the limits

// The most columns that a pattern may have. These two numbers are the only place of the code that has the limits; functions, since a constant has no promise
// (docs/DECISIONS.md, 37).
#[tactic(auto, unfolding(definition::specs::Limits::base_limits))]
pub fn most_columns() -> usize
    ensures { result ≡ base_limits.most_columns }
{
    2_000_000
}

// The most entries that a pattern may have.
#[tactic(auto, unfolding(definition::specs::Limits::base_limits))]
pub fn most_entries() -> usize
    ensures { result ≡ base_limits.most_entries }
{
    20_000_000
}

// ---- answers

impl Answer {
    // Whether the pattern is ordered: answers 0 and 1.
    pub fn is_accepted(self) -> bool
        ensures { result ≡ accepts (answer_meant self) }
    {
        matches!(self, Answer::Ordered | Answer::OrderedJumbled)
    }

    // Whether it is ordered though a column does not rise: answer 1.
    #[tactic(auto, unfolding(definition::specs::Answers::number_of))]
    pub fn is_jumbled(self) -> bool
        ensures { result ≡ eqb (number_of (answer_meant self)) 1 }
    {
        matches!(self, Answer::OrderedJumbled)
    }
}

// The number of an answer in the table.
impl From<Answer> for i32 {
    ghost from_gives = { λ a number. number ≡ pos (number_of (answer_meant a)) };

    #[tactic(auto, unfolding(definition::specs::Answers::number_of))]
    fn from(a: Answer) -> i32 {
        match a {
            Answer::Ordered => 0,
            Answer::OrderedJumbled => 1,
            Answer::WrongCount => 2,
            Answer::WrongMultiplier => 3,
            Answer::WrongOutputs => 4,
            Answer::WrongPointers => 5,
            Answer::WrongRows => 6,
            Answer::WrongRoom => 7,
        }
    }
}

// The derived default with a promise: its zeros are the definition's numbers of no element.
#[tactic(auto, unfolding(crate::specs::Meaning::statistics_meant, definition::specs::Outcome::seven))]
pub fn no_statistics() -> Statistics
    ensures { statistics_meant result ≡ seven no_six 0 }
{
    Statistics::default()
}

// What a refusal gives: the answer, and nothing else. No From: an accepted answer has no outcome without its statistics.
#[tactic(auto, unfolding(crate::specs::Meaning::outcome_meant, definition::specs::Outcome::refused))]
pub fn refusal(a: Answer) -> Outcome
    ensures { outcome_meant result [] [] ≡ refused (answer_meant a) }
{
    Outcome {
        answer: a,
        statistics: no_statistics(),
    }
}

// ---- the dense rule

// The rule that a multiplier stands for. None does: not a number, infinite, above 1,000, or not below zero and not a whole number of quarters.
impl TryFrom<f64> for DenseRule {
    type Error = WrongMultiplier;

    ghost try_from_gives = { λ x r. MatchResult r (λ rule. (rule_of x ≡ some (rule_meant rule)) × Accepted rule) (λ _. rule_of x ≡ none) };

    fn try_from(x: f64) -> Result<DenseRule, WrongMultiplier> {
        if !x.is_finite() || 1000.0 < x {
            return Err(WrongMultiplier);
        }
        if x < 0.0 {
            return Ok(DenseRule::FullRows);
        }
        // The remainder by a quarter would be C's fmod; four times x is exact, and whole where x is a whole number of quarters.
        let quarters = x * 4.0;
        if quarters.trunc() != quarters {
            return Err(WrongMultiplier);
        }
        Ok(DenseRule::Multiplier(x))
    }
}

// Whether there is no dense rule for the multiplier: answer 3 as a test, which stands as a theorem of its own.
pub fn multiplier_wrong(x: f64) -> bool
    ensures { result ≡ is_none (rule_of x) }
{
    DenseRule::try_from(x).is_err()
}

// The dense rule of settings whose multiplier is not refused. It stands over `try_from` for its promise, which docs/DECISIONS.md (46) names.
#[tactic(auto, unfolding(definition::specs::Answers::or_full_rows))]
pub fn dense_rule(s: Settings) -> DenseRule
    requires { is_none (rule_of s.multiplier) ≡ false }
    ensures { (rule_meant result ≡ or_full_rows (rule_of s.multiplier)) × Accepted result }
{
    DenseRule::try_from(s.multiplier).unwrap()
}

// ---- the dense threshold

// t² at most multiplier² · n, in floats: every operation is exact.
#[tactic(auto, using(crate::proofs::Squares::within_start, crate::proofs::Rules::quartered), unfolding(definition::specs::Limits::base_limits))]
fn within(t: usize, x: f64, n: usize) -> bool
    requires { (t ≤ n) × (n ≤ base_limits.most_columns) × (rule_of x ≡ some (multiplier x)) }
    ensures { result ≡ leb t (start (multiplier x) n) }
{
    let a = t as f64;
    let b = n as f64;
    a * a <= x * x * b
}

// The largest t with t² at most multiplier² · n, or n if that is less: the numbers left are halved until there is one, so no index is counted.
#[tactic(auto, unfolding(definition::specs::Limits::base_limits))]
fn root(x: f64, n: usize) -> usize
    requires { (n ≤ base_limits.most_columns) × (rule_of x ≡ some (multiplier x)) }
    ensures { result ≡ min n (start (multiplier x) n) }
{
    let mut low = 0;
    let mut high = n + 1;
    while low + 1 < high {
        let middle = (low + high) / 2;
        if within(middle, x, n) {
            low = middle;
        } else {
            high = middle;
        }
    }
    low
}

// Where the threshold starts from, but at most n.
#[tactic(auto, unfolding(definition::specs::Threshold::start))]
fn start_of(rule: DenseRule, n: usize) -> usize
    requires { (n ≤ base_limits.most_columns) × Accepted rule }
    ensures { min n result ≡ min n (start (rule_meant rule) n) }
{
    match rule {
        DenseRule::FullRows => n.saturating_sub(2),
        DenseRule::Multiplier(x) => root(x, n),
    }
}

// The threshold: at least 16, then at most n.
#[tactic(auto, unfolding(definition::specs::Threshold::threshold))]
pub fn threshold(rule: DenseRule, n: usize) -> usize
    requires { (n ≤ base_limits.most_columns) × Accepted rule }
    ensures { result ≡ threshold (rule_meant rule) n }
{
    start_of(rule, n).max(16).min(n)
}

// ---- the statistics

// Of no element yet, with the dense rows counted.
#[tactic(auto, unfolding(crate::specs::Meaning::statistics_meant, crate::specs::Gains::begun))]
pub fn first_statistics(dense: usize) -> Statistics
    ensures { statistics_meant result ≡ begun dense }
{
    Statistics {
        n_dense: dense as u64,
        d_max: 1,
        ..Statistics::default()
    }
}

// An element's pivots f and its rows r below them stay two numbers, as the statistics' formulas have them.
// q = f·r + (f-1)·f/2, signed: at f = 0 the factor f-1 is negative and the gain is 0.
fn gain_q(f: usize, r: usize) -> u64
    requires { f + r ≤ base_limits.most_columns }
    ensures { (result ≡ gain_q f r) × (result ≤ 2 ^ 62) }
{
    let f = f as i64;
    let r = r as i64;
    (f * r + (f - 1) * f / 2) as u64
}

// s = f·r² + r·(f-1)·f + (f-1)·f·(2f-1)/6, signed. The last product made whole would not fit for the largest f: (f-1)·f is even, so it is halved first,
// and a third of the rest is taken at the end.
fn gain_s(f: usize, r: usize) -> u64
    requires { f + r ≤ base_limits.most_columns }
    ensures { (result ≡ gain_s f r) × (result ≤ 2 ^ 62) }
{
    let f = f as i64;
    let r = r as i64;
    (f * r * r + r * (f - 1) * f + (f - 1) * f / 2 * (2 * f - 1) / 3) as u64
}

// With the gains of one more element, of f pivots and r rows below them.
#[tactic(auto, unfolding(crate::specs::Gains::gained, crate::specs::Meaning::statistics_meant, definition::specs::Statistics::gain_ldl, definition::specs::Limits::base_limits))]
pub fn with_element(s: Statistics, f: usize, r: usize) -> Statistics
    requires { Small s × (f + r ≤ base_limits.most_columns) }
    ensures { statistics_meant result ≡ gained f r (statistics_meant s) }
{
    let q = gain_q(f, r);
    let p = gain_s(f, r);
    Statistics {
        lnz: s.lnz + q,
        n_div: s.n_div + q,
        n_mult_subs_ldl: s.n_mult_subs_ldl + (p + q) / 2,
        n_mult_subs_lu: s.n_mult_subs_lu + p,
        d_max: s.d_max.max((f + r) as u64),
        ..s
    }
}

// The most that a total may be for one more gain, at most 2 ^ 62, to fit.
const MOST_TOTAL: u64 = 0x8000_0000_0000_0000;

// Have the totals room for one more element?
#[tactic(auto, unfolding(crate::specs::Gains::roomy, crate::specs::Meaning::statistics_meant))]
fn roomy(s: Statistics) -> bool
    ensures { result ≡ roomy (statistics_meant s) }
{
    s.lnz <= MOST_TOTAL
        && s.n_div <= MOST_TOTAL
        && s.n_mult_subs_ldl <= MOST_TOTAL
        && s.n_mult_subs_lu <= MOST_TOTAL
}

// The same of any numbers: an element that no accepted pattern has is not counted.
#[tactic(auto, unfolding(crate::specs::Gains::added_element, crate::specs::Gains::roomy, crate::specs::Meaning::statistics_meant))]
pub fn add_element(s: Statistics, f: usize, r: usize) -> Statistics
    requires { (f < 2 ^ 63) × (r < 2 ^ 63) }
    ensures { statistics_meant result ≡ added_element f r (statistics_meant s) }
{
    if f + r <= most_columns() && roomy(s) {
        with_element(s, f, r)
    } else {
        s
    }
}

// With the collections that happened.
#[tactic(auto, unfolding(crate::specs::Meaning::statistics_meant, crate::specs::Gains::counted))]
pub fn with_collections(s: Statistics, count: u64) -> Statistics
    ensures { statistics_meant result ≡ counted count (statistics_meant s) }
{
    Statistics {
        n_cmp_a: count,
        ..s
    }
}
