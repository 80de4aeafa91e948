// The ordering of a pattern: its promise is that of the definition, for all inputs.
#![tactic(auto)]

ghost use Rattle.std.specs.Prelude.{◌≡◌, true, false, ◌≤◌};
ghost use Rattle.plain.specs.Lists.{is_none};
ghost use Rattle.definition.specs.Limits.{base_limits};
ghost use Rattle.definition.specs.Threshold.{rule_of, threshold};
ghost use Rattle.definition.specs.Answers.{accepts, answer_of, or_full_rows};
ghost use Rattle.definition.specs.Promise.{problem_of, after};
ghost use Rattle.cells.specs.Space.{space};
ghost use Rattle.numbers.specs.Meaning.{answer_meant};
ghost use Rattle.ordering.specs.Left.{lent, left};
ghost use Rattle.ordering.specs.Course.{Course};
ghost use Rattle.ordering.specs.Meets.{Meets};

use cells::Memory;
use numbers::{Answer, Outcome, Settings, Statistics};
use pattern::Columns;

// The cells of `lists` and of `scratch` that n columns and nnz entries need, 0 outside the limits.
pub use checks::{lists_room, scratch_room};

// ---- the numbers of a run

// The dense threshold of n columns.
#[tactic(auto, unfolding(definition::specs::Answers::or_full_rows))]
fn limit_of(settings: Settings, n: usize) -> usize
    requires { (n ≤ base_limits.most_columns) × (is_none (rule_of settings.multiplier) ≡ false) }
    ensures { result ≡ threshold (or_full_rows (rule_of settings.multiplier)) n }
{
    let rule = numbers::dense_rule(settings);
    numbers::threshold(rule, n)
}

// So many cells of lists that no pattern fills them, with no collection: what is behind them is cleared, and not used.
const MOST_LISTS: usize = 0x2000_0000_0000_0000;

// ---- the ordering

// The pattern is taken, its graph eliminated, and the tree that this leaves put in order. The two outputs stay two lent slices, as `order` takes them. That the
// multiplier has a rule stays a clause: the settings hold any f64, a form that the user named.
fn order_pattern(
    m: &mut Memory,
    pattern: Columns,
    settings: Settings,
    permutation: &mut [i32],
    inverse: &mut [i32],
    jumbled: bool,
) -> Statistics
    requires { ((space m.old).n ≤ base_limits.most_columns) × (is_none (rule_of settings.multiplier) ≡ false) }
    ensures { Course (space m.old).n pattern.entry.pointers.now pattern.entry.rows.now settings jumbled (space m.old).lists
        (space m.old).scratch permutation.old inverse.old permutation.new inverse.new result }
{
    let free = pattern::take_pattern(m, pattern, jumbled);
    let limit = limit_of(settings, m.columns());
    let e = elimination::eliminate(m, limit, free, settings.aggressive);
    tree::order_tree(m, e.merges, permutation, inverse);
    e.statistics
}

// The same of a problem that was given the answer `a`, an accepted one; of no columns there is nothing to write. It takes what `order` takes, the user's form.
fn order_columns(
    n: i32,
    pointers: &[i32],
    rows: &[i32],
    settings: Settings,
    permutation: &mut [i32],
    inverse: &mut [i32],
    lists: &mut [i64],
    scratch: &mut [i64],
    a: Answer,
) -> Statistics
    requires answered { answer_meant a ≡ answer_of (problem_of (lent n pointers.now rows.now settings permutation.old inverse.old lists.old scratch.old)) }
    requires accepted { accepts (answer_meant a) ≡ true }
    ensures { Meets (lent n pointers.now rows.now settings permutation.old inverse.old lists.old scratch.old) permutation.new inverse.new result }
{
    let columns = n as usize;
    if columns == 0 {
        return numbers::no_statistics();
    }
    let size = lists.len().min(MOST_LISTS);
    let mut m = Memory::new(columns, &mut lists[..size], scratch);
    let pattern = Columns { pointers, rows };
    order_pattern(
        &mut m,
        pattern,
        settings,
        permutation,
        inverse,
        a.is_jumbled(),
    )
}

// The same, and both workspaces are cleared.
fn order_accepted(
    n: i32,
    pointers: &[i32],
    rows: &[i32],
    settings: Settings,
    permutation: &mut [i32],
    inverse: &mut [i32],
    lists: &mut [i64],
    scratch: &mut [i64],
    a: Answer,
) -> Outcome
    requires answered { answer_meant a ≡ answer_of (problem_of (lent n pointers.now rows.now settings permutation.old inverse.old lists.old scratch.old)) }
    requires accepted { accepts (answer_meant a) ≡ true }
    ensures { left result permutation.new inverse.new lists.new scratch.new ≡ after (lent n pointers.now rows.now settings permutation.old inverse.old lists.old scratch.old) }
{
    let x = order_columns(
        n,
        pointers,
        rows,
        settings,
        permutation,
        inverse,
        lists,
        scratch,
        a,
    );
    cells::clear(lists);
    cells::clear(scratch);
    Outcome {
        answer: a,
        statistics: x,
    }
}

// The ordering of the pattern of `n` columns, or the answer for which it is refused: for all inputs.
pub fn order(
    n: i32,
    pointers: &[i32],
    rows: &[i32],
    settings: Settings,
    permutation: &mut [i32],
    inverse: &mut [i32],
    lists: &mut [i64],
    scratch: &mut [i64],
) -> Outcome
    ensures { left result permutation.new inverse.new lists.new scratch.new ≡ after (lent n pointers.now rows.now settings permutation.old inverse.old lists.old scratch.old) }
{
    let a = checks::check(
        n,
        pointers,
        rows,
        settings,
        permutation.len(),
        inverse.len(),
        lists.len(),
        scratch.len(),
    );
    if a.is_accepted() {
        return order_accepted(
            n,
            pointers,
            rows,
            settings,
            permutation,
            inverse,
            lists,
            scratch,
            a,
        );
    }
    numbers::refusal(a)
}
