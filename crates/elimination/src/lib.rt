// The elimination: pivot after pivot, each in six steps, until every variable is eliminated; and what its elements add to the statistics.
// Nothing here asks for a memory that makes sense: a contract is the function's own model, and the laws of `proofs/` say what it does to the graph.
#![tactic(auto)]

ghost use Rattle.std.specs.Prelude.{◌≡◌, ◌<◌, ◌^◌};
ghost use Rattle.cells.specs.View.{plus};
ghost use Rattle.cells.specs.Space.{space, SameSize};
ghost use Rattle.numbers.specs.Meaning.{statistics_meant};
ghost use Rattle.elimination.specs.Model.{reduction, reduced, meeting, met, free_end, placement, placed, left_of, next_turn, stage, settled, ended, pivot_step, element_counted, first_turn, closed};
ghost use Rattle.elimination.specs.Runs.{Turned, Ran, Whole};

use cells::{Field, Memory, Part};
use chain::Pivot;
use merging::Tally;
use numbers::Statistics;
use packed::Made;
use placing::Restored;
use std::marker::Model;
use trimming::Rule;

// What a pivot takes over from the one before: how many variables are gone, the least degree, the flag, the largest remaining weight of an element, the merges
// in the log, where the elements made at the free end begin, the free end, how many are made there, and the collections so far. All but `base` are numbers of
// a cell.
#[derive(Clone, Copy)]
pub struct Turn {
    pub gone: usize,
    pub least: usize,
    pub flag: usize,
    pub most: usize,
    pub merges: usize,
    pub base: usize,
    pub free: usize,
    pub made: usize,
    pub collections: usize,
}

impl Model for Turn {
    ghost use Rattle.elimination.specs.Turn.{Progress, Small};

    ghost Value = { Progress };

    ghost view = { λ t. record { gone = t.gone; least = t.least; flag = t.flag; most = t.most; merges = t.merges; base = t.base; free = t.free; made = t.made; collections = t.collections } };

    ghost invariant = { λ t. Small (record { gone = t.gone; least = t.least; flag = t.flag; most = t.most; merges = t.merges; base = t.base; free = t.free; made = t.made; collections = t.collections }) };

    ghost inverse = { λ v. record { gone = v.gone; least = v.least; flag = v.flag; most = v.most; merges = v.merges; base = v.base; free = v.free; made = v.made; collections = v.collections } };
}

// ---- steps 3 to 5

// The weight of the new element without the rows eliminated with the pivot, and how many merges are logged.
#[derive(Clone, Copy)]
pub struct Reduced {
    pub size: usize,
    pub merges: usize,
}

// Steps 3 and 4 for the new element of a rule's pivot, in the part of the lists.
#[tactic(auto, unfolding(cells::specs::Space::space, crate::specs::Model::reduced, crate::specs::Model::trimmed_rows))]
fn reduce(m: &mut Memory, r: Rule, part: Part, merges: usize) -> Reduced
    requires { (r.me < (space m.old).n) × (r.flag < 2 ^ 63) × (merges < 2 ^ 63) }
    ensures reduced { reduction (space m.new).lists (space m.new).scratch result
        ≡ reduced (space m.old).n r.me part.from part.len r.aggressive r.flag merges (space m.old).lists (space m.old).scratch }
    ensures size { SameSize (space m.old) (space m.new) }
    ensures small { (result.size < 2 ^ 63) × (result.merges < 2 ^ 63) }
{
    let rows = &mut *m.rows;
    let all = sizing::size_all(rows, m.fields, m.columns, part, r.flag);
    let t = trimming::update_all(m, r, part, merges);
    Reduced {
        size: all.saturating_sub(t.weight),
        merges: t.made,
    }
}

// A flag that no counter of step 3 reaches: a counter is the flag and at most the largest weight of an element. The sum has a name, as the edit
// `flag_not_raised` turns it.
fn raise_flag(flag: usize, most: usize) -> usize
    ensures { (result ≡ plus flag most) × (result < 2 ^ 63) }
{
    cells::plus(flag, most)
}

// The weight of the new element, and what it makes of the numbers that the next pivot takes over: all are numbers of a cell.
#[derive(Clone, Copy)]
pub struct Met {
    pub size: usize,
    pub most: usize,
    pub flag: usize,
    pub merges: usize,
}

impl Model for Met {
    ghost use Rattle.elimination.specs.Met.{Effects, Few};

    ghost Value = { Effects };

    ghost view = { λ x. record { size = x.size; most = x.most; flag = x.flag; merges = x.merges } };

    ghost invariant = { λ x. Few (record { size = x.size; most = x.most; flag = x.flag; merges = x.merges }) };

    ghost inverse = { λ v. record { size = v.size; most = v.most; flag = v.flag; merges = v.merges } };
}

// `aggressive` is a setting: it goes down to the one test that asks it (`Rule::swallows`), as the models have it.
// Steps 3 to 5. The flag rises above every counter of step 3 before step 5 marks with it.
#[tactic(auto, unfolding(crate::specs::Model::met, crate::specs::Model::compared))]
fn meet(m: &mut Memory, me: usize, part: Part, aggressive: bool, t: Turn) -> Met
    requires { me < (space m.old).n }
    ensures met { meeting (space m.new).lists (space m.new).scratch result
        ≡ met (space m.old).n me part.from part.len aggressive t (space m.old).lists (space m.old).scratch }
    ensures size { SameSize (space m.old) (space m.new) }
{
    let rule = Rule {
        me,
        flag: t.flag,
        aggressive,
    };
    let r = reduce(m, rule, part, t.merges);
    let most = t.most.max(r.size);
    let start = Tally {
        flag: raise_flag(t.flag, most),
        logged: r.merges,
    };
    let w = merging::merge_all(m, part, start);
    Met {
        size: r.size,
        most,
        flag: w.flag,
        merges: w.logged,
    }
}

// ---- step 6

// The free end after a new element of which `count` rows are left. That it was made there is told by the elements made, one more than the `made` before: the
// model has it so.
#[tactic(auto, unfolding(crate::specs::Model::free_end))]
fn free_end(new: Made, made: usize, count: usize) -> usize
    ensures { (result ≡ free_end new made count) × (result < 2 ^ 63) }
{
    if made < new.made {
        cells::plus(new.start, count)
    } else {
        new.free
    }
}

// The survivors of the new element are placed, `left` variables being left, and the pivot becomes the element.
#[tactic(auto, unfolding(crate::specs::Model::placed))]
fn place(m: &mut Memory, p: Pivot, new: Made, size: usize, left: usize) -> Restored
    requires { (p.me < (space m.old).n) × (p.degree < 2 ^ 63) × (size < 2 ^ 63) × (left < (space m.old).n) }
    ensures placed { placement (space m.new).lists (space m.new).scratch result
        ≡ placed (space m.old).n p.me p.degree new size left (space m.old).lists (space m.old).scratch }
    ensures size { SameSize (space m.old) (space m.new) }
    ensures small { (result.count < 2 ^ 63) × (result.least < 2 ^ 63) }
{
    let part = Part {
        from: new.start,
        len: new.count,
    };
    let r = placing::restore(m, size, left, part, p.degree);
    placing::finish_element(m, p.me, size, r.count);
    r
}

// How many variables are left of `n` when `gone` are gone: fewer than `n` in any case, as one is gone with every pivot.
#[tactic(auto, unfolding(crate::specs::Model::left_of))]
fn count_left(n: usize, gone: usize) -> usize
    requires { 0 < n }
    ensures { (result ≡ left_of n gone) × (result < n) }
{
    n.saturating_sub(gone.max(1))
}

// The numbers of the next turn.
#[tactic(auto, unfolding(crate::specs::Model::next_turn))]
fn next_turn(gone: usize, least: usize, free: usize, collections: usize, new: Made, x: Met) -> Turn
    requires { (gone < 2 ^ 63) × (least < 2 ^ 63) × (free < 2 ^ 63) × (collections < 2 ^ 63) }
    ensures { result ≡ next_turn gone least free collections new x }
{
    Turn {
        gone,
        least,
        flag: x.flag,
        most: x.most,
        merges: x.merges,
        base: new.base,
        free,
        made: new.made,
        collections,
    }
}

// Step 6 for the pivot, with its new element; `gone` variables are gone then.
#[tactic(auto, unfolding(crate::specs::Model::settled))]
fn settle(m: &mut Memory, p: Pivot, new: Made, x: Met, t: Turn, gone: usize) -> Turn
    requires { (p.me < (space m.old).n) × (p.degree < 2 ^ 63) × (gone < 2 ^ 63) }
    ensures settled { stage (space m.new).lists (space m.new).scratch result
        ≡ settled (space m.old).n p.me p.degree new x t gone (space m.old).lists (space m.old).scratch }
    ensures size { SameSize (space m.old) (space m.new) }
{
    let left = count_left(m.columns(), gone);
    let r = place(m, p, new, x.size, left);
    let free = free_end(new, t.made, r.count);
    let collections = cells::plus(t.collections, new.collected);
    next_turn(gone, r.least, free, collections, new, x)
}

// The same, where the pivot has all of its pivots in NV.
#[tactic(auto, unfolding(crate::specs::Model::ended))]
fn end_pivot(m: &mut Memory, p: Pivot, new: Made, x: Met, t: Turn) -> Turn
    requires { (p.me < (space m.old).n) × (p.degree < 2 ^ 63) }
    ensures ended { stage (space m.new).lists (space m.new).scratch result
        ≡ ended (space m.old).n p.me p.degree new x t (space m.old).lists (space m.old).scratch }
    ensures size { SameSize (space m.old) (space m.new) }
{
    let pivots = m.get(Field::Nv, p.me);
    let gone = cells::plus(t.gone, pivots);
    settle(m, p, new, x, t, gone)
}

// ---- one pivot

// Steps 2 to 6 for the pivot.
#[tactic(auto, unfolding(crate::specs::Model::pivot_step))]
fn eliminate_pivot(m: &mut Memory, p: Pivot, aggressive: bool, t: Turn) -> Turn
    requires { (p.me < (space m.old).n) × (p.degree < 2 ^ 63) }
    ensures step { stage (space m.new).lists (space m.new).scratch result
        ≡ pivot_step (space m.old).n p.me p.degree aggressive t (space m.old).lists (space m.old).scratch }
    ensures size { SameSize (space m.old) (space m.new) }
{
    let new = opening::begin_pivot(
        m,
        p.me,
        packed::Extent {
            base: t.base,
            free: t.free,
            made: t.made,
        },
    );
    let part = Part {
        from: new.start,
        len: new.count,
    };
    let x = meet(m, p.me, part, aggressive, t);
    end_pivot(m, p, new, x, t)
}

// With what the finished element `me` adds, where `dense` rows are dense.
#[tactic(auto, unfolding(crate::specs::Model::element_counted))]
fn count_element(m: &Memory, me: usize, dense: usize, x: Statistics) -> Statistics
    requires { me < (space m.now).n }
    ensures { statistics_meant result ≡ element_counted (space m.now).n me dense (space m.now).scratch (statistics_meant x) }
{
    let f = m.get(Field::Nv, me);
    let rest = m.get(Field::Degree, me);
    numbers::add_element(x, f, cells::plus(rest, dense))
}

// ---- the loop

// The numbers of the turn, and the statistics so far.
#[derive(Clone, Copy)]
pub struct Work {
    pub turn: Turn,
    pub statistics: Statistics,
}

// One pivot, if there is one: steps 1 to 6, and what its element adds.
#[tactic(auto, using(crate::proofs::Steps::turned_is, crate::proofs::Steps::turned_none))]
fn take_turn(m: &mut Memory, aggressive: bool, dense: usize, w: Work) -> Work
    ensures turned { Turned (space m.old).n aggressive dense (space m.old).lists (space m.old).scratch w (space m.new).lists (space m.new).scratch result }
    ensures size { SameSize (space m.old) (space m.new) }
{
    match chain::find_pivot(m, w.turn.least) {
        Some(p) => {
            let turn = eliminate_pivot(m, p, aggressive, w.turn);
            let statistics = count_element(m, p.me, dense, w.statistics);
            Work { turn, statistics }
        }
        None => w,
    }
}

// Turn after turn until all variables are gone: each takes one at least, so n are enough.
#[tactic(auto, using(crate::proofs::Steps::run_turns))]
fn eliminate_all(m: &mut Memory, aggressive: bool, dense: usize, start: Work) -> Work
    ensures ran { Ran (space m.old).n aggressive dense (space m.old).n (space m.old).lists (space m.old).scratch start (space m.new).lists
        (space m.new).scratch result }
    ensures size { SameSize (space m.old) (space m.new) }
{
    let n = m.columns();
    let mut w = start;
    for _ in 0..n {
        if n <= w.turn.gone {
            break;
        }
        w = take_turn(m, aggressive, dense, w);
    }
    w
}

// The numbers of the first turn: roots and dense rows are set aside, and the lists are packed up to `free`.
#[tactic(auto, unfolding(crate::specs::Model::first_turn))]
fn first_turn(roots: usize, dense: usize, free: usize) -> Turn
    requires { free < 2 ^ 63 }
    ensures { result ≡ first_turn (plus roots dense) free }
{
    let gone = cells::plus(roots, dense);
    Turn {
        gone,
        least: 0,
        flag: 2,
        most: 0,
        merges: 0,
        base: free,
        free,
        made: 0,
        collections: 0,
    }
}

// The statistics of all elements, and how many merges are logged.
#[derive(Clone, Copy)]
pub struct Eliminated {
    pub statistics: Statistics,
    pub merges: usize,
}

// With the dense rows as one last element, and the collections.
#[tactic(auto, unfolding(crate::specs::Model::closed))]
fn close_statistics(x: Statistics, dense: usize, collections: usize) -> Statistics
    requires { dense < 2 ^ 63 }
    ensures { statistics_meant result ≡ closed dense collections (statistics_meant x) }
{
    let y = numbers::add_element(x, dense, 0);
    numbers::with_collections(y, collections as u64)
}

// The whole elimination of the graph whose lists are packed up to `free`, `limit` being the dense threshold.
#[tactic(auto, using(crate::proofs::Steps::whole_is))]
pub fn eliminate(m: &mut Memory, limit: usize, free: usize, aggressive: bool) -> Eliminated
    requires { free < 2 ^ 63 }
    ensures whole { Whole (space m.old).n limit free aggressive (space m.old).lists (space m.old).scratch (space m.new).lists (space m.new).scratch result }
    ensures size { SameSize (space m.old) (space m.new) }
{
    let a = opening::start(m, limit);
    let start = Work {
        turn: first_turn(a.roots, a.dense, free),
        statistics: numbers::first_statistics(a.dense),
    };
    let w = eliminate_all(m, aggressive, a.dense, start);
    Eliminated {
        statistics: close_statistics(w.statistics, a.dense, w.turn.collections),
        merges: w.turn.merges,
    }
}
