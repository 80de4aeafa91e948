// From the built lists to the first pivot, and from a pivot's choice to its gathered element. Every row begins as a variable of weight 1 in the list of its
// degree; a row without neighbours is an element at once, and a dense row leaves. Then, for each pivot, its new element is gathered, whose rows leave their
// degree lists, and its elements are taken up by it. A contract is the function's own model, and the laws of `proofs/` say what it does. The null link of a
// bucket is n, as in chain: so the model `marked` and the theorems on it have it, and no Option.
#![tactic(auto)]

ghost use Rattle.std.specs.Prelude.{◌≡◌, ◌<◌, ◌^◌};
ghost use Rattle.cells.specs.View.{up};
ghost use Rattle.cells.specs.Space.{space, SameLists, SameSize};
ghost use Rattle.cells.specs.Layout.{WANT};
ghost use Rattle.chain.specs.Model.{removed};
ghost use Rattle.packed.specs.Gather.{outside};
ghost use Rattle.opening.specs.Start.{weighed, marked, begun, begun_all, rooted, left_out, setting, set_one, set_all, opened};
ghost use Rattle.opening.specs.Begin.{gathered_alone, gathered, pivoted};

use cells::{Field, Memory};
use packed::{Extent, Made};
use std::marker::Model;

// ---- the start

// Row `i` stands for itself alone, and has no elements.
#[tactic(auto, unfolding(crate::specs::Start::weighed))]
fn weigh(m: &mut Memory, i: usize)
    ensures { space m.new ≡ record (space m.old) { scratch = weighed (space m.old).n i (space m.old).scratch } }
{
    m.up(Field::Nv, i, 1);
    m.up(Field::Want, i, 1);
    m.up(Field::Elen, i, 0);
}

// The degree of row `i` is its length, its mark is 1, and no row has the key `i`.
#[tactic(auto, unfolding(crate::specs::Start::marked))]
fn mark(m: &mut Memory, i: usize)
    ensures { space m.new ≡ record (space m.old) { scratch = marked (space m.old).n i (space m.old).scratch } }
{
    let d = m.rd(Field::Len, i);
    m.up(Field::Degree, i, d);
    m.up(Field::W, i, 1);
    m.up(Field::HHead, i, m.columns());
}

// Row `i` begins.
#[tactic(auto, unfolding(crate::specs::Start::begun))]
fn start_row(m: &mut Memory, i: usize)
    ensures { space m.new ≡ record (space m.old) { scratch = begun (space m.old).n i (space m.old).scratch } }
{
    weigh(m, i);
    mark(m, i);
}

// Every row begins.
#[tactic(auto, unfolding(plain::specs::Turns::times, crate::specs::Start::begun_all))]
fn start_rows(m: &mut Memory)
    ensures { space m.new ≡ record (space m.old) { scratch = begun_all (space m.old).n (space m.old).scratch } }
{
    for i in 0..m.columns() {
        start_row(m, i);
    }
}

// Row `i`, which has no neighbours, is an element of size 1, and a root.
#[tactic(auto, unfolding(crate::specs::Start::rooted))]
fn set_root(m: &mut Memory, i: usize)
    ensures { space m.new ≡ record (space m.old) { scratch = rooted (space m.old).n i (space m.old).scratch } }
{
    m.up(Field::Want, i, 0);
    m.up(Field::Elen, i, 1);
    m.up(Field::W, i, 0);
    m.put_parent(i, None);
}

// Row `i`, which is dense, leaves with no parent.
#[tactic(auto, unfolding(crate::specs::Start::left_out))]
fn set_dense(m: &mut Memory, i: usize)
    ensures { space m.new ≡ record (space m.old) { scratch = left_out (space m.old).n i (space m.old).scratch } }
{
    m.up(Field::Nv, i, 0);
    m.up(Field::Want, i, 0);
    m.up(Field::Len, i, 0);
    m.put_parent(i, None);
}

// The rows that are no variables from the start: those without neighbours, and the dense ones. Both are numbers of a cell.
#[derive(Clone, Copy, Default)]
pub struct Aside {
    pub roots: usize,
    pub dense: usize,
}

impl Model for Aside {
    ghost use Rattle.opening.specs.Aside.{Exceptions, Slight};

    ghost Value = { Exceptions };

    ghost view = { λ a. record { roots = a.roots; dense = a.dense } };

    ghost invariant = { λ a. Slight (record { roots = a.roots; dense = a.dense }) };

    ghost inverse = { λ e. record { roots = e.roots; dense = e.dense } };
}

// Row `i` is set aside, if it is to be.
#[tactic(auto, unfolding(crate::specs::Start::set_one, crate::specs::Start::set_dense, crate::specs::Start::set_root))]
fn set_one(m: &mut Memory, limit: usize, i: usize, a: Aside) -> Aside
    ensures set { setting (space m.new).scratch result ≡ set_one (space m.old).n limit i (setting (space m.old).scratch a) }
    ensures lists { SameLists (space m.old) (space m.new) }
{
    match m.rd(Field::Len, i) {
        0 => {
            set_root(m, i);
            Aside {
                roots: cells::plus(a.roots, 1),
                ..a
            }
        }
        d if limit < d => {
            set_dense(m, i);
            Aside {
                dense: cells::plus(a.dense, 1),
                ..a
            }
        }
        _ => a,
    }
}

// Every row that is to be is set aside.
#[tactic(auto, unfolding(plain::specs::Turns::times, crate::specs::Start::set_all))]
fn set_aside(m: &mut Memory, limit: usize) -> Aside
    ensures set { setting (space m.new).scratch result ≡ set_all (space m.old).n limit (space m.old).scratch }
    ensures lists { SameLists (space m.old) (space m.new) }
{
    let mut a = Aside::default();
    for i in 0..m.columns() {
        a = set_one(m, limit, i, a);
    }
    a
}

// The start: what the elimination finds, where LEN and PE are those of the built lists.
#[tactic(auto, unfolding(crate::specs::Start::opened))]
pub fn start(m: &mut Memory, limit: usize) -> Aside
    ensures opened { setting (space m.new).scratch result ≡ opened (space m.old).n limit (space m.old).scratch }
    ensures lists { SameLists (space m.old) (space m.new) }
{
    start_rows(m);
    chain::enlist_all(m, limit);
    set_aside(m, limit)
}

// ---- a pivot's beginning

// The new element of a pivot without elements, in its own place, which is stored anew: whoever asks for a parent there finds none.
#[tactic(auto, unfolding(crate::specs::Begin::gathered_alone))]
fn gather_alone(m: &mut Memory, me: usize, e: Extent) -> Made
    requires { (me < (space m.old).n) × (e.free < 2 ^ 63) × (e.made < 2 ^ 63) }
    ensures gathered { outside (space m.new).lists (space m.new).scratch result
        ≡ gathered_alone (space m.old).n me e.base e.free e.made (space m.old).lists (space m.old).scratch }
    ensures size { SameSize (space m.old) (space m.new) }
{
    let start = m.get(Field::Pe, me);
    let count = packed::gather_in_place(m, me);
    m.set(Field::Pe, me, start);
    Made {
        start,
        count,
        free: e.free,
        base: e.base,
        made: e.made,
        collected: 0,
    }
}

// The new element of a pivot: one with elements takes them up, and gets a place behind all others.
#[tactic(auto, unfolding(crate::specs::Begin::gathered))]
fn gather(m: &mut Memory, me: usize, e: Extent) -> Made
    requires { (me < (space m.old).n) × (e.free < 2 ^ 63) × (e.made < 2 ^ 63) }
    ensures gathered { outside (space m.new).lists (space m.new).scratch result
        ≡ gathered (space m.old).n me e.base e.free e.made (space m.old).lists (space m.old).scratch }
    ensures size { SameSize (space m.old) (space m.new) }
{
    if 0 < m.get(Field::Elen, me) {
        packed::gather_outside(m, me, e)
    } else {
        gather_alone(m, me, e)
    }
}

// The pivot `me` leaves its degree list and is wanted no more.
#[tactic(auto, unfolding(cells::specs::Space::space))]
fn leave(m: &mut Memory, me: usize)
    requires { me < (space m.old).n }
    ensures { space m.new ≡ record (space m.old) { scratch = up (space m.old).n WANT (removed (space m.old).n (space m.old).scratch me) me 0 } }
{
    chain::take_out(m.fields, m.columns, me);
    m.set(Field::Want, me, 0);
}

// The pivot `me` leaves its degree list and is wanted no more, and its new element is gathered, whose rows leave their degree lists.
#[tactic(auto, unfolding(crate::specs::Begin::pivoted))]
pub fn begin_pivot(m: &mut Memory, me: usize, e: Extent) -> Made
    requires { (me < (space m.old).n) × (e.free < 2 ^ 63) × (e.made < 2 ^ 63) }
    ensures gathered { outside (space m.new).lists (space m.new).scratch result
        ≡ pivoted (space m.old).n me e.base e.free e.made (space m.old).lists (space m.old).scratch }
    ensures size { SameSize (space m.old) (space m.new) }
{
    leave(m, me);
    gather(m, me, e)
}
