// Step 6 of the elimination: the survivors of a new element get their degrees and go to the front of their lists, and the pivot's row becomes the element.
// Nothing here asks for a memory that makes sense: a contract is the function's own model, and the laws of `proofs/` say what it does to the graph.
#![tactic(auto)]

ghost use Rattle.std.specs.Prelude.{◌≡◌, ◌<◌, ◌≤◌, ◌^◌};
ghost use Rattle.cells.specs.Space.{space, SameLists, SameSize};
ghost use Rattle.cells.specs.Layout.{NV};
ghost use Rattle.packed.specs.Gather.{cut, kept_part};
ghost use Rattle.placing.specs.Model.{degree_of, spot, placed_row, placed_all, sealed, marked, finished};

use cells::{Field, Memory, Part};

// How many rows survive in the new element, and the least degree.
#[derive(Clone, Copy)]
pub struct Restored {
    pub count: usize,
    pub least: usize,
}

// The new element's weight and how many variables are left bound each degree; they are two of the four numbers of `placed_all`, which takes them apart.
// The degree of a row of degree `old` and weight `own` in a new element of weight `size`, where `left` variables are left.
#[tactic(auto, unfolding(crate::specs::Model::degree_of))]
fn new_degree(old: usize, size: usize, left: usize, own: usize) -> usize
    requires { (old < 2 ^ 63) × (size < 2 ^ 63) }
    ensures degree { result ≡ degree_of old size left own }
    ensures small { result ≤ left }
{
    let most = (old + size).min(left);
    most.saturating_sub(own)
}

// Row `i`, of weight `own`, is wanted again, and goes to the front of the list of its new degree. The result is the least degree.
#[tactic(auto, unfolding(crate::specs::Model::placed_row, crate::specs::Model::enlisted_at))]
fn restore_row(
    m: &mut Memory,
    size: usize,
    left: usize,
    i: usize,
    own: usize,
    least: usize,
) -> usize
    requires { (size < 2 ^ 63) × (left < (space m.old).n) × (i < (space m.old).n) × (own < 2 ^ 63) × (least < 2 ^ 63) }
    ensures placed { spot (space m.new).scratch result ≡ placed_row (space m.old).n size left i own (spot (space m.old).scratch least) }
    ensures lists { SameLists (space m.old) (space m.new) }
    ensures small { result < 2 ^ 63 }
{
    let d = new_degree(m.get(Field::Degree, i), size, left, own);
    m.set(Field::Want, i, own);
    chain::put_front(m, d, i);
    least.min(d)
}

// The survivors among the rows of the part: each is placed, and they alone are kept there. A merged row has no weight, and is no survivor.
pub fn restore(m: &mut Memory, size: usize, left: usize, part: Part, start: usize) -> Restored
    requires { (size < 2 ^ 63) × (left < (space m.old).n) × (start < 2 ^ 63) }
    ensures placed { spot (space m.new).scratch result.least
        ≡ placed_all (space m.old).n size left (space m.old).lists part.from part.len (spot (space m.old).scratch start) }
    ensures kept { cut (space m.new).lists result.count ≡ kept_part (space m.old).n NV (space m.old).scratch part.from part.len (space m.old).lists }
    ensures same { SameSize (space m.old) (space m.new) }
    ensures small { (result.count < 2 ^ 63) × (result.least < 2 ^ 63) }
{
    let mut r = Restored {
        count: 0,
        least: start,
    };
    for q in part.from..part.from + m.clip(part) {
        let i = m.row(q);
        let own = m.get(Field::Nv, i);
        if 0 < own {
            r.least = restore_row(m, size, left, i, own, r.least);
            m.put_row(part.from + r.count, i);
            r.count += 1;
        }
    }
    r
}

// Row `p` as an element of `count` rows, whose weight is `size`.
#[tactic(auto, unfolding(crate::specs::Model::sealed))]
fn seal_element(m: &mut Memory, p: usize, size: usize, count: usize)
    requires { (p < (space m.old).n) × (size < 2 ^ 63) × (count < 2 ^ 63) }
    ensures { space m.new ≡ record (space m.old) { scratch = sealed (space m.old).n (space m.old).scratch p size count } }
{
    let all = cells::plus(m.get(Field::Nv, p), size);
    m.set(Field::Len, p, count);
    m.set(Field::Degree, p, size);
    m.set(Field::Elen, p, all);
}

// An element that has rows is there; one without is no more, and has no parent.
#[tactic(auto, unfolding(crate::specs::Model::marked))]
fn mark_element(m: &mut Memory, p: usize, count: usize)
    requires { p < (space m.old).n }
    ensures { space m.new ≡ record (space m.old) { scratch = marked (space m.old).n (space m.old).scratch p count } }
{
    if 0 < count {
        m.set(Field::W, p, 1);
    } else {
        m.set(Field::W, p, 0);
        m.set_parent(p, None);
    }
}

// Row `p` becomes the element of `count` rows, whose weight is `size`.
#[tactic(auto, unfolding(crate::specs::Model::finished))]
pub fn finish_element(m: &mut Memory, p: usize, size: usize, count: usize)
    requires { (p < (space m.old).n) × (size < 2 ^ 63) × (count < 2 ^ 63) }
    ensures { space m.new ≡ record (space m.old) { scratch = finished (space m.old).n (space m.old).scratch p size count } }
{
    seal_element(m, p, size, count);
    mark_element(m, p, count);
}
