// Step 3 of the elimination: the external sizes of the elements that the rows of the new element have, by counters in the marks. A mark at the flag or above
// is a counter: the flag, and what is left of the element's weight. A mark below it is no counter yet; 0 is an element that is no more.
// Nothing here asks for a memory that makes sense: a contract is the function's own model, and the laws of `proofs/` say what it finds. The list space is
// only read, so all of it stands over the two workspaces, and the list space is shared.
#![tactic(auto)]

ghost use Rattle.std.specs.Prelude.{◌≡◌, ◌+◌, ◌^◌, ◌<◌, ◌≤◌, length};
ghost use Rattle.cells.specs.Layout.{NV};
ghost use Rattle.cells.specs.Rows.{Rows};
ghost use Rattle.cells.specs.View.{Room, at, rd};
ghost use Rattle.sizing.specs.Model.{sized_first, sized_element, sized_at, sized_part, sized_list, sized_row, sized_all, fitted, weighed_rows};

use cells::{Field, Part};

// What a row takes from the counters of its elements: its weight, which is not above the flag.
#[derive(Clone, Copy)]
pub struct Charge {
    pub weight: usize,
    pub flag: usize,
    ghost light: { weight ≤ flag },
    ghost small: { flag < 2 ^ 63 },
}

// The counter of `e` begins at its weight, and loses that of the first row. Where that is no number of a cell, nothing is done.
#[tactic(auto, unfolding(crate::specs::Model::sized_first))]
pub fn size_first(s: &mut [i64], n: usize, e: usize, charge: Charge)
    requires { Room n s.old × (e < n) }
    ensures { (s.new ≡ sized_first n charge.weight charge.flag e s.old) × Room n s.new }
{
    let d = cells::get(s, n, Field::Degree, e);
    let left = d + (charge.flag - charge.weight);
    if left < 0x8000_0000_0000_0000 {
        cells::set(s, n, Field::W, e, left);
    }
}

// A row of this weight has the element `e`.
#[tactic(auto, unfolding(crate::specs::Model::sized_element))]
pub fn size_element(s: &mut [i64], n: usize, e: usize, charge: Charge)
    requires { Room n s.old × (e < n) }
    ensures { (s.new ≡ sized_element n charge.weight charge.flag e s.old) × Room n s.new }
{
    let mark = cells::get(s, n, Field::W, e);
    if charge.flag <= mark {
        cells::set(s, n, Field::W, e, mark - charge.weight);
    } else if 0 < mark {
        size_first(s, n, e, charge);
    }
}

// The same of the element in cell `q` of the lists.
#[tactic(auto, unfolding(crate::specs::Model::sized_at))]
pub fn size_at(lists: &[i64], s: &mut [i64], n: usize, q: usize, charge: Charge)
    requires { Room n s.old × Rows n lists.now × (q < length lists.now) }
    ensures { (s.new ≡ sized_at n lists.now charge.weight charge.flag q s.old) × Room n s.new }
{
    let e = cells::row(lists, n, q);
    size_element(s, n, e, charge);
}

// The same of each of the elements in a part of the lists.
#[tactic(auto, unfolding(plain::specs::Turns::times, crate::specs::Model::sized_part))]
pub fn size_elements(lists: &[i64], s: &mut [i64], n: usize, part: Part, charge: Charge)
    requires { Room n s.old × Rows n lists.now × (part.from + part.len ≤ length lists.now) }
    ensures { (s.new ≡ sized_part n lists.now charge.weight charge.flag part.from part.len s.old) × Room n s.new }
{
    for t in 0..part.len {
        size_at(lists, s, n, part.from + t, charge);
    }
}

// The same, if all of them are there and the weight is not above the flag: asked once for all of them.
#[tactic(auto, unfolding(crate::specs::Model::sized_list))]
fn size_list(lists: &[i64], s: &mut [i64], n: usize, part: Part, weight: usize, flag: usize)
    requires memory { Room n s.old × Rows n lists.now }
    requires start { part.from < 2 ^ 63 }
    requires count { part.len < 2 ^ 63 }
    requires small { flag < 2 ^ 63 }
    ensures { (s.new ≡ sized_list n lists.now weight flag part.from part.len s.old) × Room n s.new }
{
    if part.from + part.len <= lists.len() && weight <= flag {
        size_elements(lists, s, n, part, Charge { weight, flag });
    }
}

// The elements of the row in cell `q` of the lists. The result is the row's weight.
#[tactic(auto, unfolding(crate::specs::Model::sized_row, crate::specs::Model::sized_of))]
pub fn size_row(lists: &[i64], s: &mut [i64], n: usize, q: usize, flag: usize) -> usize
    requires memory { Room n s.old × Rows n lists.now }
    requires cell { q < length lists.now }
    requires small { flag < 2 ^ 63 }
    ensures sized { (s.new ≡ sized_row n lists.now flag q s.old) × Room n s.new }
    ensures weight { result ≡ rd n NV s.old (at lists.now q) }
    ensures small { result < 2 ^ 63 }
{
    let i = cells::row(lists, n, q);
    let weight = cells::get(s, n, Field::Nv, i);
    let elements = Part {
        from: cells::get(s, n, Field::Pe, i),
        len: cells::get(s, n, Field::Elen, i),
    };
    size_list(lists, s, n, elements, weight, flag);
    weight
}

// A sum that is a number of a cell; any other one makes no sense, and counts as 0.
#[tactic(auto, unfolding(crate::specs::Model::fitted))]
fn fit(sum: usize) -> usize
    ensures { (result ≡ fitted sum) × (result < 2 ^ 63) }
{
    if sum < 0x8000_0000_0000_0000 { sum } else { 0 }
}

// Those of each of the rows in a part of the lists: the rows of the new element. The result is their weight.
#[tactic(auto, unfolding(plain::specs::Turns::times, cells::specs::Rows::clipped, crate::specs::Model::sized_all, crate::specs::Model::weighed_rows))]
pub fn size_all(lists: &[i64], s: &mut [i64], n: usize, part: Part, flag: usize) -> usize
    requires memory { Room n s.old × Rows n lists.now }
    requires small { flag < 2 ^ 63 }
    ensures sized { (s.new ≡ sized_all n lists.now flag part.from part.len s.old) × Room n s.new }
    ensures weight { result ≡ weighed_rows n lists.now s.old part.from part.len }
    ensures small { result < 2 ^ 63 }
{
    let mut sum: usize = 0;
    for t in 0..cells::clip(lists.len(), part) {
        let weight = size_row(lists, s, n, part.from + t, flag);
        sum = sum.wrapping_add(weight);
    }
    fit(sum)
}
