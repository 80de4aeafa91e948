// The degree lists of the elimination: doubly linked, one for each degree, in the fields HEAD, NEXT, LAST and DEGREE of the scratch. The null link is n, where
// a store does nothing: so the models (`relinked`, `headed`) and the theorems on them have it, and no Option. Nothing here asks for lists that make sense: a
// contract is the function's own model, and the laws of `proofs/` say what it does to the lists.
#![tactic(auto)]

ghost use Rattle.std.specs.Prelude.{◌≡◌, ◌<◌, ◌^◌, max, IfSome, IfNone};
ghost use Rattle.cells.specs.Space.{space};
ghost use Rattle.cells.specs.View.{Room};
ghost use Rattle.chain.specs.Model.{relinked, removed, headed, pushed, emptied, enlisted_one, enlisted_all};
ghost use Rattle.chain.specs.First.{First};

use cells::{Field, Memory};

// A row and the degree of the list that it is the front of.
#[derive(Clone, Copy)]
pub struct Pivot {
    pub me: usize,
    pub degree: usize,
}

// What stood before row `i`, or the head of its list where nothing did, goes on at `after`.
#[tactic(auto, unfolding(crate::specs::Model::relinked))]
fn relink(s: &mut [i64], n: usize, i: usize, before: usize, after: usize)
    requires { Room n s.old × (i < n) × (after < 2 ^ 63) }
    ensures { (s.new ≡ relinked n s.old i before after) × Room n s.new }
{
    if before < n {
        cells::set(s, n, Field::Next, before, after);
    } else {
        let d = cells::get(s, n, Field::Degree, i);
        cells::up(s, n, Field::Head, d, after);
    }
}

// Takes row `i` out of the list that it stands in, wherever it stands there: over the scratch alone, since a gather shares the list space.
#[tactic(auto, unfolding(crate::specs::Model::removed))]
pub fn take_out(s: &mut [i64], n: usize, i: usize)
    requires { Room n s.old × (i < n) }
    ensures { (s.new ≡ removed n s.old i) × Room n s.new }
{
    let before = cells::get(s, n, Field::Last, i);
    let after = cells::get(s, n, Field::Next, i);
    cells::up(s, n, Field::Last, after, before);
    relink(s, n, i, before, after);
}

// Row `i` becomes the front of the list of degree `d`, which becomes its degree, before the row `front`.
#[tactic(auto, unfolding(crate::specs::Model::headed))]
fn head_list(m: &mut Memory, d: usize, front: usize, i: usize)
    requires { (d < (space m.old).n) × (front < 2 ^ 63) × (i < (space m.old).n) }
    ensures { space m.new ≡ record (space m.old) { scratch = headed (space m.old).n (space m.old).scratch d front i } }
{
    let n = m.columns();
    m.set(Field::Next, i, front);
    m.set(Field::Last, i, n);
    m.set(Field::Degree, i, d);
    m.set(Field::Head, d, i);
}

// Puts row `i` to the front of the list of degree `d`. What stood there is told last, since there may be nothing.
#[tactic(auto, unfolding(crate::specs::Model::pushed))]
pub fn put_front(m: &mut Memory, d: usize, i: usize)
    requires { (d < (space m.old).n) × (i < (space m.old).n) }
    ensures { space m.new ≡ record (space m.old) { scratch = pushed (space m.old).n (space m.old).scratch d i } }
{
    let front = m.get(Field::Head, d);
    head_list(m, d, front, i);
    m.up(Field::Last, front, i);
}

// The front of the first list at or after the degree `least` that has one, and its degree. The search yields them by `break`: the user named this form.
pub fn find_pivot(m: &Memory, least: usize) -> Option<Pivot>
    ensures first { IfSome result (λ p. First (space m.now).n (space m.now).scratch least p.me p.degree) }
    ensures row { IfSome result (λ p. p.me < (space m.now).n) }
    ensures degree { IfSome result (λ p. p.degree < 2 ^ 63) }
    ensures none { IfNone result (First (space m.now).n (space m.now).scratch least (space m.now).n (max least (space m.now).n)) }
{
    let n = m.columns();
    let mut d = least;
    loop {
        if n <= d {
            break None;
        }
        let front = m.get(Field::Head, d);
        if front < n {
            break Some(Pivot {
                me: front,
                degree: d,
            });
        }
        d += 1;
    }
}

// No list has a front.
#[tactic(auto, unfolding(crate::specs::Model::emptied))]
fn empty_lists(m: &mut Memory)
    ensures { space m.new ≡ record (space m.old) { scratch = emptied (space m.old).n (space m.old).scratch } }
{
    let n = m.columns();
    m.fill(Field::Head, n);
}

// Puts row `i` to the front of the list of its length: a row of length 0 and a row longer than the limit go into no list, and there is none for a row as long
// as `n`.
#[tactic(auto, unfolding(crate::specs::Model::enlisted_one))]
fn enlist(m: &mut Memory, limit: usize, i: usize)
    requires { i < (space m.old).n }
    ensures { space m.new ≡ record (space m.old) { scratch = enlisted_one (space m.old).n limit i (space m.old).scratch } }
{
    let d = m.get(Field::Len, i);
    if 0 < d && d <= limit && d < m.columns() {
        put_front(m, d, i);
    }
}

// The lists at the start: each row of a length from 1 to `limit`, in ascending order.
#[tactic(auto, using(plain::proofs::Turns::turns), unfolding(crate::specs::Model::enlisted_all))]
pub fn enlist_all(m: &mut Memory, limit: usize)
    ensures { space m.new ≡ record (space m.old) { scratch = enlisted_all (space m.old).n limit (space m.old).scratch } }
{
    empty_lists(m);
    for i in 0..m.columns() {
        enlist(m, limit, i);
    }
}
