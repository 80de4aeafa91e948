// What comes after the elimination (post_tree.rs, postorder.rs, the end of amd_2.rs): each merged row finds its element; what hangs under a row is put into a
// list, the other children before the largest and merged rows behind it; and one walk by an explicit stack writes the permutation and its inverse.
// The roots, and behind them the dense rows, hang under n, which is no row.
// `column` and `put_column` are here the table FIRST of docs/LAYOUT.md: the first that hangs under a row. The walk's stack is a table of the scratch too, since
// the memory is fixed.
#![tactic(auto)]

ghost use Rattle.std.specs.Prelude.{◌≡◌, ◌<◌, ◌^◌};
ghost use Rattle.cells.specs.Space.{space, SameLists};
ghost use Rattle.cells.specs.View.{up};
ghost use Rattle.tree.specs.Class.{class_number};
ghost use Rattle.tree.specs.Final.{Outputs};
ghost use Rattle.tree.specs.Model.{above, owned, owned_all, blank_one, blanked, as_large, measured_under, measured_one, measured, largest_of, class_of, listed, threaded_one, threaded, prepared, sheets, placed, tour, deeper, top, higher, stepped, walked};

use cells::{Field, Memory};

// ---- owners

// What row `i` hangs under: its parent, or `n`.
#[tactic(auto, unfolding(crate::specs::Model::above))]
fn above(m: &Memory, i: usize) -> usize
    ensures value { result ≡ above (space m.now).n (space m.now).scratch i }
    ensures small { result < 2 ^ 63 }
{
    m.parent(i).unwrap_or(m.columns())
}

// A row that was merged into a merged row gets that row's parent.
#[tactic(auto, unfolding(crate::specs::Model::owned, crate::specs::Model::above))]
fn own_one(m: &mut Memory, v: usize)
    ensures { space m.new ≡ record (space m.old) { scratch = owned (space m.old).n v (space m.old).scratch } }
{
    let p = above(m, v);
    if m.rd(Field::Nv, p) == 0 {
        let e = m.parent(p);
        m.put_parent(v, e);
    }
}

// The rows of the log, the last first: what a row was merged into has found its element before it.
#[tactic(auto, using(plain::proofs::Turns::turns_back), unfolding(crate::specs::Model::owned_all))]
fn own_all(m: &mut Memory, count: usize)
    ensures { space m.new ≡ record (space m.old) { scratch = owned_all (space m.old).n count (space m.old).scratch } }
{
    for t in (0..count).rev() {
        let v = m.rd(Field::Merges, t);
        own_one(m, v);
    }
}

// ---- the largest child

// Nothing hangs under `j`.
#[tactic(auto, unfolding(crate::specs::Model::blank_one))]
fn blank_one(m: &mut Memory, j: usize)
    ensures { space m.new ≡ record (space m.old) { scratch = blank_one (space m.old).n j (space m.old).scratch } }
{
    let n = m.columns();
    m.put_column(j, n);
    m.up(cells::LARGEST, j, n);
}

#[tactic(auto, using(plain::proofs::Turns::turns), unfolding(crate::specs::Model::blanked))]
fn blank(m: &mut Memory)
    ensures { space m.new ≡ record (space m.old) { scratch = blanked (space m.old).n (space m.old).scratch } }
{
    let n = m.columns();
    m.put_column(n, n);
    for j in 0..n {
        blank_one(m, j);
    }
}

// Is `j` not smaller than `b`?
#[tactic(auto, unfolding(crate::specs::Model::as_large))]
fn as_large(m: &Memory, b: usize, j: usize) -> bool
    ensures { result ≡ as_large (space m.now).n (space m.now).scratch b j }
{
    m.rd(Field::Elen, b) <= m.rd(Field::Elen, j)
}

// `j` is the largest child of `p` so far, if it is not smaller than the one before.
#[tactic(auto, unfolding(crate::specs::Model::measured_under))]
fn measure_under(m: &mut Memory, p: usize, j: usize)
    requires { j < 2 ^ 63 }
    ensures { space m.new ≡ record (space m.old) { scratch = measured_under (space m.old).n p j (space m.old).scratch } }
{
    let b = m.rd(cells::LARGEST, p);
    if as_large(m, b, j) {
        m.up(cells::LARGEST, p, j);
    }
}

// The same of an element and its parent.
#[tactic(auto, unfolding(crate::specs::Model::measured_one))]
fn measure_one(m: &mut Memory, j: usize)
    requires { j < 2 ^ 63 }
    ensures { space m.new ≡ record (space m.old) { scratch = measured_one (space m.old).n j (space m.old).scratch } }
{
    if 0 < m.rd(Field::Nv, j) {
        let p = above(m, j);
        measure_under(m, p, j);
    }
}

// The last of the largest children, of each element.
#[tactic(auto, using(plain::proofs::Turns::turns), unfolding(crate::specs::Model::measured))]
fn measure(m: &mut Memory)
    ensures { space m.new ≡ record (space m.old) { scratch = measured (space m.old).n (space m.old).scratch } }
{
    for j in 0..m.columns() {
        measure_one(m, j);
    }
}

// ---- what hangs under each

// Where a row stands among what hangs under the same one.
#[derive(Clone, Copy, PartialEq, Eq)]
enum Class {
    // A merged or a dense row, which has no weight.
    Light,
    // The largest child of an element.
    Largest,
    // Any other element.
    Other,
}

// Is `j` the largest child of `p`?
#[tactic(auto, unfolding(crate::specs::Model::largest_of))]
fn largest_of(m: &Memory, p: usize, j: usize) -> bool
    ensures { result ≡ largest_of (space m.now).n (space m.now).scratch p j }
{
    p < m.columns() && m.get(cells::LARGEST, p) == j
}

// The class of `j`.
#[tactic(auto, unfolding(crate::specs::Model::class_of))]
fn class_of(m: &Memory, j: usize) -> Class
    ensures { class_number result ≡ class_of (space m.now).n (space m.now).scratch j }
{
    if m.rd(Field::Nv, j) == 0 {
        Class::Light
    } else if largest_of(m, above(m, j), j) {
        Class::Largest
    } else {
        Class::Other
    }
}

// `j` becomes the first that hangs under `p`.
#[tactic(auto, unfolding(crate::specs::Model::listed))]
fn list_under(m: &mut Memory, p: usize, j: usize)
    requires { j < 2 ^ 63 }
    ensures { space m.new ≡ record (space m.old) { scratch = listed (space m.old).n p j (space m.old).scratch } }
{
    let first = m.column(p);
    m.up(cells::SIBLING, j, first);
    m.put_column(p, j);
}

// `j` becomes the first where it belongs, if it is of the class.
#[tactic(auto, unfolding(crate::specs::Model::threaded_one))]
fn thread_one(m: &mut Memory, class: Class, j: usize)
    requires { j < 2 ^ 63 }
    ensures { space m.new ≡ record (space m.old) { scratch = threaded_one (space m.old).n (class_number class) j (space m.old).scratch } }
{
    if class_of(m, j) == class {
        let p = above(m, j);
        list_under(m, p, j);
    }
}

// The rows of the class, the last first.
#[tactic(auto, using(plain::proofs::Turns::turns_back), unfolding(crate::specs::Model::threaded))]
fn thread(m: &mut Memory, class: Class)
    ensures { space m.new ≡ record (space m.old) { scratch = threaded (space m.old).n (class_number class) (space m.old).scratch } }
{
    for j in (0..m.columns()).rev() {
        thread_one(m, class, j);
    }
}

// Under each: the other children, the largest, merged rows. Under `n`: the roots, the dense rows.
#[tactic(auto, unfolding(crate::specs::Model::prepared))]
fn prepare(m: &mut Memory)
    ensures { space m.new ≡ record (space m.old) { scratch = prepared (space m.old).n (space m.old).scratch } }
{
    blank(m);
    measure(m);
    thread(m, Class::Light);
    thread(m, Class::Largest);
    thread(m, Class::Other);
}

// ---- the walk

// The row that comes next, or one that is none; how many rows the stack has; how many have their place.
#[derive(Clone, Copy)]
struct Walk {
    row: usize,
    depth: usize,
    done: usize,
}

// Row `v` stands at place `k`. The permutation and its inverse stay two slices: behind a `&mut` to a struct of both, a caller would know nothing of them
// afterwards without a clause that names what each reference lends.
#[tactic(auto, unfolding(crate::specs::Model::placed))]
fn place(permutation: &mut [i32], inverse: &mut [i32], n: usize, k: usize, v: usize)
    requires { n < 2 ^ 31 }
    ensures { sheets permutation.new inverse.new ≡ placed n k v (sheets permutation.old inverse.old) }
{
    if k < n && v < n {
        cells::put32(permutation, k, v);
        cells::put32(inverse, v, k);
    }
}

// The row goes on the stack, and what hangs under it comes next.
#[tactic(auto, unfolding(crate::specs::Model::deeper))]
fn enter(m: &mut Memory, w: Walk) -> Walk
    requires { w.row < 2 ^ 63 }
    ensures pushed { space m.new ≡ record (space m.old) { scratch = up (space m.old).n 10 (space m.old).scratch w.depth w.row } }
    ensures under { result ≡ deeper (space m.old).n (space m.old).scratch w }
{
    let first = m.column(w.row);
    m.up(cells::STACK, w.depth, w.row);
    Walk {
        row: first,
        depth: cells::plus(w.depth, 1),
        ..w
    }
}

// The row that the stack has on top.
#[tactic(auto, unfolding(crate::specs::Model::top))]
fn top(m: &Memory, w: Walk) -> usize
    ensures value { result ≡ top (space m.now).n (space m.now).scratch w }
    ensures small { result < 2 ^ 63 }
{
    m.rd(cells::STACK, w.depth.saturating_sub(1))
}

// It leaves the stack, and the one behind it comes next.
#[tactic(auto, unfolding(crate::specs::Model::higher))]
fn leave(m: &Memory, w: Walk, v: usize) -> Walk
    requires { v ≡ top (space m.now).n (space m.now).scratch w }
    ensures { result ≡ higher (space m.now).n (space m.now).scratch w }
{
    Walk {
        row: m.rd(cells::SIBLING, v),
        depth: w.depth.saturating_sub(1),
        done: cells::plus(w.done, 1),
    }
}

// One step: down to what hangs under a row, or on from a row that has its place now.
#[tactic(auto, unfolding(crate::specs::Model::stepped, crate::specs::Model::entered, crate::specs::Model::left_behind))]
fn step(m: &mut Memory, permutation: &mut [i32], inverse: &mut [i32], w: Walk) -> Walk
    requires { (space m.old).n < 2 ^ 31 }
    ensures stepped { tour (space m.new).scratch permutation.new inverse.new result
        ≡ stepped (space m.old).n (tour (space m.old).scratch permutation.old inverse.old w) }
    ensures lists { SameLists (space m.old) (space m.new) }
{
    let n = m.columns();
    if w.row < n {
        enter(m, w)
    } else if 0 < w.depth {
        let v = top(m, w);
        place(permutation, inverse, n, w.done, v);
        leave(m, w, v)
    } else {
        w
    }
}

// From the first that hangs under `n`: each row is entered once and left once.
#[tactic(auto, using(plain::proofs::Turns::turns), unfolding(crate::specs::Model::walked))]
fn walk_all(m: &mut Memory, permutation: &mut [i32], inverse: &mut [i32])
    requires { (space m.old).n < 2 ^ 31 }
    ensures written { sheets permutation.new inverse.new ≡ walked (space m.old).n (space m.old).scratch (sheets permutation.old inverse.old) }
    ensures lists { SameLists (space m.old) (space m.new) }
{
    let n = m.columns();
    let mut w = Walk {
        row: m.column(n),
        depth: 0,
        done: 0,
    };
    for _ in 0..2 * n {
        w = step(m, permutation, inverse, w);
    }
}

// The permutation and its inverse of what the elimination left, its log of merges being `count` long.
#[tactic(auto, using(crate::proofs::Written::outputs))]
pub fn order_tree(m: &mut Memory, count: usize, permutation: &mut [i32], inverse: &mut [i32])
    requires { (space m.old).n < 2 ^ 31 }
    ensures outputs { Outputs (space m.old).n count (space m.old).scratch permutation.old inverse.old permutation.new inverse.new }
    ensures lists { SameLists (space m.old) (space m.new) }
{
    own_all(m, count);
    prepare(m);
    walk_all(m, permutation, inverse);
}
