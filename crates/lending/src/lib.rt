// Who lends slices to a `Memory` knows afterwards what they hold: what an accessor and the three steps of an ordering promise of a memory is promised here of
// the slices that were lent to it, and no more is asked than of the memory. No program runs these: they show what the clauses of the steps are worth.
// A slice that was lent is lent on as here. Beside an array of one's own a list space of no cells is named first (`let none: &mut [i64] = &mut [];`); a part of
// a slice is named too, and its length used once more behind the block of its memory.
#![tactic(auto, unfolding(cells::specs::Space::space))]

ghost use Rattle.std.specs.Prelude.{◌≡◌, ◌<◌, ◌^◌};
ghost use Rattle.plain.specs.Turns.{times};
ghost use Rattle.cells.specs.Field.{field_number};
ghost use Rattle.cells.specs.Rows.{Rows};
ghost use Rattle.cells.specs.View.{Room, up};
ghost use Rattle.pattern.specs.Model.{heap, tidied, built, built_free};
ghost use Rattle.elimination.specs.Runs.{Whole};
ghost use Rattle.tree.specs.Final.{Outputs};

use cells::{Field, Memory};
use elimination::Eliminated;
use pattern::Columns;

// A field of every node; a scratch alone is lent beside a list space of no cells.
pub fn fill(s: &mut [i64], n: usize, field: Field, v: usize)
    requires { Room n s.old × (v < 2 ^ 63) }
    ensures { (s.new ≡ times n (λ i t. up n (field_number field) t i v) s.old) × Room n s.new }
{
    let mut m = Memory::over(n, &mut [], s);
    m.fill(field, v);
}

// The pattern and its graph.
pub fn take_pattern(
    lists: &mut [i64],
    s: &mut [i64],
    n: usize,
    pattern: Columns,
    jumbled: bool,
) -> usize
    requires { Room n s.old × Rows n lists.old }
    ensures memory { heap lists.new s.new ≡ built n lists.old (tidied n pattern.entry.pointers.now pattern.entry.rows.now jumbled s.old) }
    ensures free { result ≡ built_free n lists.old (tidied n pattern.entry.pointers.now pattern.entry.rows.now jumbled s.old) }
    ensures fits { Room n s.new × Rows n lists.new × (result < 2 ^ 63) }
{
    let mut m = Memory::over(n, lists, s);
    pattern::take_pattern(&mut m, pattern, jumbled)
}

// The elimination: all that it is made of keeps the two slices that were lent.
pub fn eliminate(
    lists: &mut [i64],
    s: &mut [i64],
    n: usize,
    limit: usize,
    free: usize,
    aggressive: bool,
) -> Eliminated
    requires { Room n s.old × Rows n lists.old × (free < 2 ^ 63) }
    ensures { Whole n limit free aggressive lists.old s.old lists.new s.new result × Room n s.new × Rows n lists.new }
{
    let mut m = Memory::over(n, lists, s);
    elimination::eliminate(&mut m, limit, free, aggressive)
}

// The tree that it leaves, put in order.
pub fn order_tree(
    s: &mut [i64],
    n: usize,
    count: usize,
    permutation: &mut [i32],
    inverse: &mut [i32],
)
    requires { Room n s.old × (n < 2 ^ 31) }
    ensures { Outputs n count s.old permutation.old inverse.old permutation.new inverse.new }
{
    let mut m = Memory::over(n, &mut [], s);
    tree::order_tree(&mut m, count, permutation, inverse);
}
