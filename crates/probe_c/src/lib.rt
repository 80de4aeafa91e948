// What `probe` gives, exported under the name that a host in Rust or C links.
#![tactic(auto)]

ghost use Rattle.std.specs.Prelude.{◌≡◌};
ghost use Rattle.definition.specs.Promise.{after};
ghost use Rattle.probe.specs.Told.{told, lent_by, seen};

// The ordering of the pattern of `n` columns, or the answer for which it is refused: the answer's number, for all inputs.
// Numbers and slices one by one, the answer as a number: it is the C interface.
#[unsafe(no_mangle)]
pub extern "C" fn order_probe(
    n: i32,
    pointers: &[i32],
    rows: &[i32],
    multiplier: f64,
    aggressive: bool,
    permutation: &mut [i32],
    inverse: &mut [i32],
    lists: &mut [i64],
    scratch: &mut [i64],
    statistics: &mut [u64],
) -> i32
    ensures { seen result permutation.new inverse.new lists.new scratch.new statistics.new ≡ told (after (lent_by n pointers.now rows.now multiplier aggressive permutation.old inverse.old lists.old scratch.old)) statistics.old }
{
    probe::order_probe(
        n,
        pointers,
        rows,
        multiplier,
        aggressive,
        permutation,
        inverse,
        lists,
        scratch,
        statistics,
    )
}
