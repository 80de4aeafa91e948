// The ordering for a host in Rust or C, as the tools that compare and time it call it: numbers and lent slices, the statistics in cells.
#![tactic(auto)]

ghost use Rattle.std.specs.Prelude.{◌≡◌, set};
ghost use Rattle.definition.specs.Promise.{after};
ghost use Rattle.numbers.specs.Meaning.{statistics_meant};
ghost use Rattle.probe.specs.Told.{seven_of, written, told, lent_by, seen};

use numbers::{Settings, Statistics};

// Cell `i` becomes `x`; nothing is done where there is no such cell.
fn put(cells: &mut [u64], i: usize, x: u64)
    ensures { cells.new ≡ set cells.old i x }
{
    if i < cells.len() {
        cells[i] = x;
    }
}

// The seven statistics, as many as fit; the cells behind them stay as they are. One by one: for a copy of so many, an archive for C needs `memcpy` from its
// host.
fn put_statistics(cells: &mut [u64], x: Statistics)
    ensures { cells.new ≡ written (seven_of (statistics_meant x)) cells.old }
{
    put(cells, 0, x.lnz);
    put(cells, 1, x.n_div);
    put(cells, 2, x.n_mult_subs_ldl);
    put(cells, 3, x.n_mult_subs_lu);
    put(cells, 4, x.n_dense);
    put(cells, 5, x.d_max);
    put(cells, 6, x.n_cmp_a);
}

// The ordering of the pattern of `n` columns, or the answer for which it is refused: the answer's number, for all inputs.
// Numbers and slices one by one, the answer as a number: it is the C interface, which `probe_c` exports.
pub fn order_probe(
    n: i32,
    pointers: &[i32],
    rows: &[i32],
    multiplier: f64,
    aggressive: bool,
    permutation: &mut [i32],
    inverse: &mut [i32],
    lists: &mut [i64],
    scratch: &mut [i64],
    statistics: &mut [u64],
) -> i32
    ensures { seen result permutation.new inverse.new lists.new scratch.new statistics.new ≡ told (after (lent_by n pointers.now rows.now multiplier aggressive permutation.old inverse.old lists.old scratch.old)) statistics.old }
{
    let settings = Settings {
        multiplier,
        aggressive,
    };
    let o = ordering::order(
        n,
        pointers,
        rows,
        settings,
        permutation,
        inverse,
        lists,
        scratch,
    );
    put_statistics(statistics, o.statistics);
    i32::from(o.answer)
}
