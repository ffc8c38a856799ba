//! The rows that the edges of a window reach.
ghost use Rattle.std.specs.Prelude.{◌≡◌, ◌≤◌, pos, ◌+ℤ◌, ◌-ℤ◌, length};
ghost use Rattle.arith.specs.Tab.{tab};
ghost use Rattle.ring.specs.Ring.{row_at};
ghost use Rattle.histograms.specs.Edges.{EdgeOf, times_of, row_of, counted_sample, EdgeRowFits};

use ring::row_at;

/// The number of the row that an edge reaches, which is negative above the first.
fn reach(arrival: usize, delay: usize, edge: i8) -> i64
    requires { (arrival ≤ 65550) × (delay ≤ 15) }
    ensures { result ≡ (pos arrival -ℤ pos delay) +ℤ edge }
{
    arrival as i64 - delay as i64 + i64::from(edge)
}

/// The row that an edge reaches from row `arrival` - `delay`, of `given` rows: none where it is below 0 or no row that was given.
pub fn edge_of(arrival: usize, delay: usize, given: usize, edge: i8) -> Option<usize>
    requires { (arrival ≤ 65550) × (delay ≤ 15) }
    ensures { EdgeOf given ((pos arrival -ℤ pos delay) +ℤ edge) (times_of result) (row_of result) }
{
    let row = usize::try_from(reach(arrival, delay, edge)).ok()?;
    if given <= row {
        return None;
    }
    Some(row)
}

/// How often that row counts: once, or not at all where there is none.
pub fn times(reached: Option<usize>) -> u16
    ensures { result ≡ times_of reached }
{
    match reached {
        Some(_) => 1,
        None => 0,
    }
}

/// The samples of that row, or zeros where there is none.
pub fn edge_row<'a>(
    samples: &'a [u16],
    row: &'a [u16],
    zeros: &'a [u16],
    arrival: usize,
    reached: Option<usize>,
) -> &'a [u16]
    requires { EdgeRowFits (length row.now) row.now samples.now zeros.now }
    ensures { result.now ≡ tab (length row.now)
        (counted_sample (times_of reached) (row_at (length row.now) arrival row.now samples.now (pos (row_of reached)))) }
{
    match reached {
        Some(e) => row_at(samples, row, arrival, e),
        None => &zeros[..row.len()],
    }
}
