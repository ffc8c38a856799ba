//! The arrival of a row: question 19, and what it leaves.
ghost use Rattle.std.specs.Prelude.{◌≡◌, true, ◌+◌, ◌*◌, ◌≤◌, length};
ghost use Rattle.layout.specs.Answers.{said};
ghost use Rattle.limits.specs.Limits.{acceptable};
ghost use Rattle.arrival.specs.Arrivals.{arriving, leaves, arrive_of, Fits};
ghost use Rattle.arrival.specs.Arriving.{arrival};
ghost use Rattle.engine.specs.Rows.{narrow_table, sure_table, take_of};

use crate::rows::take;
use arith::power;
use arrival::Arriving;
use grid::area_sums;
use layout::{Refusal, Table};
use limits::extremes_fit;
use passes::BIAS;
use ring::keep;

/// What is known of a table's values on any stores whose sums pass question 19: whether every value has 32 bits, and whether every pixel
/// surely fits its word.
#[derive(Clone, Copy)]
struct Spans {
    narrow: bool,
    sure: bool,
}

impl Spans {
    /// Both by the extremes over the areas of its rectangles, which its window sums keep to.
    fn of(t: &Table) -> Spans
        requires { acceptable t.now ≡ true }
        ensures narrow { result.narrow ≡ narrow_table t.now }
        ensures sure { result.sure ≡ sure_table t.now }
    {
        let e = area_sums(t);
        let top = power(t.b) - 1;
        Spans {
            narrow: extremes_fit(top * e.high, top * e.low, 0, 32),
            sure: extremes_fit(top * e.high, top * e.low, t.t, t.w),
        }
    }
}

/// An arrival with values of 32 bits, and local lines of sizes that are enough for it.
fn take_words<const VALUES: usize, const LINE: usize>(
    arriving: &Arriving,
    sure: bool,
    sums: &mut [u32],
    out: &mut [i32],
) -> Result<(), Refusal>
    requires narrow { narrow_table arriving.now.table.now ≡ true }
    requires surely { sure ≡ true → sure_table arriving.now.table.now ≡ true }
    requires values_long { (length arriving.now.row.now + 16 ≤ VALUES) × (VALUES ≤ 1040) }
    requires line_long { (length arriving.now.row.now + 48 ≤ LINE) × (LINE ≤ 1072) }
    requires sums_long { arriving.now.table.now.count * length arriving.now.row.now ≤ length sums.old }
    requires lent { length arriving.now.row.now ≤ length out.old }
    ensures { leaves (said result) arriving.now.samples.now sums.new out.new ≡ take_of (arrival arriving.now sums.old) out.old }
{
    let mut values = [0u32; VALUES];
    let mut line = [0u32; LINE];
    let acc = &mut values[..arriving.row.len() + 16];
    take(arriving, sure, acc, &mut line, sums, out)
}

// Not one with `take_words` (P): an array of a type parameter cannot be lent as a slice, since no clause can bound its size in memory.
/// An arrival with values of 64 bits.
fn take_longs(
    arriving: &Arriving,
    sure: bool,
    sums: &mut [u32],
    out: &mut [i32],
) -> Result<(), Refusal>
    requires surely { sure ≡ true → sure_table arriving.now.table.now ≡ true }
    requires sums_long { arriving.now.table.now.count * length arriving.now.row.now ≤ length sums.old }
    requires lent { length arriving.now.row.now ≤ length out.old }
    ensures { leaves (said result) arriving.now.samples.now sums.new out.new ≡ take_of (arrival arriving.now sums.old) out.old }
{
    let mut values = [BIAS; 1024];
    let mut line = [0u32; 1072];
    take(arriving, sure, &mut values, &mut line, sums, out)
}

/// An arrival with the values and the lines that its table and its width need.
fn take_in(arriving: &Arriving, sums: &mut [u32], out: &mut [i32]) -> Result<(), Refusal>
    requires sums_long { arriving.now.table.now.count * length arriving.now.row.now ≤ length sums.old }
    requires lent { length arriving.now.row.now ≤ length out.old }
    ensures { leaves (said result) arriving.now.samples.now sums.new out.new ≡ take_of (arrival arriving.now sums.old) out.old }
{
    let spans = Spans::of(arriving.table);
    if !spans.narrow {
        take_longs(arriving, spans.sure, sums, out)
    } else if arriving.row.len() <= 256 {
        take_words::<272, 304>(arriving, spans.sure, sums, out)
    } else {
        take_words::<1040, 1072>(arriving, spans.sure, sums, out)
    }
}

// The width beside the row (N): `arriving t width` in the callers' contracts is this call's own arguments.
/// A row, or a closing row of zeros, arrives: question 19. Accepted, the stores hold it, and the first L places of the
/// output the filtered row that is due, if one is; refused, nothing is changed.
pub fn arrive(
    t: Table,
    width: usize,
    number: u32,
    row: &[u16],
    samples: &mut [u16],
    sums: &mut [u32],
    out: &mut [i32],
) -> Result<(), Refusal>
    requires { Fits (arriving t width number row.now samples.old sums.old) (length out.old) }
    ensures { leaves (said result) samples.new sums.new out.new
        ≡ arrive_of (arriving t width number row.now samples.old sums.old) out.old }
{
    let arriving = Arriving {
        table: &t,
        number: number as usize,
        delay: t.delay() as usize,
        row,
        samples,
    };
    take_in(&arriving, sums, out)?;
    keep(samples, row, number as usize);
    Ok(())
}
