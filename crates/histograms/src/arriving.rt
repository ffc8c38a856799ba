//! The arrival of a row: question 19, and what it leaves.
ghost use Rattle.std.specs.Prelude.{◌≡◌, ◌≤◌, length};
ghost use Rattle.arith.specs.Tab.{zeroed};
ghost use Rattle.layout.specs.Answers.{said};
ghost use Rattle.histograms.specs.Arrivals.{counting, delay_by, arrive_of, leaves, Fits};
ghost use Rattle.histograms.specs.Parts.{ColumnsCount, Moved, CountFits, Counted, ShowFits, Shown};

use crate::Arrival;
use crate::edges::{edge_of, edge_row, times};
use crate::windows::{Band, span_of};
use arith::power;
use layout::{Question, Rect, Refusal};
use levels::take_columns;
use ring::keep;

/// D of a window: its lead row, or 0 where that is negative.
pub fn delay(d: Rect) -> u32
    ensures { result ≡ delay_by d }
{
    i32::from(d.leadrow).max(0) as u32
}

/// Question 19 of every column, of which `off` leaves and `on` enters; where all are good, their counts are moved on, and otherwise
/// left as they are.
fn count_columns(
    counts: &mut [u16],
    off: &[u16],
    less: u16,
    on: &[u16],
    more: u16,
    a: Arrival,
) -> bool
    requires { ColumnsCount a (length counts.old) (length off.now) less (length on.now) more }
    ensures { Moved a counts.old off.now less on.now more result counts.new }
{
    let levels = power(a.b) as usize;
    let most = a.rect.rows() as u16;
    take_columns(counts, off, less, on, more, a.width, levels, most)
}

/// The same of the rows that the window's edges reach.
fn count_row<'a>(
    counts: &mut [u16],
    zeros: &'a [u16],
    a: Arrival,
    samples: &'a [u16],
    row: &'a [u16],
) -> bool
    requires { CountFits (counting a row.now samples.now counts.old) zeros.now }
    ensures { Counted (counting a row.now samples.now counts.old) result counts.new }
{
    let d = a.rect;
    let number = a.number as usize;
    let late = delay(d) as usize;
    let off = edge_of(number, late, a.given as usize, d.trailrow);
    let on = edge_of(number, late, a.given as usize, d.leadrow);
    let leaving = edge_row(samples, row, zeros, number, off);
    let entering = edge_row(samples, row, zeros, number, on);
    count_columns(counts, leaving, times(off), entering, times(on), a)
}

/// The window counts set to zero.
fn clear(windows: &mut [u16])
    requires { 256 ≤ length windows.old }
    ensures { windows.new ≡ zeroed 256 windows.old }
{
    windows[..256].fill(0);
}

/// The filtered row of these counts; the window counts are zero before it and after it.
fn show_row<'a>(
    out: &mut [i32],
    windows: &mut [u16],
    counts: &'a [u16],
    zeros: &'a [u16],
    a: Arrival,
)
    requires { ShowFits a counts.now zeros.now windows.old (length out.old) }
    ensures { Shown a counts.now out.old windows.old out.new windows.new }
{
    let levels = power(a.b) as usize;
    let span = span_of(a.rect, a.width, levels, a.rank);
    Band {
        counts,
        zeros,
        span,
    }
    .write_row(out, windows);
    clear(windows);
}

/// A row, or a closing row, arrives: question 19. Accepted, the stores hold it, the window counts are zero, and the first L places of
/// the output hold the filtered row that is due, if one is; refused, nothing is changed.
pub fn arrive(
    a: Arrival,
    row: &[u16],
    samples: &mut [u16],
    counts: &mut [u16],
    windows: &mut [u16],
    out: &mut [i32],
) -> Result<(), Refusal>
    requires { Fits (counting a row.now samples.old counts.old) (length windows.old) (length out.old) }
    ensures { leaves (said result) samples.new counts.new windows.new out.new
        ≡ arrive_of (counting a row.now samples.old counts.old) windows.old out.old }
{
    let zeros = [0u16; 1024];
    let good = count_row(counts, &zeros, a, samples, row);
    Refusal::unless(good, Question::Carried)?;
    keep(samples, row, a.number as usize);
    clear(windows);
    if delay(a.rect) <= a.number {
        show_row(out, windows, counts, &zeros, a);
    }
    Ok(())
}
