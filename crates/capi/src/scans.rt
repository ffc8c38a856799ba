//! A scan row by row, for C.
ghost use Rattle.std.specs.Prelude.{◌≡◌, List, [], ℕ};
ghost use Rattle.scan.specs.Calls.{world, start_of, close_of, row_of, step_of};
ghost use Rattle.cstructs.specs.Answers.{started_c, answer_c, handed, left_c};

use cstructs::{ScanAnswer, ScanStarted};
use layout::Table;
use scan::{Scan, close, row, start, step};

/// A scan with no row in it, or the refusal and a scan of width 0.
#[unsafe(no_mangle)]
pub extern "C" fn strip_scan_start(
    table: Table,
    width: usize,
    samples: &mut [u16],
    sums: &mut [u32],
) -> ScanStarted
    ensures { handed result samples.new sums.new []
        ≡ left_c started_c (start_of table width samples.old sums.old) }
{
    start(table, width, samples, sums).into()
}

/// The scan closed, or the refusal and the scan as it was.
#[unsafe(no_mangle)]
pub extern "C" fn strip_scan_close(scan: Scan) -> ScanStarted
    ensures { (samples sums : List ℕ) → handed result samples sums [] ≡ left_c started_c (close_of (world scan samples sums)) }
{
    close(scan).into()
}

/// What a row comes to, and the scan after it.
#[unsafe(no_mangle)]
pub extern "C" fn strip_scan_row(
    scan: Scan,
    line: &[u16],
    samples: &mut [u16],
    sums: &mut [u32],
    out: &mut [i32],
) -> ScanAnswer
    ensures { handed result samples.new sums.new out.new
        ≡ left_c answer_c (row_of (world scan samples.old sums.old) line.now out.old) }
{
    row(scan, line, samples, sums, out).into()
}

/// What a closing step comes to, and the scan after it.
#[unsafe(no_mangle)]
pub extern "C" fn strip_scan_step(
    scan: Scan,
    samples: &mut [u16],
    sums: &mut [u32],
    out: &mut [i32],
) -> ScanAnswer
    ensures { handed result samples.new sums.new out.new
        ≡ left_c answer_c (step_of (world scan samples.old sums.old) out.old) }
{
    step(scan, samples, sums, out).into()
}
