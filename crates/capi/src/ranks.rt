//! A ranked scan row by row, for C.
ghost use Rattle.std.specs.Prelude.{◌≡◌, List, [], ℕ};
ghost use Rattle.rank.specs.Calls.{world, start_of, close_of, row_of, step_of};
ghost use Rattle.cstructs.specs.Ranks.{started_c, answer_c, handed, left_c};

use cstructs::{RankAnswer, RankStarted};
use rank::{RankScan, Window, close, row, start, step};

/// A ranked scan with no row in it, or the refusal and a scan of width 0.
#[unsafe(no_mangle)]
pub extern "C" fn strip_rank_start(
    b: u8,
    window: Window,
    rank: u32,
    width: usize,
    samples: &mut [u16],
    counts: &mut [u16],
    windows: &mut [u16],
) -> RankStarted
    ensures { handed result samples.new counts.new windows.new []
        ≡ left_c started_c (start_of b window rank width samples.old counts.old windows.old) }
{
    start(b, window, rank, width, samples, counts, windows).into()
}

/// The ranked scan closed, or the refusal and the scan as it was.
#[unsafe(no_mangle)]
pub extern "C" fn strip_rank_close(scan: RankScan) -> RankStarted
    ensures { (samples counts windows : List ℕ) → handed result samples counts windows []
        ≡ left_c started_c (close_of (world scan samples counts windows)) }
{
    close(scan).into()
}

/// What a row comes to, and the ranked scan after it.
#[unsafe(no_mangle)]
pub extern "C" fn strip_rank_row(
    scan: RankScan,
    line: &[u16],
    samples: &mut [u16],
    counts: &mut [u16],
    windows: &mut [u16],
    out: &mut [i32],
) -> RankAnswer
    ensures { handed result samples.new counts.new windows.new out.new
        ≡ left_c answer_c (row_of (world scan samples.old counts.old windows.old) line.now out.old) }
{
    row(scan, line, samples, counts, windows, out).into()
}

/// What a closing step comes to, and the ranked scan after it.
#[unsafe(no_mangle)]
pub extern "C" fn strip_rank_step(
    scan: RankScan,
    samples: &mut [u16],
    counts: &mut [u16],
    windows: &mut [u16],
    out: &mut [i32],
) -> RankAnswer
    ensures { handed result samples.new counts.new windows.new out.new
        ≡ left_c answer_c (step_of (world scan samples.old counts.old windows.old) out.old) }
{
    step(scan, samples, counts, windows, out).into()
}
