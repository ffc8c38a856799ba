//! Several rows of a scan handed over together, for C.
ghost use Rattle.std.specs.Prelude.{◌≡◌};
ghost use Rattle.scan.specs.Calls.{world};
ghost use Rattle.burst.specs.Bursts.{burst_of};
ghost use Rattle.cstructs.specs.Answers.{burst_c, handed, left_c};

use burst::rows;
use cstructs::BurstAnswer;
use scan::Scan;

/// How many rows were taken and how many filtered rows came out, the refusal of the row where they stop, and the scan after
/// them.
#[unsafe(no_mangle)]
pub extern "C" fn strip_scan_rows(
    scan: Scan,
    lines: &[u16],
    samples: &mut [u16],
    sums: &mut [u32],
    out: &mut [i32],
) -> BurstAnswer
    ensures { handed result samples.new sums.new out.new
        ≡ left_c burst_c (burst_of (world scan samples.old sums.old) lines.now out.old) }
{
    rows(scan, lines, samples, sums, out).into()
}
