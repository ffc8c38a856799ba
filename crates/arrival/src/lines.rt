//! A line of truncated column sums: 32 zeros, a place for each column of the row, and zeros, 16 of them at least.
ghost use Rattle.std.specs.Prelude.{◌≤◌};
ghost use Rattle.arrival.specs.Rectangles.{ZeroPadded, RunningSums, Unpadded};

use passes::running_sums;

/// The running sums of a line, in its place.
pub fn sum_line(line: &mut [u32], width: usize)
    requires { ZeroPadded width line.old × (width ≤ 1024) }
    ensures { RunningSums width line.old line.new }
{
    let n = width + 16;
    running_sums(&mut line[32..32 + n]);
}

/// Zeros again after the places of the row.
pub fn pad_line(line: &mut [u32], width: usize)
    requires { Unpadded width line.old × (width ≤ 1024) }
    ensures { ZeroPadded width line.new }
{
    let at = 32 + width;
    line[at..at + 16].fill(0);
}
