//! Dead elements of a row.
ghost use Rattle.std.specs.Prelude.{◌≡◌, cond, ◌++◌, eqb, length, take, drop};
ghost use Rattle.rule.specs.Mended.{dead, mended};

use crate::above::largest;

/// What the sensor sends for an element that failed.
pub const DEAD: u16 = 65535;

/// A sample, or the live one to its left where it is dead.
fn live_sample(x: u16, left: u16) -> u16
    ensures { result ≡ cond (eqb x dead) left x }
{
    if x == DEAD { left } else { x }
}

/// A row, mended from left to right, into a line of its length.
fn mend_each(line: &mut [u16], row: &[u16])
    requires { length line.old ≡ length row.now }
    ensures { line.new ≡ mended row.now }
{
    let mut left = 0;
    for (k, x) in line.iter_mut().enumerate() {
        left = live_sample(row[k], left);
        *x = left;
    }
}

/// The row, mended, into the first places of `line`, as many as both have. A row without dead elements is only copied.
pub fn mend(line: &mut [u16], row: &[u16])
    ensures { line.new
        ≡ take (length line.old) (mended row.now) ++ drop (length row.now) line.old }
{
    let n = line.len().min(row.len());
    let row = &row[..n];
    if largest(row) < DEAD {
        line[..n].copy_from_slice(row)
    } else {
        mend_each(&mut line[..n], row)
    }
}
