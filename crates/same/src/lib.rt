//! Whether two tables without drops do the same, whatever scan they filter; and where not, a scan that shows it.
#![tactic(auto)]

ghost use Rattle.std.specs.Prelude.{◌≡◌, ◌≤◌, length, Ok};
ghost use Rattle.layout.specs.Answers.{wrote};
ghost use Rattle.same.specs.Same.{sameness_said, first_unlike, compared_at, same_of};

mod ask;
mod grids;
mod spot;

use arith::power;
use ask::asked;
use grids::first_unlike;
use layout::{Refusal, Table};
use spot::{offset, put_spot};

/// An offset from a pixel: a row and a column from -15 to 15.
#[derive(Clone, Copy, Debug, PartialEq, Eq)]
pub struct Offset {
    pub row: i32,
    pub col: i32,
}

/// Compares two tables that passed the questions.
fn compared(one: &Table, other: &Table, scan: &mut [u16]) -> Option<Offset>
    requires bits { one.now.b ≤ 12 }
    requires in_bounds { 961 ≤ length scan.old }
    ensures { wrote (sameness_said (Ok result)) scan.new ≡ compared_at one.now (first_unlike one.now other.now) scan.old }
{
    let k = first_unlike(one, other)?;
    put_spot(scan, (power(one.b) - 1) as u16, k / 31, k % 31);
    Some(Offset {
        row: offset(k / 31),
        col: offset(k % 31),
    })
}

/// Whether two tables do the same: questions 11 of the first, 11 of the second, 24, 25 and 13. They give the same values on every scan where
/// no offset is answered. Else their weights differ first at that offset, and the first 961 places of `scan` get 31 by 31 samples,
/// 2^b - 1 there and 0 elsewhere, on which the values at the centre differ.
pub fn same(one: Table, other: Table, scan: &mut [u16]) -> Result<Option<Offset>, Refusal>
    ensures { wrote (sameness_said result) scan.new ≡ same_of one other scan.old }
{
    asked(one, other, scan.len())?;
    Ok(compared(&one, &other, scan))
}
