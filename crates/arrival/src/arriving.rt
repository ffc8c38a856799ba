//! A row that arrives: the rows that the edges of a rectangle reach from it, and the column sums that they carry on.
ghost use Rattle.std.specs.Prelude.{◌≡◌, true, ◌≤◌, ◌<◌, ◌*◌, ◌+ℤ◌, ◌-ℤ◌, pos, length};
ghost use borrow.Rule.Slice.PartMut.{put_mid};
ghost use Rattle.arith.specs.Tab.{tab};
ghost use Rattle.layout.specs.Measure.{delay_of};
ghost use Rattle.limits.specs.Limits.{acceptable};
ghost use Rattle.ring.specs.Ring.{row_at};

use layout::Table;
use ring::row_at;

/// A row that arrives, the table that it is filtered by, with its delay, and the rows kept before it.
#[derive(Clone, Copy)]
pub struct Arriving<'a> {
    pub table: &'a Table,
    pub number: usize,
    pub delay: usize,
    pub row: &'a [u16],
    pub samples: &'a [u16],
    pub ghost table_good: { acceptable table.now ≡ true },
    pub ghost width_most: { length row.now ≤ 1024 },
    pub ghost number_most: { number ≤ 65550 },
    pub ghost delay_is: { delay ≡ delay_of table.now },
    pub ghost delay_most: { delay ≤ 15 },
    pub ghost samples_long: { 32 * length row.now ≤ length samples.now },
}

impl<'a> Arriving<'a> {
    /// The row that an edge reaches from row `number` - `delay`: zeros for a row below 0.
    pub(crate) fn edge_row(&self, edge: i8) -> &'a [u16]
        ensures { result.now
            ≡ tab (length self.now.row.now) (row_at (length self.now.row.now) self.now.number self.now.row.now self.now.samples.now
            ((pos self.now.number -ℤ pos self.now.delay) +ℤ edge)) }
    {
        let e = self.number as i64 - self.delay as i64 + i64::from(edge);
        if e < 0 {
            return dark(self.row.len());
        }
        row_at(self.samples, self.row, self.number, e as usize)
    }
}

/// A row before the first.
fn dark(width: usize) -> &'static [u16]
    requires { width ≤ 1024 }
    ensures { result.now ≡ tab width (λ c. 0) }
{
    &[0; 1024][..width]
}
