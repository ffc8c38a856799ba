//! The sums over the rectangles' areas.
ghost use Rattle.std.specs.Prelude.{◌≡◌, ◌*◌, ◌≤◌};
ghost use Rattle.arith.specs.Part.{pos_part, neg_part};
ghost use Rattle.layout.specs.Contents.{rect};
ghost use Rattle.layout.specs.Measure.{rows_of, cols_of};
ghost use Rattle.grid.specs.Grid.{area_sum, sum_most};

use crate::parts::PartSums;
use layout::{Rect, Table};

/// M · N
fn area(r: Rect) -> u64
    ensures value { result ≡ rows_of r * cols_of r }
    ensures upper_bound { result ≤ 65536 }
{
    u64::from(r.rows()) * u64::from(r.columns())
}

/// One rectangle's share.
fn share(r: Rect) -> PartSums
    ensures high_value { (result.high ≡ pos_part r.weight * (rows_of r * cols_of r)) × (result.low ≡ neg_part r.weight * (rows_of r * cols_of r)) }
    ensures high_bound { (result.high ≤ 2147483648) × (result.low ≤ 2147483648) }
{
    let p = PartSums::of(r.weight);
    let n = area(r);
    PartSums {
        high: p.high * n,
        low: p.low * n,
    }
}

/// weight · M · N over the positive and over the negative weights.
pub fn area_sums(t: &Table) -> PartSums
    ensures high_value { (result.high ≡ area_sum pos_part t.now.count (rect t.now)) × (result.low ≡ area_sum neg_part t.now.count (rect t.now)) }
    ensures high_le_sum_most { (result.high ≤ sum_most) × (result.low ≤ sum_most) }
{
    let mut high = 0;
    let mut low = 0;
    for &r in t.rects() {
        let part = share(r);
        high += part.high;
        low += part.low;
    }
    PartSums { high, low }
}
