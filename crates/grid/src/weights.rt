//! One entry of the grid.
ghost use Rattle.std.specs.Prelude.{◌≡◌, ◌&&◌, ◌*◌, ◌≤◌, ◌<◌};
ghost use Rattle.arith.specs.Diff.{Diff};
ghost use Rattle.arith.specs.Part.{pos_part, neg_part};
ghost use Rattle.layout.specs.Contents.{rect};
ghost use Rattle.grid.specs.Grid.{offset, covers, factor, grid_at};
ghost use Rattle.grid.specs.Lines.{weight_most, entry_most};

use crate::covering::covered;
use crate::parts::PartSums;
use layout::{Rect, Table};

/// Whether a rectangle covers row offset a and column offset b.
fn covers_both(d: Rect, a: u32, b: u32) -> bool
    requires { (a < 31) × (b < 31) }
    ensures { result ≡ (covers d.leadrow d.trailrow (offset a) && covers d.leadcol d.trailcol (offset b)) }
{
    covered(d.leadrow, d.trailrow, a) && covered(d.leadcol, d.trailcol, b)
}

/// A rectangle's share of the entry there: its weight where it covers both, else 0.
#[tactic(auto, unfolding(crate::specs::Grid::factor))]
fn entry_share(d: Rect, a: u32, b: u32) -> PartSums
    requires { (a < 31) × (b < 31) }
    ensures high_value { (result.high ≡ pos_part d.weight * factor d a b) × (result.low ≡ neg_part d.weight * factor d a b) }
    ensures high_le_weight_most { (result.high ≤ weight_most) × (result.low ≤ weight_most) }
{
    if covers_both(d, a, b) {
        PartSums::of(d.weight)
    } else {
        PartSums { high: 0, low: 0 }
    }
}

/// The entry of a table's grid at row offset a and column offset b: the positive weights there added up, and the negative ones.
pub fn entry(t: &Table, a: u32, b: u32) -> PartSums
    requires { (a < 31) × (b < 31) }
    ensures diff { Diff (grid_at t.now.count (rect t.now) a b) result.high result.low }
    ensures high_le_entry_most { (result.high ≤ entry_most) × (result.low ≤ entry_most) }
{
    let mut high = 0;
    let mut low = 0;
    for &d in t.rects() {
        let part = entry_share(d, a, b);
        high += part.high;
        low += part.low;
    }
    PartSums { high, low }
}
