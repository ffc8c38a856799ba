//! The sums over the grid, band by band: lines with no row edge between them are alike, and only the first of them is computed.
ghost use Rattle.std.specs.Prelude.{◌≡◌, ℕ, ◌≤◌, ◌<◌};
ghost use Rattle.arith.specs.Part.{pos_part, neg_part};
ghost use Rattle.layout.specs.Contents.{rect};
ghost use Rattle.grid.specs.Grid.{grid_sum, sum_most};
ghost use Rattle.grid.specs.Lines.{LinesAlike};

use crate::covering::cut_at;
use crate::lines::line_sums;
use crate::parts::PartSums;
use layout::Table;

/// The end of the band that starts at line a: no rectangle has a row edge between two lines of it, so they are alike.
fn band_end(t: &Table, a: u32) -> u32
    requires { a < 31 }
    ensures lower_bound { (a < result) × (result ≤ 31) }
    ensures by_index { (c : ℕ) → a ≤ c → c < result → LinesAlike t.now a c }
{
    let mut end = 31;
    for d in t.rects() {
        end = cut_at(end, d.leadrow, a);
        end = cut_at(end, d.trailrow, a);
    }
    end
}

/// The positive entries of a table's grid added up, and the negative ones.
pub fn grid_sums(t: &Table) -> PartSums
    ensures high_value { (result.high ≡ grid_sum pos_part t.now.count (rect t.now)) × (result.low ≡ grid_sum neg_part t.now.count (rect t.now)) }
    ensures high_le_sum_most { (result.high ≤ sum_most) × (result.low ≤ sum_most) }
{
    let mut high = 0;
    let mut low = 0;
    let mut a = 0;
    // A band's end is the next one's start, so `a` goes by no step that a range could count.
    while a < 31 {
        let end = band_end(t, a);
        let line = line_sums(t, a);
        let lines = u64::from(end - a);
        high += line.high * lines;
        low += line.low * lines;
        a = end;
    }
    PartSums { high, low }
}
