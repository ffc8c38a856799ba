//! The figures of a rectangle and of a table.
ghost use Rattle.std.specs.Prelude.{◌≡◌, ◌≤◌, ◌-ℤ◌, length, min};
ghost use Rattle.arith.specs.Part.{pos_part};

use crate::{Rect, Table};
use arith::log2_up;

impl Rect {
    ghost use Rattle.layout.specs.Measure.{rows_of, cols_of};

    /// M, the rows that it covers.
    #[tactic(auto, unfolding(crate::specs::Measure::rows_of))]
    pub fn rows(self) -> u32
        ensures value { result ≡ rows_of self }
        ensures upper_bound { result ≤ 255 }
    {
        extent(self.leadrow, self.trailrow)
    }

    /// N, the columns that it covers.
    #[tactic(auto, unfolding(crate::specs::Measure::cols_of))]
    pub fn columns(self) -> u32
        ensures value { result ≡ cols_of self }
        ensures upper_bound { result ≤ 255 }
    {
        extent(self.leadcol, self.trailcol)
    }
}

/// How far the lead is above the trail, or 0.
fn extent(lead: i8, trail: i8) -> u32
    ensures value { result ≡ pos_part (lead -ℤ trail) }
    ensures upper_bound { result ≤ 255 }
{
    (i32::from(lead) - i32::from(trail)).max(0) as u32
}

impl Table {
    ghost use Rattle.layout.specs.Contents.{rects_of};
    ghost use Rattle.layout.specs.Measure.{column_word, window_word, delay_of};

    /// The rectangles: the first `count` slots, or all where `count` is above 16.
    pub fn rects(&self) -> &[Rect]
        ensures items { result.now ≡ rects_of self.now }
        ensures fits { length result.now ≡ min self.now.count 16 }
    {
        &self.rects[..self.count.min(16)]
    }

    /// The bits of a column sum before its cut.
    #[tactic(auto, unfolding(crate::specs::Measure::column_word))]
    pub fn column_word(&self, r: Rect) -> u32
        ensures { result ≡ column_word self.now r }
    {
        let log = log2_up(r.rows() as usize);
        u32::from(self.b).saturating_sub(u32::from(self.q1)) + u32::from(log)
    }

    /// The bits of a window sum before its cut, 0 where that is negative.
    #[tactic(auto, unfolding(crate::specs::Measure::window_word))]
    pub fn window_word(&self, r: Rect) -> u32
        ensures { result ≡ window_word self.now r }
    {
        let log = log2_up((r.rows() * r.columns()) as usize);
        (u32::from(self.b) + u32::from(log)).saturating_sub(u32::from(self.q1) + u32::from(self.q2))
    }

    /// D, the delay: the largest lead row, or 0 where none is positive.
    pub fn delay(&self) -> u32
        ensures { result ≡ delay_of self.now }
    {
        let mut d = 0;
        for r in self.rects() {
            d = d.max(ahead(r.leadrow));
        }
        d
    }
}

/// How many rows a lead is ahead, 0 where it is negative.
fn ahead(lead: i8) -> u32
    ensures value { result ≡ pos_part lead }
    ensures upper_bound { result ≤ 127 }
{
    i32::from(lead).max(0) as u32
}
