//! The question on the largest and the smallest value.
ghost use Rattle.std.specs.Prelude.{◌≡◌, ◌&&◌, ◌≤◌};
ghost use Rattle.layout.specs.Contents.{contents};
ghost use Rattle.limits.specs.Limits.{word_good, extremes_fit, value_good, fitting};
ghost use Rattle.limits.specs.Slots.{HeadGood};

use crate::header::{Header, word_good};
use arith::power;
use grid::{area_sums, grid_sums};
use layout::Table;

/// Whether an upper and a lower extreme, divided by 2^shift and rounded down, fit words of `word` bits, which question 5 is asked of.
pub fn extremes_fit(high: u64, low: u64, shift: u8, word: u8) -> bool
    ensures { result ≡ (word_good shift word && extremes_fit high low shift word) }
{
    if !word_good(shift, word) {
        return false;
    }
    (high >> shift) < power(word - 1) && low <= power(word - 1 + shift)
}

/// Question 10, with questions 3 to 5 and the number of rectangles before it.
pub fn value_good(t: Table) -> bool
    ensures { result ≡ fitting t }
{
    Header::from(t).ask().is_ok() && t.count <= 16 && extremes_good(t)
}

/// Question 10, on a table whose header and number of rectangles are within the limits. The areas suffice where their extremes fit; the
/// grid's are never larger, and are asked only where they are needed.
fn extremes_good(t: Table) -> bool
    requires head_good { HeadGood t }
    requires count_bound { t.count ≤ 16 }
    ensures { result ≡ value_good (contents t) }
{
    let top = power(t.b) - 1;
    let a = area_sums(&t);
    if extremes_fit(top * a.high, top * a.low, t.t, t.w) {
        return true;
    }
    if t.q1 > 0 || t.q2 > 0 || t.q3 > 0 {
        return false;
    }
    let g = grid_sums(&t);
    extremes_fit(top * g.high, top * g.low, t.t, t.w)
}
