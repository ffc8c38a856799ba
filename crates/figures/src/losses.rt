//! How far a value may be from the full one, and a pixel.
ghost use Rattle.std.specs.Prelude.{◌≡◌, true, ◌*◌, ◌≤◌};
ghost use Rattle.arith.specs.Part.{pos_part, neg_part};
ghost use Rattle.layout.specs.Measure.{loss_figure};
ghost use Rattle.limits.specs.Limits.{bits_good, drops_good, acceptable};
ghost use Rattle.rule.specs.Accuracy.{loss_under};
ghost use Rattle.figures.specs.Measured.{ceil_div};
ghost use Rattle.figures.specs.Sizes.{loss_most, share_most, shares_most};

use arith::power;
use grid::PartSums;
use layout::{Rect, Table};

/// The loss figure of a rectangle in a table whose b and drops are within the limits.
fn loss_of(t: &Table, r: Rect) -> u64
    requires { (bits_good t.now.b ≡ true) × (drops_good t.now.b t.now.q1 t.now.q2 t.now.q3 ≡ true) }
    ensures { result ≡ loss_figure t.now r }
{
    limits::loss(*t, r).unwrap_or(0)
}

/// The share of a rectangle: its loss figure times its weight.
fn share(t: &Table, r: Rect) -> PartSums
    requires within_limits { (bits_good t.now.b ≡ true) × (drops_good t.now.b t.now.q1 t.now.q2 t.now.q3 ≡ true) }
    requires small { loss_figure t.now r ≤ loss_most }
    ensures below_value { (result.low ≡ neg_part r.weight * loss_figure t.now r) × (result.high ≡ pos_part r.weight * loss_figure t.now r) }
    ensures below_le_share_most { (result.low ≤ share_most) × (result.high ≤ share_most) }
{
    let n = loss_of(t, r);
    let p = PartSums::of(r.weight);
    PartSums {
        high: p.high * n,
        low: p.low * n,
    }
}

/// The shares of all rectangles added up: under positive weights, and under negative ones.
pub fn loss_sums(t: &Table) -> PartSums
    requires { acceptable t.now ≡ true }
    ensures below_value { (result.low ≡ loss_under neg_part t.now) × (result.high ≡ loss_under pos_part t.now) }
    ensures below_le_shares_most { (result.low ≤ shares_most) × (result.high ≤ shares_most) }
{
    let mut high = 0;
    let mut low = 0;
    for &r in t.rects() {
        let part = share(t, r);
        high += part.high;
        low += part.low;
    }
    PartSums { high, low }
}

/// n divided by 2^t, rounded up.
pub fn ceil_shift(n: u64, t: u8) -> u64
    requires { (n ≤ shares_most) × (t ≤ 31) }
    ensures { result ≡ ceil_div n t }
{
    (n + (power(t) - 1)) >> t
}
