//! The value of a pixel: weighted sums of rectangle sums.
ghost use Rattle.std.specs.Prelude.{◌≡◌, true, ◌+◌, ◌-◌, ◌*◌, ◌/◌, ◌^◌, ◌≤◌, ◌<◌, pos, T, length};
ghost use Rattle.std.proofs.Math.IntN.{sub_ℕ};
ghost use Rattle.arith.specs.Floor.{floor_div};
ghost use Rattle.arith.specs.Twos.{fits_signed};
ghost use Rattle.layout.specs.Measure.{rows_of, cols_of};
ghost use Rattle.limits.specs.Limits.{acceptable};
ghost use Rattle.rule.specs.Sums.{HasBits, sample_at, scaled_sum};
ghost use Rattle.rule.specs.Pixels.{pixel_of};

use crate::sums::Scan;
use arith::{floor_shift, power, sign_parts};
use layout::{Rect, Table};

/// The cut sum scaled back.
fn scaled_sum(t: &Table, d: Rect, scan: &Scan, r: usize, c: usize) -> u64
    requires width_bound { (r ≤ 65535) × (c ≤ 1024) }
    requires b_bound { (t.now.b ≤ 12) × (t.now.q1 ≤ 11) × (t.now.q2 ≤ 8) × (t.now.q3 ≤ 8) × (rows_of d ≤ 31) × (cols_of d ≤ 31) }
    requires has_bits { HasBits t.now.b (sample_at scan.now.width scan.now.samples.now) }
    ensures value { result ≡ scaled_sum t.now (sample_at scan.now.width scan.now.samples.now) d (pos r) (pos c) }
    ensures upper_bound { result < 2 ^ 22 }
{
    let cut = scan.window_sum(t, d, r, c) >> t.q3;
    u64::from(cut) * power(t.q1 + t.q2 + t.q3)
}

/// above - below, divided by 2^shift and rounded down.
fn round_pixel(above: u64, below: u64, shift: u8) -> i32
    requires above_bound { (above < 2 ^ 62) × (below < 2 ^ 62) }
    requires t { T (fits_signed 32 (floor_div (sub_ℕ above below) shift)) }
    ensures { result ≡ floor_div (sub_ℕ above below) shift }
{
    floor_shift(above as i64 - below as i64, shift) as i32
}

/// The pixel, on a table and a scan that passed the questions.
pub fn value(t: &Table, scan: &Scan, r: usize, c: usize) -> i32
    requires t_value { (acceptable t.now ≡ true) × HasBits t.now.b (sample_at scan.now.width scan.now.samples.now) }
    requires width_bound { (r ≤ 65535) × (c ≤ 1024) }
    ensures { result ≡ pixel_of t.now (sample_at scan.now.width scan.now.samples.now) (pos r) (pos c) }
{
    let mut above = 0;
    let mut below = 0;
    for &d in t.rects() {
        let s = scaled_sum(t, d, scan, r, c);
        let p = sign_parts(d.weight);
        above += u64::from(p.above) * s;
        below += u64::from(p.below) * s;
    }
    round_pixel(above, below, t.t)
}
