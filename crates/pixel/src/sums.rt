//! The scan that is lent, and the sums of one rectangle over its covered samples. Rows and columns are counted in a frame with a margin
//! of 128, in which they stay natural: place p of the frame is p - 128 of the scan.
ghost use Rattle.std.specs.Prelude.{◌≡◌, ◌+◌, ◌-◌, ◌*◌, ◌/◌, ◌^◌, ◌≤◌, ◌<◌, pos, length, get_or};
ghost use Rattle.std.proofs.Math.IntN.{sub_ℕ};
ghost use Rattle.arith.specs.Sum.{sum};
ghost use Rattle.rule.specs.Mended.{mended_at};

use arith::biased_byte;
use layout::{Rect, Table};

/// A scan that is lent whole: rows of `width` samples, one after the other.
#[derive(Clone, Copy)]
pub struct Scan<'a> {
    pub width: usize,
    pub samples: &'a [u16],
    ghost narrow: { width ≤ 1024 },
}

/// The sample at a place of the row that begins at `base`, mended: the first live one from there to the left in that row,
/// 0 where there is none.
fn live(samples: &[u16], base: usize, at: usize) -> u16
    requires { (base ≤ at) × (at < length samples.now) }
    ensures { result ≡ mended_at (λ k. get_or samples.now (base + k) 0) (at - base) }
{
    let mut k = at;
    // (P) tried: `iter().rev().find(..)` in three forms; what it finds stayed open.
    while base < k {
        let x = samples[k];
        if x != 65535 {
            return x;
        }
        k -= 1;
    }
    let x = samples[base];
    if x != 65535 { x } else { 0 }
}

impl Scan<'_> {
    ghost use Rattle.rule.specs.Sums.{sample_at, window_sum};

    /// The sample at a place of the frame, mended, 0 outside the scan.
    fn sample(&self, row: usize, col: usize) -> u16
        requires { row ≤ 1048576 }
        ensures { result ≡ sample_at self.now.width self.now.samples.now (sub_ℕ row 128) (sub_ℕ col 128) }
    {
        if row < 128 {
            return 0;
        }
        if col < 128 {
            return 0;
        }
        if self.width <= col - 128 {
            return 0;
        }
        let base = (row - 128) * self.width;
        let at = base + (col - 128);
        if self.samples.len() <= at {
            return 0;
        }
        live(self.samples, base, at)
    }

    /// The sum of m samples of a column from row `top` on, each divided by 2^q1.
    fn column_sum(&self, top: usize, col: usize, m: u32, q1: u8) -> u32
        requires { (top ≤ 524288) × (m ≤ 255) × (q1 ≤ 11) }
        ensures value { result
            ≡ sum m (λ i. sample_at self.now.width self.now.samples.now (sub_ℕ (top + i) 128) (sub_ℕ col 128) / 2 ^ q1) }
        ensures upper_bound { result ≤ m * 65535 }
    {
        let mut s = 0;
        for i in 0..m {
            s += u32::from(self.sample(top + i as usize, col) >> q1);
        }
        s
    }

    /// The window sum before its cut.
    pub fn window_sum(&self, t: &Table, d: Rect, r: usize, c: usize) -> u32
        requires { (r ≤ 65535) × (c ≤ 1024) × (t.now.q1 ≤ 11) × (t.now.q2 ≤ 8) }
        ensures { result ≡ window_sum t.now (sample_at self.now.width self.now.samples.now) d (pos r) (pos c) }
    {
        let top = r + 1 + biased_byte(d.trailrow) as usize;
        let left = c + 1 + biased_byte(d.trailcol) as usize;
        let m = d.rows();
        let n = d.columns();
        let mut s = 0;
        for j in 0..n {
            s += self.column_sum(top, left + j as usize, m, t.q1) >> t.q2;
        }
        s
    }
}
