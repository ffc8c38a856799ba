//! One rectangle of an arrival: its column sums are updated and asked, or rolled back, and its part is added to the values.
ghost use Rattle.std.specs.Prelude.{◌≡◌, ◌++◌, ◌+◌, ◌-◌, ◌*◌, ◌^◌, ◌≤◌, ◌<◌, negsuc, length, get_or, drop, ◌≤ℤ◌};
ghost use borrow.Rule.Slice.PartMut.{put_mid};
ghost use Rattle.arith.specs.Tab.{tab};
ghost use Rattle.layout.specs.Contents.{rect};
ghost use Rattle.layout.specs.Measure.{rows_of};
ghost use Rattle.arrival.specs.Arriving.{arrival};
ghost use Rattle.arrival.specs.Rectangles.{sum_limit, place, factor_of, scale, with_share, with_line, rolled_back_sum};
ghost use Rattle.arrival.specs.Rectangles.{LineFits, ValuesFit, ZeroPadded, Updated};

use crate::Arriving;
use crate::lines::{pad_line, sum_line};
use arith::{power, sign_parts};
use layout::Rect;
use passes::{accumulate, roll_back, update_line, weigh};

impl Arriving<'_> {
    /// Updates the column sums of rectangle k, asks question 19 of them, and puts the truncated ones into a line.
    pub fn update(&self, k: usize, line: &mut [u32], sums: &mut [u32]) -> bool
        requires few { k < self.now.table.now.count }
        requires sums_long { self.now.table.now.count * length self.now.row.now ≤ length sums.old }
        requires padded { ZeroPadded (length self.now.row.now) line.old }
        ensures { Updated (arrival self.now sums.old) k result sums.new line.new }
    {
        let t = self.table;
        let rect = t.rects[k];
        let off = self.edge_row(rect.trailrow);
        let on = self.edge_row(rect.leadrow);
        let most = sum_most(rect, t.b, t.q1);
        let width = self.row.len();
        let at = k * width;
        update_line(
            &mut sums[at..at + width],
            &mut line[32..32 + width],
            off,
            on,
            most,
            t.q1,
            t.q2,
        )
    }

    /// Rolls back the column sums of rectangle k.
    pub fn roll_back(&self, k: usize, sums: &mut [u32])
        requires few { k < self.now.table.now.count }
        requires sums_long { self.now.table.now.count * length self.now.row.now ≤ length sums.old }
        ensures { sums.new ≡ put_mid (k * length self.now.row.now) (length self.now.row.now) sums.old
            (tab (length self.now.row.now) (rolled_back_sum (arrival self.now sums.old) k)) }
    {
        let rect = self.table.rects[k];
        let off = self.edge_row(rect.trailrow);
        let on = self.edge_row(rect.leadrow);
        let width = self.row.len();
        let at = k * width;
        roll_back(&mut sums[at..at + width], off, on, self.table.q1);
    }

    /// Adds the share of rectangle k, whose truncated column sums stand in a line, to values of 32 bits: modulo 2^32 the change of its
    /// window sum, or where q3 is not 0 the truncated window sum itself.
    pub fn weigh(&self, k: usize, acc: &mut [u32], line: &mut [u32])
        requires few { k < self.now.table.now.count }
        requires line_fits { LineFits (rect self.now.table.now k) self.now.table.now.q3 (scale self.now.table.now) (length self.now.row.now) line.old }
        requires acc_long { length self.now.row.now + 16 ≤ length acc.old }
        ensures acc_after { acc.new ≡ tab (length self.now.row.now + 16)
            (with_share (rect self.now.table.now k) self.now.table.now.q3 (scale self.now.table.now) (λ i. get_or line.old i 0) acc.old)
            ++ drop (length self.now.row.now + 16) acc.old }
        ensures padded { ZeroPadded (length self.now.row.now) line.new }
    {
        let q3 = self.table.q3;
        let rect = self.table.rects[k];
        let q = self.dropped();
        let m = factor(rect.weight, q);
        let width = self.row.len();
        let n = width + 16;
        let lead = place_of(rect.leadcol);
        let trail = place_of(rect.trailcol);
        let acc = &mut acc[..n];
        if q3 == 0 {
            weigh(acc, &line[lead..lead + n], &line[trail..trail + n], m, 0);
        } else {
            sum_line(line, width);
            weigh(acc, &line[lead..lead + n], &line[trail..trail + n], m, q3);
            pad_line(line, width);
        }
    }

    // Not one with `weigh` (N): the two parts of a weight above a bias, in place of one factor modulo 2^32.
    /// The same of values of 64 bits: their truncated window sums.
    pub fn accumulate(&self, k: usize, acc: &mut [u64], line: &mut [u32])
        requires few { k < self.now.table.now.count }
        requires line_fits { LineFits (rect self.now.table.now k) self.now.table.now.q3 (scale self.now.table.now) (length self.now.row.now) line.old }
        requires room { ValuesFit (length self.now.row.now) acc.old }
        ensures acc_after { acc.new ≡ tab (length self.now.row.now)
            (with_line (rect self.now.table.now k) self.now.table.now.q3 (scale self.now.table.now) (λ i. get_or line.old i 0) acc.old)
            ++ drop (length self.now.row.now) acc.old }
        ensures padded { ZeroPadded (length self.now.row.now) line.new }
    {
        let rect = self.table.rects[k];
        let p = sign_parts(rect.weight);
        let q = self.dropped();
        let lead = place_of(rect.leadcol) + 16;
        let trail = place_of(rect.trailcol) + 16;
        let width = self.row.len();
        let acc = &mut acc[..width];
        sum_line(line, width);
        accumulate(
            acc,
            &line[lead..lead + width],
            &line[trail..trail + width],
            self.table.q3,
            q,
            p.above,
            p.below,
        );
        pad_line(line, width);
    }

    /// The bits that all drops of the table drop.
    fn dropped(&self) -> u8
        ensures value { result ≡ scale self.now.table.now }
        ensures upper_bound { result ≤ 27 }
    {
        self.table.q1 + self.table.q2 + self.table.q3
    }
}

/// The most that a column sum of a rectangle can be.
fn sum_most(d: Rect, b: u8, q1: u8) -> u32
    requires { (rows_of d ≤ 31) × (q1 ≤ b) × (b ≤ 12) }
    ensures value { result ≡ rows_of d * (2 ^ (b - q1) - 1) }
    ensures upper_bound { result ≤ sum_limit }
{
    d.rows() * (power(b - q1) as u32 - 1)
}

/// A weight times 2^q, modulo 2^32.
fn factor(weight: i16, q: u8) -> u32
    requires { q ≤ 27 }
    ensures { result ≡ factor_of weight q }
{
    i32::from(weight).cast_unsigned().wrapping_mul(1 << q)
}

/// A column edge as a place of a line: 16 more.
fn place_of(edge: i8) -> usize
    requires { negsuc 15 ≤ℤ edge }
    ensures value { result ≡ place edge }
    ensures upper_bound { result < 144 }
{
    (i32::from(edge) + 16) as usize
}
