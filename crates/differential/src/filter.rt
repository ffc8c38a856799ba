//! The filter as the rules define it, written apart from the engine: each pixel adds every covered sample afresh.
ghost use Rattle.std.specs.Prelude.{◌<◌, ◌≤◌, pos, neg_ℤ, ◌≤ℤ◌};

use crate::given::Given;
use crate::runs::Beside;
use layout::{Answer, Closing, Rect, Table};
use scan::Scan;

/// x divided by 2^q, rounded down.
fn divided(x: u32, q: u8) -> u32
    ensures { result ≤ x }
{
    x.checked_shr(u32::from(q)).unwrap_or(0)
}

/// The first offset above a trail: -15 at the least, since no edge lies farther, and 16, past them all, at the most.
pub fn first_covered(trail: i8) -> i8
    ensures { (neg_ℤ (pos 15) ≤ℤ result) × (result ≤ℤ pos 16) }
{
    trail.clamp(-16, 15) + 1
}

/// The last offset that a lead covers: 15 at the most.
pub fn last_covered(lead: i8) -> i8
    ensures { result ≤ℤ pos 15 }
{
    lead.min(15)
}

/// What a row adds to a column sum: its sample divided by 2^q1, nothing outside the scan.
fn row_part(given: Given, t: &Table, row: i64, col: i64) -> u32
    ensures { result ≤ 65535 }
{
    divided(u32::from(given.sample(row, col).unwrap_or(0)), t.q1)
}

/// The samples of a column that a rectangle covers from row r, each divided by 2^q1, added up.
fn column_sum(given: Given, t: &Table, d: Rect, r: u32, col: i64) -> u32
    ensures { result ≤ 2031585 }
{
    let mut sum = 0;
    for o in first_covered(d.trailrow)..=last_covered(d.leadrow) {
        sum += row_part(given, t, i64::from(r) + i64::from(o), col);
    }
    sum
}

/// What a column adds to a window sum: its column sum divided by 2^q2.
fn column_part(given: Given, t: &Table, d: Rect, r: u32, col: i64) -> u32
    ensures { result ≤ 2031585 }
{
    divided(column_sum(given, t, d, r, col), t.q2)
}

/// The column sums that it covers, each divided by 2^q2, added up.
fn window_sum(given: Given, t: &Table, d: Rect, r: u32, c: u32) -> u32
    ensures { result ≤ 62979135 }
{
    let mut sum = 0;
    for o in first_covered(d.trailcol)..=last_covered(d.leadcol) {
        sum += column_part(given, t, d, r, i64::from(c) + i64::from(o));
    }
    sum
}

/// x times 2^q, or 4,194,303 where that is more. A sum of 961 samples of 12 bits is less.
fn scaled_back(x: u32, q: u32) -> u32
    ensures { result ≤ 4194303 }
{
    (u64::from(x) << q.min(22)).min(4194303) as u32
}

/// The rectangle sum, cut and scaled back.
fn rectangle_sum(given: Given, t: &Table, d: Rect, r: u32, c: u32) -> u32
    ensures { result ≤ 4194303 }
{
    let cut = divided(window_sum(given, t, d, r, c), t.q3);
    scaled_back(cut, u32::from(t.q1) + u32::from(t.q2) + u32::from(t.q3))
}

/// A weight times a rectangle sum.
fn product(weight: i16, sum: u32) -> i64
    requires { sum ≤ 4194303 }
    ensures { (neg_ℤ (pos 137438953472) ≤ℤ result) × (result ≤ℤ pos 137438953472) }
{
    i64::from(weight) * i64::from(sum)
}

/// The pixel at row r, column c: weights times rectangle sums, divided by 2^t and rounded down.
fn pixel(given: Given, t: &Table, r: u32, c: u32) -> i64 {
    let mut value: i64 = 0;
    for d in &t.rects[..t.count.min(16)] {
        value += product(d.weight, rectangle_sum(given, t, *d, r, c));
    }
    value.div_euclid(1 << t.t.min(62))
}

/// D: the largest lead row, or 0 if none is positive.
pub fn delay(t: &Table) -> usize
    ensures { result < 128 }
{
    let most = t.rects[..t.count.min(16)]
        .iter()
        .map(|d| d.leadrow)
        .max()
        .unwrap_or(0);
    usize::from(most.max(0).unsigned_abs())
}

/// Whether a table drops bits.
pub fn has_drops(t: &Table) -> bool {
    t.q1 != 0 || t.q2 != 0 || t.q3 != 0
}

/// Whether its first rectangle lies before the pixel's row.
pub fn first_behind(t: &Table) -> bool {
    t.rects[0].leadrow < 0
}

/// The engine over a table, and the filter beside it.
#[derive(Drop)]
pub struct Filter<'a> {
    pub table: &'a Table,
    pub scan: Scan,
    pub samples: &'a mut [u16],
    pub sums: &'a mut [u32],
}

impl Beside for Filter<'_> {
    fn row(&mut self, row: &[u16], out: &mut [i32]) -> Answer {
        let moved = scan::row(self.scan, row, self.samples, self.sums, out);
        self.scan = moved.scan;
        moved.answer
    }

    fn close(&mut self) {
        self.scan = scan::close(self.scan).scan;
    }

    fn step(&mut self, out: &mut [i32]) -> Closing {
        let stepped = scan::step(self.scan, self.samples, self.sums, out);
        self.scan = stepped.scan;
        stepped.answer
    }

    fn pixel(&self, given: Given, r: u32, c: u32) -> i64 {
        pixel(given, self.table, r, c)
    }
}
