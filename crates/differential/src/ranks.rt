//! A ranked filter written apart from the ranked engine, which counts every covered sample afresh; and what is drawn for it.
ghost use Rattle.std.specs.Prelude.{◌+◌, ◌≤◌, pos, neg_ℤ, ◌≤ℤ◌, ◌<ℤ◌, slice_index, EachIndex};

use crate::chance::{draw, pick};
use crate::filter::{first_covered, last_covered};
use crate::given::Given;
use crate::runs::Beside;
use layout::{Answer, Closing};
use rank::{RankScan, Window};

/// The edges of a window along one axis: a lead from -15 to 15, and a trail below it, from -16 on.
#[derive(Clone, Copy, Debug)]
struct Edges {
    lead: i8,
    trail: i8,
    ghost within: { (neg_ℤ (pos 16) ≤ℤ trail) × (trail <ℤ lead) × (lead ≤ℤ pos 15) },
}

impl Edges {
    /// Those that belong to a seed and a key.
    fn from_seed(seed: u64, key: u64) -> Edges {
        let lead = pick(seed, key, 30, 30);
        let trail = pick(seed, key ^ 64, lead, 0);
        Edges {
            lead: lead as i8 - 15,
            trail: trail as i8 - 16,
        }
    }

    /// How far apart they are.
    fn extent(self) -> u64
        ensures { (1 ≤ result) × (result ≤ 31) }
    {
        u64::from(self.lead.abs_diff(self.trail))
    }
}

/// A window that is drawn, by the edges of its rows and of its columns.
#[derive(Clone, Copy, Debug)]
pub struct Drawn {
    rows: Edges,
    columns: Edges,
}

impl Drawn {
    /// That of a seed.
    pub fn from_seed(seed: u64) -> Drawn {
        Drawn {
            rows: Edges::from_seed(seed, 300),
            columns: Edges::from_seed(seed, 301),
        }
    }

    /// The window itself.
    pub fn window(self) -> Window {
        Window {
            leadrow: self.rows.lead,
            leadcol: self.columns.lead,
            trailrow: self.rows.trail,
            trailcol: self.columns.trail,
        }
    }

    /// The samples that it covers.
    fn area(self) -> u64
        ensures { (1 ≤ result) × (result ≤ 961) }
    {
        self.rows.extent() * self.columns.extent()
    }

    /// A rank of it.
    pub fn rank(self, seed: u64) -> u32
        ensures { (1 ≤ result) × (result ≤ 961) }
    {
        (1 + draw(seed, 303, self.area() - 1)) as u32
    }

    /// The lead row, or 0 where it is negative.
    pub fn delay(self) -> usize
        ensures { result ≤ 15 }
    {
        usize::from(self.rows.lead.max(0).unsigned_abs())
    }
}

/// b, from 1 to 8.
pub fn bits(seed: u64) -> u8 {
    1 + draw(seed, 302, 7) as u8
}

/// Counts the sample at a row and a column, where it is inside the scan and a level.
fn count_place(counts: &mut [u32; 256], given: Given, row: i64, col: i64)
    requires { EachIndex counts.old (λ k. slice_index counts.old k ≤ 960) }
    ensures { EachIndex counts.new (λ k. slice_index counts.new k ≤ slice_index counts.old k + 1) }
{
    if let Some(x) = given.sample(row, col) {
        let x = usize::from(x);
        if x < 256 {
            counts[x] += 1;
        }
    }
}

/// Counts the covered samples of a row.
fn count_row(counts: &mut [u32; 256], given: Given, w: Window, row: i64, c: u32)
    requires { EachIndex counts.old (λ k. slice_index counts.old k ≤ 930) }
    ensures { EachIndex counts.new (λ k. slice_index counts.new k ≤ slice_index counts.old k + 31) }
{
    for o in first_covered(w.trailcol)..=last_covered(w.leadcol) {
        count_place(counts, given, row, i64::from(c) + i64::from(o));
    }
}

/// Counts all covered samples.
fn count_window(given: Given, w: Window, r: u32, c: u32) -> [u32; 256]
    ensures { EachIndex result (λ k. slice_index result k ≤ 961) }
{
    let mut counts = [0u32; 256];
    for o in first_covered(w.trailrow)..=last_covered(w.leadrow) {
        count_row(&mut counts, given, w, i64::from(r) + i64::from(o), c);
    }
    counts
}

/// The lowest level up to which at least `rank` are counted, or the last that is counted; -1 where none is.
fn level(counts: &[u32; 256], rank: u32) -> i64 {
    let mut last = -1;
    let mut sum: u64 = 0;
    for (v, &times) in counts.iter().enumerate() {
        if times != 0 {
            last = v as i64;
        }
        sum += u64::from(times);
        if u64::from(rank) <= sum {
            break;
        }
    }
    last
}

/// The engine over a window, and the filter beside it, which has the window and the rank as they were drawn.
#[derive(Drop)]
pub struct Ranked<'a> {
    pub window: Window,
    pub rank: u32,
    pub scan: RankScan,
    pub samples: &'a mut [u16],
    pub counts: &'a mut [u16],
    pub windows: &'a mut [u16],
}

impl Beside for Ranked<'_> {
    fn row(&mut self, row: &[u16], out: &mut [i32]) -> Answer {
        let moved = rank::row(self.scan, row, self.samples, self.counts, self.windows, out);
        self.scan = moved.scan;
        moved.answer
    }

    fn close(&mut self) {
        self.scan = rank::close(self.scan).scan;
    }

    fn step(&mut self, out: &mut [i32]) -> Closing {
        let stepped = rank::step(self.scan, self.samples, self.counts, self.windows, out);
        self.scan = stepped.scan;
        stepped.answer
    }

    fn pixel(&self, given: Given, r: u32, c: u32) -> i64 {
        level(&count_window(given, self.window, r, c), self.rank)
    }
}
