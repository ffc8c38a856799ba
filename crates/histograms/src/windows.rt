//! The counts of a window, carried along the columns of a row.
ghost use Rattle.std.specs.Prelude.{◌≡◌, ◌++◌, ◌+◌, ◌≤◌, ◌<◌, length, drop};
ghost use Rattle.std.proofs.Math.IntN.{sub_ℕ};
ghost use Rattle.arith.specs.Tab.{tab};
ghost use Rattle.levels.specs.Levels.{ranked};
ghost use Rattle.histograms.specs.Windows.{column_count};
ghost use Rattle.histograms.specs.Spans.{span_of, slid_to, BandFits, LaneOf, RunOf, Holds, Carried, Written};

use layout::Rect;
use levels::{find, slide};

/// A window on a row: how many columns its lead is ahead of the pixel, or behind it, and how many columns it covers; the columns of
/// the row, the levels that are counted, and the rank.
#[derive(Clone, Copy)]
pub struct Span {
    pub ahead: usize,
    pub behind: usize,
    pub columns: usize,
    pub width: usize,
    pub levels: usize,
    pub rank: u32,
}

/// The span of a window.
pub fn span_of(d: Rect, width: usize, levels: usize, rank: u32) -> Span
    ensures { result ≡ span_of d width levels rank }
{
    let lead = i32::from(d.leadcol);
    Span {
        ahead: lead.max(0) as usize,
        behind: (-lead).max(0) as usize,
        columns: d.columns() as usize,
        width,
        levels,
        rank,
    }
}

/// The counts of a row under a window that slides along it, and zeros for the columns outside the row.
#[derive(Clone, Copy)]
pub struct Band<'a> {
    pub counts: &'a [u16],
    pub zeros: &'a [u16],
    pub span: Span,
}

/// The counts of the columns of some pixels: each `step` places of the line after the one before. Outside the row the line is zeros, and
/// the step 0.
#[derive(Clone, Copy)]
pub struct Lane<'a> {
    pub line: &'a [u16],
    pub step: usize,
    pub count: usize,
}

/// Pixels from one on, so many, with the lanes of the columns that enter and of those that leave.
#[derive(Clone, Copy)]
pub struct Run<'a> {
    pub from: usize,
    pub count: usize,
    pub on: Lane<'a>,
    pub off: Lane<'a>,
}

impl<'a> Band<'a> {
    /// The counts of column k - back, or zeros where the row has no such column.
    fn column(self, k: usize, back: usize) -> &'a [u16]
        requires { BandFits self.span self.counts.now self.zeros.now }
        ensures { result.now ≡ tab self.entry.span.levels (λ u. column_count self.entry.counts.now self.entry.span.width u (sub_ℕ k back)) }
    {
        let levels = self.span.levels;
        if k < back {
            return &self.zeros[..levels];
        }
        let j = k - back;
        if self.span.width <= j {
            return &self.zeros[..levels];
        }
        let at = j * 256;
        &self.counts[at..at + levels]
    }

    /// The window slides on by one column, after k of them: column k - behind enters.
    fn next_window(self, window: &mut [u16], k: usize)
        requires { BandFits self.span self.counts.now self.zeros.now × Holds self.span self.counts.now k window.old }
        ensures { window.new
            ≡ tab self.entry.span.levels (slid_to self.entry.counts.now self.entry.span (k + 1)) ++ drop self.entry.span.levels window.old }
    {
        let on = self.column(k, self.span.behind);
        let off = self.column(k, self.span.behind + self.span.columns);
        slide(&mut window[..self.span.levels], off, on);
    }

    /// The window slides up to the first pixel's, from zero counts.
    fn first_window(self, window: &mut [u16])
        requires { BandFits self.span self.counts.now self.zeros.now × Holds self.span self.counts.now 0 window.old }
        ensures { window.new
            ≡ tab self.entry.span.levels (slid_to self.entry.counts.now self.entry.span self.entry.span.ahead)
            ++ drop self.entry.span.levels window.old }
    {
        for k in 0..self.span.ahead {
            self.next_window(window, k);
        }
    }

    /// The columns from k - back on, at most so many, that lie all in the row or all outside it.
    fn lane_of(self, k: usize, back: usize, most: usize) -> Lane<'a>
        requires { BandFits self.span self.counts.now self.zeros.now }
        ensures { LaneOf self.entry.span self.entry.counts.now k back most result }
    {
        let width = self.span.width;
        if k < back {
            return Lane {
                line: self.zeros,
                step: 0,
                count: most.min(back - k),
            };
        }
        let j = k - back;
        if width <= j {
            return Lane {
                line: self.zeros,
                step: 0,
                count: most,
            };
        }
        Lane {
            line: &self.counts[j * 256..],
            step: 256,
            count: most.min(width - j),
        }
    }

    /// The pixels from column c on at which the entering columns lie all in the row or all outside it, and the leaving ones too.
    fn run_of(self, c: usize) -> Run<'a>
        requires { BandFits self.span self.counts.now self.zeros.now × (c < self.span.width) }
        ensures { RunOf self.entry.span self.entry.counts.now result × (result.from ≡ c) × (1 ≤ result.count) }
    {
        let s = self.span;
        let k = c + s.ahead;
        let on = self.lane_of(k, s.behind, s.width - c);
        let off = self.lane_of(k, s.behind + s.columns, on.count);
        Run {
            from: c,
            count: off.count,
            on,
            off,
        }
    }

    /// The level of the rank at each pixel of a run, into its place of the output. The columns of a lane stand at even distances, so that
    /// the compiler asks once a run, and not at each pixel, whether the stores overlap.
    fn run_windows(self, out: &mut [i32], window: &mut [u16], r: Run<'a>)
        requires { BandFits self.span self.counts.now self.zeros.now × Holds self.span self.counts.now (r.from + self.span.ahead) window.old
            × (self.span.width ≤ length out.old) × RunOf self.span self.counts.now r }
        ensures { Carried self.entry.span self.entry.counts.now r.entry.from (r.entry.from + r.entry.count) out.old window.old
            out.new window.new }
    {
        let s = self.span;
        let on = r.on.line;
        let off = r.off.line;
        for i in 0..r.count {
            let p = i * r.on.step;
            let q = i * r.off.step;
            slide(
                &mut window[..s.levels],
                &off[q..q + s.levels],
                &on[p..p + s.levels],
            );
            out[r.from + i] = find(&window[..s.levels], s.rank);
        }
    }

    /// The level of the rank at every column of the row, into the first places of the output.
    fn each_window(self, out: &mut [i32], window: &mut [u16])
        requires { BandFits self.span self.counts.now self.zeros.now × Holds self.span self.counts.now self.span.ahead window.old
            × (self.span.width ≤ length out.old) }
        ensures { Written self.entry.span self.entry.counts.now out.old window.old out.new window.new }
    {
        // A `while`: each run says how far on the next begins.
        let mut c = 0;
        while c < self.span.width {
            let r = self.run_of(c);
            self.run_windows(out, window, r);
            c += r.count;
        }
    }

    /// The filtered row of these counts, with the window counts carried along; they are zero at the start.
    pub fn write_row(self, out: &mut [i32], window: &mut [u16])
        requires { BandFits self.span self.counts.now self.zeros.now × Holds self.span self.counts.now 0 window.old
            × (self.span.width ≤ length out.old) }
        ensures { Written self.entry.span self.entry.counts.now out.old window.old out.new window.new }
    {
        self.first_window(window);
        self.each_window(out, window);
    }
}
