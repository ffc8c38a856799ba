//! The two filters, each with the stores that it carries on from row to row.
ghost use Rattle.std.specs.Prelude.{ℕ, ◌*◌, ◌^◌, ◌<◌, ◌≤◌, length};

use commands::Ranking;
use filtering::{Fault, Job, centred, row_fault};
use layout::{Answer, Closing, Table};
use rank::{RankScan, Window};
use scan::Scan;

/// What came of rows that were handed over: how many filtered rows are out, and what is refused.
#[derive(Clone, Copy)]
pub struct Taken {
    pub filtered: usize,
    pub verdict: Result<(), Fault>,
}

/// A filter that a scan runs through, which takes at most `most` rows at a time.
pub trait Filter {
    ghost most: { ℕ };

    /// How many of the rows that are left, one or more, are to be read at a time.
    fn at_once(left: u32) -> u32
        requires some { 0 < left }
        ensures some { 0 < result }
        ensures within { result ≤ left }
        ensures few { result ≤ most };

    /// How many rows were taken.
    fn rows(&self) -> u32;

    /// Takes whole rows of samples, and puts the filtered rows that are out into the output, one after the other.
    fn take(&mut self, job: Job, samples: &[u16], out: &mut [i32]) -> Taken
        requires { length samples.now ≤ most * job.width };

    /// Ends the rows.
    fn close(&mut self);

    /// Puts a filtered row that is still due into the output.
    fn step(&mut self, out: &mut [i32]) -> Closing;
}

/// The filter by a table, and the stores that are lent to it.
#[derive(Drop)]
pub struct ByTable<'a> {
    scan: Scan,
    samples: &'a mut [u16],
    sums: &'a mut [u32],
}

impl<'a> ByTable<'a> {
    /// Starts a scan.
    pub fn start(
        table: Table,
        job: Job,
        samples: &'a mut [u16],
        sums: &'a mut [u32],
    ) -> Result<ByTable<'a>, Fault> {
        let started = scan::start(table, job.width as usize, samples, sums);
        row_fault(started.verdict, job, 0, 0, 0)?;
        Ok(ByTable {
            scan: started.scan,
            samples,
            sums,
        })
    }
}

impl Filter for ByTable<'_> {
    ghost most = { 2 ^ 32 };

    fn at_once(left: u32) -> u32
        requires some { 0 < left }
        ensures some { 0 < result }
        ensures within { result ≤ left }
        ensures few { result ≤ 2 ^ 32 }
    {
        left
    }

    fn rows(&self) -> u32 {
        self.scan.rows
    }

    fn take(&mut self, job: Job, samples: &[u16], out: &mut [i32]) -> Taken {
        let burst = burst::rows(self.scan, samples, self.samples, self.sums, out);
        self.scan = burst.scan;
        Taken {
            filtered: burst.filtered,
            verdict: row_fault(burst.verdict, job, 0, 0, 0),
        }
    }

    fn close(&mut self) {
        self.scan = scan::close(self.scan).scan;
    }

    fn step(&mut self, out: &mut [i32]) -> Closing {
        let stepped = scan::step(self.scan, self.samples, self.sums, out);
        self.scan = stepped.scan;
        stepped.answer
    }
}

/// The filter by a ranked window, and the stores that are lent to it.
#[derive(Drop)]
pub struct ByRank<'a> {
    scan: RankScan,
    samples: &'a mut [u16],
    counts: &'a mut [u16],
    windows: &'a mut [u16],
}

/// The window around a place.
fn window(ranking: Ranking) -> Window {
    let down = centred(ranking.rows);
    let along = centred(ranking.columns);
    Window {
        leadrow: down.lead,
        leadcol: along.lead,
        trailrow: down.trail,
        trailcol: along.trail,
    }
}

impl<'a> ByRank<'a> {
    /// Starts a scan, whose samples have 8 bits at most.
    pub fn start(
        ranking: Ranking,
        job: Job,
        samples: &'a mut [u16],
        counts: &'a mut [u16],
        windows: &'a mut [u16],
    ) -> Result<ByRank<'a>, Fault> {
        let started = rank::start(
            8,
            window(ranking),
            ranking.rank,
            job.width as usize,
            samples,
            counts,
            windows,
        );
        row_fault(started.verdict, job, 0, 0, 0)?;
        Ok(ByRank {
            scan: started.scan,
            samples,
            counts,
            windows,
        })
    }

    /// Takes one row of a scan.
    fn row(&mut self, job: Job, samples: &[u16], out: &mut [i32]) -> Answer
        requires { length samples.now ≤ job.width }
    {
        let moved = rank::row(
            self.scan,
            samples,
            self.samples,
            self.counts,
            self.windows,
            out,
        );
        self.scan = moved.scan;
        moved.answer
    }
}

impl Filter for ByRank<'_> {
    ghost most = { 1 };

    fn at_once(left: u32) -> u32
        requires some { 0 < left }
        ensures some { 0 < result }
        ensures within { result ≤ left }
        ensures few { result ≤ 1 }
    {
        1
    }

    fn rows(&self) -> u32 {
        self.scan.rows
    }

    fn take(&mut self, job: Job, samples: &[u16], out: &mut [i32]) -> Taken {
        if samples.is_empty() {
            return Taken {
                filtered: 0,
                verdict: Ok(()),
            };
        }
        let (filtered, verdict) = match self.row(job, samples, out) {
            Answer::Row(_) => (1, Ok(())),
            Answer::Waiting => (0, Ok(())),
            Answer::Refused(number, place) => (0, Err(Fault::Engine(number, place))),
        };
        Taken { filtered, verdict }
    }

    fn close(&mut self) {
        self.scan = rank::close(self.scan).scan;
    }

    fn step(&mut self, out: &mut [i32]) -> Closing {
        let stepped = rank::step(self.scan, self.samples, self.counts, self.windows, out);
        self.scan = stepped.scan;
        stepped.answer
    }
}
