//! The commands on a scan filtered by a ranked window.
use crate::answered;
use crate::words::{Command, Numbers, letter};
use rank::{RankScan, Window};
use std::io::Write;

/// A ranked scan, its stores, and how many places of them and of the output are lent to a call.
#[derive(Drop)]
pub struct RankDesk<'a> {
    scan: RankScan,
    samples: &'a mut [u16],
    counts: &'a mut [u16],
    windows: &'a mut [u16],
    lent_samples: usize,
    lent_counts: usize,
    lent_windows: usize,
    lent_out: usize,
}

/// The edges that stand from number 1 on, as bytes.
fn window(n: &Numbers) -> Window {
    Window {
        leadrow: n.byte(1).cast_signed(),
        leadcol: n.byte(2).cast_signed(),
        trailrow: n.byte(3).cast_signed(),
        trailcol: n.byte(4).cast_signed(),
    }
}

/// A place of a store set by hand; answers what stood there.
fn alter<W: Write>(output: &mut W, n: &Numbers, store: &mut [u16]) {
    let i = n.long(0);
    if i < store.len() {
        answered::stood(output, store[i]);
        store[i] = n.number(1);
    }
}

impl<'a> RankDesk<'a> {
    /// No scan, and these stores.
    pub fn fresh(
        samples: &'a mut [u16],
        counts: &'a mut [u16],
        windows: &'a mut [u16],
    ) -> RankDesk<'a> {
        RankDesk {
            scan: RankScan {
                window: Window {
                    leadrow: 0,
                    leadcol: 0,
                    trailrow: 0,
                    trailcol: 0,
                },
                b: 0,
                rank: 0,
                width: 0,
                rows: 0,
                steps: 0,
                closed: false,
            },
            samples,
            counts,
            windows,
            lent_samples: 0,
            lent_counts: 0,
            lent_windows: 0,
            lent_out: 0,
        }
    }

    /// A command on the stores, as far as they are lent.
    fn move_scan<W: Write>(&mut self, output: &mut W, command: Command, n: &Numbers) {
        let i = self.lent_samples.min(self.samples.len());
        let j = self.lent_counts.min(self.counts.len());
        let k = self.lent_windows.min(self.windows.len());
        let samples = &mut self.samples[..i];
        let counts = &mut self.counts[..j];
        let windows = &mut self.windows[..k];
        let mut space = [0i32; 8];
        let out = &mut space[..self.lent_out.min(8)];
        match command {
            Command::Begin => {
                let begun = rank::start(
                    n.byte(0),
                    window(n),
                    n.wide(5),
                    n.long(6),
                    samples,
                    counts,
                    windows,
                );
                answered::verdict(output, begun.verdict);
                self.scan = begun.scan;
            }
            Command::Row => {
                let moved = rank::row(self.scan, n.given(), samples, counts, windows, out);
                answered::row(output, moved.answer, self.scan.width, out);
                self.scan = moved.scan;
            }
            Command::Step => {
                let stepped = rank::step(self.scan, samples, counts, windows, out);
                answered::step(output, stepped.answer, self.scan.width, out);
                self.scan = stepped.scan;
            }
            Command::Keep => alter(output, n, samples),
            Command::Alter => alter(output, n, counts),
            Command::Window => alter(output, n, windows),
            _ => {}
        }
    }

    fn obey<W: Write>(&mut self, output: &mut W, command: Command, n: &Numbers) {
        match command {
            Command::Numbers => {
                self.scan.rows = n.wide(0) + n.wide(1);
                self.scan.steps = n.wide(2);
                self.scan.closed = n.number(3) != 0;
            }
            Command::Close => {
                let closed = rank::close(self.scan);
                answered::verdict(output, closed.verdict);
                self.scan = closed.scan;
            }
            Command::Hold => {
                self.lent_samples = n.long(0);
                self.lent_counts = n.long(1);
                self.lent_windows = n.long(2);
                self.lent_out = n.long(3);
            }
            _ => self.move_scan(output, command, n),
        }
    }

    /// A line: written, done, and its answer written after it.
    pub fn line<W: Write>(&mut self, output: &mut W, line: &[u8]) {
        answered::put(output, line);
        if let Some(command) = Command::of(letter(line).to_ascii_lowercase()) {
            let n = Numbers::read(line, command == Command::Begin);
            self.obey(output, command, &n);
        }
        answered::put(output, b"\n");
    }
}
