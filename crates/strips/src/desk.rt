//! The commands on a scan filtered by a table.
use crate::answered;
use crate::words::{Command, Numbers, letter};
use layout::Table;
use limits::Header;
use scan::Scan;
use std::io::Write;

/// What the strips are tried on: a scan with its table, its stores, and how many places of them and of the output are lent to a call.
#[derive(Drop)]
pub struct Desk<'a> {
    scan: Scan,
    kept: &'a mut [u16],
    sums: &'a mut [u32],
    lent_samples: usize,
    lent_sums: usize,
    lent_out: usize,
}

/// A table of zeros.
fn no_table() -> Table {
    table::bare(Header {
        b: 0,
        q1: 0,
        q2: 0,
        q3: 0,
        t: 0,
        w: 0,
    })
}

/// The table of a file, after the verdict on it and the number of the table check; of zeros where it is refused.
fn loaded<W: Write>(output: &mut W, file: &[u8]) -> Table {
    let loaded = table::load(file);
    answered::verdict(output, loaded.map(|_| ()));
    answered::check(output, table::table_check(file));
    loaded.unwrap_or(no_table())
}

/// The one-pixel call on these samples and zeros after them.
fn pixel<W: Write>(output: &mut W, n: &Numbers, table: Table) {
    let end = n.long(3).min(1025) + 4;
    let all = n.all();
    if end <= all.len() {
        answered::found(
            output,
            pixel::pixel(table, n.long(0), &all[4..end], n.long(1), n.long(2)),
        );
    }
}

impl<'a> Desk<'a> {
    /// No table and no scan, and these stores.
    pub fn fresh(kept: &'a mut [u16], sums: &'a mut [u32]) -> Desk<'a> {
        Desk {
            scan: Scan {
                table: no_table(),
                width: 0,
                rows: 0,
                steps: 0,
                closed: false,
            },
            kept,
            sums,
            lent_samples: 0,
            lent_sums: 0,
            lent_out: 0,
        }
    }

    /// A command on the stores, as far as they are lent.
    fn move_scan<W: Write>(&mut self, output: &mut W, command: Command, n: &Numbers) {
        let a = self.lent_samples.min(self.kept.len());
        let b = self.lent_sums.min(self.sums.len());
        let kept = &mut self.kept[..a];
        let sums = &mut self.sums[..b];
        let mut space = [0i32; 8];
        let out = &mut space[..self.lent_out.min(8)];
        match command {
            Command::Begin => {
                let begun = scan::start(self.scan.table, n.long(0), kept, sums);
                answered::verdict(output, begun.verdict);
                self.scan = begun.scan;
            }
            Command::Row => {
                let moved = scan::row(self.scan, n.given(), kept, sums, out);
                answered::row(output, moved.answer, self.scan.width, out);
                self.scan = moved.scan;
            }
            Command::Step => {
                let stepped = scan::step(self.scan, kept, sums, out);
                answered::step(output, stepped.answer, self.scan.width, out);
                self.scan = stepped.scan;
            }
            Command::Keep => {
                let i = n.long(0);
                if i < kept.len() {
                    answered::stood(output, kept[i]);
                    kept[i] = n.number(1);
                }
            }
            Command::Alter => {
                let i = n.long(0);
                if i < sums.len() {
                    sums[i] = n.wide(1);
                }
            }
            _ => {}
        }
    }

    fn obey<W: Write>(&mut self, output: &mut W, command: Command, n: &Numbers) {
        match command {
            Command::Table => {
                let file = n.bytes();
                self.scan.table = loaded(output, &file[..n.given().len().min(256)]);
            }
            Command::Empty => self.scan.table.count = 0,
            Command::Numbers => {
                self.scan.rows = n.wide(0) + n.wide(1);
                self.scan.steps = n.wide(2);
                self.scan.closed = n.number(3) != 0;
            }
            Command::Close => {
                let closed = scan::close(self.scan);
                answered::verdict(output, closed.verdict);
                self.scan = closed.scan;
            }
            Command::Hold => {
                self.lent_samples = n.long(0);
                self.lent_sums = n.long(1);
                self.lent_out = n.long(2);
            }
            Command::Pixel => pixel(output, n, self.scan.table),
            _ => self.move_scan(output, command, n),
        }
    }

    /// A line: written, done, and its answer written after it.
    pub fn line<W: Write>(&mut self, output: &mut W, line: &[u8]) {
        answered::put(output, line);
        if let Some(command) = Command::of(letter(line)) {
            let n = Numbers::read(line, command == Command::Table);
            self.obey(output, command, &n);
        }
        answered::put(output, b"\n");
    }
}
