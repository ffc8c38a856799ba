//! What is counted of the scans of one kind, and a checksum of the pixels of each filter.
use crate::chance::next;
use crate::runs::Said;
use std::io::Write;

#[derive(Clone, Copy, Debug, Default, PartialEq, Eq)]
pub struct Counts {
    pub refused: u64,
    pub scans: u64,
    pub empty: u64,
    pub short: u64,
    pub drops: u64,
    pub behind: u64,
    pub rows_in: u64,
    pub dead: u64,
    pub waiting: u64,
    pub done: u64,
    pub answers_refused: u64,
    pub rows_out: u64,
    pub wrong: u64,
    pub pixels: u64,
    pub below: u64,
    pub above: u64,
    pub different: u64,
    pub engine: u64,
    pub beside: u64,
}

/// One more, if so.
pub fn count(n: &mut u64, so: bool) {
    *n = n.wrapping_add(u64::from(so));
}

/// A pixel into a checksum.
fn mix(sum: &mut u64, pixel: i64) {
    let raised = pixel.wrapping_add(2147483648).cast_unsigned();
    *sum = next(*sum ^ raised ^ 88172645463325252);
}

/// A name and its number, in three writes. One that fails is passed over: the next are tried all the same.
fn line<W: Write>(output: &mut W, name: &str, number: u64) {
    let _ = output.write_all(name.as_bytes());
    let _ = write!(output, "{number}");
    let _ = output.write_all(b"\n");
}

impl Counts {
    /// A scan of `height` rows, with this delay.
    pub fn scan(&mut self, height: usize, delay: usize) {
        count(&mut self.scans, true);
        self.rows_in = self.rows_in.wrapping_add(height as u64);
        count(&mut self.empty, height == 0);
        count(&mut self.short, height < delay);
    }

    /// The dead elements among samples.
    pub fn dead(&mut self, samples: &[u16]) {
        for &x in samples {
            count(&mut self.dead, x == 65535);
        }
    }

    /// An answer, and the one that was due.
    pub fn answer(&mut self, said: Said, due: Said) {
        match said {
            Said::Waiting => count(&mut self.waiting, true),
            Said::Done => count(&mut self.done, true),
            Said::Refused => count(&mut self.answers_refused, true),
            Said::Row(_) => count(&mut self.rows_out, true),
        }
        count(&mut self.wrong, said != due);
    }

    /// A pixel of the engine, and that of the filter beside it.
    pub fn pixel(&mut self, engine: i64, beside: i64) {
        count(&mut self.pixels, true);
        mix(&mut self.engine, engine);
        mix(&mut self.beside, beside);
        count(&mut self.below, beside < 0);
        count(&mut self.above, beside > 0);
        count(&mut self.different, engine != beside);
    }

    /// Writes each number with its name, a line each.
    pub fn put<W: Write>(&self, output: &mut W) {
        line(output, "tables refused .................... ", self.refused);
        line(output, "scans ............................. ", self.scans);
        line(output, "scans with no rows ................ ", self.empty);
        line(output, "scans with fewer rows than D ...... ", self.short);
        line(output, "scans with drops .................. ", self.drops);
        line(output, "scans with a lead row below 0 ..... ", self.behind);
        line(output, "rows in ........................... ", self.rows_in);
        line(output, "dead elements ..................... ", self.dead);
        line(output, "waiting ........................... ", self.waiting);
        line(output, "done .............................. ", self.done);
        line(
            output,
            "answers refused ................... ",
            self.answers_refused,
        );
        line(
            output,
            "rows out .......................... ",
            self.rows_out,
        );
        line(output, "wrong answers ..................... ", self.wrong);
        line(output, "pixels ............................ ", self.pixels);
        line(output, "pixels below 0 .................... ", self.below);
        line(output, "pixels above 0 .................... ", self.above);
        line(
            output,
            "different pixels .................. ",
            self.different,
        );
        line(output, "checksum of the engine ............ ", self.engine);
        line(output, "checksum of the filter beside it .. ", self.beside);
    }
}
