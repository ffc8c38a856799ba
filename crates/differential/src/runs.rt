//! A scan through an engine, each answer and each pixel held to a filter that was written apart from it.
ghost use Rattle.std.specs.Prelude.{◌≤◌, length};

use crate::counts::Counts;
use crate::given::Given;
use layout::{Answer, Closing};

/// What an arrival is answered.
#[derive(Clone, Copy, Debug, PartialEq, Eq)]
pub enum Said {
    Row(u32),
    Waiting,
    Done,
    Refused,
}

impl From<Answer> for Said {
    fn from(answer: Answer) -> Said {
        match answer {
            Answer::Row(number) => Said::Row(number),
            Answer::Waiting => Said::Waiting,
            Answer::Refused(_, _) => Said::Refused,
        }
    }
}

impl From<Closing> for Said {
    fn from(answer: Closing) -> Said {
        match answer {
            Closing::Row(number) => Said::Row(number),
            Closing::Waiting => Said::Waiting,
            Closing::Done => Said::Done,
            Closing::Refused(_, _) => Said::Refused,
        }
    }
}

/// An engine with its scan and its stores, and the filter beside it.
pub trait Beside {
    /// A row goes in.
    fn row(&mut self, row: &[u16], out: &mut [i32]) -> Answer;

    /// The scan is closed.
    fn close(&mut self);

    /// A closing step.
    fn step(&mut self, out: &mut [i32]) -> Closing;

    /// The pixel at row r, column c, by the filter written apart.
    fn pixel(&self, given: Given, r: u32, c: u32) -> i64;
}

/// The answer that is due at arrival i of a scan of so many rows; those from there on are closing steps.
fn due(height: usize, delay: usize, i: usize) -> Said
    requires { (height ≤ 64) × (delay ≤ 128) }
{
    if i >= height + delay {
        Said::Done
    } else if i < delay {
        Said::Waiting
    } else {
        Said::Row((i - delay) as u32)
    }
}

/// Filtered row r against the filter beside the engine.
fn compare<B: Beside>(n: &mut Counts, beside: &B, given: Given, r: u32, out: &[i32; 1024]) {
    for (c, &pixel) in out[..given.width].iter().enumerate() {
        n.pixel(i64::from(pixel), beside.pixel(given, r, c as u32));
    }
}

/// A whole scan that was started: its rows given, closed, and two steps more than the delay.
pub fn run<B: Beside>(n: &mut Counts, beside: &mut B, given: Given, delay: usize)
    requires { delay ≤ 128 }
{
    let mut out = [0i32; 1024];
    for i in 0..given.height + delay + 2 {
        let said = match given.row(i) {
            Some(row) => Said::from(beside.row(row, &mut out)),
            None => {
                if i == given.height {
                    beside.close();
                }
                Said::from(beside.step(&mut out))
            }
        };
        n.answer(said, due(given.height, delay, i));
        if let Said::Row(r) = said {
            compare(n, beside, given, r, &out);
        }
    }
}
