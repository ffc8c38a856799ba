//! Inner: the four calls of a scan that goes row by row, the same over any filter. A filter is its own numbers beside the stores that are
//! lent to it from call to call; what the calls ask of it is the trait `Filter`. Where a call is refused, all is what it was.
//!
//!   Filter      what varies: the questions on its numbers, its delay, its stores, and what an arrival leaves
//!   State       how far a scan is
//!   start       a state; or a refusal: the filter's own, 12 or 13
//!   take_row    a row: the number of the filtered row that is out, or none yet; or a refusal: 14, 15, 16, 17, 13, 18 or the filter's
//!   row         the same as an answer: a filtered row in the output with its number, waiting, or a refusal: 14, 15, 16, 17, 13, 18 or the filter's
//!   close       the state closed; or a refusal, 14 or 15
//!   step        a filtered row, waiting, done, or a refusal: 14, 15, 13 or the filter's
//!   state_good  question 14
#![tactic(auto)]

ghost use Rattle.std.specs.Prelude.{◌≡◌, ◌≤◌, true, length};
ghost use Rattle.layout.specs.Answers.{said, verdict, left, first_no};
ghost use Rattle.machine.specs.Rules.{Rules, Fits, good, taken_of};

mod rows;
mod starts;
mod states;
mod steps;

use layout::Refusal;
pub use rows::{row, take_row};
pub use starts::{close, start};
pub use states::state_good;
pub use steps::step;

/// How far a scan is: its width, the rows that came in, the closing steps done, and whether it is closed.
#[derive(Clone, Copy, Debug, PartialEq, Eq)]
pub struct State {
    pub width: usize,
    pub rows: u32,
    pub steps: u32,
    pub closed: bool,
}

/// Which row arrives: its columns, its number among the rows and closing steps, and how many rows are given, it included.
#[derive(Clone, Copy, Debug, PartialEq, Eq)]
pub struct Arrival {
    pub width: usize,
    pub number: u32,
    pub given: u32,
}

/// A filter beside the stores that are lent to it.
pub trait Filter {
    ghost rules: { Rules Self };

    /// The questions on its own numbers.
    fn ask(&self) -> Result<(), Refusal>
        ensures { said result ≡ verdict (rules.asks self.now) };

    /// D, the delay.
    fn delay(&self) -> u32
        requires { good rules self.now ≡ true }
        ensures value { result ≡ rules.delay self.now }
        ensures upper_bound { result ≤ 15 };

    /// The largest sample that is not dead.
    fn top(&self) -> u16
        requires { good rules self.now ≡ true }
        ensures { result ≡ rules.top self.now };

    /// Question 13: whether the stores are long enough for a width.
    fn holds(&self, width: usize) -> bool
        ensures { result ≡ rules.holds self.now width };

    /// Zeros in the stores, before the first row.
    fn clear(&mut self, width: usize)
        requires { (good rules self.old ≡ true) × (rules.holds self.old width ≡ true) × (width ≤ 1024) }
        ensures { self.new ≡ rules.cleared self.old width };

    /// A row arrives: the filter's own question, and what it leaves; refused, all is what it was.
    fn arrive(&mut self, arrival: Arrival, row: &[u16], out: &mut [i32]) -> Result<(), Refusal>
        requires { Fits rules self.old arrival (length row.now) (length out.old) }
        ensures { left (said result) self.new out.new ≡ taken_of rules self.old arrival row.now out.old };
}
