//! The calls of a scan.
ghost use Rattle.std.specs.Prelude.{◌≡◌, List, [], ℕ};
ghost use Rattle.layout.specs.Answers.{said, answer_said, closing_said, left};
ghost use Rattle.machine.specs.Calls.{due_is, said_by};
ghost use Rattle.scan.specs.Calls.{world, agrees, start_of, row_of, close_of, step_of};
ghost use Rattle.scan.specs.Filters.{state_of, scan_at};

use crate::{Moved, Scan, Started, Stepped, Stored, Taken};
use layout::{Answer, Table};
use machine::State;

impl Scan {
    /// How far a scan is.
    fn state(self) -> State
        ensures { result ≡ state_of self }
    {
        State {
            width: self.width,
            rows: self.rows,
            steps: self.steps,
            closed: self.closed,
        }
    }

    /// The scan of a table that is so far.
    fn at(table: Table, state: State) -> Scan
        ensures { result ≡ scan_at table state }
    {
        Scan {
            table,
            width: state.width,
            rows: state.rows,
            steps: state.steps,
            closed: state.closed,
        }
    }
}

/// Question 14: whether the numbers of a scan agree.
pub fn state_good(s: Scan) -> bool
    ensures { result ≡ agrees s }
{
    let filter = Stored {
        table: s.table,
        samples: &mut [],
        sums: &mut [],
    };
    machine::state_good(s.state(), &filter)
}

/// Starts a scan: questions 11, 12 and 13. Accepted, it sets the first 32·L samples and (rectangles)·L sums to zero.
/// Refused, it hands out a scan of width 0, which every other call refuses.
pub fn start(t: Table, width: usize, samples: &mut [u16], sums: &mut [u32]) -> Started
    ensures { left (said result.verdict) (world result.scan samples.new sums.new) []
        ≡ start_of t width samples.old sums.old }
{
    let mut state = State::fresh(0);
    let mut filter = Stored {
        table: t,
        samples,
        sums,
    };
    let verdict = machine::start(&mut state, &mut filter, width);
    Started {
        verdict,
        scan: Scan::at(t, state),
    }
}

/// A row comes in: questions 14, 15, 16, 17, 13, 18 and 19. Accepted, the stores hold it, mended, and the first L
/// places of the output the filtered row that is due, if one is; refused, nothing is changed.
pub fn take_row(
    s: Scan,
    row: &[u16],
    samples: &mut [u16],
    sums: &mut [u32],
    out: &mut [i32],
) -> Taken
    ensures { left (said_by due_is result.row) (world result.scan samples.new sums.new) out.new
        ≡ row_of (world s samples.old sums.old) row.now out.old }
{
    let mut state = s.state();
    let mut filter = Stored {
        table: s.table,
        samples,
        sums,
    };
    let row = machine::take_row(&mut state, &mut filter, row, out);
    Taken {
        row,
        scan: Scan::at(s.table, state),
    }
}

/// The same, with the answer that the interface gives.
pub fn row(s: Scan, row: &[u16], samples: &mut [u16], sums: &mut [u32], out: &mut [i32]) -> Moved
    ensures { left (answer_said result.answer) (world result.scan samples.new sums.new) out.new
        ≡ row_of (world s samples.old sums.old) row.now out.old }
{
    let taken = take_row(s, row, samples, sums, out);
    let answer = match taken.row {
        Ok(Some(number)) => Answer::Row(number),
        Ok(None) => Answer::Waiting,
        Err(refusal) => refusal.into(),
    };
    Moved {
        answer,
        scan: taken.scan,
    }
}

/// Closes a scan: questions 14 and 15. Whatever stores the scan has stay as they are.
pub fn close(s: Scan) -> Started
    ensures { (samples sums : List ℕ) → left (said result.verdict) (world result.scan samples sums) [] ≡ close_of (world s samples sums) }
{
    let mut state = s.state();
    let filter = Stored {
        table: s.table,
        samples: &mut [],
        sums: &mut [],
    };
    let verdict = machine::close(&mut state, &filter);
    Started {
        verdict,
        scan: Scan::at(s.table, state),
    }
}

/// A closing step, as a row of zeros: questions 14 and 15, done where D steps are past, then 13 and 19. Refused or done,
/// nothing is changed.
pub fn step(s: Scan, samples: &mut [u16], sums: &mut [u32], out: &mut [i32]) -> Stepped
    ensures { left (closing_said result.answer) (world result.scan samples.new sums.new) out.new
        ≡ step_of (world s samples.old sums.old) out.old }
{
    let mut state = s.state();
    let mut filter = Stored {
        table: s.table,
        samples,
        sums,
    };
    let answer = machine::step(&mut state, &mut filter, out);
    Stepped {
        answer,
        scan: Scan::at(s.table, state),
    }
}
