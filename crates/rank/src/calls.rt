//! The calls of a ranked scan.
ghost use Rattle.std.specs.Prelude.{◌≡◌, List, [], ℕ};
ghost use Rattle.layout.specs.Answers.{said, answer_said, closing_said, left};
ghost use Rattle.rank.specs.Calls.{world, start_of, row_of, close_of, step_of};
ghost use Rattle.rank.specs.Filters.{state_of, scan_at};

use crate::{Moved, RankScan, Ranking, Started, Stepped, Window};
use machine::State;

impl RankScan {
    /// How far a scan is.
    fn state(self) -> State
        ensures { result ≡ state_of self }
    {
        State {
            width: self.width,
            rows: self.rows,
            steps: self.steps,
            closed: self.closed,
        }
    }

    /// The scan of a window that is so far.
    fn at(window: Window, b: u8, rank: u32, state: State) -> RankScan
        ensures { result ≡ scan_at window b rank state }
    {
        RankScan {
            window,
            b,
            rank,
            width: state.width,
            rows: state.rows,
            steps: state.steps,
            closed: state.closed,
        }
    }
}

/// Starts a ranked scan: questions 3, 23, 8, 22, 12 and 13. Accepted, it sets the first 32·L samples, 256·L column counts and 256
/// window counts to zero. Refused, it hands out a scan of width 0, which every other call refuses.
pub fn start(
    b: u8,
    window: Window,
    rank: u32,
    width: usize,
    samples: &mut [u16],
    counts: &mut [u16],
    windows: &mut [u16],
) -> Started
    ensures { left (said result.verdict) (world result.scan samples.new counts.new windows.new) []
        ≡ start_of b window rank width samples.old counts.old windows.old }
{
    let mut state = State::fresh(0);
    let mut filter = Ranking {
        window,
        b,
        rank,
        samples,
        counts,
        windows,
    };
    let verdict = machine::start(&mut state, &mut filter, width);
    Started {
        verdict,
        scan: RankScan::at(window, b, rank, state),
    }
}

/// A row comes in: questions 14, 15, 16, 17, 13, 18 and 19. Accepted, the stores hold it, mended, the window counts are zero, and the
/// first L places of the output hold the filtered row that is due, if one is; refused, nothing is changed.
pub fn row(
    s: RankScan,
    row: &[u16],
    samples: &mut [u16],
    counts: &mut [u16],
    windows: &mut [u16],
    out: &mut [i32],
) -> Moved
    ensures { left (answer_said result.answer) (world result.scan samples.new counts.new windows.new) out.new
        ≡ row_of (world s samples.old counts.old windows.old) row.now out.old }
{
    let mut state = s.state();
    let mut filter = Ranking {
        window: s.window,
        b: s.b,
        rank: s.rank,
        samples,
        counts,
        windows,
    };
    let answer = machine::row(&mut state, &mut filter, row, out);
    Moved {
        answer,
        scan: RankScan::at(s.window, s.b, s.rank, state),
    }
}

/// Closes a ranked scan: questions 14 and 15. Whatever stores the scan has stay as they are.
pub fn close(s: RankScan) -> Started
    ensures { (samples counts windows : List ℕ) → left (said result.verdict) (world result.scan samples counts windows) []
        ≡ close_of (world s samples counts windows) }
{
    let mut state = s.state();
    let filter = Ranking {
        window: s.window,
        b: s.b,
        rank: s.rank,
        samples: &mut [],
        counts: &mut [],
        windows: &mut [],
    };
    let verdict = machine::close(&mut state, &filter);
    Started {
        verdict,
        scan: RankScan::at(s.window, s.b, s.rank, state),
    }
}

/// A closing step: questions 14 and 15, done where D steps are past, then 13 and 19. It is an arrival of zeros that count nothing.
/// Refused or done, nothing is changed.
pub fn step(
    s: RankScan,
    samples: &mut [u16],
    counts: &mut [u16],
    windows: &mut [u16],
    out: &mut [i32],
) -> Stepped
    ensures { left (closing_said result.answer) (world result.scan samples.new counts.new windows.new) out.new
        ≡ step_of (world s samples.old counts.old windows.old) out.old }
{
    let mut state = s.state();
    let mut filter = Ranking {
        window: s.window,
        b: s.b,
        rank: s.rank,
        samples,
        counts,
        windows,
    };
    let answer = machine::step(&mut state, &mut filter, out);
    Stepped {
        answer,
        scan: RankScan::at(s.window, s.b, s.rank, state),
    }
}
