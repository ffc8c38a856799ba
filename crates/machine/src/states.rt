//! The questions on a state, and what arrives with it.
ghost use Rattle.std.specs.Prelude.{◌≡◌, ◌≤◌, ◌+◌, true};
ghost use Rattle.machine.specs.Calls.{machine, agrees, fresh, arrival_of};
ghost use Rattle.machine.specs.Rules.{good};

use crate::{Arrival, Filter, State};
use rule::width_good;

/// Whether a filter's own numbers are good.
fn numbers_good<F: Filter>(filter: &F) -> bool
    ensures { result ≡ good F.rules filter.now }
{
    filter.ask().is_ok()
}

/// Question 14: whether the numbers of a scan agree.
pub fn state_good<F: Filter>(state: State, filter: &F) -> bool
    ensures value { result ≡ agrees F.rules (machine state filter.now) }
    ensures bounds { result ≡ true → (good F.rules filter.now ≡ true) × (state.width ≤ 1024) × (state.rows ≤ 65535) × (state.steps ≤ 15) }
{
    if !numbers_good(filter) {
        return false;
    }
    let delay = filter.delay();
    width_good(state.width)
        && state.rows <= 65535
        && state.steps <= delay
        && (state.closed || state.steps == 0)
}

impl State {
    /// A scan with no row in it.
    pub fn fresh(width: usize) -> State
        ensures { result ≡ fresh width }
    {
        State {
            width,
            rows: 0,
            steps: 0,
            closed: false,
        }
    }

    /// What arrives, where so many rows are given.
    pub fn arrival(self, given: u32) -> Arrival
        requires { self.rows + self.steps ≤ 65550 }
        ensures { result ≡ arrival_of self given }
    {
        Arrival {
            width: self.width,
            number: self.rows + self.steps,
            given,
        }
    }
}
