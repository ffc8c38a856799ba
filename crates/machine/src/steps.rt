//! A closing step.
ghost use Rattle.std.specs.Prelude.{◌≡◌, ◌≤◌, true, length};
ghost use Rattle.layout.specs.Answers.{closing_said, said, verdict, left};
ghost use Rattle.machine.specs.Calls.{said_by, machine, step_of};

use crate::states::state_good;
use crate::{Filter, State};
use layout::{Closing, Question, Refusal, due_step};

/// A closing step, and what it answers.
fn take_step<F: Filter>(
    state: &mut State,
    filter: &mut F,
    out: &mut [i32],
) -> Result<Closing, Refusal>
    ensures { left (said_by closing_said result) (machine state.new filter.new) out.new ≡ step_of F.rules (machine state.old filter.old) out.old }
{
    Refusal::unless(state_good(*state, filter), Question::State)?;
    Refusal::unless(state.closed, Question::Phase)?;
    let delay = filter.delay();
    if delay <= state.steps {
        return Ok(Closing::Done);
    }
    let width = state.width;
    Refusal::unless(filter.holds(width) && width <= out.len(), Question::Stores)?;
    let zeros = [0u16; 1024];
    let arrival = state.arrival(state.rows);
    filter.arrive(arrival, &zeros[..width], out)?;
    state.steps += 1;
    Ok(due_step(arrival.number, delay))
}

/// A closing step, as a row of zeros that is none of those given; done where D steps are past. Refused or done, nothing is changed.
pub fn step<F: Filter>(state: &mut State, filter: &mut F, out: &mut [i32]) -> Closing
    ensures { left (closing_said result) (machine state.new filter.new) out.new ≡ step_of F.rules (machine state.old filter.old) out.old }
{
    match take_step(state, filter, out) {
        Ok(closing) => closing,
        Err(refusal) => refusal.into(),
    }
}
