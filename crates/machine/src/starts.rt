//! Starting and closing.
ghost use Rattle.std.specs.Prelude.{◌≡◌, ◌≤◌, true, [], OnOk};
ghost use Rattle.layout.specs.Answers.{said, verdict, left};
ghost use Rattle.machine.specs.Rules.{good};
ghost use Rattle.machine.specs.Calls.{machine, start_asks, start_of, close_of};

use crate::states::state_good;
use crate::{Filter, State};
use layout::{Question, Refusal};
use rule::width_good;

/// The questions of a start: the filter's own, 12 and 13.
fn ask_start<F: Filter>(filter: &F, width: usize) -> Result<(), Refusal>
    ensures asked { said result ≡ verdict (start_asks F.rules filter.now width) }
    ensures fits { OnOk result ((good F.rules filter.now ≡ true) × (F.rules.holds filter.now width ≡ true) × (width ≤ 1024)) }
{
    filter.ask()?;
    Refusal::unless(width_good(width), Question::Width)?;
    Refusal::unless(filter.holds(width), Question::Stores)
}

/// Starts a scan in `state`. Accepted, the filter's stores are cleared; refused, its width is 0, which every other call refuses.
pub fn start<F: Filter>(state: &mut State, filter: &mut F, width: usize) -> Result<(), Refusal>
    ensures { left (said result) (machine state.new filter.new) [] ≡ start_of F.rules filter.old width }
{
    *state = State::fresh(0);
    ask_start(filter, width)?;
    filter.clear(width);
    *state = State::fresh(width);
    Ok(())
}

/// Closes a scan: questions 14 and 15.
pub fn close<F: Filter>(state: &mut State, filter: &F) -> Result<(), Refusal>
    ensures { left (said result) (machine state.new filter.now) [] ≡ close_of F.rules (machine state.old filter.now) }
{
    Refusal::unless(state_good(*state, filter), Question::State)?;
    Refusal::unless(!state.closed, Question::Phase)?;
    state.closed = true;
    Ok(())
}
