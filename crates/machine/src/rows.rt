//! A row.
ghost use Rattle.std.specs.Prelude.{◌≡◌, length, OnOk};
ghost use Rattle.layout.specs.Answers.{answer_said, said, verdict, left};
ghost use Rattle.rule.specs.Mended.{mended};
ghost use Rattle.machine.specs.Rules.{Fits, taken_of};
ghost use Rattle.machine.specs.Calls.{due_is, said_by, machine, row_arrival, row_asks, row_of};

use crate::states::state_good;
use crate::{Arrival, Filter, State};
use layout::{Answer, Question, Refusal};
use rule::{first_above, mend};

/// The questions of a row before the filter's, with the length of the output.
fn ask_row<F: Filter>(state: State, filter: &F, row: &[u16], out: usize) -> Result<(), Refusal>
    ensures asked { said result ≡ verdict (row_asks F.rules (machine state filter.now) row.now out) }
    ensures fits { OnOk result (Fits F.rules filter.now (row_arrival state) (length row.now) out) }
{
    Refusal::unless(state_good(state, filter), Question::State)?;
    Refusal::unless(!state.closed, Question::Phase)?;
    Refusal::unless(state.rows < 65535, Question::Rows)?;
    Refusal::unless(row.len() == state.width, Question::Length)?;
    Refusal::unless(
        filter.holds(state.width) && state.width <= out,
        Question::Stores,
    )?;
    let place = first_above(row, filter.top());
    Refusal::unless_at(place >= row.len(), Question::Samples, place as u32)
}

/// A row arrives, mended.
fn arrive_mended<F: Filter>(
    filter: &mut F,
    arrival: Arrival,
    row: &[u16],
    out: &mut [i32],
) -> Result<(), Refusal>
    requires { Fits F.rules filter.old arrival (length row.now) (length out.old) }
    ensures { left (said result) filter.new out.new ≡ taken_of F.rules filter.old arrival (mended row.now) out.old }
{
    let mut line = [0u16; 1024];
    mend(&mut line, row);
    filter.arrive(arrival, &line[..arrival.width], out)
}

/// A row comes in: the number of the filtered row that is out, none where none is due yet, or the question that was answered no.
/// Accepted, the filter's stores hold it, mended, and the first L places of the output the filtered row; refused, nothing is changed.
pub fn take_row<F: Filter>(
    state: &mut State,
    filter: &mut F,
    row: &[u16],
    out: &mut [i32],
) -> Result<Option<u32>, Refusal>
    ensures { left (said_by due_is result) (machine state.new filter.new) out.new
        ≡ row_of F.rules (machine state.old filter.old) row.now out.old }
{
    ask_row(*state, filter, row, out.len())?;
    let delay = filter.delay();
    let arrival = state.arrival(state.rows + 1);
    arrive_mended(filter, arrival, row, out)?;
    state.rows += 1;
    Ok(arrival.number.checked_sub(delay))
}

/// The same, with the answer that the interface gives.
pub fn row<F: Filter>(state: &mut State, filter: &mut F, row: &[u16], out: &mut [i32]) -> Answer
    ensures { left (answer_said result) (machine state.new filter.new) out.new
        ≡ row_of F.rules (machine state.old filter.old) row.now out.old }
{
    match take_row(state, filter, row, out) {
        Ok(Some(number)) => Answer::Row(number),
        Ok(None) => Answer::Waiting,
        Err(refusal) => refusal.into(),
    }
}
