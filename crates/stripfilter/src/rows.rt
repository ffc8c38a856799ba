//! The rows of a scan, as many at a time as one read brings.
ghost use Rattle.std.specs.Prelude.{◌*◌, ◌≤◌, min, length};
ghost use Rattle.filtering.specs.Judging.{Accepts};

use crate::console::Console;
use crate::filters::Filter;
use crate::output;
use crate::output::{Plan, Unwritable};
use filtering::Fault;
use layout::{Closing, Refusal};
use std::io::{Read, Write};
use streams::{Got, fail, gather};

/// Whether more rows are to be read.
#[derive(Clone, Copy, Debug, PartialEq, Eq)]
enum Turn {
    More,
    Over,
}

/// Rows from their bytes: decoded, handed to the filter up to the first with a sample above the maxval, and written.
fn some_rows<F: Filter, S, O: Write, E: Write>(
    console: &mut Console<S, O, E>,
    plan: Plan,
    filter: &mut F,
    bytes: &[u8],
    samples: &mut [u16],
    out: &mut [i32],
) -> Result<Turn, Unwritable>
    requires accepted { Accepts plan.job }
    requires few { length bytes.now ≤ F.most * plan.job.need }
{
    let job = plan.job;
    let n = pgm::decode(bytes, job.maxval, samples);
    let place = rule::first_above(&samples[..n], job.maxval as u16);
    let good = filtering::whole_part(place, job.width);
    let taken = filter.take(job, &samples[..good], out);
    let written = output::rows(console, plan, out, taken.filtered);
    let sample = filtering::row_fault(Ok::<(), Refusal>(()), job, filter.rows(), place, n);
    if let Err(fault) = taken.verdict.and(sample) {
        output::report(&mut console.errors, b"scan", fault);
        return written.map(|()| Turn::Over);
    }
    written.map(|()| Turn::More)
}

/// Says why there is no whole row more.
fn stopped<E: Write>(errors: &mut E, got: &Got, row: u32, need: u32) {
    match &got.failed {
        Some(why) => fail(errors, b"scan", why),
        None => output::report(errors, b"scan", Fault::Cut(row, got.end, need)),
    }
}

/// The room for rows: their bytes, their samples, and the filtered rows that come of them.
#[derive(Drop)]
pub struct Room<'a> {
    pub bytes: &'a mut [u8],
    pub samples: &'a mut [u16],
    pub out: &'a mut [i32],
}

/// All rows, or those before the one that is cut off or has a sample too large. Nothing behind the last row is read.
fn rows<F: Filter, S: Read, O: Write, E: Write>(
    console: &mut Console<S, O, E>,
    plan: Plan,
    filter: &mut F,
    room: Room,
) -> Result<(), Unwritable>
    requires accepted { Accepts plan.job }
    requires room { min (F.most * 2048) 65536 ≤ length room.bytes.now }
{
    let need = plan.job.need;
    let Room {
        bytes: store,
        samples,
        out,
    } = room;
    let mut left = plan.job.height;
    let mut have = 0;
    while left > 0 {
        let most = filtering::read_most(F::at_once(left), need);
        let got = gather(&mut console.input, store, have, need as usize, most);
        let bytes = filtering::whole_part(got.end, need);
        if bytes == 0 {
            stopped(&mut console.errors, &got, filter.rows(), need);
            return Ok(());
        }
        let turn = some_rows(console, plan, filter, &store[..bytes], samples, out)?;
        if turn == Turn::Over {
            return Ok(());
        }
        have = filtering::forward(store, bytes, got.end);
        left = filtering::rows_left(left, bytes, need);
    }
    Ok(())
}

/// The rows that the closing steps give, at most 16 with the one that says done.
fn steps<F: Filter, S, O: Write, E: Write>(
    console: &mut Console<S, O, E>,
    plan: Plan,
    filter: &mut F,
) -> Result<(), Unwritable>
    requires { Accepts plan.job }
{
    let mut out = [0i32; 1024];
    for _ in 0..16 {
        match filter.step(&mut out) {
            Closing::Row(_) => output::rows(console, plan, &out, 1)?,
            Closing::Waiting => {}
            Closing::Done => return Ok(()),
            Closing::Refused(number, place) => {
                output::report(&mut console.errors, b"scan", Fault::Engine(number, place));
                return Ok(());
            }
        }
    }
    Ok(())
}

/// Runs a scan that has been started: its header goes out, then the rows as they come, then the rows that the closing steps
/// give.
pub fn run<F: Filter, S: Read, O: Write, E: Write>(
    console: &mut Console<S, O, E>,
    plan: Plan,
    filter: &mut F,
    room: Room,
) -> Result<(), Unwritable>
    requires accepted { Accepts plan.job }
    requires room { min (F.most * 2048) 65536 ≤ length room.bytes.now }
{
    output::begin(console, plan)?;
    rows(console, plan, filter, room)?;
    filter.close();
    steps(console, plan, filter)
}
