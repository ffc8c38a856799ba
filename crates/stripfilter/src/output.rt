//! What is written.
ghost use Rattle.std.specs.Prelude.{◌≤◌};
ghost use Rattle.filtering.specs.Judging.{Accepts};

use crate::console::Console;
use commands::Command;
use filtering::{Fault, Job, put_fault};
use std::env::Env;
use std::io::Write;
use streams::put;

/// A line on standard error: what a fault is a fault of, and the fault.
pub fn report<E: Write>(errors: &mut E, what: &[u8], fault: Fault) {
    let mut text = [0u8; 4096];
    let n = put_fault(Some(fault), &mut text);
    let _ = errors.write_all(what);
    let _ = errors.write_all(b": ");
    let _ = errors.write_all(&text[..n]);
}

/// The answer to a command line that asks for no filtering.
pub fn answer<W: Write>(stream: &mut W, c: Command) {
    let _ = stream.write_all(filtering::answer(c).as_bytes());
}

/// The same about word i.
pub fn about_word<R: Env, E: Write>(rt: &R, errors: &mut E, c: Command, i: usize) {
    let mut word = [0u8; 4096];
    if let Ok(n) = streams::word(rt, i, &mut word) {
        let _ = errors.write_all(&word[..n]);
    }
    let _ = errors.write_all(b": ");
    answer(errors, c);
}

/// How filtered rows are written: as decimal numbers, as samples of two bytes from pixels of this many bits, or as bytes.
#[derive(Clone, Copy, Debug, PartialEq, Eq)]
pub enum Form {
    Values,
    Words(u8),
    Bytes,
}

/// A scan to filter: what its header says, and how it is written.
#[derive(Clone, Copy, Debug, PartialEq, Eq)]
pub struct Plan {
    pub job: Job,
    pub form: Form,
}

/// Output can no longer be written, and a line has said why.
#[derive(Clone, Copy, Debug, PartialEq, Eq)]
pub struct Unwritable;

/// Bytes on standard output.
fn written<S, O: Write, E: Write>(
    console: &mut Console<S, O, E>,
    bytes: &[u8],
) -> Result<(), Unwritable> {
    if put(&mut console.output, &mut console.errors, bytes) {
        Ok(())
    } else {
        Err(Unwritable)
    }
}

/// The header of a picture with this maxval.
fn head<S, O: Write, E: Write>(
    console: &mut Console<S, O, E>,
    job: Job,
    maxval: u32,
) -> Result<(), Unwritable> {
    let mut text = [0u8; 66];
    let n = pgm::head(job.width, job.height, maxval, &mut text);
    written(console, &text[..n])
}

/// What comes before the rows: nothing before decimal numbers; bytes have the scan's maxval.
pub fn begin<S, O: Write, E: Write>(
    console: &mut Console<S, O, E>,
    plan: Plan,
) -> Result<(), Unwritable> {
    match plan.form {
        Form::Values => Ok(()),
        Form::Words(_) => head(console, plan.job, 65535),
        Form::Bytes => head(console, plan.job, plan.job.maxval),
    }
}

/// Filtered rows as lines of decimal numbers.
fn lines<S, O: Write, E: Write>(
    console: &mut Console<S, O, E>,
    pixels: &[i32],
    width: usize,
) -> Result<(), Unwritable>
    requires { 1 ≤ width }
{
    let mut text = [0u8; 22528];
    for row in pixels.chunks_exact(width) {
        let n = pgm::line(row, &mut text);
        written(console, &text[..n])?;
    }
    Ok(())
}

/// Filtered rows as samples of the picture.
fn samples<S, O: Write, E: Write>(
    console: &mut Console<S, O, E>,
    pixels: &[i32],
    w: u8,
) -> Result<(), Unwritable> {
    let mut page = [0u8; 131072];
    let n = 2 * pgm::encode(pixels, w, &mut page);
    written(console, &page[..n])
}

/// A filtered row of levels as bytes.
fn bytes<S, O: Write, E: Write>(
    console: &mut Console<S, O, E>,
    levels: &[i32],
) -> Result<(), Unwritable> {
    let mut line = [0u8; 1024];
    let n = pgm::encode_levels(levels, &mut line);
    written(console, &line[..n])
}

/// Filtered rows, this many at the start of the pixels; of levels one at most.
pub fn rows<S, O: Write, E: Write>(
    console: &mut Console<S, O, E>,
    plan: Plan,
    pixels: &[i32],
    count: usize,
) -> Result<(), Unwritable>
    requires { Accepts plan.job }
{
    let n = filtering::packed(count, plan.job.width, pixels.len());
    match plan.form {
        Form::Values => lines(console, &pixels[..n], plan.job.width as usize),
        Form::Words(w) => samples(console, &pixels[..n], w),
        Form::Bytes => bytes(console, &pixels[..n]),
    }
}
