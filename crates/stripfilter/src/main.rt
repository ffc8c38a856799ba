//! stripfilter TABLE < scan.pgm > filtered.pgm: filters a scan, a binary PGM, by a table file, and writes a 16-bit PGM; with --rank R
//! ROWS COLS in place of a table, by a ranked window, and writes a PGM of the same maxval; with --values the pixels as decimal numbers,
//! a line a row. The rows that one read brings are filtered and written before more is read. A fault is a line on standard error. What
//! is decided stands in the crate filtering; here bytes are moved between calls.
#![tactic(auto)]

mod console;
mod filters;
mod input;
mod output;
mod rows;

ghost use Rattle.std.specs.Prelude.{◌*◌, ◌≤◌, min, length};
ghost use Rattle.filtering.specs.Judging.{Accepts};

use commands::{Command, Output, Ranking};
use console::Console;
use filtering::{Fault, table_fault};
use filters::{ByRank, ByTable, Filter};
use layout::Table;
use output::{Form, Plan};
use rows::Room;
use std::env::Env;
use std::io::{Read, Write};
use std::rt::Files;
use streams::fail;

/// Runs a filter that starts, or says why it doesn't.
fn run<F: Filter + Drop, S: Read, O: Write, E: Write>(
    console: &mut Console<S, O, E>,
    what: &[u8],
    started: Result<F, Fault>,
    plan: Plan,
    room: Room,
)
    requires accepted { Accepts plan.job }
    requires room { min (F.most * 2048) 65536 ≤ length room.bytes.now }
{
    match started {
        Ok(mut filter) => {
            let _ = rows::run(console, plan, &mut filter, room);
        }
        Err(fault) => output::report(&mut console.errors, what, fault),
    }
}

/// Filters standard input by a table.
fn by_table<S: Read, O: Write, E: Write>(
    console: &mut Console<S, O, E>,
    table: Table,
    output: Output,
) {
    if let Some(job) = input::header(console, table.b) {
        let form = match output {
            Output::Numbers => Form::Values,
            Output::Picture => Form::Words(table.w),
        };
        let mut samples = [0u16; 32768];
        let mut sums = [0u32; 16384];
        let room = Room {
            bytes: &mut [0; 65536],
            samples: &mut [0; 65536],
            out: &mut [0; 65536],
        };
        let started = ByTable::start(table, job, &mut samples, &mut sums);
        run(console, b"scan", started, Plan { job, form }, room);
    }
}

/// Filters standard input by a ranked window; its samples have 8 bits at most.
fn by_rank<S: Read, O: Write, E: Write>(
    console: &mut Console<S, O, E>,
    ranking: Ranking,
    output: Output,
) {
    if let Some(job) = input::header(console, 8) {
        let form = match output {
            Output::Numbers => Form::Values,
            Output::Picture => Form::Bytes,
        };
        let mut samples = [0u16; 32768];
        let mut counts = [0u16; 262144];
        let mut windows = [0u16; 256];
        let room = Room {
            bytes: &mut [0; 4096],
            samples: &mut [0; 1024],
            out: &mut [0; 1024],
        };
        let started = ByRank::start(ranking, job, &mut samples, &mut counts, &mut windows);
        run(console, b"rank", started, Plan { job, form }, room);
    }
}

/// Filters by the table file at a path.
fn by_file<R: Files, S: Read, O: Write, E: Write>(
    rt: &R,
    console: &mut Console<S, O, E>,
    path: &[u8],
    output: Output,
) {
    let mut bytes = [0u8; 156];
    let got = input::table(rt, &mut console.errors, path, &mut bytes);
    if got.failed.is_some() {
        return;
    }
    match table_fault(table::load(&bytes[..got.end]), got.end) {
        Ok(table) => by_table(console, table, output),
        Err(fault) => output::report(&mut console.errors, path, fault),
    }
}

/// Filters by the table that word i names.
fn by_word<R: Files + Env, S: Read, O: Write, E: Write>(
    rt: &R,
    console: &mut Console<S, O, E>,
    i: usize,
    output: Output,
) {
    let mut path = [0u8; 4096];
    match streams::word(rt, i, &mut path) {
        Ok(n) => by_file(rt, console, &path[..n], output),
        Err(why) => fail(&mut console.errors, b"table", &why),
    }
}

fn main(rt: HostRuntime) {
    let mut console = Console {
        input: rt.stdin(),
        output: rt.stdout(),
        errors: rt.stderr(),
    };
    let c = input::command(&rt);
    match c {
        Command::Filter { output, table } => by_word(&rt, &mut console, table, output),
        Command::Ranked { output, ranking } => by_rank(&mut console, ranking, output),
        Command::Unknown(i) | Command::NoNumber(i) => {
            output::about_word(&rt, &mut console.errors, c, i)
        }
        Command::Usage => output::answer(&mut console.errors, c),
        Command::Help | Command::Version => output::answer(&mut console.output, c),
    }
}
