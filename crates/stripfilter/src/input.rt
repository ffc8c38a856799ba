//! What is read: the words of the command line, the table file, and the scan's header.
ghost use Rattle.std.specs.Prelude.{IfSome};
ghost use Rattle.filtering.specs.Judging.{Accepts};
ghost use Rattle.streams.specs.Streams.{IsPrefixLen};

use crate::console::Console;
use crate::output;
use commands::{Begun, Command, Output};
use filtering::Job;
use pgm::{NoHeader, Opening};
use std::env::Env;
use std::io;
use std::io::{Read, Write};
use std::rt::Files;
use streams::{Got, fail, gather};

/// What the command line comes to with the word at place i.
fn with_word<R: Env>(rt: &R, begun: Begun, i: usize) -> Begun {
    let mut word = [0u8; 4096];
    match streams::word(rt, i, &mut word) {
        Ok(n) => begun.next(i, &word[..n]),
        Err(_) => begun.next(i, b""),
    }
}

/// What the words of the command line come to.
pub fn command<R: Env>(rt: &R) -> Command {
    let mut begun = Begun::Filter {
        output: Output::Picture,
        table: None,
    };
    for i in 1..streams::count_words(rt) {
        begun = with_word(rt, begun, i);
    }
    begun.ended()
}

/// The bytes of a table file, no more than loading needs.
pub fn table<R: Files, E: Write>(rt: &R, errors: &mut E, path: &[u8], bytes: &mut [u8; 156]) -> Got
    ensures { IsPrefixLen result.end bytes.new }
{
    streams::file(rt, errors, path, bytes, table::read_most())
}

/// What the header of the scan comes to, and how many bytes of it were read: byte by byte, so that nothing of the rows is taken.
fn opening<S: Read>(input: &mut S) -> io::Result<(Result<Opening, NoHeader>, usize)> {
    let mut bytes = [0u8; 4096];
    for n in 0..4096 {
        let got = gather(input, &mut bytes, n, n + 1, n + 1);
        if let Some(why) = got.failed {
            return Err(why);
        }
        if got.end == n {
            return Ok((Err(NoHeader::More), n));
        }
        let header = pgm::header(&bytes[..n + 1]);
        if header != Err(NoHeader::More) {
            return Ok((header, n + 1));
        }
    }
    Ok((Err(NoHeader::More), 4096))
}

/// The scan that the header announces, for samples of b bits. Where it is not taken, a line says why.
pub fn header<S: Read, O, E: Write>(console: &mut Console<S, O, E>, b: u8) -> Option<Job>
    ensures { IfSome result (λ job. Accepts job) }
{
    let (header, n) = match opening(&mut console.input) {
        Ok(read) => read,
        Err(why) => {
            fail(&mut console.errors, b"scan", &why);
            return None;
        }
    };
    match filtering::judge(b, header, n) {
        Ok(job) => Some(job),
        Err(fault) => {
            output::report(&mut console.errors, b"scan", fault);
            None
        }
    }
}
