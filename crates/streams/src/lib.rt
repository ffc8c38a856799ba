//! Inner: reading and writing for the programs. A read that fails is told apart from the end of the input, and output that cannot
//! be written is said on standard error.
#![tactic(auto)]

ghost use Rattle.std.specs.Prelude.{◌≡◌, ◌≤◌, length};
ghost use Rattle.std.specs.Io.{WritesAtMost};
ghost use Rattle.text.specs.Text.{put_text, put_end};
ghost use Rattle.text.specs.Ascii.{ascii};
ghost use Rattle.streams.specs.Streams.{IsPrefixLen};

mod cause;

pub use cause::fail;
use faults::put_fault;
use std::env::{Env, FillError};
use std::fs::File;
use std::io;
use std::io::{ErrorKind, Read, Write};
use std::rt::Files;
use text::put_bytes;

// The system's numbers for the errors of a word that is not there, and of one that does not fit.
const INVALID_ARGUMENT: i32 = 22;

const NAME_TOO_LONG: i32 = 36;

// How many bytes there are, and why a read failed, if one did.
#[derive(Drop)]
pub struct Got {
    pub end: usize,
    pub failed: Option<io::Error>,
}

// One read behind the first `end` bytes of a store, up to place `most`.
fn behind<R: Read>(reader: &mut R, store: &mut [u8], end: usize, most: usize) -> Got
    requires { (end ≤ most) × (most ≤ length store.old) }
    ensures { (end ≤ result.end) × (result.end ≤ most) }
{
    match reader.read(&mut store[end..most]) {
        Ok(n) => Got {
            end: end + n,
            failed: None,
        },
        Err(e) => Got {
            end,
            failed: Some(e),
        },
    }
}

// Reads behind the first `have` bytes of a store, up to place `most`, until there are `need` of them, the input ends or a read
// fails.
pub fn gather<R: Read>(
    reader: &mut R,
    store: &mut [u8],
    have: usize,
    need: usize,
    most: usize,
) -> Got
    requires { (have ≤ most) × (most ≤ length store.old) }
    ensures { (have ≤ result.end) × (result.end ≤ most) }
{
    let mut end = have;
    while end < need {
        let got = behind(reader, store, end, most);
        if got.failed.is_some() {
            return got;
        }
        if got.end == end {
            return got;
        }
        end = got.end;
    }
    Got { end, failed: None }
}

// Reads the file at a path, up to place `most` of a store. Where it cannot be opened or read, a line says why.
pub fn file<R: Files, E: Write>(
    rt: &R,
    errors: &mut E,
    path: &[u8],
    store: &mut [u8],
    most: usize,
) -> Got
    requires { most ≤ length store.old }
    ensures { result.end ≤ most }
{
    let got = open_and_gather(rt, path, store, most);
    if let Some(why) = &got.failed {
        fail(errors, path, why);
    }
    got
}

// Nothing was read, for this reason.
fn nothing(why: io::Error) -> Got
    ensures { result.end ≡ 0 }
{
    Got {
        end: 0,
        failed: Some(why),
    }
}

// Reads as `file` does, and says nothing. std's paths are text.
fn open_and_gather<R: Files>(rt: &R, path: &[u8], store: &mut [u8], most: usize) -> Got
    requires { most ≤ length store.old }
    ensures { result.end ≤ most }
{
    match std::str::from_utf8(path) {
        Err(_) => nothing(io::Error::from(ErrorKind::InvalidFilename)),
        Ok(text) => match File::open(rt, text) {
            Err(why) => nothing(why),
            Ok(mut opened) => gather(&mut opened, store, 0, most, most),
        },
    }
}

// What was read of the input that the command line names: how long its name is, how many bytes there are, and whether they could
// not be read.
#[derive(Drop)]
pub struct Source {
    pub name: usize,
    pub end: usize,
    pub failed: bool,
}

// The word at place i of the command line, at the start of a buffer. Answers its length, or that it is not there or does not fit.
pub fn word<R: Env>(rt: &R, i: usize, buf: &mut [u8]) -> Result<usize, io::Error>
    ensures { WritesAtMost result buf.new }
{
    match rt.arg(i, buf) {
        Ok(n) => Ok(n),
        Err(FillError::NotPresent) => Err(io::Error::from_raw_os_error(INVALID_ARGUMENT)),
        Err(FillError::TooLong) => Err(io::Error::from_raw_os_error(NAME_TOO_LONG)),
    }
}

// How many words the command line has, with the program's name.
pub fn count_words<R: Env>(rt: &R) -> usize {
    let mut buf = [0u8; 1];
    for i in 0..usize::MAX {
        if let Err(FillError::NotPresent) = rt.arg(i, &mut buf) {
            return i;
        }
    }
    usize::MAX
}

// The name of standard input in messages, at the start of a buffer; nothing where there is no room. Answers its length.
fn standard_name(name: &mut [u8]) -> usize
    ensures value { result ≡ put_end name.old 0 (ascii "standard input") }
    ensures name_after { name.new ≡ put_text name.old 0 (ascii "standard input") }
    ensures prefix_len { IsPrefixLen result name.new }
{
    put_bytes(name, 0, b"standard input")
}

// Reads standard input, up to place `most` of a store.
fn standard<S: Read, E: Write>(
    input: &mut S,
    errors: &mut E,
    store: &mut [u8],
    most: usize,
    name: &mut [u8],
) -> Source
    requires { most ≤ length store.old }
    ensures { (result.end ≤ most) × IsPrefixLen result.name name.new }
{
    let n = standard_name(name);
    let got = gather(input, store, 0, most, most);
    if let Some(why) = &got.failed {
        fail(errors, b"standard input", why);
    }
    Source {
        name: n,
        end: got.end,
        failed: got.failed.is_some(),
    }
}

// Reads the file that word 1 of the command line names, up to place `most` of a store.
fn named<R: Files + Env, E: Write>(
    rt: &R,
    errors: &mut E,
    store: &mut [u8],
    most: usize,
    name: &mut [u8],
) -> Source
    requires { most ≤ length store.old }
    ensures { (result.end ≤ most) × IsPrefixLen result.name name.new }
{
    match word(rt, 1, name) {
        Err(why) => {
            fail(errors, b"input", &why);
            Source {
                name: 0,
                end: 0,
                failed: true,
            }
        }
        Ok(n) => {
            let got = file(rt, errors, &name[..n], store, most);
            Source {
                name: n,
                end: got.end,
                failed: got.failed.is_some(),
            }
        }
    }
}

// Reads the input that the command line names, up to place `most` of a store: the file that word 1 names, or standard input where
// there is no word. Leaves the word, or `standard input`, at the start of `name`. Where the input cannot be opened or read, a line
// says why.
pub fn input<R: Files + Env, S: Read, E: Write>(
    rt: &R,
    input: &mut S,
    errors: &mut E,
    store: &mut [u8],
    most: usize,
    name: &mut [u8],
) -> Source
    requires { most ≤ length store.old }
    ensures { (result.end ≤ most) × IsPrefixLen result.name name.new }
{
    if count_words(rt) < 2 {
        standard(input, errors, store, most, name)
    } else {
        named(rt, errors, store, most, name)
    }
}

/// Says on standard error that the input of this name is refused with this number, at this line of it, or at none where it is 0.
pub fn refuse<E: Write>(errors: &mut E, name: &[u8], place: u32, number: u32) {
    let mut text = [0u8; 8192];
    let end = put_fault(&mut text, name, place, number);
    let _ = errors.write_all(&text[..end]);
}

// Writes to standard output. Answers whether that went well, and says so on standard error where it did not.
pub fn put<O: Write, E: Write>(output: &mut O, errors: &mut E, bytes: &[u8]) -> bool {
    match output.write_all(bytes) {
        Ok(()) => true,
        Err(why) => {
            fail(errors, b"standard output", &why);
            false
        }
    }
}
