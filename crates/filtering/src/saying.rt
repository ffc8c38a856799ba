//! What is said: a line for a fault, and the answers to --help, --version and a command line that is none.
ghost use Rattle.std.specs.Prelude.{◌≡◌, ◌++◌, ◌+◌, ◌≤◌, length};
ghost use Rattle.std.specs.Fmt.{decimal};
ghost use Rattle.text.specs.Text.{Put};
ghost use Rattle.refusals.specs.Sentences.{refusal_text};
ghost use Rattle.filtering.specs.Messages.{fault_text, line_text, answer_text};

use crate::Fault;
use commands::Command;
use refusals::sentence;
use text::{put_bytes, put_number};

/// Words for which there is room.
fn put_words(out: &mut [u8], at: usize, words: &[u8]) -> usize
    requires { at + length words.now ≤ length out.old }
    ensures { Put out.old at words.now out.new result }
{
    put_bytes(out, at, words)
}

/// Words and the number after them, for which there is room.
fn put_count(out: &mut [u8], at: usize, words: &[u8], n: u64) -> usize
    requires { at + length words.now + 20 ≤ length out.old }
    ensures put { Put out.old at (words.now ++ decimal n) out.new result }
    ensures upper_bound { result ≤ at + length words.now + 20 }
{
    let at = put_words(out, at, words);
    put_number(out, at, n)
}

/// The words for a refusal's number, for which there is room.
fn put_sentence(out: &mut [u8], at: usize, number: u32) -> usize
    requires { at + 100 ≤ length out.old }
    ensures put { Put out.old at (refusal_text number) out.new result }
    ensures upper_bound { result ≤ at + 100 }
{
    put_bytes(out, at, sentence(number).as_bytes())
}

/// Puts the line for a fault at the start of out, and answers its length.
fn put_line(fault: Fault, out: &mut [u8; 4096]) -> usize
    ensures { Put out.old 0 (fault_text fault) out.new result }
{
    match fault {
        Fault::NoTable => put_words(out, 0, b"table refused, 1: the file is empty\n"),
        Fault::Table(number) => {
            let a = put_count(out, 0, b"table refused, ", u64::from(number));
            let a = put_words(out, a, b": ");
            let a = put_sentence(out, a, number);
            put_words(out, a, b"\n")
        }
        Fault::Empty => put_words(out, 0, b"the input is empty\n"),
        Fault::CutHeader => put_words(
            out,
            0,
            b"the header is cut off, or longer than 4096 bytes\n",
        ),
        Fault::Foreign => put_words(
            out,
            0,
            b"not a binary PGM: it does not begin with P5 and white space\n",
        ),
        Fault::Bad(entry, at) => {
            let a = put_count(out, 0, b"header, byte ", at as u64);
            let a = put_words(out, a, b": the ");
            let a = put_words(out, a, entry.name().as_bytes());
            put_words(out, a, b" is no number\n")
        }
        Fault::Unended(at) => {
            let a = put_count(out, 0, b"header, byte ", at as u64);
            put_words(out, a, b": no white space after the maxval\n")
        }
        Fault::Large(entry, at) => {
            let a = put_count(out, 0, b"header, byte ", at as u64);
            let a = put_words(out, a, b": the ");
            let a = put_words(out, a, entry.name().as_bytes());
            put_words(out, a, b" is above 65535\n")
        }
        Fault::NoMaxval => put_words(out, 0, b"header: the maxval is 0\n"),
        Fault::Maxval(n) => {
            let a = put_count(out, 0, b"header: the maxval ", u64::from(n));
            put_words(out, a, b" is above 4095\n")
        }
        Fault::Bits(n, b) => {
            let a = put_count(out, 0, b"header: the maxval ", u64::from(n));
            let a = put_count(out, a, b" needs more than ", u64::from(b));
            put_words(out, a, b" bits\n")
        }
        Fault::Width(n) => {
            let a = put_count(out, 0, b"header: the width ", u64::from(n));
            put_words(out, a, b" is not from 1 to 1024\n")
        }
        Fault::Cut(row, got, need) => {
            let a = put_count(out, 0, b"cut off in row ", u64::from(row));
            let a = put_count(out, a, b" after ", got as u64);
            let a = put_count(out, a, b" of ", u64::from(need));
            put_words(out, a, b" bytes\n")
        }
        Fault::Sample(row, column, n) => {
            let a = put_count(out, 0, b"row ", u64::from(row));
            let a = put_count(out, a, b", column ", column as u64);
            let a = put_count(out, a, b": the sample is above the maxval ", u64::from(n));
            put_words(out, a, b"\n")
        }
        Fault::Engine(number, place) => {
            let a = put_count(out, 0, b"the engine refused, ", u64::from(number));
            let a = put_count(out, a, b", place ", u64::from(place));
            let a = put_words(out, a, b": ");
            let a = put_sentence(out, a, number);
            put_words(out, a, b"\n")
        }
    }
}

/// Puts what is said of a fault at the start of out, an empty line of none, and answers its length.
pub fn put_fault(fault: Option<Fault>, out: &mut [u8; 4096]) -> usize
    ensures { Put out.old 0 (line_text fault) out.new result }
{
    match fault {
        Some(fault) => put_line(fault, out),
        None => put_words(out, 0, b"\n"),
    }
}

/// The answer to a command line that asks for no filtering.
#[tactic(auto, unfolding(crate::specs::Messages::answer_text, text::specs::Ascii::lines, text::specs::Ascii::ascii))]
pub fn answer(c: Command) -> &'static str
    ensures { result.now ≡ answer_text c }
{
    match c {
        Command::Filter { .. } | Command::Ranked { .. } => "",
        Command::Help => {
            "usage: stripfilter [--values] TABLE < scan.pgm > filtered.pgm
       stripfilter [--values] --rank R ROWS COLS < scan.pgm > filtered.pgm
Filters a binary PGM by a table file and writes a 16-bit PGM; or, up to 8 bits, writes at each
place the sample of rank R, from the darkest on, among those under a window of ROWS by COLS.
  --rank         R from 1 to ROWS * COLS, ROWS and COLS from 1 to 31; a 3 by 3 median is 5 3 3
  --values       writes the pixels as decimal numbers, a line a row
  --help, -h     says this
  --version      says the version
"
        }
        Command::Version => "stripfilter 1.2.0\n",
        Command::Unknown(_) => "no such option; stripfilter --help lists them\n",
        Command::NoNumber(_) => "no number; --rank takes R ROWS COLS\n",
        Command::Usage => {
            "usage: stripfilter [--values] TABLE < scan.pgm > filtered.pgm
       stripfilter [--values] --rank R ROWS COLS < scan.pgm > filtered.pgm
"
        }
    }
}
