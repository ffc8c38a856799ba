//! The strips of docs/RULES.md that carry no mark, executed, with the questions and traps around them. The strips stand in the
//! input, a command to a line; what is written is each line, with the answer after it.
//!
//!   # words                       a title
//!   hold SAMPLES SUMS OUT         how many places of the stores and of the output are lent from here on
//!   table BYTES                   load this file, in hexadecimal; after the verdict, the number of the table check
//!   empty                         the table without its rectangles
//!   begin L                       start a scan
//!   row X X ..                    a row
//!   close                         close the scan
//!   step                          a closing step
//!   numbers ROWS MORE STEPS SHUT  the state set by hand: ROWS + MORE rows, these steps, closed where SHUT is not 0
//!   keep I X                      a kept sample set by hand; answers what stood there
//!   alter I X                     a column sum set by hand
//!   pixel L R C N X X ..          the one-pixel call on a scan of N samples, these first and zeros after them
//!
//! and of a ranked scan:
//!
//!   Hold SAMPLES COUNTS WINDOWS OUT   how many places of the three stores and of the output are lent from here on
//!   Begin B LEADROW LEADCOL TRAILROW TRAILCOL R L   start, all in hexadecimal, the edges as bytes
//!   Row X X .. / Close / Step / Numbers ROWS MORE STEPS SHUT   as above
//!   Keep I X / Alter I X / Window I X   a kept sample, a column count, a window count set by hand; answers what stood there
#![tactic(auto)]

mod answered;
mod desk;
mod ranked;
mod words;

use desk::Desk;
use ranked::RankDesk;
use std::io::Write;
use streams::gather;
use words::letter;

/// A line, on the filter's desk or on that of the ranked scan, whose lines begin with a capital letter.
fn obey<W: Write>(output: &mut W, line: &[u8], scan: &mut Desk, ranked: &mut RankDesk) {
    if letter(line).is_ascii_uppercase() {
        ranked.line(output, line);
    } else {
        scan.line(output, line);
    }
}

fn all<W: Write>(output: &mut W, text: &[u8]) {
    let mut kept = [0u16; 32768];
    let mut sums = [0u32; 1024];
    let mut samples = [0u16; 256];
    let mut counts = [0u16; 2048];
    let mut windows = [0u16; 300];
    let mut scan = Desk::fresh(&mut kept, &mut sums);
    let mut ranked = RankDesk::fresh(&mut samples, &mut counts, &mut windows);
    let mut rest = text;
    while !rest.is_empty() {
        let end = rest.iter().position(|&b| b == b'\n').unwrap_or(rest.len());
        obey(output, &rest[..end], &mut scan, &mut ranked);
        rest = &rest[(end + 1).min(rest.len())..];
    }
}

fn main(rt: HostRuntime) {
    let mut text = [0u8; 16384];
    let got = gather(&mut rt.stdin(), &mut text, 0, 16384, 16384);
    all(&mut rt.stdout(), &text[..got.end]);
}
