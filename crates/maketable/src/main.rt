//! maketable [TEXT] > TABLE: makes a table file from its text: the file that the word names, or standard input. A refusal, or an input
//! that cannot be read, is a line on standard error, and nothing is written.
#![tactic(auto)]

use std::io::Write;
use streams::{put, refuse};

/// Makes the table file of this text. The longest has 153 bytes.
fn make<O: Write, E: Write>(output: &mut O, errors: &mut E, text: &[u8], name: &[u8]) {
    let mut page = [0u8; 153];
    match making::make(text, &mut page) {
        Ok(n) => {
            put(output, errors, &page[..n]);
        }
        Err(why) => refuse(errors, name, why.place(), why.number()),
    }
}

fn main(rt: HostRuntime) {
    let mut errors = rt.stderr();
    if 2 < streams::count_words(&rt) {
        let _ = errors.write_all(b"usage: maketable [TEXT]\n");
        return;
    }
    let mut name = [0u8; 4096];
    let mut text = [0u8; 65536];
    let from = streams::input(
        &rt,
        &mut rt.stdin(),
        &mut errors,
        &mut text,
        65536,
        &mut name,
    );
    if from.failed {
        return;
    }
    make(
        &mut rt.stdout(),
        &mut errors,
        &text[..from.end],
        &name[..from.name],
    );
}
