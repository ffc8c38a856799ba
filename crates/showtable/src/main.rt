//! showtable [TABLE] > TEXT: shows a table file as text: the file that the word names, or standard input. A refusal, or an input that
//! cannot be read, is a line on standard error, and nothing is shown.
#![tactic(auto)]

use std::io::Write;
use streams::{put, refuse};

/// Shows the table file of these bytes.
fn show<O: Write, E: Write>(output: &mut O, errors: &mut E, bytes: &[u8], name: &[u8]) {
    let mut page = [0u8; 4096];
    match showing::show(bytes, &mut page) {
        Ok(n) => {
            put(output, errors, &page[..n]);
        }
        Err(why) => refuse(errors, name, why.place, why.question.number()),
    }
}

fn main(rt: HostRuntime) {
    let mut errors = rt.stderr();
    if 2 < streams::count_words(&rt) {
        let _ = errors.write_all(b"usage: showtable [TABLE]\n");
        return;
    }
    let mut name = [0u8; 4096];
    let mut bytes = [0u8; 156];
    let from = streams::input(
        &rt,
        &mut rt.stdin(),
        &mut errors,
        &mut bytes,
        table::read_most(),
        &mut name,
    );
    if from.failed {
        return;
    }
    show(
        &mut rt.stdout(),
        &mut errors,
        &bytes[..from.end],
        &name[..from.name],
    );
}
