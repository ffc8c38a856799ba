//! drops TABLE [MOST [WIDTH]]: which choices of the three drops are worth having for a table file. Prints a line for each choice that is
//! listed, with MOST only those that keep every pixel within MOST of the full one, at rows of WIDTH samples, or of 1024. What cannot be
//! read, a refusal and a word that is no number are a line on standard error.
#![tactic(auto)]

ghost use Rattle.std.specs.Prelude.{◌≤◌, length};

use layout::{Question, Table};
use std::env::Env;
use std::io::{Read, Write};
use std::rt::Files;
use streams::{fail, put, refuse};

/// Says that a word is no number.
fn no_number<E: Write>(errors: &mut E, what: &[u8], word: &[u8])
    requires { (length what.now ≤ 16) × (length word.now ≤ 4096) }
{
    let mut line = [0u8; 4608];
    let end = choicetext::put_no_number(&mut line, what, word);
    let _ = errors.write_all(&line[..end]);
}

/// The number that word i is, `other` where there is no such word; none where it is no number, which is said.
fn number_word<R: Env, E: Write>(
    rt: &R,
    errors: &mut E,
    i: usize,
    what: &[u8],
    other: u64,
) -> Option<u64>
    requires { length what.now ≤ 16 }
{
    if streams::count_words(rt) <= i {
        return Some(other);
    }
    let mut word = [0u8; 4096];
    match streams::word(rt, i, &mut word) {
        Err(why) => {
            fail(errors, what, &why);
            None
        }
        Ok(n) => {
            let number = choicetext::number(&word[..n]);
            if number.is_none() {
                no_number(errors, what, &word[..n]);
            }
            number
        }
    }
}

/// Prints the choices of a table.
fn print<O: Write, E: Write>(
    output: &mut O,
    errors: &mut E,
    table: Table,
    width: usize,
    most: u64,
) {
    let mut page = [0u8; 165000];
    let end = choicetext::list(table, width, most, &mut page);
    put(output, errors, &page[..end]);
}

/// Prints the choices of the table file that the first word names, or says why not.
fn print_file<R: Files + Env, S: Read, O: Write, E: Write>(
    rt: &R,
    input: &mut S,
    output: &mut O,
    errors: &mut E,
    width: usize,
    most: u64,
) {
    let mut name = [0u8; 4096];
    let mut bytes = [0u8; 156];
    let from = streams::input(rt, input, errors, &mut bytes, table::read_most(), &mut name);
    if from.failed {
        return;
    }
    match table::load(&bytes[..from.end]) {
        Err(refusal) => refuse(
            errors,
            &name[..from.name],
            refusal.place,
            refusal.question.number(),
        ),
        Ok(table) => print(output, errors, table, width, most),
    }
}

fn main(rt: HostRuntime) {
    let mut errors = rt.stderr();
    if !(2..=4).contains(&streams::count_words(&rt)) {
        let _ = errors.write_all(b"usage: drops TABLE [MOST [WIDTH]]\n");
        return;
    }
    let Some(most) = number_word(&rt, &mut errors, 2, b"MOST", choicetext::no_most()) else {
        return;
    };
    let Some(width) = number_word(&rt, &mut errors, 3, b"WIDTH", 1024) else {
        return;
    };
    if !rule::width_good(width as usize) {
        refuse(&mut errors, b"drops", 0, Question::Width.number());
        return;
    }
    print_file(
        &rt,
        &mut rt.stdin(),
        &mut rt.stdout(),
        &mut errors,
        width as usize,
        most,
    );
}
