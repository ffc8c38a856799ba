//! sametable TABLE TABLE: whether two table files do the same. Prints `same`; or the first offset where their weights differ, and the
//! two weights there; or a refusal in words. A file that cannot be read is a line on standard error.
#![tactic(auto)]

mod answers;
mod weights;

ghost use Rattle.streams.specs.Streams.{IsPrefixLen};

use std::env::Env;
use std::io::Write;
use std::rt::Files;
use streams::{Got, fail, put};

/// The bytes of the table file that word i names, no more than loading needs.
fn table_file<R: Files + Env, E: Write>(
    rt: &R,
    errors: &mut E,
    i: usize,
    bytes: &mut [u8; 156],
) -> Got
    ensures { IsPrefixLen result.end bytes.new }
{
    let mut path = [0u8; 4096];
    match streams::word(rt, i, &mut path) {
        Err(why) => {
            fail(errors, b"table", &why);
            Got {
                end: 0,
                failed: Some(why),
            }
        }
        Ok(n) => streams::file(rt, errors, &path[..n], bytes, table::read_most()),
    }
}

fn main(rt: HostRuntime) {
    let mut errors = rt.stderr();
    if streams::count_words(&rt) != 3 {
        let _ = errors.write_all(b"usage: sametable TABLE TABLE\n");
        return;
    }
    let mut first = [0u8; 156];
    let mut second = [0u8; 156];
    let a = table_file(&rt, &mut errors, 1, &mut first);
    if a.failed.is_some() {
        return;
    }
    let b = table_file(&rt, &mut errors, 2, &mut second);
    if b.failed.is_some() {
        return;
    }
    let mut page = [0u8; 4096];
    let end = answers::compare(&first[..a.end], &second[..b.end], &mut page);
    put(&mut rt.stdout(), &mut errors, &page[..end]);
}
