//! The table listing: reads a table file from standard input and prints what it holds, or the number of the
//! refusal. No more bytes are read than loading needs. Where they cannot be read, a line on standard error says so, and what came is
//! listed.
#![tactic(auto)]

mod cells;
mod lines;

use streams::{fail, gather, put};

fn main(rt: HostRuntime) {
    let mut errors = rt.stderr();
    let mut input = [0u8; 156];
    let most = table::read_most();
    let got = gather(&mut rt.stdin(), &mut input, 0, most, most);
    if let Some(why) = &got.failed {
        fail(&mut errors, b"standard input", why);
    }
    let mut page = [0u8; 4096];
    let end = lines::list(&input[..got.end], &mut page);
    put(&mut rt.stdout(), &mut errors, &page[..end]);
}
