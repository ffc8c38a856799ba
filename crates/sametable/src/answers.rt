//! The line that is printed.
ghost use Rattle.std.specs.Prelude.{◌++◌, ◌+◌, ◌≤◌, length};
ghost use Rattle.table.specs.Format.{load_of};
ghost use Rattle.text.specs.Text.{signed_cell, Put};
ghost use Rattle.sametable.specs.Comparison.{InGrid, refused_text, differ_text, compared_text, second_text, comparison_of};

use crate::weights::weight;
use layout::Table;
use refusals::sentence;
use text::{put_bytes, put_cell, put_signed};

/// A word, an integer and a byte after it; the integer and the byte take 22 bytes at most.
fn put_word(out: &mut [u8], at: usize, word: &[u8], z: i32, end: u8) -> usize
    requires { at + length word.now + 22 ≤ length out.old }
    ensures put { Put out.old at (word.now ++ signed_cell z end) out.new result }
    ensures upper_bound { result ≤ at + length word.now + 22 }
{
    let a = put_bytes(out, at, word);
    put_signed(out, a, z, end)
}

/// A refusal: what is refused, the number, and the words for it.
fn put_refused(out: &mut [u8], what: &[u8], number: u32) -> usize
    requires { (length what.now ≤ 32) × (4096 ≤ length out.old) }
    ensures { Put out.old 0 (refused_text what.now number) out.new result }
{
    let a = put_bytes(out, 0, what);
    let a = put_cell(out, a, number as u64, b':');
    let a = put_bytes(out, a, b" ");
    let a = put_bytes(out, a, sentence(number).as_bytes());
    put_bytes(out, a, b"\n")
}

/// An offset and the two weights there.
fn put_differs(out: &mut [u8], one: &Table, other: &Table, row: i32, col: i32) -> usize
    requires out_long { 4096 ≤ length out.old }
    requires in_grid { InGrid row × InGrid col }
    ensures { Put out.old 0 (differ_text one.now other.now row col) out.new result }
{
    let a = put_word(out, 0, b"differ at row ", row, b',');
    let a = put_word(out, a, b" column ", col, b':');
    let a = put_word(out, a, b" ", weight(one, row, col), b' ');
    put_word(out, a, b"and ", weight(other, row, col), b'\n')
}

/// What is said of two tables.
fn compared(one: Table, other: Table, out: &mut [u8]) -> usize
    requires { 4096 ≤ length out.old }
    ensures { Put out.old 0 (compared_text one other) out.new result }
{
    let mut scan = [0u16; 961];
    match same::same(one, other, &mut scan) {
        Err(refusal) => put_refused(out, b"refused, ", refusal.question.number()),
        Ok(None) => put_bytes(out, 0, b"same\n"),
        Ok(Some(at)) => put_differs(out, &one, &other, at.row, at.col),
    }
}

/// What is said of a table and a second file.
fn with_second(one: Table, second: &[u8], out: &mut [u8]) -> usize
    requires { 4096 ≤ length out.old }
    ensures { Put out.old 0 (second_text one (load_of second.now)) out.new result }
{
    match table::load(second) {
        Err(refusal) => put_refused(out, b"second table refused, ", refusal.question.number()),
        Ok(other) => compared(one, other, out),
    }
}

/// What is said of two files, from the start of out.
pub fn compare(first: &[u8], second: &[u8], out: &mut [u8]) -> usize
    requires { 4096 ≤ length out.old }
    ensures { Put out.old 0 (comparison_of (load_of first.now) (load_of second.now)) out.new result }
{
    match table::load(first) {
        Err(refusal) => put_refused(out, b"first table refused, ", refusal.question.number()),
        Ok(one) => with_second(one, second, out),
    }
}
