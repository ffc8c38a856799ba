//! Words and numbers put into a buffer that has room for them, from a place on. Each function answers the place past what it put.
ghost use Rattle.std.specs.Prelude.{◌++◌, ◌+◌, ◌≤◌, length};
ghost use Rattle.text.specs.Text.{cell, signed_cell, Put};
ghost use Rattle.showing.specs.Showing.{pair};

use text::put_bytes;

/// A word, a number and a byte after it; the number and the byte take 21 bytes at most.
pub fn put_number(out: &mut [u8], at: usize, word: &[u8], n: u8, end: u8) -> usize
    requires { at + length word.now + 21 ≤ length out.old }
    ensures put { Put out.old at (word.now ++ cell n end) out.new result }
    ensures upper_bound { result ≤ at + length word.now + 21 }
{
    let a = put_bytes(out, at, word);
    text::put_cell(out, a, u64::from(n), end)
}

/// A word, an integer and a byte after it; the integer and the byte take 22 bytes at most.
pub fn put_signed(out: &mut [u8], at: usize, word: &[u8], z: i16, end: u8) -> usize
    requires { at + length word.now + 22 ≤ length out.old }
    ensures put { Put out.old at (word.now ++ signed_cell z end) out.new result }
    ensures upper_bound { result ≤ at + length word.now + 22 }
{
    let a = put_bytes(out, at, word);
    text::put_signed(out, a, i32::from(z), end)
}

/// A word, and the row and the column of an edge; behind the word 44 bytes at most.
pub fn put_pair(out: &mut [u8], at: usize, word: &[u8], row: i8, col: i8) -> usize
    requires { at + length word.now + 44 ≤ length out.old }
    ensures put { Put out.old at (pair word.now row col) out.new result }
    ensures upper_bound { result ≤ at + length word.now + 44 }
{
    let a = put_signed(out, at, word, i16::from(row), b' ');
    put_signed(out, a, b"", i16::from(col), b' ')
}
