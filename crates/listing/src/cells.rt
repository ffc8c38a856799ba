//! Text put into a buffer that has room for it, from a place on. Each function answers the place past what it put.
ghost use Rattle.std.specs.Prelude.{◌+◌, ◌≤◌, length};
ghost use Rattle.text.specs.Text.{cell, signed_cell, Put};
ghost use Rattle.listing.specs.Listing.{three};

/// Bytes.
pub fn put_bytes(out: &mut [u8], at: usize, text: &[u8]) -> usize
    requires { at + length text.now ≤ length out.old }
    ensures { Put out.old at text.now out.new result }
{
    text::put_bytes(out, at, text)
}

/// A number and a byte after it, 21 bytes at most.
pub fn put_cell(out: &mut [u8], at: usize, n: u64, end: u8) -> usize
    requires { at + 21 ≤ length out.old }
    ensures put { Put out.old at (cell n end) out.new result }
    ensures upper_bound { result ≤ at + 21 }
{
    text::put_cell(out, at, n, end)
}

/// Three numbers with single spaces between and a byte after them, 63 bytes at most.
pub fn put_three(out: &mut [u8], at: usize, x: u64, y: u64, z: u64, end: u8) -> usize
    requires { at + 63 ≤ length out.old }
    ensures put { Put out.old at (three x y z end) out.new result }
    ensures upper_bound { result ≤ at + 63 }
{
    let a = put_cell(out, at, x, b' ');
    let a = put_cell(out, a, y, b' ');
    put_cell(out, a, z, end)
}

/// An integer and a byte after it, 22 bytes at most.
pub fn put_signed(out: &mut [u8], at: usize, z: i16, end: u8) -> usize
    requires { at + 22 ≤ length out.old }
    ensures put { Put out.old at (signed_cell z end) out.new result }
    ensures upper_bound { result ≤ at + 22 }
{
    text::put_signed(out, at, i32::from(z), end)
}
