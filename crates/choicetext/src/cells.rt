//! Text put into a buffer that has room for it, from a place on. Each function answers the place past what it put.
ghost use Rattle.std.specs.Prelude.{◌+◌, ◌≤◌, length, pos, neg_ℤ};
ghost use Rattle.text.specs.Text.{cell, signed_cell, Put};
ghost use Rattle.choicetext.specs.Lines.{three};

/// Bytes.
pub fn put_bytes(out: &mut [u8], at: usize, text: &[u8]) -> usize
    requires { at + length text.now ≤ length out.old }
    ensures { Put out.old at text.now out.new result }
{
    text::put_bytes(out, at, text)
}

/// A number and a byte after it, 21 bytes at most.
pub fn put_cell(out: &mut [u8], at: usize, n: u64, end: u8) -> usize
    requires { at + 21 ≤ length out.old }
    ensures put { Put out.old at (cell n end) out.new result }
    ensures upper_bound { result ≤ at + 21 }
{
    text::put_cell(out, at, n, end)
}

/// Three numbers with a space after each, 63 bytes at most.
pub fn put_three(out: &mut [u8], at: usize, x: u64, y: u64, z: u64) -> usize
    requires { at + 63 ≤ length out.old }
    ensures put { Put out.old at (three x y z) out.new result }
    ensures upper_bound { result ≤ at + 63 }
{
    let a = put_cell(out, at, x, b' ');
    let a = put_cell(out, a, y, b' ');
    put_cell(out, a, z, b' ')
}

/// -n and a space after it, 22 bytes at most.
pub fn put_less(out: &mut [u8], at: usize, n: u64) -> usize
    requires { at + 22 ≤ length out.old }
    ensures put { Put out.old at (signed_cell (neg_ℤ (pos n)) 32) out.new result }
    ensures upper_bound { result ≤ at + 22 }
{
    if n == 0 {
        return put_cell(out, at, 0, b' ');
    }
    let a = put_bytes(out, at, b"-");
    put_cell(out, a, n, b' ')
}
