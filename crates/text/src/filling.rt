// A text with places for numbers.
ghost use Rattle.std.specs.Prelude.{◌≡◌, cond, [], ◌∷◌, eqb, suc, ◌+◌, ◌*◌, ◌≤◌, ◌<◌, length, get_or};
ghost use Rattle.text.specs.Text.{Put};
ghost use Rattle.text.specs.Ascii.{piece, filled, line, fill_count, fill_out};

use crate::lines::line;
use crate::putting::{put_bytes, put_number};

// Number k of three, 0 where there is none.
fn pick(x: u64, y: u64, z: u64, k: usize) -> u64
    ensures { result ≡ get_or (x ∷ y ∷ z ∷ []) k 0 }
{
    match k {
        0 => x,
        1 => y,
        2 => z,
        _ => 0,
    }
}

// One more where a byte is a #.
fn next_number(k: usize, b: u8) -> usize
    requires { k < 18446744073709551615 }
    ensures { result ≡ cond (eqb b 35) (suc k) k }
{
    if b == b'#' { k + 1 } else { k }
}

// A byte of the text, or the number that a # stands for.
fn put_piece(out: &mut [u8], at: usize, b: u8, n: u64) -> usize
    requires { at + 20 ≤ length out.old }
    ensures put { Put out.old at (piece b n) out.new result }
    ensures upper_bound { result ≤ at + 20 }
{
    if b == b'#' {
        return put_number(out, at, n);
    }
    let one = [b];
    put_bytes(out, at, &one)
}

// Puts a text for which there is room.
fn put_filled(out: &mut [u8], text: &[u8], x: u64, y: u64, z: u64) -> usize
    requires { 20 * length text.now ≤ length out.old }
    ensures put { Put out.old 0 (filled text.now (x ∷ y ∷ z ∷ []) 0) out.new result }
    ensures upper_bound { result ≤ 20 * length text.now }
{
    let mut at = 0;
    let mut k = 0;
    let mut j = 0;
    while j < text.len() {
        let b = text[j];
        at = put_piece(out, at, b, pick(x, y, z, k));
        k = next_number(k, b);
        j += 1;
    }
    at
}

// Puts a text, or nothing where the output has not 20 bytes for each of its bytes.
fn fill(out: &mut [u8], text: &[u8], x: u64, y: u64, z: u64) -> usize
    ensures value { result ≡ fill_count out.old text.now (x ∷ y ∷ z ∷ []) }
    ensures out_after { out.new ≡ fill_out out.old text.now (x ∷ y ∷ z ∷ []) }
{
    if out.len() / 20 < text.len() {
        return 0;
    }
    put_filled(out, text, x, y, z)
}

// Puts line k of a text at the start of a buffer, with these numbers in place of each #, and answers its length; nothing and
// 0 where the buffer has not 20 bytes for each byte of the line.
pub fn fill_line(out: &mut [u8], text: &[u8], k: usize, x: u64, y: u64, z: u64) -> usize
    ensures value { result ≡ fill_count out.old (line k text.now) (x ∷ y ∷ z ∷ []) }
    ensures out_after { out.new ≡ fill_out out.old (line k text.now) (x ∷ y ∷ z ∷ []) }
{
    let found = line(text, k);
    let start = found.start;
    let end = found.end;
    fill(out, &text[start..end], x, y, z)
}
