//! A number as a word of the command line.
ghost use Rattle.std.specs.Prelude.{◌≡◌, ◌+◌, ◌-◌, ◌*◌, ◌≤◌, min, length};
ghost use Rattle.choicetext.specs.Numbers.{digit, number_most, number_of, no_number_text};
ghost use Rattle.text.specs.Text.{Put};

use crate::cells::put_bytes;

/// 10^18: a number is held as it where it is larger.
const NUMBER_MOST: u64 = 1000000000000000000;

/// Whether a byte is a digit.
#[tactic(auto, unfolding(crate::specs::Numbers::digit))]
fn digit(b: u8) -> bool
    ensures { result ≡ digit b }
{
    (b'0'..=b'9').contains(&b)
}

/// One digit more.
fn next(n: u64, b: u8) -> u64
    requires { (n ≤ number_most) × (48 ≤ b) }
    ensures { result ≡ min number_most (n * 10 + (b - 48)) }
{
    NUMBER_MOST.min(n * 10 + u64::from(b - b'0'))
}

/// The number that a word is, where it is one.
pub fn number(w: &[u8]) -> Option<u64>
    ensures { result ≡ number_of w.now }
{
    if w.is_empty() {
        return None;
    }
    let mut n = 0;
    for &b in w {
        if !digit(b) {
            return None;
        }
        n = next(n, b);
    }
    Some(n)
}

/// What stands for no MOST: every choice is within it.
pub fn no_most() -> u64
    ensures { result ≡ number_most }
{
    NUMBER_MOST
}

/// A word that is no number, and what it stands for.
pub fn put_no_number(out: &mut [u8], what: &[u8], word: &[u8]) -> usize
    requires { length what.now + length word.now + 32 ≤ length out.old }
    ensures { Put out.old 0 (no_number_text what.now word.now) out.new result }
{
    let a = put_bytes(out, 0, b"drops: ");
    let a = put_bytes(out, a, what);
    let a = put_bytes(out, a, b" is no number: ");
    let a = put_bytes(out, a, word);
    put_bytes(out, a, b"\n")
}
