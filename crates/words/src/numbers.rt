//! The numbers that words spell.
ghost use Rattle.std.specs.Prelude.{◌≡◌, ◌↔◌, ◌<◌, min, [], length, get_or, drop, IsTrue, All};
ghost use Rattle.std.specs.Char.{is_ascii_digit};
ghost use Rattle.words.specs.Words.{words_of, spelt, minus, sign, is_number, is_integer, size};

use crate::parts::word;

/// Whether each byte of a word is a digit.
fn is_digits(w: &[u8]) -> bool
    ensures { IsTrue result ↔ All (λ b. IsTrue (is_ascii_digit b)) w.now }
{
    w.iter().all(|b| b.is_ascii_digit())
}

/// Whether a word has digits only, and at least one.
fn spelt(w: &[u8]) -> bool
    ensures { result ≡ spelt w.now 0 }
{
    !w.is_empty() && is_digits(w)
}

/// Whether a word begins with -.
#[tactic(auto, unfolding(crate::specs::Words::minus))]
fn minus(w: &[u8]) -> bool
    ensures value { result ≡ minus w.now }
    ensures within { IsTrue result → 0 < length w.now }
{
    !w.is_empty() && w[0] == b'-'
}

/// A word without the - that it may begin with.
#[tactic(auto, unfolding(crate::specs::Words::sign))]
fn unsigned(w: &[u8]) -> &[u8]
    ensures { result.now ≡ drop (sign w.now) w.now }
{
    if minus(w) { &w[1..] } else { w }
}

/// Whether a word is a number without a sign.
#[tactic(auto, unfolding(crate::specs::Words::is_number))]
pub fn is_number(w: &[u8]) -> bool
    ensures { result ≡ is_number w.now }
{
    spelt(w)
}

/// Whether a word is an integer.
pub fn is_integer(w: &[u8]) -> bool
    ensures { result ≡ is_integer w.now }
{
    spelt(unsigned(w))
}

/// A number: whether it has a - in front, and its size, held at 65,536 where it is larger.
#[derive(Clone, Copy, Debug, PartialEq, Eq)]
pub struct Signed {
    pub minus: bool, // (C) no i32: `minus_value` of `number` tells -0 from 0
    pub size: u32,
}

/// The number that word k of a line spells.
pub fn number(line: &[u8], k: usize) -> Signed
    ensures minus_value { result.minus ≡ minus (get_or (words_of line.now) k []) }
    ensures size_value { result.size ≡ min 65536 (size (get_or (words_of line.now) k [])) }
{
    let w = word(line, k);
    Signed {
        minus: minus(w),
        size: pgm::number(unsigned(w), 0).value,
    }
}
