//! Whether the pixels of a row fit their words. A pixel does where its value, before the division by 2^shift, is a signed number of
//! word + shift bits; raised by half of their range, it is then below 2^(word + shift), and so is the OR of all.
ghost use Rattle.std.specs.Prelude.{◌≡◌, ◌≤◌, length, slice_index};
ghost use Rattle.arith.specs.All.{all};
ghost use Rattle.arith.specs.Twos.{fits_signed};
ghost use Rattle.passes.specs.Passes.{rounded, rounded_word, WideWords};

use crate::BIAS;

/// Whether the pixels of values of 32 bits fit words of `word` bits.
pub fn fit_narrow(acc: &[u32], shift: u8, word: u8) -> bool
    requires shift_most { shift ≤ 31 }
    requires word_least { 8 ≤ word }
    requires word_most { word ≤ 32 }
    ensures { result ≡ all (length acc.now) (λ c. fits_signed word (rounded_word (slice_index acc.now c) shift)) }
{
    let bits = word + shift;
    if 32 <= bits {
        return true;
    }
    let half: u32 = 1 << (bits - 1);
    let mut seen: u32 = 0;
    for value in acc {
        seen |= value.wrapping_add(half);
    }
    seen < 2 * half
}

// Not one function with `fit_narrow`: these values stand above a bias, each with its bound, and no word is so long that all of them fit.
/// Whether the pixels of values of 64 bits fit words of `word` bits.
pub fn fit_wide(acc: &[u64], shift: u8, word: u8) -> bool
    requires { WideWords (length acc.now) shift word acc.now }
    ensures { result ≡ all (length acc.now) (λ c. fits_signed word (rounded (slice_index acc.now c) shift)) }
{
    let half: u64 = 1 << (word + shift - 1);
    let raise = half.wrapping_sub(BIAS);
    let mut seen: u64 = 0;
    for value in acc {
        seen |= value.wrapping_add(raise);
    }
    seen < 2 * half
}
