//! The pixels of a row.
ghost use Rattle.std.specs.Prelude.{◌≡◌, ◌<◌, ◌≤◌, ℕ, length, slice_index};
ghost use Rattle.arith.specs.Tab.{tab};
ghost use Rattle.passes.specs.Passes.{rounded, rounded_word, RoundFits};

use crate::BIAS;
use arith::floor_shift;

/// The pixel of a value of 32 bits: as a signed number, divided by 2^shift and rounded down.
fn round_narrow(value: u32, shift: u8) -> i32
    requires { shift ≤ 31 }
    ensures { result ≡ rounded_word value shift }
{
    value.cast_signed() >> shift
}

/// The pixels of values of 32 bits into the output.
pub fn write_narrow(out: &mut [i32], acc: &[u32], shift: u8)
    requires acc_long { length out.old ≤ length acc.now }
    requires shift_most { shift ≤ 31 }
    ensures { out.new ≡ tab (length out.old) (λ c. rounded_word (slice_index acc.now c) shift) }
{
    for (c, pixel) in out.iter_mut().enumerate() {
        *pixel = round_narrow(acc[c], shift);
    }
}

/// The pixel of a value of 64 bits: without its bias, divided by 2^shift and rounded down.
fn round_wide(value: u64, shift: u8) -> i32
    requires { RoundFits value shift }
    ensures { result ≡ rounded value shift }
{
    floor_shift(value as i64 - BIAS as i64, shift) as i32
}

// Not one function with `write_narrow`: a value of 32 bits is any word, one of 64 stands above a bias and must round into 32 bits.
/// The pixels of values of 64 bits into the output.
pub fn write_wide(out: &mut [i32], acc: &[u64], shift: u8)
    requires acc_long { length out.old ≤ length acc.now }
    requires values { (c : ℕ) → c < length out.old → RoundFits (slice_index acc.now c) shift }
    ensures { out.new ≡ tab (length out.old) (λ c. rounded (slice_index acc.now c) shift) }
{
    for (c, pixel) in out.iter_mut().enumerate() {
        *pixel = round_wide(acc[c], shift);
    }
}
