//! Signed numbers as natural ones.
ghost use Rattle.std.specs.Prelude.{◌≡◌, ◌≤◌, ◌<◌};
ghost use Rattle.arith.specs.Diff.{Diff};
ghost use Rattle.arith.specs.Part.{pos_part, neg_part};

/// z + 128
pub fn biased_byte(z: i8) -> u32
    ensures diff { Diff z result 128 }
    ensures upper_bound { result < 256 }
{
    (i32::from(z) + 128) as u32
}

/// z + 32768
pub fn biased_word(z: i16) -> u32
    ensures diff { Diff z result 32768 }
    ensures upper_bound { result < 65536 }
{
    (i32::from(z) + 32768) as u32
}

/// z + 2^31
pub fn biased_long(z: i32) -> u64
    ensures diff { Diff z result 2147483648 }
    ensures upper_bound { result < 4294967296 }
{
    (i64::from(z) + 2147483648) as u64
}

/// A signed number as above - below, of which one is 0.
#[derive(Clone, Copy, Debug, PartialEq, Eq)]
pub struct SignParts {
    pub above: u32,
    pub below: u32,
}

/// The positive and the negative part of z.
pub fn sign_parts(z: i16) -> SignParts
    ensures above_value { (result.above ≡ pos_part z) × (result.below ≡ neg_part z) }
    ensures above_bound { (result.above ≤ 32768) × (result.below ≤ 32768) }
{
    SignParts {
        above: i32::from(z).max(0) as u32,
        below: (-i32::from(z)).max(0) as u32,
    }
}
