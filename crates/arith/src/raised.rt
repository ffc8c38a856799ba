//! Powers of two.
ghost use Rattle.std.specs.Prelude.{◌≡◌, ℕ, ◌^◌, ◌≤◌, ◌<◌};

/// 2^k, or 0 where it does not fit.
pub fn power(k: u8) -> u64
    ensures value { k < 64 → result ≡ 2 ^ k }
    ensures value_2 { 64 ≤ k → result ≡ 0 }
{
    1u64.checked_shl(u32::from(k)).unwrap_or(0)
}
