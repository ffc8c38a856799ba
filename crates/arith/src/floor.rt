//! Division of an i64 by a power of two, rounded towards minus infinity.
ghost use Rattle.std.specs.Prelude.{◌≡◌};
ghost use Rattle.arith.specs.Floor.{floor_div};

/// v divided by 2^t, rounded down, for any v and t. From 2^63 on the quotient is 0 or -1.
pub fn floor_shift(v: i64, t: u8) -> i64
    ensures { result ≡ floor_div v t }
{
    v >> t.min(63)
}
