//! The values of a row: the part of a rectangle is its weight times the difference of two lines, which its lead and its trail column
//! reach.
ghost use Rattle.std.specs.Prelude.{◌≡◌, ◌+◌, ◌*◌, ◌%◌, ◌<◌, ◌≤◌, ℕ, length, slice_index};
ghost use Rattle.arith.specs.Tab.{tab};
ghost use Rattle.passes.specs.Passes.{weighed, scaled, plus, value_most, part_most, scaled_end};

/// A value with m times x, modulo 2^32.
fn mixed(value: u32, m: u32, x: u32) -> u32
    ensures { result ≡ (value + m * x) % 4294967296 }
{
    value.wrapping_add(m.wrapping_mul(x))
}

/// Adds m times the difference, without its q low bits, to each value, modulo 2^32.
pub fn weigh(acc: &mut [u32], lead: &[u32], trail: &[u32], m: u32, q: u8)
    requires lead_long { length acc.old ≤ length lead.now }
    requires trail_long { length acc.old ≤ length trail.now }
    requires q_most { q ≤ 8 }
    ensures { acc.new
        ≡ tab (length acc.old) (λ c. weighed (slice_index acc.old c) m (slice_index lead.now c) (slice_index trail.now c) q) }
{
    for (c, value) in acc.iter_mut().enumerate() {
        *value = mixed(*value, m, lead[c].wrapping_sub(trail[c]) >> q);
    }
}

/// A value with weight times x, the weight being above - below, of which one is 0.
fn with_part(value: u64, x: u32, above: u32, below: u32) -> u64
    requires { (value ≤ value_most) × (x < scaled_end) × (above ≤ 32768) × (below * x ≤ value) × (0 < below → above ≡ 0) }
    ensures { result ≡ plus value above below x }
{
    if below == 0 {
        value + u64::from(above) * u64::from(x)
    } else {
        value - u64::from(below) * u64::from(x)
    }
}

// Not one function with `weigh`: that one wraps and asks nothing of the values, this one asks a bound of each and never wraps.
/// Adds weight times the difference, truncated by q3 bits and scaled back by q, to each value.
pub fn accumulate(
    acc: &mut [u64],
    lead: &[u32],
    trail: &[u32],
    q3: u8,
    q: u8,
    above: u32,
    below: u32,
)
    requires lead_long { length acc.old ≤ length lead.now }
    requires trail_long { length acc.old ≤ length trail.now }
    requires q3_most { q3 ≤ 8 }
    requires q_most { q ≤ 27 }
    requires above_most { above ≤ 32768 }
    requires below_most { below ≤ 32768 }
    requires one_sign { 0 < below → above ≡ 0 }
    requires small { (c : ℕ) → c < length acc.old → scaled lead.now trail.now q3 q c < scaled_end }
    requires value_least { (c : ℕ) → c < length acc.old → part_most ≤ slice_index acc.old c }
    requires value_at_most { (c : ℕ) → c < length acc.old → slice_index acc.old c ≤ value_most }
    ensures { acc.new
        ≡ tab (length acc.old) (λ c. plus (slice_index acc.old c) above below (scaled lead.now trail.now q3 q c)) }
{
    for (c, value) in acc.iter_mut().enumerate() {
        let x = (lead[c].wrapping_sub(trail[c]) >> q3) << q;
        *value = with_part(*value, x, above, below);
    }
}
