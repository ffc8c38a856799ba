//! Column sums, carried along in two steps: the leaving sample off, then the entering one on.
ghost use Rattle.std.specs.Prelude.{◌≡◌, ◌≤◌, T, ◌++◌, length, drop, nat_lt};
ghost use Rattle.arith.specs.Tab.{tab};
ghost use Rattle.arith.specs.All.{all};
ghost use Rattle.passes.specs.Passes.{bound_most, bound_end, movable, stepped, movable_at, stepped_at, new_at};

/// A column sum after both steps, and a number below 2^17 exactly where both stay within the bound. A store may hold any number, so the
/// steps wrap: after the leaving sample a good sum is below 2^17, and so is what is left to the bound after the entering one.
fn move_sum(stored: u32, off: u16, on: u16, bound: u32) -> (u32, u32)
    requires { bound ≤ bound_most }
    ensures sum_value { result.0 ≡ stepped stored off on }
    ensures bound_end_value { nat_lt result.1 bound_end ≡ movable stored off on bound }
{
    let less = stored.wrapping_sub(u32::from(off));
    let sum = less.wrapping_add(u32::from(on));
    (sum, less | bound.wrapping_sub(sum))
}

/// Both steps of the column sums, in place, the truncated sums into a line, and whether each step of each came out within the bound.
fn update_sums(
    sums: &mut [u32],
    line: &mut [u32],
    off: &[u16],
    on: &[u16],
    bound: u32,
    q1: u8,
    q2: u8,
) -> bool
    requires line_long { length sums.old ≤ length line.old }
    requires off_long { length sums.old ≤ length off.now }
    requires on_long { length sums.old ≤ length on.now }
    requires bound_at_most { bound ≤ bound_most }
    requires q1_most { q1 ≤ 11 }
    requires q2_most { q2 ≤ 8 }
    ensures value { result ≡ all (length sums.old) (movable_at sums.old off.now on.now bound q1) }
    ensures sums_after { sums.new ≡ tab (length sums.old) (stepped_at sums.old off.now on.now q1) }
    ensures line_after { T result → line.new
        ≡ tab (length sums.old) (new_at sums.old off.now on.now q1 q2) ++ drop (length sums.old) line.old }
{
    let mut past: u32 = 0;
    for (c, sum) in sums.iter_mut().enumerate() {
        let (moved, beyond) = move_sum(*sum, off[c] >> q1, on[c] >> q1, bound);
        past |= beyond;
        *sum = moved;
        line[c] = moved >> q2;
    }
    past < 131072
}

/// The same, compiled apart for sums that drop nothing, which is faster.
pub fn update_line(
    sums: &mut [u32],
    line: &mut [u32],
    off: &[u16],
    on: &[u16],
    bound: u32,
    q1: u8,
    q2: u8,
) -> bool
    requires line_long { length sums.old ≤ length line.old }
    requires off_long { length sums.old ≤ length off.now }
    requires on_long { length sums.old ≤ length on.now }
    requires bound_at_most { bound ≤ bound_most }
    requires q1_most { q1 ≤ 11 }
    requires q2_most { q2 ≤ 8 }
    ensures value { result ≡ all (length sums.old) (movable_at sums.old off.now on.now bound q1) }
    ensures sums_after { sums.new ≡ tab (length sums.old) (stepped_at sums.old off.now on.now q1) }
    ensures line_after { T result → line.new
        ≡ tab (length sums.old) (new_at sums.old off.now on.now q1 q2) ++ drop (length sums.old) line.old }
{
    if q1 + q2 == 0 {
        update_sums(sums, line, off, on, bound, 0, 0)
    } else {
        update_sums(sums, line, off, on, bound, q1, q2)
    }
}

/// Both steps of the column sums rolled back, in place: the entering sample off, then the leaving one on.
pub fn roll_back(sums: &mut [u32], off: &[u16], on: &[u16], q1: u8)
    requires off_long { length sums.old ≤ length off.now }
    requires on_long { length sums.old ≤ length on.now }
    requires q1_most { q1 ≤ 11 }
    ensures { sums.new ≡ tab (length sums.old) (stepped_at sums.old on.now off.now q1) }
{
    for (c, sum) in sums.iter_mut().enumerate() {
        let less = sum.wrapping_sub(u32::from(on[c] >> q1));
        *sum = less.wrapping_add(u32::from(off[c] >> q1));
    }
}
