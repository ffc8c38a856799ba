//! The sums of a line of the grid. A rectangle that covers the line changes two differences: it adds its weight to the entries from its
//! first column on, and takes it off again after its last.
ghost use Rattle.std.specs.Prelude.{◌≡◌, suc, ◌-◌, ◌*◌, ◌≤◌, ◌<◌};
ghost use Rattle.arith.specs.Sum.{sum};
ghost use Rattle.layout.specs.Contents.{rect};
ghost use Rattle.grid.specs.Lines.{delta_bias, line_most, up_to, DeltasFit, Raised, Added, LineDeltas, EntriesFit, LineSums};

use crate::covering::{covered, place_above};
use crate::parts::PartSums;
use arith::biased_word;
use layout::{Rect, Table};

/// 2^25: a difference, and an entry, is held raised by it.
const BIAS: u32 = 33554432;

/// 2^15: a weight is handed over raised by it.
const WEIGHT_BIAS: u32 = 32768;

/// Adds a weight, raised by WEIGHT_BIAS, to the entries from `start` to `end` - 1.
fn add_between(deltas: &mut [u32], start: usize, end: usize, weight: u32)
    requires start_lt_end { (start < end) × (end < 32) × (weight < 65536) }
    requires deltas_fit { DeltasFit deltas.old }
    ensures { Raised start end weight deltas.old deltas.new }
{
    deltas[start] = deltas[start] + weight - WEIGHT_BIAS;
    deltas[end] = deltas[end] + WEIGHT_BIAS - weight;
}

/// Adds a rectangle to the differences of line a.
fn add_rect(deltas: &mut [u32], d: Rect, a: u32)
    requires a_bound { a < 31 }
    requires deltas_fit { DeltasFit deltas.old }
    ensures { Added d a deltas.old deltas.new }
{
    if !covered(d.leadrow, d.trailrow, a) {
        return;
    }
    let start = place_above(d.trailcol);
    let end = place_above(d.leadcol);
    if end <= start {
        return;
    }
    add_between(deltas, start as usize, end as usize, biased_word(d.weight));
}

/// Adds every rectangle of a table.
fn add_rects(deltas: &mut [u32], t: &Table, a: u32)
    requires a_bound { a < 31 }
    requires line_deltas { LineDeltas 0 (rect t.now) a deltas.old }
    ensures line_deltas { LineDeltas t.now.count (rect t.now) a deltas.new }
    ensures entries_fit { EntriesFit deltas.new }
{
    for &d in t.rects() {
        add_rect(deltas, d, a);
    }
}

/// The positive entries of a line added up, and the negative ones.
fn entry_sums(deltas: &[u32]) -> PartSums
    requires { EntriesFit deltas.now }
    ensures high_value { result.high ≡ sum 31 (λ b. up_to deltas.now b - suc b * delta_bias) }
    ensures low_value { result.low ≡ sum 31 (λ b. suc b * delta_bias - up_to deltas.now b) }
    ensures high_le_line_most { (result.high ≤ line_most) × (result.low ≤ line_most) }
{
    let mut entry = BIAS;
    let mut high = 0;
    let mut low = 0;
    for &delta in &deltas[..31] {
        entry = entry + delta - BIAS;
        high += entry.saturating_sub(BIAS);
        low += BIAS.saturating_sub(entry);
    }
    PartSums {
        high: u64::from(high),
        low: u64::from(low),
    }
}

/// The same of line a of a table's grid.
pub fn line_sums(t: &Table, a: u32) -> PartSums
    requires { a < 31 }
    ensures { LineSums t.now a result }
{
    let mut deltas = [BIAS; 32];
    add_rects(&mut deltas, t, a);
    entry_sums(&deltas)
}
