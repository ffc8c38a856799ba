//! What is positive and what is negative.
ghost use Rattle.std.specs.Prelude.{◌≡◌, ◌≤◌};
ghost use Rattle.arith.specs.Part.{pos_part, neg_part};
ghost use Rattle.grid.specs.Lines.{weight_most};

/// Two sums: over what is positive, and over what is negative.
#[derive(Clone, Copy, Debug, PartialEq, Eq)]
pub struct PartSums {
    pub high: u64,
    pub low: u64,
}

impl PartSums {
    /// Those of a weight alone.
    pub fn of(weight: i16) -> PartSums
        ensures value { (result.high ≡ pos_part weight) × (result.low ≡ neg_part weight) }
        ensures upper_bound { (result.high ≤ weight_most) × (result.low ≤ weight_most) }
    {
        let z = i64::from(weight);
        PartSums {
            high: z.max(0) as u64,
            low: (-z).max(0) as u64,
        }
    }
}
