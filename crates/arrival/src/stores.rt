//! The question on the stores.
ghost use Rattle.std.specs.Prelude.{◌≡◌};
ghost use Rattle.arrival.specs.Arrivals.{stores_good};

/// Question 13, on the lengths of the stores.
pub fn stores_good(width: usize, count: usize, samples: usize, sums: usize) -> bool
    ensures { result ≡ stores_good width count samples sums }
{
    width <= samples / 32 && (count == 0 || width <= sums / count)
}
