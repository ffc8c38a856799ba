//! Question 18, on a run of samples.
ghost use Rattle.std.specs.Prelude.{◌≡◌, ◌||◌, ℕ, ◌≤◌, ◌<◌, leb, eqb, length, get_or, not, position};
ghost use Rattle.arith.specs.First.{first_not};
ghost use Rattle.rule.specs.Mended.{dead};
ghost use Rattle.rule.specs.Questions.{sample_good};

use crate::mending::DEAD;

/// The largest sample, or 0 where there is none.
pub fn largest(samples: &[u16]) -> u16
    ensures { (k : ℕ) → k < length samples.now → get_or samples.now k 0 ≤ result }
{
    let mut most = 0;
    for &x in samples {
        most = x.max(most);
    }
    most
}

/// Whether a sample is at most the limit, or dead.
fn sample_good(x: u16, limit: u16) -> bool
    ensures { result ≡ (leb x limit || eqb x dead) }
{
    x <= limit || x == DEAD
}

/// The lowest place of a live sample above the limit, found by a look at each.
fn search_above(samples: &[u16], limit: u16) -> Option<usize>
    ensures { result ≡ position (λ x. not (leb x limit || eqb x dead)) samples.now }
{
    samples.iter().position(|&x| !sample_good(x, limit))
}

/// How many samples stand before the first live one above the limit: its place, or the length where there is none.
pub fn first_above(samples: &[u16], limit: u16) -> usize
    ensures { result ≡ first_not (length samples.now) (sample_good limit samples.now) }
{
    // The pass for the largest sample is vectorised and the search is not, and most rows are good.
    if largest(samples) <= limit {
        return samples.len();
    }
    search_above(samples, limit).unwrap_or(samples.len())
}
