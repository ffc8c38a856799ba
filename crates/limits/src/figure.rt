//! The loss figure of a rectangle.
ghost use Rattle.std.specs.Prelude.{◌≡◌, ◌+◌, ◌-◌, ◌*◌, ◌≤◌};
ghost use Rattle.limits.specs.Figures.{figure_said, loss_of};

use crate::header::{bits_good, drops_good};
use arith::power;
use layout::{Question, Rect, Refusal, Table};

/// The loss figure of a rectangle in a table, whose b and drops are asked by questions 3 and 4.
#[tactic(auto, unfolding(crate::specs::Figures::loss_of))]
pub fn loss(t: Table, r: Rect) -> Result<u64, Refusal>
    ensures { figure_said result ≡ loss_of t r }
{
    Refusal::unless(bits_good(t.b), Question::Bits)?;
    Refusal::unless(drops_good(t.b, t.q1, t.q2, t.q3), Question::Drops)?;
    let n = u64::from(r.columns());
    let area = u64::from(r.rows()) * n;
    Ok(dropped(area, n, power(t.q1), power(t.q2), power(t.q3)))
}

/// What may be dropped of a window of this area and n columns, by cuts of p1, p2 and p3.
fn dropped(area: u64, n: u64, p1: u64, p2: u64, p3: u64) -> u64
    requires area_bound { (area ≤ 65025) × (n ≤ 255) }
    requires le_p1 { (1 ≤ p1) × (p1 ≤ 2048) × (1 ≤ p2) × (p2 ≤ 256) × (1 ≤ p3) × (p3 ≤ 256) }
    ensures { result ≡ area * (p1 - 1) + p1 * n * (p2 - 1) + p1 * p2 * (p3 - 1) }
{
    area * (p1 - 1) + p1 * n * (p2 - 1) + p1 * p2 * (p3 - 1)
}
