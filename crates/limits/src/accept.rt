//! Question 11.
ghost use Rattle.std.specs.Prelude.{◌≡◌, ◌↔◌, IsTrue, All};
ghost use Rattle.limits.specs.Limits.{acceptable};
ghost use Rattle.limits.specs.Slots.{sound};

use crate::rects::rect_good;
use crate::value::value_good;
use layout::{Rect, Table};

/// Whether the struct holds a table that loading accepts.
pub fn accepted(t: Table) -> bool
    ensures { result ≡ acceptable t }
{
    t.count >= 1 && value_good(t) && rects_good(t.rects())
}

/// Question 8 on every rectangle; the weights have 16 bits by their type.
fn rects_good(rects: &[Rect]) -> bool
    ensures { IsTrue result ↔ All (λ r. IsTrue (sound r)) rects.now }
{
    rects.iter().all(|&r| rect_good(r))
}
