//! The question on a rectangle.
ghost use Rattle.std.specs.Prelude.{◌≡◌, true};
ghost use Rattle.arith.specs.Twos.{fits_signed};
ghost use Rattle.limits.specs.Limits.{edges_good, rect_good};

use layout::Rect;

/// Question 8, on a rectangle; its weight has 16 bits by its type.
#[tactic(auto, unfolding(crate::specs::Limits::rect_good))]
pub fn rect_good(r: Rect) -> bool
    ensures value { result ≡ rect_good r }
    ensures weight_value { fits_signed 16 r.weight ≡ true }
{
    edges_good(r.leadrow, r.trailrow) && edges_good(r.leadcol, r.trailcol)
}

/// Question 8, on one axis.
#[tactic(auto, unfolding(crate::specs::Limits::edges_good))]
fn edges_good(lead: i8, trail: i8) -> bool
    ensures { result ≡ edges_good lead trail }
{
    (-15..=15).contains(&lead) && (-16..=14).contains(&trail) && trail < lead
}
