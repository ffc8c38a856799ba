//! Question 12.
ghost use Rattle.std.specs.Prelude.{◌≡◌};
ghost use Rattle.rule.specs.Questions.{width_good};

/// Whether a width is from 1 to 1,024.
#[tactic(auto, unfolding(crate::specs::Questions::width_good))]
pub fn width_good(width: usize) -> bool
    ensures { result ≡ width_good width }
{
    (1..=1024).contains(&width)
}
