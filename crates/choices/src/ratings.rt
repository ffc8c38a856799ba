//! The choices, and their figures.
ghost use Rattle.std.specs.Prelude.{◌≡◌, ◌<◌, ◌≤◌, length};
ghost use Rattle.arith.specs.Tab.{tab};
ghost use Rattle.figures.specs.Measured.{figures_of};
ghost use Rattle.choices.specs.Choices.{with_drops, choice_count};

use figures::{Figures, measure};
use layout::Table;

/// How many choices a table has.
#[tactic(auto, unfolding(crate::specs::Choices::choice_count))]
pub fn choice_count(t: &Table) -> usize
    ensures value { result ≡ choice_count t.now }
    ensures upper_bound { result ≤ 972 }
{
    (81 * t.b as usize).min(972)
}

/// The table with choice i in place of its drops.
pub fn with_drops(t: &Table, i: usize) -> Table
    requires { i < 972 }
    ensures { result ≡ with_drops t.now i }
{
    Table {
        q1: (i / 81) as u8,
        q2: (i / 9 % 9) as u8,
        q3: (i % 9) as u8,
        ..*t
    }
}

/// The figures of as many choices as there are places for.
pub fn rate(t: &Table, width: usize, figures: &mut [Option<Figures>])
    requires { length figures.old ≤ 972 }
    ensures { figures.new ≡ tab (length figures.old) (λ i. figures_of (with_drops t.now i) width) }
{
    for (i, choice) in figures.iter_mut().enumerate() {
        *choice = measure(&with_drops(t, i), width);
    }
}
