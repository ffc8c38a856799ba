//! The questions on two tables.
ghost use Rattle.std.specs.Prelude.{◌≡◌};
ghost use Rattle.layout.specs.Answers.{said, verdict};
ghost use Rattle.layout.specs.Contents.{contents};
ghost use Rattle.limits.specs.Limits.{no_drops};
ghost use Rattle.same.specs.Same.{heads_alike, neither_drops, same_asks};

use layout::{Question, Refusal, Table};
use limits::accepted;

/// Question 24.
#[tactic(auto, unfolding(crate::specs::Same::heads_alike))]
fn heads_alike(one: Table, other: Table) -> bool
    ensures { result ≡ heads_alike one other }
{
    one.b == other.b && one.t == other.t && one.w == other.w
}

/// Whether a table drops no bits.
#[tactic(auto, unfolding(limits::specs::Limits::no_drops))]
fn no_drops(t: Table) -> bool
    ensures { result ≡ no_drops (contents t) }
{
    t.q1 == 0 && t.q2 == 0 && t.q3 == 0
}

/// Question 25.
#[tactic(auto, unfolding(crate::specs::Same::neither_drops))]
fn neither_drops(one: Table, other: Table) -> bool
    ensures { result ≡ neither_drops one other }
{
    no_drops(one) && no_drops(other)
}

/// Questions 11 of the first, 11 of the second, 24, 25, and 13 on a length of n.
#[tactic(auto, unfolding(crate::specs::Same::same_asks))]
pub fn asked(one: Table, other: Table, n: usize) -> Result<(), Refusal>
    ensures { said result ≡ verdict (same_asks one other n) }
{
    Refusal::unless(accepted(one), Question::Table)?;
    Refusal::unless(accepted(other), Question::Table)?;
    Refusal::unless(heads_alike(one, other), Question::Heads)?;
    Refusal::unless(neither_drops(one, other), Question::NoDrops)?;
    Refusal::unless(n >= 961, Question::Stores)
}
