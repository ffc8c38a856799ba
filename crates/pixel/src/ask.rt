//! The questions of the one-pixel call.
ghost use Rattle.std.specs.Prelude.{◌≡◌, ◌≤◌};
ghost use Rattle.rule.specs.Questions.{height_good, place_good};
ghost use Rattle.layout.specs.Answers.{said, verdict};
ghost use Rattle.pixel.specs.Call.{pixel_asks};

use arith::power;
use layout::{Question, Refusal, Table};
use limits::accepted;
use rule::{first_above, width_good};

/// Question 17, on a length of n.
#[tactic(auto, unfolding(rule::specs::Questions::height_good))]
fn height_good(width: usize, n: usize) -> bool
    requires { 1 ≤ width }
    ensures { result ≡ height_good width n }
{
    let h = n / width;
    n == width * h && (1..=65535).contains(&h)
}

/// Question 20.
#[tactic(auto, unfolding(rule::specs::Questions::place_good))]
fn place_good(width: usize, n: usize, r: usize, c: usize) -> bool
    requires { 1 ≤ width }
    ensures { result ≡ place_good width n r c }
{
    r < n / width && c < width
}

/// Questions 11, 12, 17, 20 and 18.
#[tactic(auto, unfolding(crate::specs::Call::pixel_asks))]
pub fn asked(t: Table, width: usize, samples: &[u16], r: usize, c: usize) -> Result<(), Refusal>
    ensures { said result ≡ verdict (pixel_asks t width samples.now r c) }
{
    let n = samples.len();
    Refusal::unless(accepted(t), Question::Table)?;
    Refusal::unless(width_good(width), Question::Width)?;
    Refusal::unless(height_good(width, n), Question::Length)?;
    Refusal::unless(place_good(width, n, r, c), Question::Place)?;
    let place = first_above(samples, (power(t.b) - 1) as u16);
    Refusal::unless_at(place >= n, Question::Samples, place as u32)
}
