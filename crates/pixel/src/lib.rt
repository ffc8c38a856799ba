//! The one-pixel call: the pixel at a place of a scan that is lent whole, worked out from the covered samples.
#![tactic(auto)]

ghost use Rattle.std.specs.Prelude.{◌≡◌};
ghost use Rattle.pixel.specs.Call.{found_said, pixel_answer};

mod ask;
mod sums;
mod value;

use ask::asked;
use layout::{Refusal, Table};
use sums::Scan;
use value::value;

/// The pixel at row r, column c of a scan of rows of `width` samples: questions 11, 12, 17, 20 and 18, then the
/// pixel rule. Only question 18 looks at more than the covered samples, and a dead sample to its left in its row.
#[tactic(auto, unfolding(crate::specs::Call::pixel_answer))]
pub fn pixel(t: Table, width: usize, samples: &[u16], r: usize, c: usize) -> Result<i32, Refusal>
    ensures { found_said result ≡ pixel_answer t width samples.now r c }
{
    asked(t, width, samples, r, c)?;
    Ok(value(&t, &Scan { width, samples }, r, c))
}
