//! What the drops of a table save and cost.
//!
//!   measure  the figures of a table at a width: its word lengths, the bits of all its sums, and how far a pixel may be from the full
//!            one; none where loading does not accept the table or the width is not from 1 to 1024
#![tactic(auto)]

ghost use Rattle.std.specs.Prelude.{◌≡◌, true};
ghost use Rattle.limits.specs.Limits.{acceptable};
ghost use Rattle.rule.specs.Questions.{width_good};
ghost use Rattle.figures.specs.Measured.{measured, figures_of};

mod losses;
mod words;

use layout::Table;
use limits::accepted;
use losses::{ceil_shift, loss_sums};
use rule::width_good;
use words::word_bits;

/// The figures of a table at a width: the widest column word and the widest window word, formulas (6) and (7); the bits of all sums that
/// are kept; and that the full pixel less the cut pixel lies between -below and above.
#[derive(Clone, Copy, Debug, PartialEq, Eq)]
pub struct Figures {
    pub column: u32,
    pub window: u32,
    pub sums: u64,
    pub below: u64,
    pub above: u64,
}

/// The figures of a table at a width, where questions 11 and 12 are answered yes.
#[tactic(auto, unfolding(crate::specs::Measured::figures_of))]
pub fn measure(t: &Table, width: usize) -> Option<Figures>
    ensures { result ≡ figures_of t.now width }
{
    if accepted(*t) && width_good(width) {
        Some(measured(t, width))
    } else {
        None
    }
}

/// Those figures.
fn measured(t: &Table, width: usize) -> Figures
    requires { (acceptable t.now ≡ true) × (width_good width ≡ true) }
    ensures { result ≡ measured t.now width }
{
    let words = word_bits(t, width as u64);
    let losses = loss_sums(t);
    Figures {
        column: words.column,
        window: words.window,
        sums: words.sums,
        below: ceil_shift(losses.low, t.t),
        above: ceil_shift(losses.high, t.t),
    }
}
