//! The pixel rule: mended rows, what a pixel is, how far the cut sums are from the full ones, and the words that the sums
//! fit. The definitions stand in specs/, the theorems in proofs/.
#![tactic(auto)]

mod above;
mod mending;
mod width;

pub use above::first_above;
pub use mending::mend;
pub use width::width_good;
