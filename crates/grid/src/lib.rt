//! Inner: what the extremes of a table's values are made of. `area_sums` adds up weight·M·N over its rectangles, and `grid_sums` the
//! entries of its weight grid, which holds for each of the 31 by 31 offsets from a pixel the total weight of the rectangles that cover it.
//! `entry` gives one of them.
#![tactic(auto)]

mod areas;
mod covering;
mod lines;
mod parts;
mod sums;
mod weights;

pub use areas::area_sums;
pub use parts::PartSums;
pub use sums::grid_sums;
pub use weights::entry;
