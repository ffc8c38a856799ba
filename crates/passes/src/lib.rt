//! Inner: the loops over the columns of a row, on plain slices and numbers; none knows a table. Column sums are updated and asked, or
//! rolled back; a line is made its running sums; differences of two lines are weighed into values, of 32 bits modulo 2^32 or of 64; and
//! the pixels of a row are written, or asked whether they fit their words. A pass is as long as the slice that it writes first.
#![tactic(auto)]

mod lines;
mod pixels;
mod sums;
mod values;
mod words;

pub use lines::running_sums;
pub use pixels::{write_narrow, write_wide};
pub use sums::{roll_back, update_line};
pub use values::{accumulate, weigh};
pub use words::{fit_narrow, fit_wide};

/// 2^41: a value of 64 bits is held raised by it, so that it is added up without a sign.
pub const BIAS: u64 = 2199023255552;
