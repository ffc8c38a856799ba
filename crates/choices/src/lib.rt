//! Inner: which choices of the three drops are worth having for a table. Choice i drops q1 = i / 81, q2 = i / 9 % 9 and q3 = i % 9 bits. It is
//! listed where loading accepts the table with it and no accepted choice beats it: has no more bits in its sums, no larger bounds on how
//! far a pixel may be off, and is better in one of them.
//!
//!   with_drops  a table with a choice in place of its own drops
//!   mark, Flag  which choices are listed, and what each is marked with
#![tactic(auto)]

mod marks;
mod ratings;

pub use marks::{Flag, mark};
pub use ratings::with_drops;
