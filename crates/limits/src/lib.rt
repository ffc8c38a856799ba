//! The limits of a table: questions 3 to 5 on a header, 8 on a rectangle, 10 and 11 on a whole table, and the
//! loss figure of a rectangle.
//!
//!   Header        the numbers of a header; `ask` asks questions 3 to 5 of them
//!   bits_good     question 3
//!   rect_good     question 8
//!   value_good    question 10, with 3 to 5 and the number of rectangles before it
//!   accepted      question 11: is this a table that loading accepts
//!   extremes_fit  whether two extremes, divided by 2^shift and rounded down, fit words that question 5 allows
//!   loss          the loss figure; or a refusal, 3 or 4
#![tactic(auto)]

mod accept;
mod figure;
mod header;
mod rects;
mod value;

pub use accept::accepted;
pub use figure::loss;
pub use header::{Header, bits_good};
pub use rects::rect_good;
pub use value::{extremes_fit, value_good};
