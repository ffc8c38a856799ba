//! A table from its text.
//!
//!   make       the length of the table's file, the file at the start of the output; or why the text makes no table
//!   MakeError  a question of the rules that was answered no, 3 to 6, 8 to 10 and of the output 13; or a fault of the text's own,
//!              101 to 113; with a line's place
#![tactic(auto)]

mod asked;
mod error;
mod header;
mod lines;
mod making;
mod rects;

pub use error::MakeError;
pub use making::make;
