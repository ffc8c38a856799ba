//! Inner: the texts of the program `drops`, and the numbers of its command line.
//!
//!   list           the text of a table: its listed choices within so many pixels, at a width
//!   number         the number that a word of the command line is
//!   no_most        what stands for no bound on the pixels
//!   put_no_number  the line of a word that is no number
#![tactic(auto)]

mod cells;
mod lines;
mod numbers;

pub use lines::list;
pub use numbers::{no_most, number, put_no_number};
