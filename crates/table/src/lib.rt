//! The table file: loading it, checking it, and writing it.
//!
//!   load         the table, by questions 1 to 10; or a refusal
//!   parse        the same without question 10
//!   table_check  0 or the number of the refusal
//!   read_most    156: how many bytes of a file decide what loading answers
//!   bare         a table of a header's numbers and no rectangle
//!   write        the length 9 + 9·(rectangles), the file at the start of the output; or a refusal, 11 or 13
#![tactic(auto)]

mod loading;
mod reading;
mod writing;

pub use loading::{bare, load, parse, read_most, table_check};
pub use writing::write;
