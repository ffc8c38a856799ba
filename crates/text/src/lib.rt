// Text in ASCII put into a buffer, from a place on. Each call answers the place past what it put; where there is no room for
// the whole text it puts nothing and answers the place it was given. And the lines of a text.
//
//   put_bytes   bytes
//   put_number  a number in decimal
//   put_cell    a number and the byte after it
//   put_signed  an integer and the byte after it
//   line_end    where the line ends that begins at a place of a text
//   next_line   where the line after it begins
//   line        where line k of a text stands
//   put_line    line k of a text
//   fill_line   line k of a text with numbers in place of each #
#![tactic(auto)]

mod filling;
mod lines;
mod putting;

pub use filling::fill_line;
pub use lines::{Span, line, line_end, next_line, put_line};
pub use putting::{put_bytes, put_cell, put_number, put_signed};
