//! Inner: the lines of a table's text, one at a time.
//!
//!   Kind                    the kind of a line, by its first word
//!   look                    what is asked of a line by itself
//!   TextFault, TextRefusal  what is wrong with a text itself, 101 to 113, and the line to blame
//!   byte                    number k of a header's line, held at 255 where it is larger
//!   rect                    the rectangle of a line, its edges held at 127 and its weight at 16 bits where they are larger
#![tactic(auto)]

mod asked;
mod faults;
mod held;
mod kinds;

pub use asked::look;
pub use faults::{TextFault, TextRefusal};
pub use held::{byte, rect};
pub use kinds::Kind;
