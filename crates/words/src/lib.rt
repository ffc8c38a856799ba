//! Inner: the words of a line, the lines of a text, and the numbers that words spell.
//!
//!   Words, Lines   the words of a line and the lines of a text, one after the other
//!   next_word      the next word of a line, and what stands behind it
//!   word           word k of a line
//!   is_number      whether a word is a number without a sign
//!   is_integer     whether it is an integer
//!   number         the number that word k of a line spells: whether it has a - in front, and its size, held at 65,536 where it is larger
#![tactic(auto)]

mod numbers;
mod parts;

pub use numbers::{Signed, is_integer, is_number, number};
pub use parts::{Lines, Words, next_word, word};
