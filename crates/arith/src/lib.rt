//! Inner: arithmetic that has nothing to do with filters. Floor division, powers of two, ⟨log2 n⟩, signed numbers as natural ones; in specs/ and
//! proofs/ bounded sums, passes over a store, truncation by a power of two, integers and their words.
#![tactic(auto)]

mod floor;
mod log;
mod raised;
mod sign;

pub use floor::floor_shift;
pub use log::log2_up;
pub use raised::power;
pub use sign::{SignParts, biased_byte, biased_long, biased_word, sign_parts};
