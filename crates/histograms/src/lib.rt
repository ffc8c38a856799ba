//! Inner: what the arrival of a row does to the counts of a ranked window. Question 19 is asked of every column, and its counts are moved
//! on; where one is not good, all are what they were, and nothing else is written. Then the row is kept, and the filtered row that is due
//! is written while the window counts slide along the columns, zero before and after. A caller has asked all before 19 (`Fits`).
#![tactic(auto)]

mod arriving;
mod edges;
mod windows;

pub use arriving::{arrive, delay};
use layout::Rect;

/// What arrives, beside the row: the window, the bits of a sample, the rank, the columns, the arrival's number, and how many rows are
/// given, this one included.
#[derive(Clone, Copy)]
pub struct Arrival {
    pub rect: Rect,
    pub b: u8,
    pub rank: u32,
    pub width: usize,
    pub number: u32,
    pub given: u32,
}
