//! Ranked shade in a window: at each place of a scan the level of rank R among the samples under one rectangle, the smallest level such
//! that at least R of the covered samples inside the scan are not above it; if fewer than R are inside the largest of them, and -1 if none
//! is. A scan goes row by row as the filter's does, with counts per level carried along columns and windows in stores that are lent to
//! each call. Where a call is refused, each store is what it was. That the carried counts give the rule is proved in `rankrun`.
//!
//!   start  a ranked scan; or a refusal, 3, 23, 8, 22, 12 or 13
//!   row    a row of levels in the output with its number, waiting, or a refusal: 14, 15, 16, 17, 13, 18 or 19
//!   close  the scan closed; or a refusal, 14 or 15
//!   step   a row of levels, waiting, done, or a refusal: 14, 15, 13 or 19
#![tactic(auto)]

mod calls;
mod ranking;

pub use calls::{close, row, start, step};
use layout::{Answer, Closing, Refusal};
pub use ranking::Ranking;

/// The edges of a window: rows r + trailrow + 1 to r + leadrow and columns c + trailcol + 1 to c + leadcol of the place at row r,
/// column c.
#[repr(C)]
#[derive(Clone, Copy, Debug, PartialEq, Eq)]
pub struct Window {
    pub leadrow: i8,
    pub leadcol: i8,
    pub trailrow: i8,
    pub trailcol: i8,
}

/// A ranked scan: its window, the bits of a sample, the rank and the width, the rows that came in, the closing steps done, and whether
/// it is closed.
#[repr(C)]
#[derive(Clone, Copy, Debug, PartialEq, Eq)]
pub struct RankScan {
    pub window: Window,
    pub b: u8,
    pub rank: u32,
    pub width: usize,
    pub rows: u32,
    pub steps: u32,
    pub closed: bool,
}

/// The verdict on starting or closing, and the scan.
#[derive(Clone, Copy, Debug, PartialEq, Eq)]
pub struct Started {
    pub verdict: Result<(), Refusal>,
    pub scan: RankScan,
}

/// The answer to a row, and the scan after it.
#[derive(Clone, Copy, Debug, PartialEq, Eq)]
pub struct Moved {
    pub answer: Answer,
    pub scan: RankScan,
}

/// The answer to a closing step, and the scan after it.
#[derive(Clone, Copy, Debug, PartialEq, Eq)]
pub struct Stepped {
    pub answer: Closing,
    pub scan: RankScan,
}
