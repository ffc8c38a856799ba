//! The scan engine: a scan row by row, with the column sums carried along. The state is a value; samples, sums and the
//! filtered row stand in stores that are lent to each call. Where a call is refused, each store is what it was.
//!
//!   start       a scan; or a refusal, 11, 12 or 13
//!   row         a filtered row in the output with its number, waiting, or a refusal: 14, 15, 16, 17, 13, 18 or 19
//!   take_row    the same with the question that was answered no in place of its number
//!   close       the scan closed; or a refusal, 14 or 15
//!   step        a filtered row, waiting, done, or a refusal: 14, 15, 13 or 19
//!   state_good  question 14
#![tactic(auto)]

mod calls;
mod stored;

pub use calls::{close, row, start, state_good, step, take_row};
use layout::{Answer, Closing, Refusal, Table};
pub use stored::Stored;

/// A scan: its table and width, the rows that came in, the closing steps done, and whether it is closed.
#[repr(C)]
#[derive(Clone, Copy, Debug, PartialEq, Eq)]
pub struct Scan {
    pub table: Table,
    pub width: usize,
    pub rows: u32,
    pub steps: u32,
    pub closed: bool,
}

/// The verdict on starting or closing, and the scan.
#[derive(Clone, Copy, Debug, PartialEq, Eq)]
pub struct Started {
    pub verdict: Result<(), Refusal>,
    pub scan: Scan,
}

/// The number of the filtered row that came out of a row, none where none is due yet, or the refusal; and the scan after it.
#[derive(Clone, Copy, Debug, PartialEq, Eq)]
pub struct Taken {
    pub row: Result<Option<u32>, Refusal>,
    pub scan: Scan,
}

/// The answer to a row, and the scan after it.
#[derive(Clone, Copy, Debug, PartialEq, Eq)]
pub struct Moved {
    pub answer: Answer,
    pub scan: Scan,
}

/// The answer to a closing step, and the scan after it.
#[derive(Clone, Copy, Debug, PartialEq, Eq)]
pub struct Stepped {
    pub answer: Closing,
    pub scan: Scan,
}
