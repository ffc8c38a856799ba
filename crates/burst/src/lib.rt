//! Bursts: several rows of a scan handed over in one call, each as the scan engine takes it alone. Where a row is refused,
//! the burst stops, and what the rows before it left stands.
//!
//!   rows  how many rows were taken, how many filtered rows stand packed in the output, and the refusal of the first row that is refused; or
//!         14, 15, 21 or 13 before any row
#![tactic(auto)]

mod handing;

pub use handing::rows;
use layout::Refusal;
use scan::Scan;

/// What a burst comes to: the verdict, a refusal being its own or that of the row where it stopped; how many rows were
/// taken, how many filtered rows came out, and the scan after them.
#[derive(Clone, Copy, Debug, PartialEq, Eq)]
pub struct Burst {
    pub verdict: Result<(), Refusal>,
    pub taken: usize,
    pub filtered: usize,
    pub scan: Scan,
}
