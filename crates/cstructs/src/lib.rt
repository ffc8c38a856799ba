//! Inner: the structs of the header include/strip.h, each made by `From` of what a call answers, or by `new` with a refusal of any number.
#![tactic(auto)]

mod answers;
mod bursts;
mod pixels;
mod ranks;
mod sameness;
mod scans;
mod tables;

pub use bursts::BurstAnswer;
pub use pixels::PixelAnswer;
pub use ranks::{RankAnswer, RankStarted};
pub use sameness::SameAnswer;
pub use scans::{ScanAnswer, ScanStarted};
pub use tables::{TableLoaded, TableWritten};
