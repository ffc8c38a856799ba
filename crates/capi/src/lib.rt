//! The library for C: each call of the header include/strip.h, over the proved call that does the work.
#![tactic(auto)]

mod bursts;
mod comparing;
mod pixels;
mod ranks;
mod scans;
mod tables;

pub use bursts::strip_scan_rows;
pub use comparing::strip_same;
pub use pixels::strip_pixel;
pub use ranks::{strip_rank_close, strip_rank_row, strip_rank_start, strip_rank_step};
pub use scans::{strip_scan_close, strip_scan_row, strip_scan_start, strip_scan_step};
pub use tables::{strip_table_check, strip_table_load, strip_table_write};
