//! Inner: the arrival of a row. The samples are kept, the column sums updated and asked, and the filtered row that is due is written;
//! where question 19 refuses, each store is what it was. A caller has asked all before 19 (`Fits`).
#![tactic(auto)]

mod arriving;
mod rows;
mod values;

pub use arriving::arrive;
