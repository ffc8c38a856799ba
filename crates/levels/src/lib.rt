//! Inner: counts by level, on plain slices and numbers. Of one column: question 19 on its counts, and the change of them when a
//! sample leaves and another enters; the same of all columns of a row. Of a window: its counts slid on by a column, and the level
//! of a rank found in them.
#![tactic(auto)]

mod columns;
mod finding;
mod sliding;

pub use columns::take_columns;
pub use finding::find;
pub use sliding::slide;
