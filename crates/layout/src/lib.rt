//! A table by value, in the file's own widths, and the figures that follow from it: rows and columns of a
//! rectangle, word lengths, delay. The questions of the rules, and the answers of the calls; in specs/ what they say in the rules' numbers.
//!
//!   Rect, rows, columns       a rectangle, and M and N
//!   Table, rects              a table, and its rectangles
//!   column_word, window_word  the word lengths of a rectangle, formulas (6) and (7)
//!   delay                     D, the delay of a table
//!   Question, Refusal         the question that a call answered no, and its place; `Refusal::unless` asks one
//!   Numbered                  whatever has the number and the place of a refusal
//!   Answer, Closing           what a row or a closing step comes to
//!   due_row, due_step         what an arrival answers with a delay: a row, or waiting
#![tactic(auto)]

mod asking;
mod dues;
mod measure;

pub use asking::{Numbered, Question, Refusal};
pub use dues::{due_row, due_step};

/// A rectangle: rows r + trailrow + 1 to r + leadrow and columns c + trailcol + 1 to c + leadcol of a
/// pixel at row r, column c, with a signed weight.
#[repr(C)]
#[derive(Clone, Copy, Debug, PartialEq, Eq)]
pub struct Rect {
    pub leadrow: i8,
    pub leadcol: i8,
    pub trailrow: i8,
    pub trailcol: i8,
    pub weight: i16,
}

/// A table: b bits a sample, drops q1, q2 and q3, shift t, pixel word of w bits, and the rectangles in
/// the first `count` slots. Slots from `count` on are no part of the table.
#[repr(C)]
#[derive(Clone, Copy, Debug, PartialEq, Eq)]
pub struct Table {
    pub b: u8,
    pub q1: u8,
    pub q2: u8,
    pub q3: u8,
    pub t: u8,
    pub w: u8,
    pub count: usize,
    pub rects: [Rect; 16],
}

/// What a row comes to: a filtered row with its number, none due yet, or the number and the place of the question that was answered no.
#[derive(Clone, Copy, Debug, PartialEq, Eq)]
pub enum Answer {
    Row(u32),
    Waiting,
    Refused(u32, u32),
}

/// What a closing step comes to: the same, or that all rows are out.
#[derive(Clone, Copy, Debug, PartialEq, Eq)]
pub enum Closing {
    Row(u32),
    Waiting,
    Done,
    Refused(u32, u32),
}
