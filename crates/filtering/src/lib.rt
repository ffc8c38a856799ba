//! What stripfilter decides, each call one equation with a definition of specs/: whether the table and the scan's header are taken,
//! how many bytes to read and how many samples to hand to the engine, and what is said of a fault, byte for byte. Nothing here reads
//! or writes; the program moves the bytes between these calls.
//!
//!   table_fault, judge, row_fault  the table, the scan and its rows as they are taken, or what is wrong with them
//!   put_fault, answer              the line for a fault or for none, and the answers to --help, --version and a wrong command line
//!   read_most, whole_part          how many bytes to read, and how many samples go to the engine
//!   rows_left, packed, forward     what is still to come, what came out, and what is moved to the start of the store
//!   centred                        the edges of a window of so many rows or columns around its place
#![tactic(auto)]

mod judging;
mod moving;
mod saying;
mod window;

pub use judging::{judge, row_fault, table_fault};
pub use moving::{forward, packed, read_most, rows_left, whole_part};
use pgm::Entry;
pub use saying::{answer, put_fault};
pub use window::centred;

/// The edges of a window along rows or columns.
#[derive(Clone, Copy, Debug, PartialEq, Eq)]
pub struct Edges {
    pub lead: i8,
    pub trail: i8,
}

/// A scan that is taken: width, height and maxval of its header, and the bytes of a row.
#[derive(Clone, Copy, Debug, PartialEq, Eq)]
pub struct Job {
    pub width: u32,
    pub height: u32,
    pub maxval: u32,
    pub need: u32,
}

/// What is wrong with the table file or with the scan.
#[derive(Clone, Copy, Debug, PartialEq, Eq)]
pub enum Fault {
    /// the table file has no bytes
    NoTable,
    /// the table file is refused with this number
    Table(u32),
    /// the scan has no bytes
    Empty,
    /// its header is cut off
    CutHeader,
    /// it is no PGM
    Foreign,
    /// this number of the header does not begin at this byte
    Bad(Entry, usize),
    /// no white space stands at this byte, after the last number
    Unended(usize),
    /// this number, which begins at this byte, is too large
    Large(Entry, usize),
    /// the maxval is 0
    NoMaxval,
    /// the maxval, which is too large
    Maxval(u32),
    /// the maxval, and b, whose bits it does not fit
    Bits(u32, u8),
    /// the width, which is none that is taken
    Width(u32),
    /// the row that is cut off, how many bytes of it came, how many it has
    Cut(u32, usize, u32),
    /// row and column of a sample above the maxval, and the maxval
    Sample(u32, usize, u32),
    /// number and place of the engine's refusal
    Engine(u32, u32),
}
