//! What the words of stripfilter's command line come to, word by word.
//!
//!   Begun::next   what the words so far come to with one word more
//!   Begun::ended  what they come to when there are no more
#![tactic(auto)]

mod line;

/// A word of the command line.
#[derive(Clone, Copy, Debug, PartialEq, Eq)]
pub enum Word {
    Values,
    Rank,
    Help,
    Version,
    /// begins with - and is none of these
    Dashed,
    /// digits; 65,536 stands for whatever is larger
    Number(u32),
    /// anything else names a table
    Table,
}

/// How filtered rows are to be written: as a picture, or as decimal numbers.
#[derive(Clone, Copy, Debug, PartialEq, Eq)]
pub enum Output {
    Picture,
    Numbers,
}

/// A ranked window: its rank, rows and columns.
#[derive(Clone, Copy, Debug, PartialEq, Eq)]
pub struct Ranking {
    pub rank: u32,
    pub rows: u32,
    pub columns: u32,
}

/// The numbers after --rank, as far as they were given.
#[derive(Clone, Copy, Debug, PartialEq, Eq)]
pub enum Given {
    Nothing,
    Rank(u32),
    Rows { rank: u32, rows: u32 },
    All(Ranking),
    /// more than the three, which no words come to: then a number or the end is a usage error, and a name is no number
    Beyond,
}

/// What the command line asks for.
#[derive(Clone, Copy, Debug, PartialEq, Eq)]
pub enum Command {
    /// to filter by the table that the word at this place names
    Filter { output: Output, table: usize },
    /// to filter by a ranked window
    Ranked { output: Output, ranking: Ranking },
    Help,
    Version,
    /// the word at this place is no option
    Unknown(usize),
    /// the word at this place is no number
    NoNumber(usize),
    /// no table, or two; fewer or more than three numbers
    Usage,
}

/// What the words so far come to.
#[derive(Clone, Copy, Debug, PartialEq, Eq)]
pub enum Begun {
    /// to filter by a table, which the word at this place names
    Filter {
        output: Output,
        table: Option<usize>,
    },
    /// to filter by a ranked window
    Ranked {
        output: Output,
        given: Given,
    },
    /// a command, whatever follows
    Settled(Command),
}
