//! What the calls on a table file answer, as C has it.
ghost use Rattle.std.specs.Prelude.{◌≡◌, [], ◌∷◌, pos};
ghost use Rattle.table.specs.Format.{handed, given};
ghost use Rattle.table.specs.Writing.{written_said};
ghost use Rattle.cstructs.specs.Answers.{result_by, verdict_by, loaded_c, written_c};

use crate::answers;
use layout::{Numbered, Refusal, Table};
use limits::Header;
use table::bare;

// (C) A refusal is numbers beside a value here: these are the structs of the header.
/// strip_loaded
#[repr(C)]
#[derive(Clone, Copy, Debug, PartialEq, Eq)]
pub struct TableLoaded {
    pub refusal: u32,
    pub place: u32,
    pub table: Table,
}

/// strip_written
#[repr(C)]
#[derive(Clone, Copy, Debug, PartialEq, Eq)]
pub struct TableWritten {
    pub refusal: u32,
    pub place: u32,
    pub length: usize,
}

impl TableLoaded {
    /// Whether a file was loaded, whatever refused it, and the table that is handed out.
    pub fn new<R: Numbered>(verdict: Result<(), R>, table: Table) -> TableLoaded
        ensures { result ≡ loaded_c (handed (verdict_by R.number_said R.place_said verdict) table) }
    {
        let refusal = answers::Refusal::new(verdict);
        TableLoaded {
            refusal: refusal.number,
            place: refusal.place,
            table,
        }
    }
}

/// With a refusal goes a table with no rectangle.
impl From<Result<Table, Refusal>> for TableLoaded {
    ghost from_gives = { λ v a. a ≡ loaded_c (given v) };

    fn from(loaded: Result<Table, Refusal>) -> TableLoaded {
        match loaded {
            Ok(table) => TableLoaded::new::<Refusal>(Ok(()), table),
            Err(no) => {
                let none = bare(Header {
                    b: 0,
                    q1: 0,
                    q2: 0,
                    q3: 0,
                    t: 0,
                    w: 0,
                });
                TableLoaded::new(Err(no), none)
            }
        }
    }
}

impl TableWritten {
    /// The length of a file that was written, or the refusal, whatever refused.
    pub fn new<R: Numbered>(written: Result<usize, R>) -> TableWritten
        ensures { result ≡ written_c (result_by R.number_said R.place_said (λ n. pos n ∷ []) written) }
    {
        match written {
            Err(no) => TableWritten {
                refusal: no.number(),
                place: no.place(),
                length: 0,
            },
            Ok(length) => TableWritten {
                refusal: 0,
                place: 0,
                length,
            },
        }
    }
}

impl From<Result<usize, Refusal>> for TableWritten {
    ghost from_gives = { λ v a. a ≡ written_c (written_said v) };

    fn from(written: Result<usize, Refusal>) -> TableWritten {
        TableWritten::new(written)
    }
}
