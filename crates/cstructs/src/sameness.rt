//! What comparing two tables answers, as C has it.
ghost use Rattle.std.specs.Prelude.{◌≡◌};
ghost use Rattle.same.specs.Same.{offset_values, sameness_said};
ghost use Rattle.cstructs.specs.Answers.{result_by, same_c};

use layout::{Numbered, Refusal};
use same::Offset;

/// strip_same_answer
#[repr(C)]
#[derive(Clone, Copy, Debug, PartialEq, Eq)]
pub struct SameAnswer {
    pub refusal: u32,
    pub place: u32,
    pub same: bool,
    pub row: i32,
    pub col: i32,
}

impl SameAnswer {
    /// Same, the offset, or the refusal, whatever refused.
    pub fn new<R: Numbered>(found: Result<Option<Offset>, R>) -> SameAnswer
        ensures { result ≡ same_c (result_by R.number_said R.place_said offset_values found) }
    {
        match found {
            Err(no) => SameAnswer {
                refusal: no.number(),
                place: no.place(),
                same: false,
                row: 0,
                col: 0,
            },
            Ok(None) => SameAnswer {
                refusal: 0,
                place: 0,
                same: true,
                row: 0,
                col: 0,
            },
            Ok(Some(offset)) => SameAnswer {
                refusal: 0,
                place: 0,
                same: false,
                row: offset.row,
                col: offset.col,
            },
        }
    }
}

impl From<Result<Option<Offset>, Refusal>> for SameAnswer {
    ghost from_gives = { λ s a. a ≡ same_c (sameness_said s) };

    fn from(found: Result<Option<Offset>, Refusal>) -> SameAnswer {
        SameAnswer::new(found)
    }
}
