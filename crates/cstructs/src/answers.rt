//! What the answers of several calls have in common, as C has it.
ghost use Rattle.std.specs.Prelude.{◌≡◌};
ghost use Rattle.layout.specs.Answers.{answer_said, closing_said};
ghost use Rattle.cstructs.specs.Answers.{verdict_by, refusal_c, head_c};

use layout::{Answer, Closing, Numbered};

/// The number and the place of a refusal, 0 and 0 where there is none.
#[derive(Clone, Copy)]
pub struct Refusal {
    pub number: u32,
    pub place: u32,
}

impl Refusal {
    /// The refusal of a verdict, whatever refused.
    pub fn new<R: Numbered>(verdict: Result<(), R>) -> Refusal
        ensures { result ≡ refusal_c (verdict_by R.number_said R.place_said verdict) }
    {
        match verdict {
            Err(no) => Refusal {
                number: no.number(),
                place: no.place(),
            },
            Ok(()) => Refusal {
                number: 0,
                place: 0,
            },
        }
    }
}

/// The kind of an answer, 0 refused, 1 row, 2 waiting, 3 done; the number of the question or of the row, and the place.
#[derive(Clone, Copy)]
pub struct Head {
    pub kind: u32,
    pub number: u32,
    pub place: u32,
}

/// A head of these parts.
fn head_of(kind: u32, number: u32, place: u32) -> Head
    ensures { result ≡ record { kind = kind; number = number; place = place } }
{
    Head {
        kind,
        number,
        place,
    }
}

impl From<Answer> for Head {
    ghost from_gives = { λ a h. h ≡ head_c (answer_said a) };

    fn from(answer: Answer) -> Head {
        match answer {
            Answer::Refused(number, place) => head_of(0, number, place),
            Answer::Row(number) => head_of(1, number, 0),
            Answer::Waiting => head_of(2, 0, 0),
        }
    }
}

impl From<Closing> for Head {
    ghost from_gives = { λ a h. h ≡ head_c (closing_said a) };

    fn from(answer: Closing) -> Head {
        match answer {
            Closing::Refused(number, place) => head_of(0, number, place),
            Closing::Row(number) => head_of(1, number, 0),
            Closing::Waiting => head_of(2, 0, 0),
            Closing::Done => head_of(3, 0, 0),
        }
    }
}
