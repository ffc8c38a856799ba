//! What an arrival is answered.
ghost use Rattle.std.specs.Prelude.{◌≡◌};
ghost use Rattle.layout.specs.Answers.{no_said, answer_said, closing_said, due_at};

use crate::{Answer, Closing, Refusal};

impl From<Refusal> for Answer {
    ghost from_gives = { λ r a. answer_said a ≡ no_said r };

    fn from(refusal: Refusal) -> Answer {
        Answer::Refused(refusal.question.number(), refusal.place)
    }
}

impl From<Refusal> for Closing {
    ghost from_gives = { λ r a. closing_said a ≡ no_said r };

    fn from(refusal: Refusal) -> Closing {
        Closing::Refused(refusal.question.number(), refusal.place)
    }
}

/// The answer to a row: row `arrival` - `delay` is out, or none is due yet.
pub fn due_row(arrival: u32, delay: u32) -> Answer
    ensures { answer_said result ≡ due_at arrival delay }
{
    match arrival.checked_sub(delay) {
        Some(row) => Answer::Row(row),
        None => Answer::Waiting,
    }
}

/// The same of a closing step.
pub fn due_step(arrival: u32, delay: u32) -> Closing
    ensures { closing_said result ≡ due_at arrival delay }
{
    match due_row(arrival, delay) {
        Answer::Row(row) => Closing::Row(row),
        Answer::Waiting => Closing::Waiting,
        Answer::Refused(number, place) => Closing::Refused(number, place),
    }
}
