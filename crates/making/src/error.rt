//! Why a text makes no table.
ghost use Rattle.std.specs.Prelude.{◌≡◌};

use forms::TextRefusal;
use layout::Refusal;

/// Why a text makes no table.
#[derive(Clone, Copy, Debug, PartialEq, Eq)]
pub enum MakeError {
    /// a question of the rules was answered no
    Rule(Refusal),
    /// the text has a fault of its own
    Text(TextRefusal),
}

impl MakeError {
    ghost use Rattle.making.specs.Errors.{error_said};

    /// The number that the interfaces show.
    pub fn number(self) -> u32
        ensures { result ≡ (error_said self).number }
    {
        match self {
            MakeError::Rule(refusal) => refusal.question.number(),
            MakeError::Text(refusal) => refusal.fault.number(),
        }
    }

    /// The line to blame, counted from 1, or 0 for none.
    pub fn place(self) -> u32
        ensures { result ≡ (error_said self).place }
    {
        match self {
            MakeError::Rule(refusal) => refusal.place,
            MakeError::Text(refusal) => refusal.place,
        }
    }
}

impl From<Refusal> for MakeError {
    ghost use Rattle.making.specs.declared.error.MakeError.TheVariants.{Rule};

    ghost from_gives = { λ r e. e ≡ Rule r };

    fn from(refusal: Refusal) -> MakeError {
        MakeError::Rule(refusal)
    }
}

impl From<TextRefusal> for MakeError {
    ghost use Rattle.making.specs.declared.error.MakeError.TheVariants.{Text};

    ghost from_gives = { λ r e. e ≡ Text r };

    fn from(refusal: TextRefusal) -> MakeError {
        MakeError::Text(refusal)
    }
}
