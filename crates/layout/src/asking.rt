//! The questions that the calls ask, and what a no comes to.
ghost use Rattle.std.specs.Prelude.{◌≡◌, ℕ};

/// A question of the rules, with its number. A call asks its questions in the rules' order and ends at the first no.
#[derive(Clone, Copy, Debug, PartialEq, Eq)]
pub enum Question {
    /// does the file begin with the header 01 00 06
    Header = 1,
    /// are all the contents of a field there
    Contents = 2,
    /// is b from 1 to 12
    Bits = 3,
    /// is q1 below b, and are q2 and q3 at most 8
    Drops = 4,
    /// is t at most 31, and w from 8 to 32
    Word = 5,
    /// have fewer than 16 rectangles been read
    Room = 6,
    /// does a field begin with 02 00 06
    Field = 7,
    /// is each edge of a rectangle within its limits, and each trail below its lead
    Edges = 8,
    /// is there a rectangle
    Rectangle = 9,
    /// do the largest and the smallest pixel fit w bits
    Extremes = 10,
    /// is the table one that loading accepts
    Table = 11,
    /// is the width from 1 to 1,024
    Width = 12,
    /// are the stores and the output long enough
    Stores = 13,
    /// do the numbers of the scan agree
    State = 14,
    /// is the scan open, or at a closing step closed
    Phase = 15,
    /// are fewer than 65,535 rows in
    Rows = 16,
    /// does the number of samples go with the width
    Length = 17,
    /// is each sample at most 2^b - 1, or dead
    Samples = 18,
    /// can each carried sum or count be what the last call left
    Carried = 19,
    /// are the row and the column inside the scan
    Place = 20,
    /// are samples handed over together whole rows
    WholeRows = 21,
    /// is the rank from 1 to the number of samples that the window covers
    Rank = 22,
    /// is b at most 8, as a ranked window needs
    RankedBits = 23,
    /// do two tables have the same b, t and w
    Heads = 24,
    /// do two tables drop no bits
    NoDrops = 25,
}

impl Question {
    ghost use Rattle.layout.specs.Questions.{number_of};

    /// The number of the question, 1 to 25, which every interface shows.
    pub fn number(self) -> u32
        ensures { result ≡ number_of self }
    {
        self as u32
    }
}

/// A question that was answered no, and the place of the no, 0 unless the rules name one.
#[derive(Clone, Copy, Debug, PartialEq, Eq)]
pub struct Refusal {
    pub question: Question,
    pub place: u32,
}

impl Refusal {
    ghost use Rattle.layout.specs.Questions.{asked, asked_at};

    /// Asks a question that holds or not; `?` ends the call where the answer is no, at place 0.
    pub fn unless(holds: bool, question: Question) -> Result<(), Refusal>
        ensures { result ≡ asked question holds }
    {
        Refusal::unless_at(holds, question, 0)
    }

    /// The same of a question whose no has a place.
    pub fn unless_at(holds: bool, question: Question, place: u32) -> Result<(), Refusal>
        ensures { result ≡ asked_at question holds place }
    {
        if holds {
            Ok(())
        } else {
            Err(Refusal { question, place })
        }
    }
}

/// What a refusal is by: the number of the question and the place of the no, whatever holds them.
pub trait Numbered: Copy {
    ghost number_said: { Self → ℕ };

    ghost place_said: { Self → ℕ };

    /// The number.
    fn number(self) -> u32
        ensures { result ≡ number_said self };

    /// The place.
    fn place(self) -> u32
        ensures { result ≡ place_said self };
}

impl Numbered for Refusal {
    ghost use Rattle.layout.specs.Questions.{number_of};

    ghost number_said = { λ r. number_of r.question };

    ghost place_said = { λ r. r.place };

    fn number(self) -> u32 {
        self.question.number()
    }

    fn place(self) -> u32 {
        self.place
    }
}

/// A number and a place, of any question or of none.
impl Numbered for (u32, u32) {
    ghost number_said = { λ p. p.0 };

    ghost place_said = { λ p. p.1 };

    fn number(self) -> u32 {
        self.0
    }

    fn place(self) -> u32 {
        self.1
    }
}
