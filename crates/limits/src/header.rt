//! The questions on a header.
ghost use Rattle.std.specs.Prelude.{◌≡◌};
ghost use Rattle.limits.specs.Limits.{bits_good, drops_good, word_good};

use layout::{Question, Refusal, Table};

/// The numbers of a header: b bits a sample, drops q1, q2 and q3, shift t, and the pixel word of w bits.
#[derive(Clone, Copy, Debug, PartialEq, Eq)]
pub struct Header {
    pub b: u8,
    pub q1: u8,
    pub q2: u8,
    pub q3: u8,
    pub t: u8,
    pub w: u8,
}

impl Header {
    ghost use Rattle.layout.specs.Answers.{said, verdict};
    ghost use Rattle.limits.specs.Limits.{head_asks};

    /// Questions 3 to 5.
    #[tactic(auto, unfolding(crate::specs::Limits::head_asks))]
    pub fn ask(self) -> Result<(), Refusal>
        ensures { said result ≡ verdict (head_asks self.b self.q1 self.q2 self.q3 self.t self.w) }
    {
        Refusal::unless(bits_good(self.b), Question::Bits)?;
        Refusal::unless(
            drops_good(self.b, self.q1, self.q2, self.q3),
            Question::Drops,
        )?;
        Refusal::unless(word_good(self.t, self.w), Question::Word)
    }
}

impl From<Table> for Header {
    ghost use Rattle.limits.specs.Headers.{header_of};

    ghost from_gives = { λ t h. h ≡ header_of t };

    fn from(t: Table) -> Header {
        Header {
            b: t.b,
            q1: t.q1,
            q2: t.q2,
            q3: t.q3,
            t: t.t,
            w: t.w,
        }
    }
}

/// Question 3.
#[tactic(auto, unfolding(crate::specs::Limits::bits_good))]
pub fn bits_good(b: u8) -> bool
    ensures { result ≡ bits_good b }
{
    (1..=12).contains(&b)
}

/// Question 4.
#[tactic(auto, unfolding(crate::specs::Limits::drops_good))]
pub fn drops_good(b: u8, q1: u8, q2: u8, q3: u8) -> bool
    ensures { result ≡ drops_good b q1 q2 q3 }
{
    q1 < b && q2 <= 8 && q3 <= 8
}

/// Question 5.
#[tactic(auto, unfolding(crate::specs::Limits::word_good))]
pub fn word_good(t: u8, w: u8) -> bool
    ensures { result ≡ word_good t w }
{
    t <= 31 && (8..=32).contains(&w)
}
