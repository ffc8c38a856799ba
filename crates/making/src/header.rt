//! The header's lines.
ghost use Rattle.std.specs.Prelude.{◌≡◌, ◌≤◌, ◌<◌, ◌+◌, length};
ghost use Rattle.layout.specs.Answers.{verdict, said};
ghost use Rattle.layout.specs.Questions.{number_of};
ghost use Rattle.layout.specs.Contents.{no_rects};
ghost use Rattle.words.specs.Words.{words_of};
ghost use Rattle.forms.specs.Forms.{kind_number};
ghost use Rattle.forms.specs.Faults.{fault_number, text_said};
ghost use Rattle.making.specs.Making.{lines_with, head_line, once_asks, all_once, numbers_ask, contents_of};
ghost use Rattle.making.specs.Steps.{line_said, held_at, held_head, blamed_of};

use crate::lines::{Line, OfKind};
use forms::{Kind, TextFault, TextRefusal, byte};
use layout::{Question, Refusal};
use limits::Header;

/// Whether there is one line of a kind; the fault is that there is none.
fn once(text: &[u8], kind: Kind, missing: TextFault) -> Result<(), TextRefusal>
    requires short { length text.now ≤ 65535 }
    requires missing { fault_number missing ≡ 109 + kind_number kind }
    ensures { text_said result ≡ verdict (once_asks (kind_number kind) (lines_with (kind_number kind) text.now)) }
{
    let mut lines = OfKind::of(text, kind);
    let Some(_) = lines.next() else {
        return Err(TextRefusal {
            fault: missing,
            place: 0,
        });
    };
    match lines.next() {
        None => Ok(()),
        Some(second) => Err(TextRefusal {
            fault: TextFault::Twice,
            place: second.place,
        }),
    }
}

/// Whether there is one of each of the header's kinds.
pub fn all_once(text: &[u8]) -> Result<(), TextRefusal>
    requires { length text.now ≤ 65535 }
    ensures { text_said result ≡ verdict (all_once text.now) }
{
    once(text, Kind::Bits, TextFault::NoBits)?;
    once(text, Kind::Drops, TextFault::NoDrops)?;
    once(text, Kind::Shift, TextFault::NoShift)?;
    once(text, Kind::Word, TextFault::NoWord)
}

/// The header's line of a kind; an empty one at place 0 where there is none.
fn head_line(text: &[u8], kind: Kind) -> Line<'_>
    requires { length text.now ≤ 65535 }
    ensures { line_said result ≡ head_line (kind_number kind) text.now }
{
    let none = Line {
        place: 0,
        bytes: &[],
    };
    OfKind::of(text, kind).next().unwrap_or(none)
}

/// Number k of the header's line of a kind.
fn byte_of(text: &[u8], kind: Kind, k: usize) -> u8
    requires short { length text.now ≤ 65535 }
    requires within { k < 8 }
    ensures { result ≡ held_at (kind_number kind) k text.now }
{
    byte(head_line(text, kind).bytes, k)
}

/// The header's numbers, held at 255.
pub fn header(text: &[u8]) -> Header
    requires { length text.now ≤ 65535 }
    ensures { no_rects result.b result.q1 result.q2 result.q3 result.t result.w ≡ held_head text.now }
{
    Header {
        b: byte_of(text, Kind::Bits, 0),
        q1: byte_of(text, Kind::Drops, 0),
        q2: byte_of(text, Kind::Drops, 1),
        q3: byte_of(text, Kind::Drops, 2),
        t: byte_of(text, Kind::Shift, 0),
        w: byte_of(text, Kind::Word, 0),
    }
}

/// The line that a no to question 3, 4 or 5 is said of.
fn blamed(text: &[u8], question: Question) -> u32
    requires { length text.now ≤ 65535 }
    ensures { result ≡ blamed_of text.now (number_of question) }
{
    match question {
        Question::Bits => head_line(text, Kind::Bits).place,
        Question::Drops => head_line(text, Kind::Drops).place,
        _ => {
            if byte_of(text, Kind::Shift, 0) <= 31 {
                head_line(text, Kind::Word).place
            } else {
                head_line(text, Kind::Shift).place
            }
        }
    }
}

/// Questions 3 to 5.
pub fn numbers(text: &[u8]) -> Result<(), Refusal>
    requires { length text.now ≤ 65535 }
    ensures { said result ≡ verdict (numbers_ask text.now (contents_of text.now)) }
{
    match header(text).ask() {
        Ok(()) => Ok(()),
        Err(no) => Err(Refusal {
            question: no.question,
            place: blamed(text, no.question),
        }),
    }
}
