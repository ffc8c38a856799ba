//! The parts of a table file.
ghost use Rattle.std.specs.Prelude.{◌≡◌, ◌≤◌, ◌<◌, length, IfOk, OnOk};
ghost use Rattle.layout.specs.Answers.{verdict};
ghost use Rattle.table.specs.Format.{marked, rect_of, header_asks, field_asks, read_said};
ghost use Rattle.table.specs.Headers.{header_of};

use layout::{Question, Rect, Refusal};
use limits::{Header, rect_good};

/// Whether a field begins with this tag and the length 6.
#[tactic(auto, unfolding(crate::specs::Format::marked))]
fn starts(tag: u8, bytes: &[u8]) -> bool
    ensures { result ≡ marked tag bytes.now }
{
    bytes.starts_with(&[tag, 0, 6])
}

/// The header, by questions 1 to 5.
#[tactic(auto, unfolding(crate::specs::Format::header_asks))]
pub fn header(bytes: &[u8]) -> Result<Header, Refusal>
    ensures said { read_said result ≡ verdict (header_asks bytes.now) }
    ensures value { IfOk result (λ h. h ≡ header_of bytes.now) }
    ensures whole { OnOk result (9 ≤ length bytes.now) }
{
    Refusal::unless(starts(1, bytes), Question::Header)?;
    Refusal::unless(bytes.len() >= 9, Question::Contents)?;
    let header = Header {
        b: bytes[3],
        q1: bytes[4],
        q2: bytes[5],
        q3: bytes[6],
        t: bytes[7],
        w: bytes[8],
    };
    header.ask()?;
    Ok(header)
}

/// The rectangle of a field.
fn rect_of(bytes: &[u8]) -> Rect
    requires { 9 ≤ length bytes.now }
    ensures { result ≡ rect_of bytes.now }
{
    Rect {
        leadrow: bytes[3].cast_signed(),
        leadcol: bytes[4].cast_signed(),
        trailrow: bytes[5].cast_signed(),
        trailcol: bytes[6].cast_signed(),
        weight: i16::from_be_bytes([bytes[7], bytes[8]]),
    }
}

/// The rectangle of a further field, by questions 7, 6, 2 and 8, where `left` rectangles more may be read.
#[tactic(auto, unfolding(crate::specs::Format::field_asks))]
pub fn field(left: usize, bytes: &[u8]) -> Result<Rect, Refusal>
    ensures said { read_said result ≡ verdict (field_asks left bytes.now) }
    ensures value { IfOk result (λ r. r ≡ rect_of bytes.now) }
    ensures room { OnOk result (0 < left) }
    ensures whole { OnOk result (9 ≤ length bytes.now) }
{
    Refusal::unless(starts(2, bytes), Question::Field)?;
    Refusal::unless(left >= 1, Question::Room)?;
    Refusal::unless(bytes.len() >= 9, Question::Contents)?;
    let rect = rect_of(bytes);
    Refusal::unless(rect_good(rect), Question::Edges)?;
    Ok(rect)
}
