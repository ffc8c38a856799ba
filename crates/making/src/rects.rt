//! The rectangles' lines.
ghost use Rattle.std.specs.Prelude.{◌≡◌, [], ◌∷◌, leb, ◌≤◌, length};
ghost use Rattle.layout.specs.Answers.{verdict, said};
ghost use Rattle.limits.specs.Limits.{rect_good};
ghost use Rattle.table.specs.Format.{given, handed_out};
ghost use Rattle.forms.specs.Forms.{asks_at};
ghost use Rattle.making.specs.Steps.{collected};

use crate::header::header;
use crate::lines::OfKind;
use forms::{Kind, rect};
use layout::{Question, Rect, Refusal, Table};
use limits::rect_good;
use table::bare;

/// Questions 6 and 8 on a rectangle where `left` more may be read.
fn rect_asked(left: usize, place: u32, r: Rect) -> Result<(), Refusal>
    ensures { said result ≡ verdict (asks_at place 6 (leb 1 left) ∷ asks_at place 8 (rect_good r) ∷ []) }
{
    Refusal::unless_at(left >= 1, Question::Room, place)?;
    Refusal::unless_at(rect_good(r), Question::Edges, place)
}

/// The table of the header's numbers and of the rectangles in the order of their lines.
pub fn collect(text: &[u8]) -> Result<Table, Refusal>
    requires { length text.now ≤ 65535 }
    ensures { given result ≡ handed_out (collected text.now) }
{
    let mut t = bare(header(text));
    for line in OfKind::of(text, Kind::Rectangle) {
        let r = rect(line.bytes);
        rect_asked(16 - t.count, line.place, r)?;
        t.rects[t.count] = r;
        t.count += 1;
    }
    Refusal::unless(t.count >= 1, Question::Rectangle)?;
    Ok(t)
}
