//! What is asked of a line by itself.
ghost use Rattle.std.specs.Prelude.{◌≡◌, [], eqb, length, get_or};
ghost use Rattle.arith.specs.Twos.{fits_signed};
ghost use Rattle.layout.specs.Answers.{verdict};
ghost use Rattle.words.specs.Words.{words_of};
ghost use Rattle.forms.specs.Forms.{kind_of, kind_number, integer_at, weight_good, line_asks};
ghost use Rattle.forms.specs.Faults.{text_said};

use crate::held::weight_most;
use crate::kinds::of_form;
use crate::{Kind, TextFault, TextRefusal};
use words::{Words, number};

/// Whether a line has no words.
fn blank(line: &[u8]) -> bool
    ensures { result ≡ eqb (length (words_of line.now)) 0 }
{
    Words(line).next().is_none()
}

/// Whether word 8 of a line fits 16 bits.
fn weight_fits(line: &[u8]) -> bool
    ensures { result ≡ fits_signed 16 (integer_at (words_of line.now) 8) }
{
    let n = number(line, 8);
    n.size <= u32::from(weight_most(n.minus))
}

/// Whether the weight of a rectangle's line fits 16 bits; any other line has none.
fn weight_good(line: &[u8], kind: Kind) -> bool
    requires { kind_number kind ≡ kind_of (words_of line.now) }
    ensures { result ≡ weight_good (words_of line.now) }
{
    kind != Kind::Rectangle || weight_fits(line)
}

/// The questions on a line.
pub fn look(line: &[u8], place: u32) -> Result<(), TextRefusal>
    ensures { text_said result ≡ verdict (line_asks place (words_of line.now)) }
{
    if blank(line) {
        return Ok(());
    }
    let Some(kind) = Kind::of(line) else {
        return Err(TextRefusal {
            fault: TextFault::Unknown,
            place,
        });
    };
    TextRefusal::unless(of_form(kind, line), kind.form_fault(), place)?;
    TextRefusal::unless(weight_good(line, kind), TextFault::Weight, place)
}
