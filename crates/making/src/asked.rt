//! What is asked before the rectangles.
ghost use Rattle.std.specs.Prelude.{◌≡◌, ◌≤◌, [], length};
ghost use Rattle.layout.specs.Answers.{verdict};
ghost use Rattle.words.specs.Words.{lines_of};
ghost use Rattle.forms.specs.Faults.{text_said};
ghost use Rattle.making.specs.Making.{lines_ask, head_asks};
ghost use Rattle.making.specs.Errors.{answer_said};

use crate::MakeError;
use crate::header::{all_once, numbers};
use crate::lines::Placed;
use forms::{TextRefusal, look};

/// The questions on each line by itself.
fn lines(text: &[u8]) -> Result<(), TextRefusal>
    requires { length text.now ≤ 65535 }
    ensures { text_said result ≡ verdict (lines_ask 1 (lines_of text.now)) }
{
    for line in Placed::of(text) {
        look(line.bytes, line.place)?;
    }
    Ok(())
}

/// The questions on the lines, on the header's lines, and on the header's numbers.
pub fn asked(text: &[u8]) -> Result<(), MakeError>
    requires { length text.now ≤ 65535 }
    ensures { answer_said (λ x. []) result ≡ verdict (head_asks text.now) }
{
    lines(text)?;
    all_once(text)?;
    numbers(text)?;
    Ok(())
}
