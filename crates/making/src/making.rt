//! A table from its text.
ghost use Rattle.std.specs.Prelude.{◌≡◌, ◌≤◌, length};
ghost use Rattle.layout.specs.Answers.{wrote};
ghost use Rattle.table.specs.Format.{given, handed_out};
ghost use Rattle.making.specs.Making.{make_of, make_left};
ghost use Rattle.making.specs.Steps.{collected, fit_held};
ghost use Rattle.making.specs.Errors.{made_said, made_given};

use crate::MakeError;
use crate::asked::asked;
use crate::rects::collect;
use forms::{TextFault, TextRefusal};
use layout::{Question, Refusal, Table};
use limits::value_good;
use table::write;

/// The rectangles, and question 10.
fn fitted(text: &[u8]) -> Result<Table, Refusal>
    requires { length text.now ≤ 65535 }
    ensures { given result ≡ handed_out (fit_held (collected text.now)) }
{
    let t = collect(text)?;
    Refusal::unless(value_good(t), Question::Extremes)?;
    Ok(t)
}

/// What the text comes to.
fn made(text: &[u8]) -> Result<Table, MakeError>
    ensures { made_given result ≡ handed_out (make_of text.now) }
{
    TextRefusal::unless(text.len() <= 65535, TextFault::TooLong, 0)?;
    asked(text)?;
    Ok(fitted(text)?)
}

/// Makes a table's file from its text.
pub fn make(text: &[u8], out: &mut [u8]) -> Result<usize, MakeError>
    ensures { wrote (made_said result) out.new ≡ make_left text.now out.old }
{
    let t = made(text)?;
    Ok(write(t, out)?)
}
