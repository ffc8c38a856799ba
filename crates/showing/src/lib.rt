//! A table file shown as text, which maketable reads.
//!
//!   show   how many bytes were put at the start of the output; or the refusal, by questions 1 to 9. A table that question 10 refuses is
//!          shown, with a comment behind it
//!   Shown  any table: its text, printed, with the same comment behind it
#![tactic(auto)]

mod cells;
mod lines;

ghost use Rattle.std.specs.Prelude.{◌≡◌, Some};
ghost use Rattle.layout.specs.Answers.{wrote};
ghost use Rattle.table.specs.Format.{parse_of};
ghost use Rattle.text.specs.Text.{Put};
ghost use Rattle.showing.specs.Showing.{shown_said, shown_of, printed};

use layout::{Refusal, Table};
use limits::value_good;
use lines::{put_remark, put_table};
use std::fmt;

/// Shows a table file at the start of the output, and answers how many bytes were put; a refused one leaves the output as it was.
pub fn show(bytes: &[u8], out: &mut [u8; 4096]) -> Result<usize, Refusal>
    ensures { wrote (shown_said result) out.new ≡ shown_of (parse_of bytes.now) out.old }
{
    let table = table::parse(bytes)?;
    let end = put_table(out, table);
    if value_good(table) {
        return Ok(end);
    }
    Ok(put_remark(out, end))
}

/// What `Shown` prints, put at the start of the output.
fn put_printed(out: &mut [u8; 4096], whole: Table) -> usize
    ensures { Put out.old 0 (printed whole) out.new result }
{
    let slots = Table {
        count: whole.rects().len(),
        ..whole
    };
    let past = put_table(out, slots);
    if value_good(whole) {
        return past;
    }
    put_remark(out, past)
}

/// A table, read or made by hand, printed as its text, with the comment behind it where question 3, 4, 5 or 10 says no, or there are
/// more than 16 rectangles.
#[derive(Clone, Copy, Debug, PartialEq, Eq)]
pub struct Shown(pub Table);

impl fmt::Display for Shown {
    ghost output = { λ s. Some (printed s.0) };

    fn fmt<W: fmt::Write>(&self, f: &mut fmt::Formatter<W>) -> fmt::Result {
        let mut text = [0u8; 4096];
        let end = put_printed(&mut text, self.0);
        match std::str::from_utf8(&text[..end]) {
            Ok(text) => f.write_str(text),
            Err(_) => Err(fmt::Error),
        }
    }
}

#[cfg(test)]
mod tests {
    use super::*;
    use layout::Rect;
    use std::alloc::AllocError;

    // Samples of 8 bits and windows of 3 by 3: a pixel is at most 2,295 of one, which a word of 13 bits holds, 36,720 of 16, which one of
    // 17 bits does.
    fn table_of(w: u8, count: usize) -> Table {
        let window = Rect {
            leadrow: 1,
            leadcol: 1,
            trailrow: -2,
            trailcol: -2,
            weight: 1,
        };
        Table {
            b: 8,
            q1: 0,
            q2: 0,
            q3: 0,
            t: 0,
            w,
            count,
            rects: [window; 16],
        }
    }

    #[test]
    fn a_struct_is_printed(rt: HostRuntime) -> Result<(), AllocError> {
        let head = "bits 8\ndrops 0 0 0\nshift 0\nword ";
        let window = "rectangle lead 1 1 trail -2 -2 weight 1\n";
        let remark = "# refused, 10: the largest or the smallest pixel does not fit w bits\n";
        for (w, count, slots, behind) in [
            (13, 0, 0, ""),
            (13, 1, 1, ""),
            (13, 16, 16, remark),
            (17, 16, 16, ""),
            (17, 17, 16, remark),
        ] {
            let printed = format!(in rt.alloc(); "{}", Shown(table_of(w, count)))?;
            let mut text = format!(in rt.alloc(); "{head}{w}\n")?;
            for _ in 0..slots {
                text.push_str(window)?;
            }
            text.push_str(behind)?;
            assert_eq!(rt; printed.as_str(), text.as_str());
        }
        Ok(())
    }
}
