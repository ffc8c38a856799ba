//! Writing a table's file.
ghost use Rattle.std.specs.Prelude.{◌≡◌, ◌+◌, ◌*◌, ◌≤◌, length, drop, ◌++◌};
ghost use Rattle.layout.specs.Contents.{contents};
ghost use Rattle.layout.specs.Answers.{wrote};
ghost use Rattle.table.specs.Format.{encode_head, encode_rect, encode};
ghost use Rattle.table.specs.Writing.{written_said, write_of};

use layout::{Question, Rect, Refusal, Table};
use limits::accepted;

/// Puts the header's field at the start of out.
#[tactic(auto, unfolding(crate::specs::Format::encode_head))]
fn put_head(out: &mut [u8], t: Table)
    requires { 9 ≤ length out.old }
    ensures { out.new ≡ encode_head (contents t) ++ drop 9 out.old }
{
    out[..9].copy_from_slice(&[1, 0, 6, t.b, t.q1, t.q2, t.q3, t.t, t.w]);
}

/// Puts the field of a rectangle at the start of out.
fn put_rect(out: &mut [u8], r: Rect)
    requires { 9 ≤ length out.old }
    ensures { out.new ≡ encode_rect r ++ drop 9 out.old }
{
    let [high, low] = r.weight.to_be_bytes();
    out[..9].copy_from_slice(&[
        2,
        0,
        6,
        r.leadrow.cast_unsigned(),
        r.leadcol.cast_unsigned(),
        r.trailrow.cast_unsigned(),
        r.trailcol.cast_unsigned(),
        high,
        low,
    ]);
}

/// Puts the file of a table at the start of out.
fn put(out: &mut [u8], t: Table)
    requires count_bound { t.count ≤ 16 }
    requires count_in_bounds { 9 + 9 * t.count ≤ length out.old }
    ensures { out.new ≡ encode (contents t) ++ drop (9 + 9 * t.count) out.old }
{
    put_head(out, t);
    for (k, &r) in t.rects().iter().enumerate() {
        put_rect(&mut out[9 + 9 * k..], r);
    }
}

/// Writing a table: question 11, then 13; the file goes to the start of out, and nothing beyond it is touched.
#[tactic(auto, unfolding(crate::specs::Writing::write_of))]
pub fn write(t: Table, out: &mut [u8]) -> Result<usize, Refusal>
    ensures { wrote (written_said result) out.new ≡ write_of t out.old }
{
    Refusal::unless(accepted(t), Question::Table)?;
    let length = 9 + 9 * t.count;
    Refusal::unless(out.len() >= length, Question::Stores)?;
    put(out, t);
    Ok(length)
}
