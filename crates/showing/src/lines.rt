//! The lines of a shown table.
ghost use Rattle.std.specs.Prelude.{◌+◌, ◌*◌, ◌≤◌, length};
ghost use Rattle.layout.specs.Contents.{contents};
ghost use Rattle.text.specs.Text.{Put};
ghost use Rattle.showing.specs.Showing.{drops_line, head_lines, rect_line, rect_lines, text_of, remark};

use crate::cells::{put_number, put_pair, put_signed};
use layout::{Rect, Table};
use refusals::put_refusal;
use text::put_bytes;

/// The drops, 69 bytes at most.
fn put_drops(out: &mut [u8], at: usize, q1: u8, q2: u8, q3: u8) -> usize
    requires { at + 69 ≤ length out.old }
    ensures put { Put out.old at (drops_line q1 q2 q3) out.new result }
    ensures upper_bound { result ≤ at + 69 }
{
    let a = put_number(out, at, b"drops ", q1, b' ');
    let a = put_number(out, a, b"", q2, b' ');
    put_number(out, a, b"", q3, b'\n')
}

/// The header's lines, 148 bytes at most.
fn put_head(out: &mut [u8], t: Table) -> usize
    requires { 148 ≤ length out.old }
    ensures put { Put out.old 0 (head_lines t.b t.q1 t.q2 t.q3 t.t t.w) out.new result }
    ensures upper_bound { result ≤ 148 }
{
    let a = put_number(out, 0, b"bits ", t.b, b'\n');
    let a = put_drops(out, a, t.q1, t.q2, t.q3);
    let a = put_number(out, a, b"shift ", t.t, b'\n');
    put_number(out, a, b"word ", t.w, b'\n')
}

/// A rectangle, 138 bytes at most.
fn put_rect(out: &mut [u8], at: usize, r: Rect) -> usize
    requires { at + 138 ≤ length out.old }
    ensures put { Put out.old at (rect_line r) out.new result }
    ensures upper_bound { result ≤ at + 138 }
{
    let a = put_pair(out, at, b"rectangle lead ", r.leadrow, r.leadcol);
    let a = put_pair(out, a, b"trail ", r.trailrow, r.trailcol);
    put_signed(out, a, b"weight ", r.weight, b'\n')
}

/// The rectangles, 138 bytes at most each.
fn put_rects(out: &mut [u8], at: usize, t: Table) -> usize
    requires { (t.count ≤ 16) × (at + 138 * t.count ≤ length out.old) }
    ensures put { Put out.old at (rect_lines (contents t).rects) out.new result }
    ensures upper_bound { result ≤ at + 138 * t.count }
{
    let mut a = at;
    for k in 0..t.count {
        a = put_rect(out, a, t.rects[k]);
    }
    a
}

/// The text of a table, 2,356 bytes at most.
pub fn put_table(out: &mut [u8], t: Table) -> usize
    requires { (t.count ≤ 16) × (2356 ≤ length out.old) }
    ensures put { Put out.old 0 (text_of (contents t)) out.new result }
    ensures upper_bound { result ≤ 2356 }
{
    let a = put_head(out, t);
    put_rects(out, a, t)
}

/// The comment behind a table that question 10 refuses, 116 bytes at most.
pub fn put_remark(out: &mut [u8], at: usize) -> usize
    requires { at + 116 ≤ length out.old }
    ensures { Put out.old at remark out.new result }
{
    let a = put_bytes(out, at, b"# refused, 10: ");
    let a = put_refusal(out, a, 10);
    put_bytes(out, a, b"\n")
}
