//! The lines of the listing.
ghost use Rattle.std.specs.Prelude.{◌≡◌, ◌+◌, ◌*◌, ◌≤◌, ◌<◌, true, length};
ghost use Rattle.layout.specs.Measure.{loss_figure};
ghost use Rattle.limits.specs.Limits.{bits_good, drops_good};
ghost use Rattle.table.specs.Format.{load_of};
ghost use Rattle.text.specs.Text.{Put};
ghost use Rattle.listing.specs.Listing.{head_line, rect_line, rect_lines, end_line, refused_line, table_lines, listing_of};

use crate::cells::{put_bytes, put_cell, put_signed, put_three};
use layout::{Rect, Table};

/// The line of a header.
fn put_head(out: &mut [u8], t: &Table) -> usize
    requires { 126 ≤ length out.old }
    ensures put { Put out.old 0 (head_line t.now) out.new result }
    ensures upper_bound { result ≤ 126 }
{
    let a = put_three(out, 0, t.b as u64, t.q1 as u64, t.q2 as u64, b' ');
    put_three(out, a, t.q3 as u64, t.t as u64, t.w as u64, b'\n')
}

/// The loss figure of a rectangle in a table whose b and drops are within the limits.
fn loss_of(t: &Table, r: Rect) -> u64
    requires { (bits_good t.now.b ≡ true) × (drops_good t.now.b t.now.q1 t.now.q2 t.now.q3 ≡ true) }
    ensures { result ≡ loss_figure t.now r }
{
    limits::loss(*t, r).unwrap_or(0)
}

/// The line of rectangle k.
fn put_rect(out: &mut [u8], at: usize, t: &Table, k: usize) -> usize
    requires b_value { (bits_good t.now.b ≡ true) × (drops_good t.now.b t.now.q1 t.now.q2 t.now.q3 ≡ true) }
    requires k_bound { (k < 16) × (at + 148 ≤ length out.old) }
    ensures put { Put out.old at (rect_line t.now k) out.new result }
    ensures upper_bound { result ≤ at + 148 }
{
    let r = t.rects[k];
    let m = r.rows() as u64;
    let n = r.columns() as u64;
    let column = t.column_word(r) as u64;
    let window = t.window_word(r) as u64;
    let lost = loss_of(t, r);
    let a = put_three(out, at, k as u64, m, n, b' ');
    let a = put_three(out, a, column, window, lost, b' ');
    put_signed(out, a, r.weight, b'\n')
}

/// The lines of all rectangles.
fn put_rects(out: &mut [u8], at: usize, t: &Table) -> usize
    requires b_value { (bits_good t.now.b ≡ true) × (drops_good t.now.b t.now.q1 t.now.q2 t.now.q3 ≡ true) }
    requires count_bound { (t.now.count ≤ 16) × (at + 148 * t.now.count ≤ length out.old) }
    ensures put { Put out.old at (rect_lines t.now t.now.count) out.new result }
    ensures upper_bound { result ≤ at + 148 * t.now.count }
{
    let mut a = at;
    for k in 0..t.count {
        a = put_rect(out, a, t, k);
    }
    a
}

/// The last line: the number of rectangles and the delay.
fn put_end(out: &mut [u8], at: usize, t: &Table) -> usize
    requires { at + 46 ≤ length out.old }
    ensures { Put out.old at (end_line t.now) out.new result }
{
    let a = put_bytes(out, at, b"end ");
    let a = put_cell(out, a, t.count as u64, b' ');
    put_cell(out, a, t.delay() as u64, b'\n')
}

/// The line of a file that is refused.
fn put_refused(out: &mut [u8], number: u32) -> usize
    requires { 29 ≤ length out.old }
    ensures { Put out.old 0 (refused_line number) out.new result }
{
    let a = put_bytes(out, 0, b"refused ");
    put_cell(out, a, number as u64, b'\n')
}

/// The lines of a table.
fn put_table(out: &mut [u8], t: &Table) -> usize
    requires b_value { (bits_good t.now.b ≡ true) × (drops_good t.now.b t.now.q1 t.now.q2 t.now.q3 ≡ true) }
    requires count_bound { (t.now.count ≤ 16) × (4096 ≤ length out.old) }
    ensures { Put out.old 0 (table_lines t.now) out.new result }
{
    let a = put_head(out, t);
    let a = put_rects(out, a, t);
    put_end(out, a, t)
}

/// The listing of a file, from the start of out.
pub fn list(bytes: &[u8], out: &mut [u8]) -> usize
    requires { 4096 ≤ length out.old }
    ensures { Put out.old 0 (listing_of (load_of bytes.now)) out.new result }
{
    match table::load(bytes) {
        Err(refusal) => {
            let number = refusal.question.number();
            put_refused(out, number)
        }
        Ok(t) => put_table(out, &t),
    }
}
