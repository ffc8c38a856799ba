//! The lines of a table's choices.
ghost use Rattle.std.specs.Prelude.{◌≡◌, ℕ, ◌+◌, ◌*◌, ◌≤◌, ◌<◌, false, length, get_or};
ghost use Rattle.choices.specs.Choices.{listed};
ghost use Rattle.text.specs.Text.{Put};
ghost use Rattle.choicetext.specs.Lines.{choice_line, choice_text, choice_lines, choices_text};

use crate::cells::{put_bytes, put_cell, put_less, put_three};
use choices::{mark, with_drops};
use figures::{Figures, measure};
use layout::Table;

/// The line of choice i, 169 bytes at most.
fn put_line(out: &mut [u8], at: usize, i: usize, f: Figures) -> usize
    requires { at + 169 ≤ length out.old }
    ensures put { Put out.old at (choice_line i f) out.new result }
    ensures upper_bound { result ≤ at + 169 }
{
    let a = put_three(out, at, (i / 81) as u64, (i / 9 % 9) as u64, (i % 9) as u64);
    let a = put_three(out, a, f.column as u64, f.window as u64, f.sums);
    let a = put_less(out, a, f.below);
    put_cell(out, a, f.above, b'\n')
}

/// The line of a choice that is listed, where both its bounds are within most.
fn put_choice(
    out: &mut [u8],
    at: usize,
    t: &Table,
    width: usize,
    most: u64,
    i: usize,
    is_listed: bool,
) -> usize
    requires i_bound { (i < 972) × (is_listed ≡ listed t.now width i) }
    requires at_in_bounds { at + 169 ≤ length out.old }
    ensures put { Put out.old at (choice_text t.now width most i) out.new result }
    ensures upper_bound { result ≤ at + 169 }
{
    if !is_listed {
        return at;
    }
    let Some(f) = measure(&with_drops(t, i), width) else {
        return at;
    };
    if most < f.below {
        return at;
    }
    if most < f.above {
        return at;
    }
    put_line(out, at, i, f)
}

/// The lines of the first n choices.
fn put_choices(
    out: &mut [u8],
    at: usize,
    t: &Table,
    width: usize,
    most: u64,
    marks: &[bool],
    n: usize,
) -> usize
    requires n_bound { (n ≤ 972) × (n ≤ length marks.now) × (at + 169 * n ≤ length out.old) }
    requires by_index { (i : ℕ) → i < n → get_or marks.now i false ≡ listed t.now width i }
    ensures { Put out.old at (choice_lines t.now width most n) out.new result }
{
    let mut a = at;
    for i in 0..n {
        a = put_choice(out, a, t, width, most, i, marks[i]);
    }
    a
}

/// The text of a table at a width, with the choices whose bounds are within most, from the start of out.
pub fn list(t: Table, width: usize, most: u64, out: &mut [u8]) -> usize
    requires { 165000 ≤ length out.old }
    ensures { Put out.old 0 (choices_text t width most) out.new result }
{
    let mut marks = [false; 972];
    let n = mark(&t, width, &mut marks);
    let a = put_bytes(out, 0, b"q1 q2 q3 column window sums low high\n");
    put_choices(out, a, &t, width, most, &marks, n)
}
