//! The numbers of a line in the widths of a table.
ghost use Rattle.std.specs.Prelude.{◌≡◌, cond, [], get_or, min, ◌<◌, ◌≤ℤ◌, neg_ℤ, pos};
ghost use Rattle.words.specs.Words.{words_of, with_sign};
ghost use Rattle.forms.specs.Forms.{size_at, held_edge, held_weight, held_rect};

use layout::Rect;
use words::{Signed, number};

/// Number k of a header's line, or 255 where it is larger.
pub fn byte(line: &[u8], k: usize) -> u8
    requires { k < 8 }
    ensures { result ≡ min 255 (size_at (words_of line.now) k) }
{
    number(line, k + 1).size.min(255) as u8
}

/// A number, its size held at this one where it is larger.
#[tactic(auto, unfolding(words::specs::Words::with_sign))]
fn held(n: Signed, most: u16) -> i32
    ensures value { result ≡ with_sign n.minus (min most n.size) }
    ensures low { neg_ℤ (pos most) ≤ℤ result }
    ensures high { result ≤ℤ pos most }
{
    let size = i32::from(n.size.min(u32::from(most)) as u16);
    if n.minus { -size } else { size }
}

/// The largest size of a weight of 16 bits, with a - in front or without.
pub(crate) fn weight_most(minus: bool) -> u16
    ensures { result ≡ cond minus 32768 32767 }
{
    if minus { 32768 } else { 32767 }
}

/// Word k of a line as an edge.
fn edge(line: &[u8], k: usize) -> i8
    ensures { result ≡ held_edge (get_or (words_of line.now) k []) }
{
    held(number(line, k), 127) as i8
}

/// Word 8 of a line as a weight, the nearest of 16 bits where it does not fit.
fn weight(line: &[u8]) -> i16
    ensures { result ≡ held_weight (get_or (words_of line.now) 8 []) }
{
    let n = number(line, 8);
    held(n, weight_most(n.minus)) as i16
}

/// The rectangle of a line.
pub fn rect(line: &[u8]) -> Rect
    ensures { result ≡ held_rect (words_of line.now) }
{
    Rect {
        leadrow: edge(line, 2),
        leadcol: edge(line, 3),
        trailrow: edge(line, 5),
        trailcol: edge(line, 6),
        weight: weight(line),
    }
}
