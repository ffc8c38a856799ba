//! Text that goes out: the header of a picture, and a row of pixels in decimal.
ghost use Rattle.std.specs.Prelude.{◌≡◌, ◌++◌, ◌*◌, ◌≤◌, length, drop};
ghost use Rattle.text.specs.Text.{Put};
ghost use Rattle.pgm.specs.Text.{head_text, after, line_text, line_count, line_out};

use text::{put_bytes, put_cell, put_signed};

/// Puts the header of a picture at the start of out, and answers its length.
pub fn head(width: u32, height: u32, maxval: u32, out: &mut [u8; 66]) -> usize
    ensures value { result ≡ length (head_text width height maxval) }
    ensures out_after { out.new ≡ head_text width height maxval ++ drop (length (head_text width height maxval)) out.old }
    ensures upper_bound { result ≤ length out.new }
{
    let a = put_bytes(out, 0, b"P5\n");
    let a = put_cell(out, a, width as u64, b' ');
    let a = put_cell(out, a, height as u64, b'\n');
    put_cell(out, a, maxval as u64, b'\n')
}

/// The byte after pixel k of n, counted from 1.
#[tactic(auto, unfolding(crate::specs::Text::after))]
fn after(k: usize, n: usize) -> u8
    ensures { result ≡ after k n }
{
    if k == n { b'\n' } else { b' ' }
}

/// A line for which there is room.
fn put_line(pixels: &[i32], out: &mut [u8]) -> usize
    requires { 22 * length pixels.now ≤ length out.old }
    ensures { Put out.old 0 (line_text pixels.now) out.new result }
{
    let mut at = 0;
    for (k, &pixel) in pixels.iter().enumerate() {
        at = put_signed(out, at, pixel, after(k + 1, pixels.len()));
    }
    at
}

/// Puts a row of pixels as a line of decimal numbers at the start of out, and answers its length; nothing and 0 where out has
/// not 22 bytes for each pixel.
#[tactic(auto, unfolding(crate::specs::Text::line_count, crate::specs::Text::line_out))]
pub fn line(pixels: &[i32], out: &mut [u8]) -> usize
    ensures value { result ≡ line_count pixels.now (length out.old) }
    ensures out_after { out.new ≡ line_out pixels.now out.old }
    ensures upper_bound { result ≤ length out.old }
{
    if out.len() / 22 < pixels.len() {
        return 0;
    }
    put_line(pixels, out)
}
