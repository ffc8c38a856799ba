// Lines of a text.
ghost use Rattle.std.specs.Prelude.{◌≡◌, ◌+◌, ◌≤◌, length, drop};
ghost use Rattle.text.specs.Text.{put_text, put_end};
ghost use Rattle.text.specs.Ascii.{line_length, after_line, line, IsLine};

use crate::putting::put_bytes;

// Where the line ends that begins at this place.
pub fn line_end(text: &[u8], at: usize) -> usize
    ensures value { result ≡ at + line_length (drop at text.now) }
    ensures upper_bound { at ≤ length text.now → result ≤ length text.now }
{
    let mut i = at;
    while i < text.len() {
        if text[i] == b'\n' {
            return i;
        }
        i += 1;
    }
    i
}

// Where the line after it begins.
pub fn next_line(text: &[u8], at: usize) -> usize
    ensures text_value { drop result text.now ≡ after_line (drop at text.now) }
    ensures upper_bound { at ≤ length text.now → result ≤ length text.now }
{
    let end = line_end(text, at);
    if end < text.len() { end + 1 } else { end }
}

// Where a line stands in a text: from `start` up to `end`.
#[derive(Clone, Copy)]
pub struct Span {
    pub start: usize,
    pub end: usize,
}

// Line k of a text, counted from 0.
pub fn line(text: &[u8], k: usize) -> Span
    ensures { IsLine text.now k result.start result.end }
{
    let mut start = 0;
    let mut left = k;
    while 0 < left {
        start = next_line(text, start);
        left -= 1;
    }
    Span {
        start,
        end: line_end(text, start),
    }
}

// Puts line k of a text into a buffer.
pub fn put_line(out: &mut [u8], at: usize, text: &[u8], k: usize) -> usize
    ensures value { result ≡ put_end out.old at (line k text.now) }
    ensures out_after { out.new ≡ put_text out.old at (line k text.now) }
{
    let found = line(text, k);
    let start = found.start;
    let end = found.end;
    put_bytes(out, at, &text[start..end])
}
