//! The parts of a header: white space, comments and numbers.
ghost use Rattle.std.specs.Prelude.{◌≡◌, false, ◌+◌, ◌-◌, ◌*◌, ◌≤◌, min, drop};
ghost use Rattle.pgm.specs.Grammar.{blank, line_end, digit, in_gap, in_comment, gap, digits, number};

/// Whether a byte is white space.
#[tactic(auto, unfolding(crate::specs::Grammar::blank))]
pub fn blank(b: u8) -> bool
    ensures { result ≡ blank b }
{
    (9..=13).contains(&b) || b == 32
}

/// Whether a byte ends a comment.
#[tactic(auto, unfolding(crate::specs::Grammar::line_end))]
fn line_end(b: u8) -> bool
    ensures { result ≡ line_end b }
{
    b == b'\n' || b == b'\r'
}

/// Whether a byte is a digit.
#[tactic(auto, unfolding(crate::specs::Grammar::digit))]
fn digit(b: u8) -> bool
    ensures { result ≡ digit b }
{
    b.is_ascii_digit()
}

/// Whether a byte is part of a gap.
#[tactic(auto, unfolding(crate::specs::Grammar::in_gap))]
pub fn in_gap(comment: bool, b: u8) -> bool
    ensures { result ≡ in_gap comment b }
{
    comment || blank(b) || b == b'#'
}

/// Whether a comment goes on after a byte of a gap.
#[tactic(auto, unfolding(crate::specs::Grammar::in_comment))]
fn in_comment(comment: bool, b: u8) -> bool
    ensures { result ≡ in_comment comment b }
{
    if comment { !line_end(b) } else { b == b'#' }
}

/// Where the gap ends that begins at this place.
pub fn gap(bytes: &[u8], at: usize) -> usize
    ensures { result ≡ at + gap false (drop at bytes.now) }
{
    let mut comment = false;
    for i in at..bytes.len() {
        let b = bytes[i];
        if !in_gap(comment, b) {
            return i;
        }
        comment = in_comment(comment, b);
    }
    at.max(bytes.len())
}

/// A number, or 65,536 where it is larger, and where its digits end.
#[derive(Clone, Copy, Debug, PartialEq, Eq)]
pub struct Digits {
    pub value: u32,
    pub end: usize,
}

/// 10·n + d, or 65,536 where it is larger.
fn next(n: u32, b: u8) -> u32
    requires { (n ≤ 65536) × (48 ≤ b) }
    ensures { result ≡ min 65536 (n * 10 + (b - 48)) }
{
    (n * 10 + u32::from(b - b'0')).min(65536)
}

/// The number that begins at this place.
pub fn number(bytes: &[u8], at: usize) -> Digits
    ensures value_value { result.value ≡ min 65536 (number 0 (drop at bytes.now)) }
    ensures end_value { result.end ≡ at + digits (drop at bytes.now) }
{
    let mut value = 0;
    for i in at..bytes.len() {
        let b = bytes[i];
        if !digit(b) {
            return Digits { value, end: i };
        }
        value = next(value, b);
    }
    Digits {
        value,
        end: at.max(bytes.len()),
    }
}
