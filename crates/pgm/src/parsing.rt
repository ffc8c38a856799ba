//! The header of a PGM.
ghost use Rattle.std.specs.Prelude.{◌≡◌, ◌≤◌, length};
ghost use Rattle.pgm.specs.Grammar.{field, ended, magic, header_of};

use crate::lexing::{blank, gap, in_gap, number};
use crate::{Entry, NoHeader, Opening};

/// A number of the header, from this place on, with where it ends.
#[tactic(auto, unfolding(crate::specs::Grammar::field, crate::specs::Grammar::begin, crate::specs::Grammar::end, crate::specs::Grammar::value))]
fn field(entry: Entry, bytes: &[u8], at: usize) -> Result<(u32, usize), NoHeader>
    ensures { result ≡ field entry bytes.now at }
{
    let begin = gap(bytes, at);
    if bytes.len() <= begin {
        return Err(NoHeader::More);
    }
    let n = number(bytes, begin);
    if n.end == begin {
        return Err(NoHeader::Bad(entry, begin));
    }
    if n.value > 65535 {
        return Err(NoHeader::Large(entry, begin));
    }
    Ok((n.value, n.end))
}

/// The white space that ends the header.
#[tactic(auto, unfolding(crate::specs::Grammar::ended))]
fn ended(bytes: &[u8], width: u32, height: u32, maxval: u32, at: usize) -> Result<Opening, NoHeader>
    ensures { result ≡ ended bytes.now width height maxval at }
{
    if bytes.len() <= at {
        return Err(NoHeader::More);
    }
    if !blank(bytes[at]) {
        return Err(NoHeader::Unended(at));
    }
    Ok(Opening {
        width,
        height,
        maxval,
        end: at + 1,
    })
}

/// Whether the bytes begin with P5 and a gap.
#[tactic(auto, unfolding(crate::specs::Grammar::magic))]
fn magic(bytes: &[u8]) -> bool
    requires { 3 ≤ length bytes.now }
    ensures { result ≡ magic bytes.now }
{
    bytes[0] == b'P' && bytes[1] == b'5' && in_gap(false, bytes[2])
}

/// What the first bytes of a file come to: a whole header, or why they are none.
#[tactic(auto, unfolding(crate::specs::Grammar::header_of))]
pub fn header(bytes: &[u8]) -> Result<Opening, NoHeader>
    ensures { result ≡ header_of bytes.now }
{
    if bytes.len() < 3 {
        return Err(NoHeader::More);
    }
    if !magic(bytes) {
        return Err(NoHeader::Foreign);
    }
    let (width, at) = field(Entry::Width, bytes, 2)?;
    let (height, at) = field(Entry::Height, bytes, at)?;
    let (maxval, at) = field(Entry::Maxval, bytes, at)?;
    ended(bytes, width, height, maxval, at)
}
