//! Binary PGM pictures: the header of one that comes in, the samples of its rows, and the picture of 16 or of 8 bits or the decimal
//! text of filtered rows that go out.
//!
//!   header         width, height, maxval and length of a PGM header; or why the bytes are none
//!   decode         the samples of a row, and how many
//!   encode         a row of the 16-bit picture, two bytes a pixel, and how many pixels
//!   encode_levels  a row of levels, a byte each, and how many
//!   line           a row of pixels as decimal numbers, and the length of the text
//!   head           the header of the picture, and its length
//!   number         the number that begins at a place, 65,536 where it is larger, and where its digits end
#![tactic(auto)]

mod levels;
mod lexing;
mod parsing;
mod reading;
mod shades;
mod writing;

ghost use Rattle.std.specs.Prelude.{◌≡◌};
ghost use Rattle.pgm.specs.Text.{entry_name};

pub use levels::encode_levels;
pub use lexing::{Digits, number};
pub use parsing::header;
pub use reading::decode;
pub use shades::encode;
pub use writing::{head, line};

/// The numbers of a header, in their order.
#[derive(Clone, Copy, Debug, PartialEq, Eq)]
pub enum Entry {
    Width,
    Height,
    Maxval,
}

impl Entry {
    /// Its name.
    pub fn name(self) -> &'static str
        ensures { result.now ≡ entry_name self }
    {
        match self {
            Entry::Width => "width",
            Entry::Height => "height",
            Entry::Maxval => "maxval",
        }
    }
}

/// A whole header: its numbers, and where it ends and the samples begin.
#[derive(Clone, Copy, Debug, PartialEq, Eq)]
pub struct Opening {
    pub width: u32,
    pub height: u32,
    pub maxval: u32,
    pub end: usize,
}

/// Why the first bytes of a file are no whole header.
#[derive(Clone, Copy, Debug, PartialEq, Eq)]
pub enum NoHeader {
    /// they are the beginning of one
    More,
    /// they begin with no P5 and white space
    Foreign,
    /// this number does not begin at this byte
    Bad(Entry, usize),
    /// this number, which begins at this byte, is above 65,535
    Large(Entry, usize),
    /// it is no white space that stands at this byte, after the last number
    Unended(usize),
}

impl NoHeader {
    ghost use Rattle.pgm.specs.Grammar.{bad_of, large_of};

    /// Number k of a header does not begin at this byte: the width, the height, the maxval, and from 3 on the white space after them.
    #[tactic(auto, unfolding(crate::specs::Grammar::bad_of))]
    pub fn bad(k: u32, at: usize) -> NoHeader
        ensures { result ≡ bad_of k at }
    {
        match k {
            0 => NoHeader::Bad(Entry::Width, at),
            1 => NoHeader::Bad(Entry::Height, at),
            2 => NoHeader::Bad(Entry::Maxval, at),
            _ => NoHeader::Unended(at),
        }
    }

    /// Number k of a header, which begins at this byte, is above 65,535: the width, the height, and from 2 on the maxval.
    #[tactic(auto, unfolding(crate::specs::Grammar::large_of))]
    pub fn large(k: u32, at: usize) -> NoHeader
        ensures { result ≡ large_of k at }
    {
        match k {
            0 => NoHeader::Large(Entry::Width, at),
            1 => NoHeader::Large(Entry::Height, at),
            _ => NoHeader::Large(Entry::Maxval, at),
        }
    }
}
