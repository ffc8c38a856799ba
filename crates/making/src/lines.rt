//! The lines of a text with their places.
ghost use Rattle.std.specs.Prelude.{◌≡◌, ◌+◌, ◌≤◌, length};
ghost use Rattle.words.specs.Words.{lines_of};

use forms::Kind;
use words::Lines;

/// A line: its place in the text, counted from 1, and its bytes.
#[derive(Clone, Copy, Debug)]
pub struct Line<'a> {
    pub place: u32,
    pub bytes: &'a [u8],
}

/// The lines of a text, each with its place.
#[derive(Clone, Copy, Debug)]
pub struct Placed<'a> {
    rest: Lines<'a>,
    place: u32,
    /// so that the places fit
    ghost few: { place + length (lines_of rest.0.now) ≤ 65536 },
}

impl<'a> Placed<'a> {
    /// The lines of a text from its first on.
    pub fn of(text: &'a [u8]) -> Placed<'a>
        requires { length text.now ≤ 65535 }
        ensures rest { result.rest.0.now ≡ text.now }
        ensures place { result.place ≡ 1 }
    {
        Placed {
            rest: Lines(text),
            place: 1,
        }
    }
}

impl<'a> Iterator for Placed<'a> {
    ghost use Rattle.std.specs.Iterator.{item_count};
    ghost use Rattle.words.specs.Words.{lines_of};
    ghost use Rattle.making.specs.Steps.{YieldsLine};

    type Item = Line<'a>;

    ghost next_gives = { YieldsLine };

    ghost remaining = { item_count (λ s. lines_of s.rest.0.now) };

    fn next(&mut self) -> Option<Line<'a>> {
        let place = self.place;
        let mut rest = self.rest;
        let bytes = rest.next()?;
        *self = Placed {
            rest,
            place: place + 1,
        };
        Some(Line { place, bytes })
    }
}

/// The lines of a kind, each with its place.
#[derive(Clone, Copy, Debug)]
pub struct OfKind<'a> {
    lines: Placed<'a>,
    kind: Kind,
}

impl<'a> OfKind<'a> {
    ghost use Rattle.making.specs.Making.{lines_with};
    ghost use Rattle.forms.specs.Forms.{kind_number};
    ghost use Rattle.making.specs.Steps.{lines_left};

    /// The lines of a text that are of a kind.
    pub fn of(text: &'a [u8], kind: Kind) -> OfKind<'a>
        requires { length text.now ≤ 65535 }
        ensures left { lines_left result ≡ lines_with (kind_number kind) text.now }
    {
        OfKind {
            lines: Placed::of(text),
            kind,
        }
    }
}

impl<'a> Iterator for OfKind<'a> {
    ghost use Rattle.std.specs.Iterator.{YieldsFirstBy, item_count};
    ghost use Rattle.making.specs.Steps.{line_said, lines_left};

    type Item = Line<'a>;

    ghost next_gives = { YieldsFirstBy line_said lines_left };

    ghost remaining = { item_count lines_left };

    fn next(&mut self) -> Option<Line<'a>> {
        while let Some(line) = self.lines.next() {
            if Kind::of(line.bytes) == Some(self.kind) {
                return Some(line);
            }
        }
        None
    }
}
