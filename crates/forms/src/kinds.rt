//! The kind of a line, and whether it is of its form.
ghost use Rattle.std.specs.Prelude.{◌≡◌, ◌+◌, [], get_or};
ghost use Rattle.words.specs.Words.{words_of};
ghost use Rattle.forms.specs.Forms.{names, place_in, kind_of, kind_number, kind_said, forms, form, word_fits, fits};
ghost use Rattle.forms.specs.Faults.{fault_number};

use crate::TextFault;
use words::{Words, is_integer, is_number, word};

/// What a line says: a number or three of the header, or a rectangle.
#[derive(Clone, Copy, Debug, PartialEq, Eq)]
pub enum Kind {
    Bits,
    Drops,
    Shift,
    Word,
    Rectangle,
}

impl Kind {
    ghost use Rattle.words.specs.Words.{words_of};
    ghost use Rattle.forms.specs.Forms.{kind_of, kind_number, kind_said, forms};
    ghost use Rattle.forms.specs.Faults.{fault_number};

    /// The kind of a line; `None` where its first word is no kind's, and where it has none.
    pub fn of(line: &[u8]) -> Option<Kind>
        ensures { kind_said result ≡ kind_of (words_of line.now) }
    {
        named(word(line, 0))
    }

    /// The form of the kind's lines: N stands for a number without a sign, Z for an integer, any other word for itself.
    fn form(self) -> &'static [u8]
        ensures { result.now ≡ get_or forms (kind_number self) [] }
    {
        match self {
            Kind::Bits => b"bits N",
            Kind::Drops => b"drops N N N",
            Kind::Shift => b"shift N",
            Kind::Word => b"word N",
            Kind::Rectangle => b"rectangle lead Z Z trail Z Z weight Z",
        }
    }

    /// The fault of a line that is not of the kind's form.
    pub(crate) fn form_fault(self) -> TextFault
        ensures { fault_number result ≡ 102 + kind_number self }
    {
        match self {
            Kind::Bits => TextFault::BitsForm,
            Kind::Drops => TextFault::DropsForm,
            Kind::Shift => TextFault::ShiftForm,
            Kind::Word => TextFault::WordForm,
            Kind::Rectangle => TextFault::RectangleForm,
        }
    }
}

/// The kind that a word names.
fn named(w: &[u8]) -> Option<Kind>
    ensures { kind_said result ≡ place_in names w.now }
{
    // (P) tried: the arms of a match on these texts know nothing of the bytes
    if w == b"bits".as_slice() {
        Some(Kind::Bits)
    } else if w == b"drops".as_slice() {
        Some(Kind::Drops)
    } else if w == b"shift".as_slice() {
        Some(Kind::Shift)
    } else if w == b"word".as_slice() {
        Some(Kind::Word)
    } else if w == b"rectangle".as_slice() {
        Some(Kind::Rectangle)
    } else {
        None
    }
}

/// Whether a word is what a form's word stands for.
fn word_fits(mark: &[u8], w: &[u8]) -> bool
    ensures { result ≡ word_fits mark.now w.now }
{
    if mark == b"N".as_slice() {
        is_number(w)
    } else if mark == b"Z".as_slice() {
        is_integer(w)
    } else {
        mark == w
    }
}

/// Whether a line is of a form.
fn fits(form: &[u8], line: &[u8]) -> bool
    ensures { result ≡ fits (words_of form.now) (words_of line.now) }
{
    let mut words = Words(line);
    for mark in Words(form) {
        let Some(word) = words.next() else {
            return false;
        };
        if !word_fits(mark, word) {
            return false;
        }
    }
    words.next().is_none()
}

/// Whether a line is of the form of this kind.
pub(crate) fn of_form(kind: Kind, line: &[u8]) -> bool
    ensures { result ≡ fits (form (kind_number kind)) (words_of line.now) }
{
    fits(kind.form(), line)
}
