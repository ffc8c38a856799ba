//! What can be wrong with a table's text itself.
ghost use Rattle.std.specs.Prelude.{◌≡◌};

/// A fault of the text's own, with its number.
#[derive(Clone, Copy, Debug, PartialEq, Eq)]
pub enum TextFault {
    /// the line begins with none of bits, drops, shift, word, rectangle
    Unknown = 101,
    /// the line is not of the form: bits B
    BitsForm = 102,
    /// the line is not of the form: drops Q1 Q2 Q3
    DropsForm = 103,
    /// the line is not of the form: shift T
    ShiftForm = 104,
    /// the line is not of the form: word W
    WordForm = 105,
    /// the line is not of the form: rectangle lead ROW COLUMN trail ROW COLUMN weight WEIGHT
    RectangleForm = 106,
    /// the weight is not from -32,768 to 32,767
    Weight = 107,
    /// an earlier line has said this
    Twice = 108,
    /// there is no line that begins with bits
    NoBits = 109,
    /// there is no line that begins with drops
    NoDrops = 110,
    /// there is no line that begins with shift
    NoShift = 111,
    /// there is no line that begins with word
    NoWord = 112,
    /// the text is longer than 65,535 bytes
    TooLong = 113,
}

impl TextFault {
    ghost use Rattle.forms.specs.Faults.{fault_number};

    /// The number of the fault, 101 to 113.
    pub fn number(self) -> u32
        ensures { result ≡ fault_number self }
    {
        self as u32
    }
}

/// A fault of a text, and the line to blame, counted from 1, or 0 for none.
#[derive(Clone, Copy, Debug, PartialEq, Eq)]
pub struct TextRefusal {
    pub fault: TextFault,
    pub place: u32,
}

impl TextRefusal {
    ghost use Rattle.forms.specs.Faults.{fault_asked};

    /// Asks a question that holds or not; `?` ends the call where the answer is no.
    pub fn unless(holds: bool, fault: TextFault, place: u32) -> Result<(), TextRefusal>
        ensures { result ≡ fault_asked fault holds place }
    {
        if holds {
            Ok(())
        } else {
            Err(TextRefusal { fault, place })
        }
    }
}
