//! The words for a refusal's number, once for every program.
//!
//!   sentence     what a number means
//!   put_refusal  the same, put into a buffer
#![tactic(auto)]

ghost use Rattle.std.specs.Prelude.{◌≡◌};
ghost use Rattle.text.specs.Text.{put_text, put_end};
ghost use Rattle.refusals.specs.Sentences.{refusal_text};

use text::put_bytes;

/// What a number means: its sentence; nothing for 0, which is no refusal, and for a number that no call gives.
#[tactic(auto, unfolding(crate::specs::Sentences::refusal_text, crate::specs::Sentences::sentences, text::specs::Ascii::line, text::specs::Ascii::lines, text::specs::Ascii::ascii, text::specs::Ascii::after_line, text::specs::Ascii::line_length))]
pub fn sentence(number: u32) -> &'static str
    ensures { result.now ≡ refusal_text number }
{
    match number {
        1 => "the file does not begin with the header 01 00 06",
        2 => "a field is cut off",
        3 => "b is not from 1 to 12",
        4 => "q1 is not below b, or q2 or q3 is above 8",
        5 => "t is above 31, or w is not from 8 to 32",
        6 => "there are more than 16 rectangles",
        7 => "a field does not begin with 02 00 06",
        8 =>
            "a lead is not from -15 to 15, a trail not from -16 to 14, or a trail is not below its lead",
        9 => "there is no rectangle",
        10 => "the largest or the smallest pixel does not fit w bits",
        11 => "the table is not one that loading accepts",
        12 => "the width is not from 1 to 1024",
        13 => "a store or an output is too short",
        14 => "the numbers of the scan do not agree",
        15 => "the scan is closed, or at a closing step it is not",
        16 => "65535 rows are in",
        17 => "the number of samples does not go with the width",
        18 => "a sample is above 2^b - 1 and not 65535, the mark of a dead one",
        19 =>
            "a column sum, a count or a pixel cannot be: the stores or the scan are not those of the last call",
        20 => "the row or the column is outside the scan",
        21 => "samples handed over together are no whole rows",
        22 => "the rank is 0 or above the number of samples that the window covers",
        23 => "b is above 8, the most that a ranked window takes",
        24 => "the two tables differ in b, t or w",
        25 => "one of the two tables drops bits",
        _ => "",
    }
}

/// Puts what a number means into a buffer, from a place on, and answers the place past it; nothing where there is no room.
pub fn put_refusal(out: &mut [u8], at: usize, number: u32) -> usize
    ensures value { result ≡ put_end out.old at (refusal_text number) }
    ensures out_after { out.new ≡ put_text out.old at (refusal_text number) }
{
    put_bytes(out, at, sentence(number).as_bytes())
}
