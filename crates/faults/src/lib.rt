//! What is said of an input that is refused, by its number: 1 to 25 are the rules' refusals, 101 to 113 the faults of a table's text.
//!
//!   put_fault  the message: the name of the input, the line at fault, and what the number means
#![tactic(auto)]

ghost use Rattle.std.specs.Prelude.{◌≡◌, ◌++◌, ◌+◌, ◌-◌, ◌≤◌, length, take};
ghost use Rattle.text.specs.Text.{Put, put_text, put_end};
ghost use Rattle.text.specs.Ascii.{line, lines};
ghost use Rattle.faults.specs.Faults.{own_sentences, numbered, place_text, meaning_text, rest_text, fault_text};

use refusals::put_refusal;
use text::{put_bytes, put_cell};

/// A word, a number, a colon and a space; behind the word 22 bytes at most.
fn put_numbered(out: &mut [u8], at: usize, word: &[u8], n: u32) -> usize
    requires { at + length word.now + 22 ≤ length out.old }
    ensures put { Put out.old at (numbered word.now n) out.new result }
    ensures upper_bound { result ≤ at + length word.now + 22 }
{
    let a = put_bytes(out, at, word);
    let a = put_cell(out, a, u64::from(n), b':');
    put_bytes(out, a, b" ")
}

/// The line at fault, 27 bytes at most.
fn put_place(out: &mut [u8], at: usize, place: u32) -> usize
    requires { at + 27 ≤ length out.old }
    ensures put { Put out.old at (place_text place) out.new result }
    ensures upper_bound { result ≤ at + 27 }
{
    if place == 0 {
        return at;
    }
    put_numbered(out, at, b"line ", place)
}

/// The sentence of a text's own fault; nothing for 100, which is no fault, and for a number that no text gives.
#[tactic(auto, unfolding(crate::specs::Faults::own_sentences, text::specs::Ascii::line, text::specs::Ascii::lines, text::specs::Ascii::ascii, text::specs::Ascii::after_line, text::specs::Ascii::line_length))]
fn own_sentence(number: u32) -> &'static str
    requires { 100 ≤ number }
    ensures { result.now ≡ line (number - 100) (lines own_sentences) }
{
    match number {
        101 => "the line begins with none of bits, drops, shift, word, rectangle",
        102 => "the line is not of the form: bits B",
        103 => "the line is not of the form: drops Q1 Q2 Q3",
        104 => "the line is not of the form: shift T",
        105 => "the line is not of the form: word W",
        106 =>
            "the line is not of the form: rectangle lead ROW COLUMN trail ROW COLUMN weight WEIGHT",
        107 => "the weight is not from -32768 to 32767",
        108 => "an earlier line has said this",
        109 => "there is no line that begins with bits",
        110 => "there is no line that begins with drops",
        111 => "there is no line that begins with shift",
        112 => "there is no line that begins with word",
        113 => "the text is longer than 65535 bytes",
        _ => "",
    }
}

/// The sentence of a text's own fault, 100 bytes at most.
fn put_own(out: &mut [u8], at: usize, number: u32) -> usize
    requires { (100 ≤ number) × (at + 100 ≤ length out.old) }
    ensures put { Put out.old at (line (number - 100) (lines own_sentences)) out.new result }
    ensures upper_bound { result ≤ at + 100 }
{
    put_bytes(out, at, own_sentence(number).as_bytes())
}

/// What a number means, 131 bytes at most.
fn put_meaning(out: &mut [u8], at: usize, number: u32) -> usize
    requires { at + 131 ≤ length out.old }
    ensures put { Put out.old at (meaning_text number) out.new result }
    ensures upper_bound { result ≤ at + 131 }
{
    if number >= 100 {
        return put_own(out, at, number);
    }
    let a = put_numbered(out, at, b"refused, ", number);
    put_refusal(out, a, number)
}

/// What follows the name.
fn put_rest(out: &mut [u8; 256], place: u32, number: u32) -> usize
    ensures { Put out.old 0 (rest_text place number) out.new result }
{
    let a = put_bytes(out, 0, b": ");
    let a = put_place(out, a, place);
    let a = put_meaning(out, a, number);
    put_bytes(out, a, b"\n")
}

/// Two texts at the start of a buffer, or nothing where there is no room for both.
fn put_both(out: &mut [u8], one: &[u8], other: &[u8]) -> usize
    ensures value { result ≡ put_end out.old 0 (one.now ++ other.now) }
    ensures out_after { out.new ≡ put_text out.old 0 (one.now ++ other.now) }
    ensures upper_bound { (result ≤ length out.new) × (result ≡ length (take result out.new)) }
{
    if out.len() < one.len() {
        return 0;
    }
    if out.len() - one.len() < other.len() {
        return 0;
    }
    let a = put_bytes(out, 0, one);
    put_bytes(out, a, other)
}

/// Puts the message at the start of a buffer, and answers its length; nothing where there is no room for it. The place is the line
/// at fault, counted from 1, or 0 where no line is to blame.
pub fn put_fault(out: &mut [u8], name: &[u8], place: u32, number: u32) -> usize
    ensures value { result ≡ put_end out.old 0 (fault_text name.now place number) }
    ensures out_after { out.new ≡ put_text out.old 0 (fault_text name.now place number) }
    ensures upper_bound { (result ≤ length out.new) × (result ≡ length (take result out.new)) }
{
    let mut rest = [0u8; 256];
    let n = put_rest(&mut rest, place, number);
    put_both(out, name, &rest[..n])
}

#[cfg(test)]
mod tests {
    use super::*;

    #[test]
    fn a_message_is_made(rt: HostRuntime) {
        let mut text = [0u8; 256];
        let end = put_fault(&mut text, b"a.table", 3, 6);
        assert_eq!(rt;
            &text[..end],
            b"a.table: line 3: refused, 6: there are more than 16 rectangles\n".as_slice()
        );
    }
}
