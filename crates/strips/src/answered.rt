//! Answers in words.
use layout::{Answer, Closing, Refusal};
use std::io::Write;

pub fn put<W: Write>(output: &mut W, what: &[u8]) {
    let _ = output.write_all(what);
}

/// Words and the number after them.
fn put_number<W: Write>(output: &mut W, words: &[u8], number: u32) {
    put(output, words);
    let _ = write!(output, "{number}");
}

fn put_refused<W: Write>(output: &mut W, number: u32, place: u32) {
    put_number(output, b" = refused ", number);
    put_number(output, b" ", place);
}

/// A pixel: a space, its sign where it is negative, and its size.
fn put_pixel<W: Write>(output: &mut W, pixel: i32) {
    let before: &[u8] = if pixel < 0 { b" -" } else { b" " };
    put_number(output, before, pixel.unsigned_abs());
}

/// A filtered row: its number, and the pixels at the start of the output.
fn put_row<W: Write>(output: &mut W, number: u32, pixels: &[i32], width: usize) {
    put_number(output, b" = row ", number);
    put(output, b":");
    for &pixel in &pixels[..width.min(pixels.len())] {
        put_pixel(output, pixel);
    }
}

pub fn verdict<W: Write>(output: &mut W, v: Result<(), Refusal>) {
    match v {
        Ok(()) => put(output, b" = accepted"),
        Err(refusal) => put_refused(output, refusal.question.number(), refusal.place),
    }
}

/// A number that stood in a store.
pub fn stood<W: Write>(output: &mut W, number: u16) {
    put_number(output, b" = ", u32::from(number));
}

/// The number of the table check.
pub fn check<W: Write>(output: &mut W, number: u32) {
    put_number(output, b", check ", number);
}

pub fn found<W: Write>(output: &mut W, pixel: Result<i32, Refusal>) {
    match pixel {
        Ok(z) => {
            put(output, b" =");
            put_pixel(output, z);
        }
        Err(refusal) => put_refused(output, refusal.question.number(), refusal.place),
    }
}

/// The answer to a row, with the pixels that came out.
pub fn row<W: Write>(output: &mut W, a: Answer, width: usize, out: &[i32]) {
    match a {
        Answer::Row(number) => put_row(output, number, out, width),
        Answer::Waiting => put(output, b" = waiting"),
        Answer::Refused(number, place) => put_refused(output, number, place),
    }
}

/// The answer to a closing step, with the pixels that came out.
pub fn step<W: Write>(output: &mut W, a: Closing, width: usize, out: &[i32]) {
    match a {
        Closing::Row(number) => put_row(output, number, out, width),
        Closing::Waiting => put(output, b" = waiting"),
        Closing::Done => put(output, b" = done"),
        Closing::Refused(number, place) => put_refused(output, number, place),
    }
}
