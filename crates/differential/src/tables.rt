//! Table files, drawn from a seed. A sixteenth of them is at the limits.
ghost use Rattle.std.specs.Prelude.{◌≤◌, ◌<◌};

use crate::chance::{draw, pick};

/// The low byte of a number.
fn byte(x: u64) -> u8 {
    (x % 256) as u8
}

/// The rectangles, 1 to 16.
pub fn count(seed: u64) -> usize
    ensures { result ≤ 16 }
{
    (1 + pick(seed, 12, 15, 15)) as usize
}

/// A drop of at most `most`; none for half of the tables.
fn drop_of(seed: u64, key: u64, most: u64) -> u64 {
    if draw(seed, 1, 1) == 0 {
        return 0;
    }
    pick(seed, key, most, most)
}

/// The field of the header: b and the drops, t and w.
fn header(seed: u64) -> [u8; 9] {
    let x = pick(seed, 5, 11, 11);
    [
        1,
        0,
        6,
        byte(1 + x),
        byte(drop_of(seed, 6, x)),
        byte(drop_of(seed, 7, 8)),
        byte(drop_of(seed, 8, 8)),
        byte(pick(seed, 9, 20, 10)),
        byte(24 + pick(seed, 10, 8, 8)),
    ]
}

/// A lead, from -15 to 15, and a trail below it, from -16 on, as bytes.
fn edges(seed: u64, key: u64) -> (u8, u8) {
    let lead = pick(seed, key, 30, 30);
    (byte(241 + lead), byte(240 + pick(seed, key ^ 64, lead, 0)))
}

/// A weight of 16 bits as a word: any, or from -9 to 9, or one of the two farthest.
fn weight(seed: u64, key: u64) -> u64 {
    if seed % 16 == 0 {
        return 32767 + draw(seed, key, 1);
    }
    if draw(seed, 2, 1) == 0 {
        return 65527 + draw(seed, key, 18);
    }
    draw(seed, key, 65535)
}

/// The field of rectangle k.
fn rectangle(seed: u64, k: u64) -> [u8; 9] {
    let (lead_row, trail_row) = edges(seed, k ^ 128);
    let (lead_col, trail_col) = edges(seed, k ^ 256);
    let weight = weight(seed, k ^ 512);
    [
        2,
        0,
        6,
        lead_row,
        lead_col,
        trail_row,
        trail_col,
        byte(weight / 256),
        byte(weight),
    ]
}

/// A table file with sixteen rectangles, of which the first are lent to the loader.
pub fn file(seed: u64) -> [u8; 153] {
    let mut file = [0u8; 153];
    file[..9].copy_from_slice(&header(seed));
    for k in 0..16 {
        let at = 9 + 9 * k;
        file[at..at + 9].copy_from_slice(&rectangle(seed, k as u64));
    }
    file
}
