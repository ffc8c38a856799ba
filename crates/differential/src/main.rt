//! A filter written apart from the engine, run beside it on many scans, and a ranked filter in the same way: prints what was
//! counted and a checksum of the pixels of each.
#![tactic(auto)]

ghost use Rattle.std.specs.Prelude.{◌≤◌};

mod chance;
mod counts;
mod filter;
mod given;
mod ranks;
mod runs;
mod tables;

use chance::{draw, mixed, next};
use counts::{Counts, count};
use filter::Filter;
use given::{Given, mended};
use layout::Table;
use ranks::{Drawn, Ranked};
use std::io::Write;

/// How many tables are drawn, and how many ranked windows.
const TABLES: u64 = 320;

const RANKS: u64 = 120;

/// A sample below 2^b, any or the largest.
fn level(x: u64, bright: u64, b: u8) -> u16 {
    let s = ((x >> 20) | bright) % 65536;
    ((s >> (16 - b % 16)) % 65536) as u16
}

/// A sample as the sensor sends it: 65,535 where this element failed, as `dead` of sixteen do.
fn sent(x: u64, dead: u64, sample: u16) -> u16 {
    if (x >> 3) % 16 < dead { 65535 } else { sample }
}

/// How many elements of sixteen are dead: none for half of the seeds, else 1, 4, 9 or all.
fn dead_of(seed: u64) -> u64 {
    match draw(seed, 206, 7) {
        4 => 1,
        5 => 4,
        6 => 9,
        7 => 16,
        _ => 0,
    }
}

/// Samples below 2^b from a seed, for a sixth of the seeds the largest, with dead elements among them.
fn samples(seed: u64, b: u8) -> [u16; 65536] {
    let mut samples = [0u16; 65536];
    let bright = draw(seed, 205, 5) / 5 * 65535;
    let dead = dead_of(seed);
    let mut x = seed;
    for sample in &mut samples {
        x = next(x);
        *sample = sent(x, dead, level(x, bright, b));
    }
    samples
}

/// L, from 1 to 1,024, most often small.
fn width_of(seed: u64) -> usize
    ensures { (1 ≤ result) × (result ≤ 1024) }
{
    let x = draw(seed, 200, 2047) >> draw(seed, 201, 10);
    1 + x.min(1023) as usize
}

/// H, from none to 40, most often few.
fn height_of(seed: u64) -> usize
    ensures { result ≤ 64 }
{
    draw(seed, 203, draw(seed, 202, 40)) as usize
}

/// A table with a scan of its own.
fn filtered(n: &mut Counts, table: &Table, seed: u64) {
    let samples = samples(seed, table.b);
    let width = width_of(seed);
    let given = Given {
        sent: &samples,
        mended: &mended(&samples, width),
        width,
        height: height_of(seed),
    };
    let delay = filter::delay(table);
    n.scan(given.height, delay);
    count(&mut n.drops, filter::has_drops(table));
    count(&mut n.behind, filter::first_behind(table));
    n.dead(&samples[..width * given.height]);
    let mut kept = [7u16; 32768];
    let mut sums = [9u32; 16384];
    let scan = scan::start(*table, width, &mut kept, &mut sums).scan;
    let mut beside = Filter {
        table,
        scan,
        samples: &mut kept,
        sums: &mut sums,
    };
    runs::run(n, &mut beside, given, delay);
}

/// The table of a seed.
fn one(n: &mut Counts, seed: u64) {
    let file = tables::file(seed);
    match table::load(&file[..9 + 9 * tables::count(seed)]) {
        Ok(table) => filtered(n, &table, seed),
        Err(_) => count(&mut n.refused, true),
    }
}

/// A ranked window with a scan of its own.
fn ranked(n: &mut Counts, seed: u64) {
    let b = ranks::bits(seed);
    let drawn = Drawn::from_seed(seed);
    let window = drawn.window();
    let rank = drawn.rank(seed);
    let samples = samples(seed, b);
    let width = width_of(seed);
    let given = Given {
        sent: &samples,
        mended: &mended(&samples, width),
        width,
        height: height_of(seed),
    };
    let delay = drawn.delay();
    n.scan(given.height, delay);
    count(&mut n.behind, window.leadrow < 0);
    n.dead(&samples[..width * given.height]);
    let mut kept = [7u16; 32768];
    let mut counts = [9u16; 262144];
    let mut windows = [5u16; 256];
    let scan = rank::start(b, window, rank, width, &mut kept, &mut counts, &mut windows).scan;
    let mut beside = Ranked {
        window,
        rank,
        scan,
        samples: &mut kept,
        counts: &mut counts,
        windows: &mut windows,
    };
    runs::run(n, &mut beside, given, delay);
}

fn main(rt: HostRuntime) {
    let mut output = rt.stdout();
    let mut filters = Counts::default();
    for i in 0..TABLES {
        one(&mut filters, mixed(i ^ 88172645463325252));
    }
    filters.put(&mut output);
    let mut ranks = Counts::default();
    for i in 0..RANKS {
        ranked(&mut ranks, mixed(i ^ 362436069362436069));
    }
    let _ = output.write_all(b"ranked windows\n");
    ranks.put(&mut output);
}
