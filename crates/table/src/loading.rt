//! Loading a table from the bytes of its file.
ghost use Rattle.std.specs.Prelude.{◌≡◌};
ghost use Rattle.layout.specs.Contents.{no_rects, table_of};
ghost use Rattle.table.specs.Format.{fields_of, parse_of, load_of, read_most, said_of, handed_out, given};

use crate::reading::{field, header};
use layout::{Question, Rect, Refusal, Table};
use limits::{Header, value_good};

/// A table of a header's numbers and no rectangle.
#[tactic(auto, unfolding(arith::specs::Tab::tab))]
pub fn bare(header: Header) -> Table
    ensures { result ≡ table_of (no_rects header.b header.q1 header.q2 header.q3 header.t header.w) }
{
    let none = Rect {
        leadrow: 0,
        leadcol: 0,
        trailrow: 0,
        trailcol: 0,
        weight: 0,
    };
    Table {
        b: header.b,
        q1: header.q1,
        q2: header.q2,
        q3: header.q3,
        t: header.t,
        w: header.w,
        count: 0,
        rects: [none; 16],
    }
}

/// The table of a header and the fields after it.
fn fields(bytes: &[u8], header: Header) -> Result<Table, Refusal>
    ensures { given result ≡ handed_out (fields_of 16 bytes.now (no_rects header.b header.q1 header.q2 header.q3 header.t header.w)) }
{
    let mut table = bare(header);
    let mut rest = bytes;
    while !rest.is_empty() {
        let rect = field(16 - table.count, rest)?;
        table.rects[table.count] = rect;
        table.count += 1;
        rest = rest.split_at(9).1;
    }
    Refusal::unless(table.count >= 1, Question::Rectangle)?;
    Ok(table)
}

/// Reading: questions 1 to 9.
pub fn parse(bytes: &[u8]) -> Result<Table, Refusal>
    ensures { given result ≡ handed_out (parse_of bytes.now) }
{
    let header = header(bytes)?;
    fields(bytes.split_at(9).1, header)
}

/// Loading: questions 1 to 10.
pub fn load(bytes: &[u8]) -> Result<Table, Refusal>
    ensures { given result ≡ handed_out (load_of bytes.now) }
{
    let table = parse(bytes)?;
    Refusal::unless(value_good(table), Question::Extremes)?;
    Ok(table)
}

/// How many bytes of a file are enough to load it: whoever reads no more is answered as for the whole file.
pub fn read_most() -> usize
    ensures { result ≡ read_most }
{
    156
}

/// The check: 0 where the file is accepted, else the number of the refusal. C has the number alone (C: strip_table_check).
pub fn table_check(bytes: &[u8]) -> u32
    ensures { result ≡ (said_of (load_of bytes.now)).number }
{
    match load(bytes) {
        Ok(_) => 0,
        Err(refusal) => refusal.question.number(),
    }
}
