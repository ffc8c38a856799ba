//! The weights at an offset.
ghost use Rattle.std.specs.Prelude.{◌≡◌, ◌<◌};
ghost use Rattle.sametable.specs.Comparison.{place_of, weight_by, InGrid};

use layout::Table;

/// The place of an offset among the 31.
fn place(o: i32) -> u32
    requires { InGrid o }
    ensures { (result ≡ place_of o) × (result < 31) }
{
    (o + 15) as u32
}

/// A table's weight at an offset.
pub fn weight(t: &Table, row: i32, col: i32) -> i32
    requires in_grid { InGrid row × InGrid col }
    ensures { result ≡ weight_by t.now row col }
{
    let e = grid::entry(t, place(row), place(col));
    (e.high as i64 - e.low as i64) as i32
}
