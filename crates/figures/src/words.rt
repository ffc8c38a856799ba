//! The bits of the sums.
ghost use Rattle.std.specs.Prelude.{◌≡◌, ◌≤◌};
ghost use Rattle.figures.specs.Measured.{widest_column, widest_window, sums_bits};

use layout::Table;

/// The widest words of a table, and the bits of all its sums.
#[derive(Clone, Copy, Debug, PartialEq, Eq)]
pub struct Words {
    pub column: u32,
    pub window: u32,
    pub sums: u64,
}

/// The words of a table's rectangles, one after the other.
pub fn word_bits(t: &Table, width: u64) -> Words
    requires { (t.now.count ≤ 16) × (width ≤ 1024) }
    ensures { (result.column ≡ widest_column t.now) × (result.window ≡ widest_window t.now) × (result.sums ≡ sums_bits t.now width) }
{
    let mut words = Words {
        column: 0,
        window: 0,
        sums: 0,
    };
    for &r in t.rects() {
        let column = t.column_word(r);
        let window = t.window_word(r);
        words.column = words.column.max(column);
        words.window = words.window.max(window);
        words.sums += width * u64::from(column) + u64::from(window);
    }
    words
}
