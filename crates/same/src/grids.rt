//! The weight grids of two tables, offset by offset: top row first, left to right.
ghost use Rattle.std.specs.Prelude.{◌≡◌, ◌<◌, unwrap_or, IfSome};
ghost use Rattle.same.specs.Same.{alike_at, first_unlike};

use grid::entry;
use layout::Table;

/// Whether the weights are equal at offset k of 961.
fn alike(one: &Table, other: &Table, k: usize) -> bool
    requires { k < 961 }
    ensures { result ≡ alike_at one.now other.now k }
{
    let a = (k / 31) as u32;
    let b = (k % 31) as u32;
    let x = entry(one, a, b);
    let y = entry(other, a, b);
    x.high + y.low == y.high + x.low
}

/// The first offset where they are not.
pub fn first_unlike(one: &Table, other: &Table) -> Option<usize>
    ensures first { unwrap_or result 961 ≡ first_unlike one.now other.now }
    ensures inside { IfSome result (λ k. k < 961) }
{
    for k in 0..961 {
        if !alike(one, other, k) {
            return Some(k);
        }
    }
    None
}
