//! The window of a ranked filter.
ghost use Rattle.std.specs.Prelude.{◌≡◌, ◌&&◌, leb};
ghost use Rattle.filtering.specs.Window.{centred_of};

use crate::Edges;

/// Whether a window may have n rows or columns.
fn in_reach(n: u32) -> bool
    ensures { result ≡ (leb 1 n && leb n 31) }
{
    (1..=31).contains(&n)
}

/// The edges of n rows or columns around a place: of an even number the one more comes after it. Both are 0, which makes no
/// window, where n is not from 1 to 31.
pub fn centred(n: u32) -> Edges
    ensures { result ≡ centred_of n }
{
    if !in_reach(n) {
        return Edges { lead: 0, trail: 0 };
    }
    let half = n / 2;
    Edges {
        lead: half as i8,
        trail: -((n - half) as i8),
    }
}
