//! What the edges of a rectangle say of one axis. Offset a of 31 is a - 15.
ghost use Rattle.std.specs.Prelude.{◌≡◌, ◌≤◌, ◌<◌};
ghost use Rattle.grid.specs.Grid.{offset, covers};
ghost use Rattle.grid.specs.Lines.{place_above, SameSide};

/// Whether offset a lies above the trail and not above the lead.
pub fn covered(lead: i8, trail: i8, a: u32) -> bool
    requires { a < 31 }
    ensures { result ≡ covers lead trail (offset a) }
{
    let offset = a as i32 - 15;
    i32::from(trail) < offset && offset <= i32::from(lead)
}

/// The first of the 31 offsets that lies above an edge, or 31.
pub fn place_above(edge: i8) -> u32
    ensures { result ≡ place_above edge }
{
    (i32::from(edge) + 16).clamp(0, 31) as u32
}

/// The end of lines a to `end` - 1, cut short where an edge lies between two of them: all that are left are on the same side of it.
pub fn cut_at(end: u32, edge: i8, a: u32) -> u32
    requires { (a < end) × (end ≤ 31) }
    ensures lower_bound { (a < result) × (result ≤ end) }
    ensures same_side { SameSide edge a result }
{
    let place = place_above(edge);
    if a < place && place < end { place } else { end }
}
