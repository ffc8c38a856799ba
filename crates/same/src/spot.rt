//! The scan on which two tables differ.
ghost use Rattle.std.specs.Prelude.{◌≡◌, ◌++◌, ◌≤◌, ◌<◌, length, drop};
ghost use Rattle.grid.specs.Grid.{offset};
ghost use Rattle.same.specs.Same.{spot};

/// Offset a of 31, from -15 to 15.
pub fn offset(a: usize) -> i32
    requires { a < 31 }
    ensures { result ≡ offset a }
{
    a as i32 - 15
}

/// Puts 31 by 31 samples into the first 961 places: `top` at row a, column b, and 0 elsewhere.
pub fn put_spot(scan: &mut [u16], top: u16, a: usize, b: usize)
    requires { (a < 31) × (b < 31) × (961 ≤ length scan.old) }
    ensures { scan.new ≡ spot top a b ++ drop 961 scan.old }
{
    scan[..961].fill(0);
    scan[31 * a + b] = top;
}
