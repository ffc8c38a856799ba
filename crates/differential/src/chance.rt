//! Numbers drawn without chance: the same at every run.
ghost use Rattle.std.specs.Prelude.{◌≤◌};

/// One step of a xorshift generator of 64 bits.
pub fn next(x: u64) -> u64 {
    let a = x ^ (x << 13);
    let b = a ^ (a >> 7);
    b ^ (b << 17)
}

/// A number with its bits mixed.
pub fn mixed(x: u64) -> u64 {
    let a = next(x);
    let b = next(a.wrapping_add(x));
    next(b).wrapping_add(a)
}

/// Number k of those that belong to a seed, at most `most`, which is below 65,536.
pub fn draw(seed: u64, k: u64, most: u64) -> u64
    ensures { result ≤ most }
{
    (mixed(mixed(seed ^ (k << 32)) ^ k) >> 16) % (most % 65536 + 1)
}

/// The same, but `limit` at each sixteenth seed.
pub fn pick(seed: u64, k: u64, most: u64, limit: u64) -> u64
    requires { limit ≤ most }
    ensures { result ≤ most }
{
    if seed % 16 == 0 {
        limit
    } else {
        draw(seed, k, most)
    }
}
