//! The picture of levels, a byte a pixel.
ghost use Rattle.std.specs.Prelude.{◌≡◌, ◌≤◌, min, length, get_or, pos};
ghost use Rattle.arith.specs.Tab.{tab};
ghost use Rattle.pgm.specs.Shade.{level_byte, encoded_levels};

/// The byte of a level.
#[tactic(auto, unfolding(crate::specs::Shade::level_byte))]
fn level_byte(z: i32) -> u8
    ensures { result ≡ level_byte z }
{
    u8::try_from(z.max(0)).unwrap_or(255)
}

/// The bytes of levels, into all places of the output.
fn put_levels(levels: &[i32], out: &mut [u8])
    requires { length out.old ≤ length levels.now }
    ensures { out.new ≡ tab (length out.old) (λ k. level_byte (get_or levels.now k (pos 0))) }
{
    for (k, byte) in out.iter_mut().enumerate() {
        *byte = level_byte(levels[k]);
    }
}

/// A row of levels, a byte each, as many as there are places for. Answers how many were put.
#[tactic(auto, unfolding(crate::specs::Shade::encoded_levels))]
pub fn encode_levels(levels: &[i32], out: &mut [u8]) -> usize
    ensures value { result ≡ min (length levels.now) (length out.old) }
    ensures out_after { out.new ≡ encoded_levels levels.now out.old }
{
    let n = levels.len().min(out.len());
    put_levels(levels, &mut out[..n]);
    n
}
