//! The samples of a row.
ghost use Rattle.std.specs.Prelude.{◌≡◌, ◌++◌, ◌+◌, ◌*◌, ◌≤◌, length, get_or, drop};
ghost use Rattle.arith.specs.Tab.{tab};
ghost use Rattle.pgm.specs.Raster.{decoded_count, decoded};

/// Samples of one byte, into all places of the output.
fn decode_bytes(bytes: &[u8], out: &mut [u16])
    requires { length out.old ≤ length bytes.now }
    ensures { out.new ≡ tab (length out.old) (λ k. get_or bytes.now k 0) }
{
    for (k, sample) in out.iter_mut().enumerate() {
        *sample = u16::from(bytes[k]);
    }
}

/// Samples of two bytes, the high one first, into all places of the output.
fn decode_words(bytes: &[u8], out: &mut [u16])
    requires { 2 * length out.old ≤ length bytes.now }
    ensures { out.new ≡ tab (length out.old) (λ k. get_or bytes.now (2 * k) 0 * 256 + get_or bytes.now (2 * k + 1) 0) }
{
    for (k, sample) in out.iter_mut().enumerate() {
        *sample = u16::from_be_bytes([bytes[2 * k], bytes[2 * k + 1]]);
    }
}

/// The samples of a row, as many as there are bytes for and places for. Answers how many.
#[tactic(auto, unfolding(crate::specs::Raster::decoded, crate::specs::Raster::decoded_count, crate::specs::Raster::sample_bytes, crate::specs::Raster::sample_in))]
pub fn decode(bytes: &[u8], maxval: u32, out: &mut [u16]) -> usize
    ensures value { result ≡ decoded_count maxval (length bytes.now) (length out.old) }
    ensures out_after { out.new ≡ decoded maxval bytes.now out.old }
{
    if maxval <= 255 {
        let n = bytes.len().min(out.len());
        decode_bytes(bytes, &mut out[..n]);
        n
    } else {
        let n = (bytes.len() / 2).min(out.len());
        decode_words(bytes, &mut out[..n]);
        n
    }
}
