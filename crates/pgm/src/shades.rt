//! The 16-bit picture of filtered pixels.
ghost use Rattle.std.specs.Prelude.{◌≡◌, true, ◌++◌, ◌+◌, ◌-◌, ◌*◌, ◌^◌, ◌≤◌, ◌<◌, length, get_or, drop, pos};
ghost use Rattle.arith.specs.Tab.{grid};
ghost use Rattle.pgm.specs.Shade.{shade, byte_of, word_good, encoded_count, encoded};

use arith::biased_long;

/// Whether a pixel word may have this length.
#[tactic(auto, unfolding(crate::specs::Shade::word_good))]
fn word_good(w: u8) -> bool
    ensures { result ≡ word_good w }
{
    (8..=32).contains(&w)
}

/// The sample of a pixel: how far it is above the smallest of w bits, `floor` - 2^31, less the low bits that 16 do not hold.
fn shade(z: i32, w: u8, floor: u32, low: u8) -> u16
    requires { (floor + 2 ^ (w - 1) ≡ 2147483648) × (low ≡ w - 16) × (w ≤ 32) }
    ensures { result ≡ shade w z }
{
    let raised = (biased_long(z) as u32).saturating_sub(floor);
    (raised >> low).min(65535) as u16
}

/// The two bytes of each pixel.
fn put(pixels: &[i32], w: u8, out: &mut [u8])
    requires word { word_good w ≡ true }
    requires room { length pixels.now * 2 ≤ length out.old }
    ensures { out.new ≡ grid (length pixels.now) 2 (λ k. byte_of (shade w (get_or pixels.now k (pos 0)))) ++ drop (length pixels.now * 2) out.old }
{
    let floor = 2147483648 - (1u32 << (w - 1));
    let low = w.saturating_sub(16);
    for (k, pixel) in pixels.iter().enumerate() {
        let [first, second] = shade(*pixel, w, floor, low).to_be_bytes();
        out[k * 2] = first;
        out[k * 2 + 1] = second;
    }
}

/// The samples of a row of pixels of w bits, two bytes each, the high one first: as many as there are places for, and none
/// where w is not from 8 to 32. Answers how many pixels were put.
#[tactic(auto, unfolding(crate::specs::Shade::encoded, crate::specs::Shade::encoded_count))]
pub fn encode(pixels: &[i32], w: u8, out: &mut [u8]) -> usize
    ensures value { result ≡ encoded_count w (length pixels.now) (length out.old) }
    ensures out_after { out.new ≡ encoded w pixels.now out.old }
    ensures result_in_bounds { 2 * result ≤ length out.old }
{
    if !word_good(w) {
        return 0;
    }
    let n = pixels.len().min(out.len() / 2);
    put(&pixels[..n], w, out);
    n
}
