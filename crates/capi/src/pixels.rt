//! The one-pixel call, for C.
ghost use Rattle.std.specs.Prelude.{◌≡◌};
ghost use Rattle.pixel.specs.Call.{pixel_answer};
ghost use Rattle.cstructs.specs.Answers.{pixel_c};

use cstructs::PixelAnswer;
use layout::Table;
use pixel::pixel;

/// The pixel at row r, column c of a scan lent whole, or the refusal.
#[unsafe(no_mangle)]
pub extern "C" fn strip_pixel(
    table: Table,
    width: usize,
    samples: &[u16],
    r: usize,
    c: usize,
) -> PixelAnswer
    ensures { result ≡ pixel_c (pixel_answer table width samples.now r c) }
{
    pixel(table, width, samples, r, c).into()
}
