//! Lines of numbers of 32 bits.
ghost use Rattle.std.specs.Prelude.{◌≡◌, length};
ghost use Rattle.arith.specs.Tab.{tab};
ghost use Rattle.passes.specs.Passes.{running};

/// The running sums of a line, in place: each place becomes the sum of the places up to it, modulo 2^32.
pub fn running_sums(line: &mut [u32])
    ensures { line.new ≡ tab (length line.old) (running line.old) }
{
    let mut sum: u32 = 0;
    for place in line.iter_mut() {
        sum = sum.wrapping_add(*place);
        *place = sum;
    }
}
