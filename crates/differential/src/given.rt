//! A scan that is lent whole.
ghost use Rattle.std.specs.Prelude.{◌*◌, ◌≤◌, ◌<◌, length, slice_index, EachIndex};

/// `height` rows of `width` samples, one after the other: as the sensor sends them, and mended.
#[derive(Clone, Copy, Debug)]
pub struct Given<'a> {
    pub sent: &'a [u16],
    pub mended: &'a [u16],
    pub width: usize,
    pub height: usize,
    pub ghost size: { (width ≤ 1024) × (height ≤ 64) },
    pub ghost whole: { (width * height ≤ length sent.now) × (width * height ≤ length mended.now) },
}

/// Samples mended: where an element is dead, which is sent as 65,535, the live one to its left in its row, 0 where there is none.
pub fn mended(sent: &[u16; 65536], width: usize) -> [u16; 65536]
    requires { 0 < width }
    ensures { EachIndex result (λ k. slice_index result k < 65535) }
{
    let mut mended = *sent;
    let mut left = 0;
    for (k, sample) in mended.iter_mut().enumerate() {
        if k % width == 0 {
            left = 0;
        }
        if *sample == 65535 {
            *sample = left;
        }
        left = *sample;
    }
    mended
}

impl<'a> Given<'a> {
    /// Where the sample at a row and a column stands.
    fn place(&self, row: usize, col: usize) -> usize
        requires { (row < self.now.height) × (col < self.now.width) }
        ensures { (result < 65536) × (result < length self.now.mended.now) }
    {
        row * self.width + col
    }

    /// Row r as it is sent, where there is one.
    pub fn row(&self, r: usize) -> Option<&'a [u16]> {
        if r < self.height {
            let at = r * self.width;
            Some(&self.sent[at..at + self.width])
        } else {
            None
        }
    }

    /// The mended sample at a row and a column, where they are inside the scan.
    pub fn sample(&self, row: i64, col: i64) -> Option<u16> {
        if row < 0 || col < 0 {
            return None;
        }
        let (row, col) = (row as usize, col as usize);
        if row < self.height && col < self.width {
            Some(self.mended[self.place(row, col)])
        } else {
            None
        }
    }
}
