// Bytes, numbers and integers as text.
ghost use Rattle.std.specs.Prelude.{◌≡◌, ◌+◌, ◌≤◌, ◌∷◌, ◌++◌, length, drop};
ghost use Rattle.text.specs.Text.{decimal, cell, signed_cell, Put, put_text, put_end};

// Bytes for which there is room.
fn copy(out: &mut [u8], at: usize, text: &[u8]) -> usize
    requires { at + length text.now ≤ length out.old }
    ensures { Put out.old at text.now out.new result }
{
    let n = text.len();
    let mut j = 0;
    while j < n {
        out[at + j] = text[j];
        j += 1;
    }
    at + n
}

// Bytes.
pub fn put_bytes(out: &mut [u8], at: usize, text: &[u8]) -> usize
    ensures value { result ≡ put_end out.old at text.now }
    ensures out_after { out.new ≡ put_text out.old at text.now }
{
    if out.len() < text.len() {
        return at;
    }
    if out.len() - text.len() < at {
        return at;
    }
    copy(out, at, text)
}

// The decimal digits of n into places up to 20 of a buffer of 22. Answers where they start.
fn digits(n: u64, buf: &mut [u8]) -> usize
    requires { length buf.old ≡ 22 }
    ensures { (1 ≤ result) × (result ≤ 20) × (drop result buf.new ≡ decimal n ++ drop 21 buf.old) × (length buf.new ≡ 22) }
{
    let mut i = 20;
    let mut m = n;
    while 10 <= m {
        buf[i] = 48 + (m % 10) as u8;
        m /= 10;
        i -= 1;
    }
    buf[i] = 48 + m as u8;
    i
}

// A number.
pub fn put_number(out: &mut [u8], at: usize, n: u64) -> usize
    ensures value { result ≡ put_end out.old at (decimal n) }
    ensures out_after { out.new ≡ put_text out.old at (decimal n) }
{
    let mut buf = [0u8; 22];
    let start = digits(n, &mut buf);
    put_bytes(out, at, &buf[start..21])
}

// A number and the byte after it.
pub fn put_cell(out: &mut [u8], at: usize, n: u64, end: u8) -> usize
    ensures value { result ≡ put_end out.old at (cell n end) }
    ensures out_after { out.new ≡ put_text out.old at (cell n end) }
{
    let mut buf = [end; 22];
    let start = digits(n, &mut buf);
    put_bytes(out, at, &buf[start..22])
}

// A negative integer, -n, and the byte after it.
fn put_negative(out: &mut [u8], at: usize, n: u64, end: u8) -> usize
    ensures value { result ≡ put_end out.old at (45 ∷ cell n end) }
    ensures out_after { out.new ≡ put_text out.old at (45 ∷ cell n end) }
{
    let mut buf = [end; 22];
    let start = digits(n, &mut buf) - 1;
    buf[start] = b'-';
    put_bytes(out, at, &buf[start..22])
}

// An integer and the byte after it.
pub fn put_signed(out: &mut [u8], at: usize, z: i32, end: u8) -> usize
    ensures value { result ≡ put_end out.old at (signed_cell z end) }
    ensures out_after { out.new ≡ put_text out.old at (signed_cell z end) }
{
    let x = arith::biased_long(z);
    if 2147483648 <= x {
        put_cell(out, at, x - 2147483648, end)
    } else {
        put_negative(out, at, 2147483648 - x, end)
    }
}
