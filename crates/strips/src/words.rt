//! A line taken apart: the letter of its command and its numbers, of up to 16 bits each.
ghost use Rattle.std.specs.Prelude.{◌≤◌, ◌<◌};

/// A command, by the letter that its line begins with.
#[derive(Clone, Copy, Debug, PartialEq, Eq)]
pub enum Command {
    Table,
    Empty,
    Numbers,
    Close,
    Begin,
    Keep,
    Alter,
    Window,
    Row,
    Step,
    Hold,
    Pixel,
}

impl Command {
    /// The command of a small letter; a line with any other is a title.
    pub fn of(letter: u8) -> Option<Command> {
        match letter {
            b't' => Some(Command::Table),
            b'e' => Some(Command::Empty),
            b'n' => Some(Command::Numbers),
            b'c' => Some(Command::Close),
            b'b' => Some(Command::Begin),
            b'k' => Some(Command::Keep),
            b'a' => Some(Command::Alter),
            b'w' => Some(Command::Window),
            b'r' => Some(Command::Row),
            b's' => Some(Command::Step),
            b'h' => Some(Command::Hold),
            b'p' => Some(Command::Pixel),
            _ => None,
        }
    }
}

/// The letter that a line begins with, 0 for an empty one.
pub fn letter(line: &[u8]) -> u8 {
    if line.is_empty() { 0 } else { line[0] }
}

/// The value of a digit, decimal or hexadecimal.
fn digit(x: u8) -> u32 {
    u32::from(if x < 65 { x.saturating_sub(48) } else { x - 55 })
}

/// A number with one more digit; a space adds none.
fn grown(n: u16, x: u8, hex: bool) -> u16 {
    if x == b' ' {
        return n;
    }
    let base = if hex { 16 } else { 10 };
    ((u32::from(n) * base + digit(x) % 16) % 65536) as u16
}

/// How many spaces are past, this byte with them, 256 at most.
fn spaces(k: usize, x: u8) -> usize
    ensures { result ≤ 256 }
{
    if x == b' ' {
        k.min(255) + 1
    } else {
        k.min(256)
    }
}

/// Where the number after so many spaces is put; what stands before the first is put last.
fn place(k: usize) -> usize
    ensures { result < 2048 }
{
    if k == 0 { 2047 } else { (k - 1).min(2046) }
}

/// The numbers of a line, with zeros after them, and how many they are.
#[derive(Clone, Copy)]
pub struct Numbers {
    at: [u16; 2048],
    count: usize,
}

impl Numbers {
    /// The numbers of a line, hexadecimal or decimal.
    pub fn read(line: &[u8], hex: bool) -> Numbers {
        let mut at = [0u16; 2048];
        let mut k = 0;
        for &x in line {
            k = spaces(k, x);
            let p = place(k);
            at[p] = grown(at[p], x, hex);
        }
        Numbers { at, count: k }
    }

    /// All of them, and the zeros after them.
    pub fn all(&self) -> &[u16] {
        &self.at
    }

    /// Those that the line has.
    pub fn given(&self) -> &[u16] {
        &self.at[..self.count.min(2048)]
    }

    /// A number, counted from 0.
    pub fn number(&self, k: usize) -> u16 {
        if k < 2048 { self.at[k] } else { 0 }
    }

    pub fn wide(&self, k: usize) -> u32
        ensures { result < 65536 }
    {
        u32::from(self.number(k))
    }

    pub fn long(&self, k: usize) -> usize {
        usize::from(self.number(k))
    }

    pub fn byte(&self, k: usize) -> u8 {
        (self.number(k) % 256) as u8
    }

    /// The first 256 as the bytes of a file.
    pub fn bytes(&self) -> [u8; 256] {
        let mut file = [0u8; 256];
        for (k, byte) in file.iter_mut().enumerate() {
            *byte = self.byte(k);
        }
        file
    }
}
