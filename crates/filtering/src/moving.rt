//! Bytes and samples in a store.
ghost use Rattle.std.specs.Prelude.{◌≡◌, ◌-◌, ◌*◌, ◌/◌, min, length};
ghost use Rattle.filtering.specs.Moves.{packed_count, moved_count, moved};

/// How many bytes to have at most, with these rows of `need` bytes left: none behind the last row, and 65,536 at most.
pub fn read_most(left: u32, need: u32) -> usize
    ensures { result ≡ min (left * need) 65536 }
{
    (left as usize * need as usize).min(65536)
}

/// How many of n make whole rows of l, 0 where l is 0.
pub fn whole_part(n: usize, l: u32) -> usize
    ensures { result ≡ n / l * l }
{
    if l == 0 {
        return 0;
    }
    let k = l as usize;
    n / k * k
}

/// How many rows are left after the rows of these bytes.
pub fn rows_left(left: u32, bytes: usize, need: u32) -> u32
    ensures { result ≡ left - bytes / need }
{
    if need == 0 {
        return left;
    }
    (left as usize).saturating_sub(bytes / need as usize) as u32
}

/// How many places this many rows of l take, or those of the whole rows among the places that there are.
#[tactic(auto, unfolding(crate::specs::Moves::packed_count))]
pub fn packed(rows: usize, l: u32, places: usize) -> usize
    ensures { result ≡ packed_count rows l places }
{
    if l == 0 {
        return 0;
    }
    let k = l as usize;
    rows.min(places / k) * k
}

/// Moves the bytes from place `from` to `end`, or to the end of the store, to its start. Answers how many they are.
pub fn forward(store: &mut [u8], from: usize, end: usize) -> usize
    ensures value { result ≡ moved_count (length store.old) from end }
    ensures store_after { store.new ≡ moved store.old from end }
{
    let last = end.min(store.len());
    if last <= from {
        return 0;
    }
    store.copy_within(from..last, 0);
    last - from
}
