//! The level of a rank in the counts of a window.
ghost use Rattle.std.specs.Option.{MatchOption};
ghost use Rattle.std.specs.Prelude.{◌≡◌, ℕ, ◌+◌, ◌≤◌, ◌<◌, ltb, length};
ghost use Rattle.arith.specs.Sum.{sum};
ghost use Rattle.arith.specs.First.{first_not};
ghost use Rattle.levels.specs.Levels.{count_of, up_to, below, highest, ranked};
ghost use Rattle.levels.specs.Fits.{FindFits, BlocksEnd, PassedFits, SmallCounts};

/// The sum of 16 counts.
fn block(counts: &[u16]) -> u16
    requires { (length counts.now ≡ 16) × SmallCounts counts.now }
    ensures { result ≡ sum 16 (count_of counts.now) }
{
    let mut sum = 0;
    for count in counts {
        sum += *count;
    }
    sum
}

/// How many levels, whole blocks of 16, lie before the one in which the sum of the counts reaches the rank, and that sum.
#[derive(Clone, Copy)]
struct Before {
    at: usize,
    sum: u32,
}

/// The blocks of 16 levels before the one in which the sum reaches the rank, or all whole blocks.
fn blocks(counts: &[u16], rank: u32) -> Before
    requires { FindFits counts.now rank }
    ensures { BlocksEnd counts.now rank result.at result.sum }
{
    let n = counts.len();
    let mut sum = 0;
    let mut at = 0;
    // Counted by hand (C): no pass over columns may divide (scripts/passes.py), and so many blocks of 16 would be a division.
    while 16 <= n - at {
        let more = sum + u32::from(block(&counts[at..at + 16]));
        if rank <= more {
            return Before { at, sum };
        }
        sum = more;
        at += 16;
    }
    Before { at, sum }
}

/// How many of these levels the sum of the counts passes below the rank, from a sum below it on. A look at every level without a branch is
/// faster than an end at the level that is found, which cannot be foretold.
fn passed(counts: &[u16], before: u32, rank: u32) -> usize
    requires { PassedFits counts.now before }
    ensures { result ≡ first_not (length counts.now) (λ i. ltb (before + up_to (count_of counts.now) i) rank) }
{
    let mut sum = before;
    let mut low = 0;
    for count in counts {
        sum += u32::from(*count);
        if sum < rank {
            low += 1;
        }
    }
    low
}

/// The lowest level at which the sum of the counts reaches the rank, or how many levels there are.
fn level(counts: &[u16], rank: u32) -> usize
    requires { FindFits counts.now rank }
    ensures { result ≡ first_not (length counts.now) (below (count_of counts.now) rank) }
{
    let b = blocks(counts, rank);
    let at = b.at;
    let end = counts.len().min(at + 16);
    at + passed(&counts[at..end], b.sum, rank)
}

/// The place of the last count that is not 0.
fn last_counted(counts: &[u16]) -> Option<usize>
    ensures { MatchOption result ((k : ℕ) → k < length counts.now → count_of counts.now k ≡ 0)
        (λ v. (v < length counts.now) × ((0 < count_of counts.now v) × ((k : ℕ) → v < k → k < length counts.now → count_of counts.now k ≡ 0))) }
{
    counts.iter().rposition(|count| 0 < *count)
}

/// The highest level that is counted, or -1.
fn highest(counts: &[u16]) -> i32
    requires { length counts.now ≤ 256 }
    ensures { result ≡ highest (length counts.now) (count_of counts.now) }
{
    match last_counted(counts) {
        Some(v) => v as i32,
        None => -1,
    }
}

/// The lowest level such that at least `rank` are counted up to it; if fewer are counted, the highest that is; -1 if none is.
pub fn find(counts: &[u16], rank: u32) -> i32
    requires { FindFits counts.now rank }
    ensures { result ≡ ranked (length counts.now) rank (count_of counts.now) }
{
    let v = level(counts, rank);
    if v < counts.len() {
        return v as i32;
    }
    highest(counts)
}
