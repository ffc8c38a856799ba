//! The counts of a column, and of all columns of a row: a sample leaves, then another enters.
ghost use Rattle.std.specs.Prelude.{◌≡◌, cond, ◌++◌, ℕ, ◌+◌, ◌-◌, ◌*◌, ◌≤◌, ◌<◌, leb, length, get_or, drop};
ghost use Rattle.arith.specs.All.{all};
ghost use Rattle.arith.specs.Tab.{tab, grid};
ghost use Rattle.levels.specs.Levels.{one, count_of, moved_count, moved_count_at, column_good, column_good_at};
ghost use Rattle.levels.specs.Fits.{ChangeFits, MoveFits, TakeFits};

/// All counts of a column ORed: none of them is above it, and it is not above their sum.
fn gathered(col: &[u16]) -> u16
    ensures { (v : ℕ) → v < length col.now → get_or col.now v 0 ≤ result }
{
    let mut all = 0;
    for count in col {
        all |= *count;
    }
    all
}

/// How often a sample x counts at level v.
fn one(times: u16, x: usize, v: usize) -> u16
    ensures { result ≡ one times x v }
{
    if x == v { times } else { 0 }
}

/// The count of level v after both steps.
fn moved(count: u16, x: usize, less: u16, y: usize, more: u16, v: usize) -> u32
    ensures { result ≡ count - one less x v + one more y v }
{
    u32::from(count.saturating_sub(one(less, x, v))) + u32::from(one(more, y, v))
}

/// Whether every count is at most this after both steps, found by a look at each.
fn each_within(col: &[u16], x: usize, less: u16, y: usize, more: u16, most: u16) -> bool
    ensures { result ≡ all (length col.now) (λ v. leb (moved_count (count_of col.now) x less y more v) most) }
{
    for (v, count) in col.iter().enumerate() {
        if u32::from(most) < moved(*count, x, less, y, more, v) {
            return false;
        }
    }
    true
}

/// Whether every count is at most this after both steps, of levels that y is one of. Where the ORed counts are within the bound, as they
/// are unless a store was altered, only the count of y is looked at by itself.
fn all_within(col: &[u16], x: usize, less: u16, y: usize, more: u16, most: u16) -> bool
    requires { y < length col.now }
    ensures { result ≡ all (length col.now) (λ v. leb (moved_count (count_of col.now) x less y more v) most) }
{
    if gathered(col) <= most {
        moved(col[y], x, less, y, more, y) <= u32::from(most)
    } else {
        each_within(col, x, less, y, more, most)
    }
}

/// Question 19 of one column, whose counts of all levels these are: sample x leaves, as often as `less` says, then y enters, as often
/// as `more` says.
#[tactic(auto, unfolding(crate::specs::Levels::column_good))]
fn column_good(col: &[u16], x: u16, less: u16, y: u16, more: u16, most: u16) -> bool
    ensures { result ≡ column_good (length col.now) most (count_of col.now) x less y more }
{
    let i = usize::from(x);
    let j = usize::from(y);
    i < col.len() && j < col.len() && less <= col[i] && all_within(col, i, less, j, more, most)
}

/// Both steps of one column of 256 counts: x leaves, then y enters.
fn change(col: &mut [u16], x: u16, less: u16, y: u16, more: u16)
    requires { ChangeFits (length col.old) (count_of col.old) x less y more }
    ensures { col.new ≡ tab (length col.old) (moved_count (count_of col.old) x less y more) }
{
    let i = usize::from(x);
    let j = usize::from(y);
    col[i] -= less;
    col[j] += more;
}

/// Both steps of the first columns of a row: `off` leaves and `on` enters, a sample a column, each row as often as `less` and `more` say.
/// The counts of column c stand from place 256·c on.
fn move_columns(counts: &mut [u16], off: &[u16], less: u16, on: &[u16], more: u16, width: usize)
    requires { MoveFits width counts.old off.now less on.now more }
    ensures { counts.new
        ≡ grid width 256 (moved_count_at counts.old off.now less on.now more)
        ++ drop (width * 256) counts.old }
{
    for c in 0..width {
        let at = c * 256;
        change(&mut counts[at..at + 256], off[c], less, on[c], more);
    }
}

/// Question 19 of every column of a row, asked of the first `levels` levels, and both steps of each: `off` leaves and `on` enters. Where a
/// column is not good, those before it are moved back: what entered them leaves, and what left them enters. One pass over the counts is
/// faster than one that asks and one that moves.
pub fn take_columns(
    counts: &mut [u16],
    off: &[u16],
    less: u16,
    on: &[u16],
    more: u16,
    width: usize,
    levels: usize,
    most: u16,
) -> bool
    requires { TakeFits width levels most (length counts.old) (length off.now) less (length on.now) more }
    ensures value { result ≡ all width (column_good_at levels most counts.old off.now less on.now more) }
    ensures counts_after { counts.new
        ≡ cond result (grid width 256 (moved_count_at counts.old off.now less on.now more)
        ++ drop (width * 256) counts.old) counts.old }
{
    for c in 0..width {
        let at = c * 256;
        if !column_good(&counts[at..at + levels], off[c], less, on[c], more, most) {
            move_columns(counts, on, more, off, less, c);
            return false;
        }
        change(&mut counts[at..at + 256], off[c], less, on[c], more);
    }
    true
}
