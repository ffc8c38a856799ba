//! Inner: rows kept in a ring of 32. Row e of a scan of L columns stands from place (e mod 32)·L of the sample store on, so that the
//! store holds the last 32 rows. `keep` puts the arriving row into its place, and `row_at` reads a row.
#![tactic(auto)]

ghost use Rattle.std.specs.Prelude.{◌≡◌, ◌*◌, ◌%◌, ◌≤◌, pos, length};
ghost use Rattle.arith.specs.Tab.{tab, paste};
ghost use Rattle.ring.specs.Ring.{row_at};

/// Copies a row, sample by sample: `copy_from_slice` from one lent store into another would have the library for C ask for memmove.
fn copy(to: &mut [u16], row: &[u16])
    requires { length to.old ≡ length row.now }
    ensures { to.new ≡ row.now }
{
    for (c, sample) in to.iter_mut().enumerate() {
        *sample = row[c];
    }
}

/// The arriving row into its place.
pub fn keep(samples: &mut [u16], row: &[u16], arrival: usize)
    requires { 32 * length row.now ≤ length samples.old }
    ensures { samples.new ≡ paste (arrival % 32 * length row.now) row.now samples.old }
{
    let p = (arrival % 32) * row.len();
    copy(&mut samples[p..p + row.len()], row);
}

/// Row e at an arrival: the arriving row itself, or the one that its place holds.
pub fn row_at<'a>(samples: &'a [u16], row: &'a [u16], arrival: usize, e: usize) -> &'a [u16]
    requires { 32 * length row.now ≤ length samples.now }
    ensures { result.now ≡ tab (length row.now) (row_at (length row.now) arrival row.now samples.now (pos e)) }
{
    if e == arrival {
        return row;
    }
    let p = (e % 32) * row.len();
    &samples[p..p + row.len()]
}
