//! The counts of a window, slid on by a column.
ghost use Rattle.std.specs.Prelude.{◌≡◌, ◌+◌, ◌≤◌, ◌<◌, ℕ, length};
ghost use Rattle.arith.specs.Tab.{tab};
ghost use Rattle.levels.specs.Levels.{count_of, slid_count};

/// The counts of a window, by level: those of the column that leaves are taken off, then those of the one that enters put on.
pub fn slide(window: &mut [u16], off: &[u16], on: &[u16])
    requires off_long { length window.old ≤ length off.now }
    requires on_long { length window.old ≤ length on.now }
    requires counted { (v : ℕ) → v < length window.old → count_of off.now v ≤ count_of window.old v }
    requires room { (v : ℕ) → v < length window.old → count_of window.old v + count_of on.now v ≤ 65535 }
    ensures { window.new ≡ tab (length window.old) (slid_count (count_of window.old) (count_of off.now) (count_of on.now)) }
{
    for (v, count) in window.iter_mut().enumerate() {
        *count = *count - off[v] + on[v];
    }
}
