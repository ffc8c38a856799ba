//! The numbers that the values of a row's columns are held in: the parts of the rectangles are added to them, and they become pixels.
ghost use Rattle.std.specs.Prelude.{◌≡◌, ◌+◌, ◌≤◌, ◌<◌, ℕ, List, true, length};
ghost use Rattle.layout.specs.declared.Table.{Table};
ghost use Rattle.arrival.specs.Arrivals.{Arrival, pixel_at};
ghost use Rattle.arrival.specs.Arriving.{arrival};
ghost use Rattle.arrival.specs.Rectangles.{ZeroPadded};
ghost use Rattle.engine.specs.Rows.{AllGood, Lined, Written, sure_table};

use arrival::Arriving;
use passes::{fit_narrow, fit_wide, running_sums, write_narrow, write_wide};

/// A number that the value of a column is held in.
pub trait Value: Copy {
    ghost fits: { Table → Type 0 };

    ghost held: { Arrival → (k : ℕ) → List Self → Type 0 };

    /// Adds the part of rectangle k, whose truncated column sums stand in a line, to the values.
    fn add(arriving: &Arriving, k: usize, values: &mut [Self], line: &mut [u32])
        requires few { k < arriving.now.table.now.count }
        requires ready { (sums : List ℕ) × (Lined (arrival arriving.now sums) k line.old × held (arrival arriving.now sums) k values.old) }
        ensures padded { ZeroPadded (length arriving.now.row.now) line.new }
        ensures added { (sums : List ℕ) → Lined (arrival arriving.now sums) k line.old → held (arrival arriving.now sums) k values.old
            → held (arrival arriving.now sums) (k + 1) values.new };

    /// The pixels of all values into the first places of the output, where each fits its word. Whether they do is asked where it is not
    /// sure.
    fn write(arriving: &Arriving, sure: bool, values: &mut [Self], out: &mut [i32]) -> bool
        requires fits { fits arriving.now.table.now }
        requires surely { sure ≡ true → sure_table arriving.now.table.now ≡ true }
        requires ready { (sums : List ℕ) × (AllGood (arrival arriving.now sums)
            × held (arrival arriving.now sums) arriving.now.table.now.count values.old) }
        requires lent { length arriving.now.row.now ≤ length out.old }
        ensures { (sums : List ℕ) → AllGood (arrival arriving.now sums)
            → held (arrival arriving.now sums) arriving.now.table.now.count values.old
            → Written sure (length arriving.now.row.now) arriving.now.table.now.w (pixel_at (arrival arriving.now sums)) result out.old out.new };
}

/// A value of 32 bits, modulo 2^32. Where q3 is 0 its running sums are the values.
impl Value for u32 {
    ghost use Rattle.engine.specs.Rows.{Weighed, narrow_table};

    ghost fits = { λ t. narrow_table t ≡ true };

    ghost held = { Weighed };

    fn add(arriving: &Arriving, k: usize, values: &mut [u32], line: &mut [u32]) {
        arriving.weigh(k, values, line);
    }

    fn write(arriving: &Arriving, sure: bool, values: &mut [u32], out: &mut [i32]) -> bool {
        let width = arriving.row.len();
        let t = arriving.table;
        if t.q3 == 0 {
            running_sums(values);
        }
        let due = &values[16..16 + width];
        if !sure && !fit_narrow(due, t.t, t.w) {
            return false;
        }
        write_narrow(&mut out[..width], due, t.t);
        true
    }
}

/// A value of 64 bits, raised by 2^41.
impl Value for u64 {
    ghost use Rattle.engine.specs.Rows.{Summed};

    ghost fits = { λ t. Unit {0} };

    ghost held = { Summed };

    fn add(arriving: &Arriving, k: usize, values: &mut [u64], line: &mut [u32]) {
        arriving.accumulate(k, values, line);
    }

    fn write(arriving: &Arriving, sure: bool, values: &mut [u64], out: &mut [i32]) -> bool {
        let width = arriving.row.len();
        let t = arriving.table;
        let due = &values[..width];
        if !sure && !fit_wide(due, t.t, t.w) {
            return false;
        }
        write_wide(&mut out[..width], due, t.t);
        true
    }
}
