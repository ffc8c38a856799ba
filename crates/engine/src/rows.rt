//! A row over all rectangles: the values, the pixels that are due, and where question 19 is answered no the sums rolled back.
ghost use Rattle.std.specs.Prelude.{◌≡◌, ◌++◌, ◌+◌, ◌*◌, ◌≤◌, true, Err, IfErr, OnOk, length, drop};
ghost use Rattle.arith.specs.Tab.{grid};
ghost use Rattle.layout.specs.Answers.{said, refused};
ghost use Rattle.arrival.specs.Arrivals.{leaves};
ghost use Rattle.arrival.specs.Arriving.{arrival};
ghost use Rattle.arrival.specs.Rectangles.{rolled_back_sum, ZeroPadded};
ghost use Rattle.engine.specs.Rows.{Stopped, Complete, sure_table, take_of};

use crate::values::Value;
use arrival::Arriving;
use layout::{Question, Refusal};

/// Updates the column sums rectangle by rectangle and adds their parts to the values, up to the first rectangle that fails question 19,
/// its own sums included.
fn values<V: Value>(
    arriving: &Arriving,
    acc: &mut [V],
    line: &mut [u32],
    sums: &mut [u32],
) -> Result<(), usize>
    requires sums_long { arriving.now.table.now.count * length arriving.now.row.now ≤ length sums.old }
    requires held { V.held (arrival arriving.now sums.old) 0 acc.old }
    requires padded { ZeroPadded (length arriving.now.row.now) line.old }
    ensures stopped { IfErr result (λ k. Stopped (arrival arriving.now sums.old) k sums.new) }
    ensures complete { OnOk result (Complete (arrival arriving.now sums.old) sums.new) }
    ensures held { OnOk result (V.held (arrival arriving.now sums.old) arriving.now.table.now.count acc.new) }
{
    for k in 0..arriving.table.count {
        if !arriving.update(k, line, sums) {
            return Err(k);
        }
        V::add(arriving, k, acc, line);
    }
    Ok(())
}

/// Rolls back the sums of the first n rectangles.
fn roll_back_first(arriving: &Arriving, n: usize, sums: &mut [u32])
    requires few { n ≤ arriving.now.table.now.count }
    requires sums_long { arriving.now.table.now.count * length arriving.now.row.now ≤ length sums.old }
    ensures { sums.new ≡ grid n (length arriving.now.row.now) (rolled_back_sum (arrival arriving.now sums.old))
        ++ drop (n * length arriving.now.row.now) sums.old }
{
    for k in 0..n {
        arriving.roll_back(k, sums);
    }
}

// `sums_long` and `lent` in these clauses (N): a struct of the row and the stores that are lent to be changed would hold the loans.
/// All of an arrival but the keeping of its row: question 19, and what it leaves. A table whose pixels surely fit their words is not asked
/// for them.
pub fn take<V: Value>(
    arriving: &Arriving,
    sure: bool,
    acc: &mut [V],
    line: &mut [u32],
    sums: &mut [u32],
    out: &mut [i32],
) -> Result<(), Refusal>
    requires fits { V.fits arriving.now.table.now }
    requires surely { sure ≡ true → sure_table arriving.now.table.now ≡ true }
    requires held { V.held (arrival arriving.now sums.old) 0 acc.old }
    requires padded { ZeroPadded (length arriving.now.row.now) line.old }
    requires sums_long { arriving.now.table.now.count * length arriving.now.row.now ≤ length sums.old }
    requires lent { length arriving.now.row.now ≤ length out.old }
    ensures { leaves (said result) arriving.now.samples.now sums.new out.new ≡ take_of (arrival arriving.now sums.old) out.old }
{
    let count = arriving.table.count;
    if let Err(k) = values(arriving, acc, line, sums) {
        roll_back_first(arriving, k + 1, sums);
        return Err(carried(k));
    }
    if arriving.number < arriving.delay {
        return Ok(());
    }
    if !V::write(arriving, sure, acc, out) {
        roll_back_first(arriving, count, sums);
        return Err(carried(count));
    }
    Ok(())
}

/// Question 19 is answered no at a place.
fn carried(place: usize) -> Refusal
    requires { place ≤ 16 }
    ensures { said (Err result) ≡ refused 19 place }
{
    Refusal {
        question: Question::Carried,
        place: place as u32,
    }
}
