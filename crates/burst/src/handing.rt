//! Rows handed over together.
ghost use Rattle.std.specs.Prelude.{◌≡◌, cond, [], ◌+◌, ◌*◌, ◌≤◌, ◌<◌, length};
ghost use Rattle.layout.specs.Answers.{accepted, said, verdict, left};
ghost use Rattle.machine.specs.Calls.{due_is, said_by};
ghost use Rattle.scan.specs.Calls.{world, row_of};
ghost use Rattle.burst.specs.Bursts.{progress, is_refused, row_said, feed, burst_asks, burst_of, burst_said};

use crate::Burst;
use layout::{Question, Refusal};
use scan::{Scan, Taken, state_good, take_row};

/// The questions before the first row, on the lengths of the slice and of the output.
#[tactic(auto, unfolding(crate::specs::Bursts::burst_asks))]
fn ask(s: Scan, rows: usize, out: usize) -> Result<(), Refusal>
    ensures { said result ≡ verdict (burst_asks s rows out) }
{
    Refusal::unless(state_good(s), Question::State)?;
    Refusal::unless(!s.closed, Question::Phase)?;
    Refusal::unless(rows % s.width == 0, Question::WholeRows)?;
    Refusal::unless(rows <= out, Question::Stores)
}

/// No row taken, with a verdict.
fn begun(verdict: Result<(), Refusal>, scan: Scan) -> Burst
    ensures { (result.verdict ≡ verdict) × (result.taken ≡ 0) × (result.filtered ≡ 0) × (result.scan ≡ scan) }
{
    Burst {
        verdict,
        taken: 0,
        filtered: 0,
        scan,
    }
}

/// One row's answer, counted.
fn count(b: Burst, one: Taken) -> Burst
    requires { (b.taken < 18446744073709551615) × (b.filtered < 18446744073709551615) }
    ensures verdict_value { (said result.verdict ≡ row_said (said_by due_is one.row)) × (result.scan ≡ one.scan) }
    ensures taken_value { result.taken ≡ b.taken + cond (is_refused (said_by due_is one.row)) 0 1 }
    ensures filtered_value { result.filtered ≡ b.filtered + length (said_by due_is one.row).values }
{
    let scan = one.scan;
    match one.row {
        Ok(Some(_)) => Burst {
            verdict: Ok(()),
            taken: b.taken + 1,
            filtered: b.filtered + 1,
            scan,
        },
        Ok(None) => Burst {
            verdict: Ok(()),
            taken: b.taken + 1,
            filtered: b.filtered,
            scan,
        },
        Err(refusal) => Burst {
            verdict: Err(refusal),
            taken: b.taken,
            filtered: b.filtered,
            scan,
        },
    }
}

/// The n rows one by one, up to one that is refused; the filtered rows stand one after the other from the start of the
/// output on.
fn each(
    s: Scan,
    rows: &[u16],
    n: usize,
    samples: &mut [u16],
    sums: &mut [u32],
    out: &mut [i32],
) -> Burst
    requires { (n * s.width ≤ length rows.now) × (n * s.width ≤ length out.old) × (s.rows ≤ 65535) × (s.width ≤ 1024) }
    ensures { progress (said result.verdict) (world result.scan samples.new sums.new) out.new result.taken result.filtered
        ≡ feed row_of s.width n (progress (accepted []) (world s samples.old sums.old) out.old 0 0) rows.now }
{
    let width = s.width;
    let mut b = begun(Ok(()), s);
    while b.taken < n {
        let before = b.scan;
        let at = b.taken * width;
        let to = b.filtered * width;
        let one = take_row(
            before,
            &rows[at..at + width],
            samples,
            sums,
            &mut out[to..to + width],
        );
        b = count(b, one);
        if b.verdict.is_err() {
            return b;
        }
    }
    b
}

/// A burst of rows: questions 14, 15, 21 and 13, then each row with its own. It stops at a refused row, with what the rows
/// before it left.
pub fn rows(s: Scan, rows: &[u16], samples: &mut [u16], sums: &mut [u32], out: &mut [i32]) -> Burst
    ensures { left (burst_said result) (world result.scan samples.new sums.new) out.new
        ≡ burst_of (world s samples.old sums.old) rows.now out.old }
{
    let verdict = ask(s, rows.len(), out.len());
    match verdict {
        Err(_) => begun(verdict, s),
        Ok(()) => each(s, rows, rows.len() / s.width, samples, sums, out),
    }
}
