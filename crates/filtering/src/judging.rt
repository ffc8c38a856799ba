//! Whether the table file, the scan's header and its rows are taken.
ghost use Rattle.std.specs.Prelude.{◌≡◌, ◌*◌, ◌≤◌};
ghost use Rattle.pgm.specs.Raster.{sample_bytes};
ghost use Rattle.filtering.specs.Judging.{maxval_fits, whole_of, header_fault, judged_of, table_fault_of, row_fault_of};

use crate::{Fault, Job};
use layout::Numbered;
use pgm::{NoHeader, Opening};

/// What a file of n bytes that was loaded so comes to: the table; or what is wrong with it, whatever refused it.
#[tactic(auto, unfolding(crate::specs::Judging::table_fault_of))]
pub fn table_fault<T: Drop, R: Numbered>(loaded: Result<T, R>, n: usize) -> Result<T, Fault>
    ensures { result ≡ table_fault_of R.number_said loaded n }
{
    if n == 0 {
        return Err(Fault::NoTable);
    }
    match loaded {
        Ok(table) => Ok(table),
        Err(refusal) => Err(Fault::Table(refusal.number())),
    }
}

/// Whether samples up to this maxval, at most 4,095, fit b bits.
fn maxval_fits(maxval: u32, b: u8) -> bool
    requires { maxval ≤ 4095 }
    ensures { result ≡ maxval_fits maxval b }
{
    b >= 12 || maxval < 1 << b
}

/// How many bytes a row takes.
#[tactic(auto, unfolding(pgm::specs::Raster::sample_bytes))]
fn row_bytes(width: u32, maxval: u32) -> u32
    requires { width ≤ 1024 }
    ensures { result ≡ width * sample_bytes maxval }
{
    if maxval <= 255 { width } else { width * 2 }
}

/// A whole header, held to the limits and to b.
#[tactic(auto, unfolding(crate::specs::Judging::whole_of), using(rule::proofs::Asked::width_bounds))]
fn whole(b: u8, width: u32, height: u32, maxval: u32) -> Result<Job, Fault>
    ensures { result ≡ whole_of b width height maxval }
{
    if maxval == 0 {
        return Err(Fault::NoMaxval);
    }
    if maxval > 4095 {
        return Err(Fault::Maxval(maxval));
    }
    if !maxval_fits(maxval, b) {
        return Err(Fault::Bits(maxval, b));
    }
    if !rule::width_good(width as usize) {
        return Err(Fault::Width(width));
    }
    let need = row_bytes(width, maxval);
    Ok(Job {
        width,
        height,
        maxval,
        need,
    })
}

/// Of a header that is none yet, it says that it is cut off.
impl From<NoHeader> for Fault {
    ghost from_gives = { λ no fault. fault ≡ header_fault no };

    fn from(no: NoHeader) -> Fault {
        match no {
            NoHeader::More => Fault::CutHeader,
            NoHeader::Foreign => Fault::Foreign,
            NoHeader::Bad(entry, at) => Fault::Bad(entry, at),
            NoHeader::Unended(at) => Fault::Unended(at),
            NoHeader::Large(entry, at) => Fault::Large(entry, at),
        }
    }
}

/// What the first n bytes of a scan come to, for samples of b bits.
#[tactic(auto, unfolding(crate::specs::Judging::judged_of))]
pub fn judge(b: u8, header: Result<Opening, NoHeader>, n: usize) -> Result<Job, Fault>
    ensures { result ≡ judged_of b header n }
{
    match header {
        Ok(opening) => whole(b, opening.width, opening.height, opening.maxval),
        Err(NoHeader::More) if n == 0 => Err(Fault::Empty),
        Err(no) => Err(no.into()),
    }
}

/// What is wrong with rows that were read: the engine's refusal, whatever it is by; or, where the lowest sample above the maxval
/// stands at `place` of `count`, that sample, with the rows taken before its own.
#[tactic(auto, unfolding(crate::specs::Judging::row_fault_of))]
pub fn row_fault<R: Numbered>(
    taken: Result<(), R>,
    job: Job,
    rows: u32,
    place: usize,
    count: usize,
) -> Result<(), Fault>
    ensures { result ≡ row_fault_of R.number_said R.place_said taken job rows place count }
{
    if let Err(refusal) = taken {
        return Err(Fault::Engine(refusal.number(), refusal.place()));
    }
    if count <= place || job.width == 0 {
        return Ok(());
    }
    Err(Fault::Sample(rows, place % job.width as usize, job.maxval))
}
