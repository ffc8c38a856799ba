//! What a burst answers, as C has it.
ghost use Rattle.std.specs.Prelude.{◌≡◌};
ghost use Rattle.burst.specs.Bursts.{with_counts, burst_said};
ghost use Rattle.cstructs.specs.Answers.{verdict_by, burst_c};

use crate::answers::Refusal;
use burst::Burst;
use layout::Numbered;
use scan::Scan;

/// strip_burst
#[repr(C)]
#[derive(Clone, Copy, Debug, PartialEq, Eq)]
pub struct BurstAnswer {
    pub refusal: u32,
    pub place: u32,
    pub taken: usize,
    pub filtered: usize,
    pub scan: Scan,
}

impl BurstAnswer {
    /// How a burst ended, whatever refused it, the rows taken, the filtered rows that came out, and the scan after them.
    pub fn new<R: Numbered>(
        verdict: Result<(), R>,
        taken: usize,
        filtered: usize,
        scan: Scan,
    ) -> BurstAnswer
        ensures { result ≡ burst_c (with_counts (verdict_by R.number_said R.place_said verdict) taken filtered) scan }
    {
        let refusal = Refusal::new(verdict);
        BurstAnswer {
            refusal: refusal.number,
            place: refusal.place,
            taken,
            filtered,
            scan,
        }
    }
}

impl From<Burst> for BurstAnswer {
    ghost from_gives = { λ b a. a ≡ burst_c (burst_said b) b.scan };

    fn from(burst: Burst) -> BurstAnswer {
        BurstAnswer::new(burst.verdict, burst.taken, burst.filtered, burst.scan)
    }
}
