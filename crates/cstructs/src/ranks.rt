//! What a ranked scan answers row by row, as C has it.
ghost use Rattle.std.specs.Prelude.{◌≡◌};
ghost use Rattle.layout.specs.Answers.{said, answer_said, closing_said};
ghost use Rattle.cstructs.specs.Answers.{verdict_by};
ghost use Rattle.cstructs.specs.Ranks.{started_c, answer_c};

use crate::answers::{Head, Refusal};
use layout::Numbered;
use rank::{Moved, RankScan, Started, Stepped};

// (C) RankStarted and RankAnswer beside ScanStarted and ScanAnswer: the header names each, and an exported struct has no parameter.
/// strip_rank_started
#[repr(C)]
#[derive(Clone, Copy, Debug, PartialEq, Eq)]
pub struct RankStarted {
    pub refusal: u32,
    pub place: u32,
    pub scan: RankScan,
}

/// strip_rank_answer: kind 0 refused, 1 row, 2 waiting, 3 done
#[repr(C)]
#[derive(Clone, Copy, Debug, PartialEq, Eq)]
pub struct RankAnswer {
    pub kind: u32,
    pub number: u32,
    pub place: u32,
    pub scan: RankScan,
}

impl RankStarted {
    /// A start or a close, whatever refused it, and the scan after it.
    pub fn new<R: Numbered>(verdict: Result<(), R>, scan: RankScan) -> RankStarted
        ensures { result ≡ started_c (verdict_by R.number_said R.place_said verdict) scan }
    {
        let refusal = Refusal::new(verdict);
        RankStarted {
            refusal: refusal.number,
            place: refusal.place,
            scan,
        }
    }
}

impl From<Started> for RankStarted {
    ghost from_gives = { λ s a. a ≡ started_c (said s.verdict) s.scan };

    fn from(started: Started) -> RankStarted {
        RankStarted::new(started.verdict, started.scan)
    }
}

/// A strip_rank_answer of these parts.
fn answer_of(head: Head, scan: RankScan) -> RankAnswer
    ensures { result ≡ record { kind = head.kind; number = head.number; place = head.place; scan = scan } }
{
    RankAnswer {
        kind: head.kind,
        number: head.number,
        place: head.place,
        scan,
    }
}

impl From<Moved> for RankAnswer {
    ghost from_gives = { λ m a. a ≡ answer_c (answer_said m.answer) m.scan };

    fn from(moved: Moved) -> RankAnswer {
        answer_of(moved.answer.into(), moved.scan)
    }
}

impl From<Stepped> for RankAnswer {
    ghost from_gives = { λ m a. a ≡ answer_c (closing_said m.answer) m.scan };

    fn from(stepped: Stepped) -> RankAnswer {
        answer_of(stepped.answer.into(), stepped.scan)
    }
}
