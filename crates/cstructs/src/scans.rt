//! What a scan answers row by row, as C has it.
ghost use Rattle.std.specs.Prelude.{◌≡◌};
ghost use Rattle.layout.specs.Answers.{said, answer_said, closing_said};
ghost use Rattle.cstructs.specs.Answers.{verdict_by, started_c, answer_c};

use crate::answers::{Head, Refusal};
use layout::Numbered;
use scan::{Moved, Scan, Started, Stepped};

/// strip_started
#[repr(C)]
#[derive(Clone, Copy, Debug, PartialEq, Eq)]
pub struct ScanStarted {
    pub refusal: u32,
    pub place: u32,
    pub scan: Scan,
}

/// strip_answer: kind 0 refused, 1 row, 2 waiting, 3 done
#[repr(C)]
#[derive(Clone, Copy, Debug, PartialEq, Eq)]
pub struct ScanAnswer {
    pub kind: u32,
    pub number: u32,
    pub place: u32,
    pub scan: Scan,
}

impl ScanStarted {
    /// A start or a close, whatever refused it, and the scan after it.
    pub fn new<R: Numbered>(verdict: Result<(), R>, scan: Scan) -> ScanStarted
        ensures { result ≡ started_c (verdict_by R.number_said R.place_said verdict) scan }
    {
        let refusal = Refusal::new(verdict);
        ScanStarted {
            refusal: refusal.number,
            place: refusal.place,
            scan,
        }
    }
}

impl From<Started> for ScanStarted {
    ghost from_gives = { λ s a. a ≡ started_c (said s.verdict) s.scan };

    fn from(started: Started) -> ScanStarted {
        ScanStarted::new(started.verdict, started.scan)
    }
}

/// A strip_answer of these parts.
fn answer_of(head: Head, scan: Scan) -> ScanAnswer
    ensures { result ≡ record { kind = head.kind; number = head.number; place = head.place; scan = scan } }
{
    ScanAnswer {
        kind: head.kind,
        number: head.number,
        place: head.place,
        scan,
    }
}

impl From<Moved> for ScanAnswer {
    ghost from_gives = { λ m a. a ≡ answer_c (answer_said m.answer) m.scan };

    fn from(moved: Moved) -> ScanAnswer {
        answer_of(moved.answer.into(), moved.scan)
    }
}

impl From<Stepped> for ScanAnswer {
    ghost from_gives = { λ m a. a ≡ answer_c (closing_said m.answer) m.scan };

    fn from(stepped: Stepped) -> ScanAnswer {
        answer_of(stepped.answer.into(), stepped.scan)
    }
}
