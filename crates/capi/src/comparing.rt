//! Two tables compared, for C.
ghost use Rattle.std.specs.Prelude.{◌≡◌};
ghost use Rattle.same.specs.Same.{same_of};
ghost use Rattle.cstructs.specs.Answers.{same_c, handed_output, wrote_c};

use cstructs::SameAnswer;
use layout::Table;
use same::same;

/// Whether two tables do the same; where not, the offset, and in the first 961 places of the scan what shows it; or the refusal.
#[unsafe(no_mangle)]
pub extern "C" fn strip_same(one: Table, other: Table, scan: &mut [u16]) -> SameAnswer
    ensures { handed_output result scan.new ≡ wrote_c same_c (same_of one other scan.old) }
{
    same(one, other, scan).into()
}
