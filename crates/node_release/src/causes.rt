//! Why a checkpoint starts.

ghost use Rattle.std.specs.Prelude.{◌≡◌};
ghost use Rattle.node_release.specs.Causes.{cause_of};

use colo_base::Cause;
use out_compare::Need;

/// The cause of a checkpoint that is needed.
pub fn cause_of(need: Need) -> Option<Cause>
    ensures { result ≡ cause_of need }
{
    match need {
        Need::Nothing => None,
        Need::Differ { .. } => Some(Cause::Differ),
        Need::Restart { .. } => Some(Cause::Restart),
        Need::Wait { .. } => Some(Cause::Wait),
    }
}
