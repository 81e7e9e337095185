ghost use Rattle.ov_specs.specs.operations.Abort as spec;
ghost use Rattle.ov_specs.specs.rows.Database.{Database};
ghost use Rattle.ov_ops.specs.Outcomes.{IsOutcome};

use crate::outcome::OpOutcome;
use ov_projection::OpError;

/// Fails the transaction, whatever members the operation has (RFC 7047, 5.2.8).
pub(crate) fn abort() -> OpOutcome
    ensures { (rows : Database) → IsOutcome spec.abort_outcome result rows }
{
    OpOutcome::Fault(OpError::Aborted)
}
