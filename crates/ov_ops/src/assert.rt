ghost use Rattle.serde_json.specs.View.{view};
ghost use Rattle.ov_specs.specs.operations.Assert as spec;
ghost use Rattle.ov_ops.specs.Outcomes.{context_of, IsOutcome};
ghost use Rattle.ov_specs.specs.rows.Database.{Database};

use crate::context::OpCtx;
use crate::empty::empty_result;
use crate::outcome::OpOutcome;
use crate::owns::Owns;
use ov_atoms::is_id;
use ov_projection::{OpError, text_at};
use serde_json::Value;
use std::alloc::Global;

/// Fails the transaction unless its session owns the lock when it is tried (RFC 7047, 5.2.10).
pub(crate) fn assert_owner<O: Owns>(
    alloc: Global,
    ctx: &OpCtx<'_, '_, '_, '_, O>,
    operation: &Value,
) -> OpOutcome
    ensures { (before rows : Database)
        → IsOutcome
        (spec.assert_outcome (context_of O.owned ctx.now before) rows (view operation.now))
        result rows }
{
    match text_at(operation, "lock") {
        Some(name) if is_id(name) => {
            if ctx.owns.owns(name) {
                OpOutcome::Done(empty_result(alloc))
            } else {
                OpOutcome::Fault(OpError::NotOwner)
            }
        }
        _ => OpOutcome::Fault(OpError::Syntax),
    }
}
