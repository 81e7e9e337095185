ghost use Rattle.serde_json.specs.View.{view};
ghost use Rattle.ov_specs.specs.operations.Comment as spec;
ghost use Rattle.ov_specs.specs.rows.Database.{Database};
ghost use Rattle.ov_ops.specs.Outcomes.{IsOutcome};

use crate::empty::empty_result;
use crate::outcome::OpOutcome;
use ov_projection::{OpError, text_at};
use serde_json::Value;
use std::alloc::Global;

/// A text for a log; this server has no such log (RFC 7047, 5.2.9).
pub(crate) fn comment(alloc: Global, operation: &Value) -> OpOutcome
    ensures { (rows : Database)
        → IsOutcome (spec.comment_outcome rows (view operation.now)) result rows }
{
    match text_at(operation, "comment") {
        Some(_text) => OpOutcome::Done(empty_result(alloc)),
        None => OpOutcome::Fault(OpError::Syntax),
    }
}
