ghost use Rattle.serde_json.specs.View.{view};
ghost use Rattle.ov_specs.specs.operations.Commit as spec;
ghost use Rattle.ov_specs.specs.rows.Database.{Database};
ghost use Rattle.ov_ops.specs.Outcomes.{IsOutcome};

use crate::empty::empty_result;
use crate::outcome::OpOutcome;
use ov_projection::OpError;
use serde_json::Value;
use std::alloc::Global;

/// `durable` asks for what every commit does here (RFC 7047, 5.2.7).
pub(crate) fn commit(alloc: Global, operation: &Value) -> OpOutcome
    ensures { (rows : Database)
        → IsOutcome (spec.commit_outcome rows (view operation.now)) result rows }
{
    match operation.get("durable").and_then(Value::as_bool) {
        Some(_durable) => OpOutcome::Done(empty_result(alloc)),
        None => OpOutcome::Fault(OpError::Syntax),
    }
}
