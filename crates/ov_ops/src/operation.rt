ghost use Rattle.std.specs.Prelude.{◌≡◌};
ghost use Rattle.serde_json.specs.View.{view};
ghost use Rattle.ov_specs.specs.operations.Operation as spec;
ghost use Rattle.ov_ops.specs.Outcomes.{context_of, IsOutcome};

use crate::abort::abort;
use crate::assert::assert_owner;
use crate::comment::comment;
use crate::commit::commit;
use crate::context::OpCtx;
use crate::delete::delete;
use crate::insert::insert;
use crate::mutate::mutate;
use crate::outcome::OpOutcome;
use crate::owns::Owns;
use crate::select::select;
use crate::update::update;
use crate::wait::wait;
use ov_projection::{OpError, text_at};
use ov_stage::Stage;
use serde_json::Value;
use std::alloc::Global;

/// Runs an operation that touches no row but controls its transaction (RFC 7047, 5.2.6 to 5.2.10).
fn run_control<'a, O: Owns>(
    alloc: Global,
    stage: &Stage<'_>,
    ctx: &OpCtx<'a, '_, '_, '_, O>,
    op: &str,
    operation: &'a Value,
) -> OpOutcome
    ensures { IsOutcome
        (spec.control_outcome (context_of O.owned ctx.now stage.now.before) stage.now.now
        (view operation.now) op.now)
        result stage.now.now }
{
    match op {
        "wait" => wait(alloc, stage, ctx, operation),
        "commit" => commit(alloc, operation),
        "abort" => abort(),
        "comment" => comment(alloc, operation),
        "assert" => assert_owner(alloc, ctx, operation),
        _ => OpOutcome::Fault(OpError::UnknownOperation),
    }
}

/// Runs the operation at this place of the transaction on the rows that those before it left (RFC 7047, 5.2). Reads its
/// members in the order in which the operation's section names them. After any outcome but `Done`, the stage must be dropped.
pub fn run_op<'a, O: Owns>(
    alloc: Global,
    stage: &mut Stage<'_>,
    ctx: &OpCtx<'a, '_, '_, '_, O>,
    place: usize,
    operation: &'a Value,
) -> OpOutcome
    ensures done { IsOutcome
        (spec.outcome_of (context_of O.owned ctx.now stage.old.before) place stage.old.now
        (view operation.now))
        result stage.new.now }
    ensures frame { stage.new.before ≡ stage.old.before }
{
    match text_at(operation, "op") {
        None => OpOutcome::Fault(OpError::Syntax),
        Some(op) if op == "insert" => insert(alloc, stage, ctx, place, operation).into(),
        Some(op) if op == "select" => select(alloc, stage, ctx, operation).into(),
        Some(op) if op == "update" => update(alloc, stage, ctx, operation).into(),
        Some(op) if op == "mutate" => mutate(alloc, stage, ctx, operation).into(),
        Some(op) if op == "delete" => delete(alloc, stage, ctx, operation).into(),
        Some(op) => run_control(alloc, stage, ctx, op, operation),
    }
}
