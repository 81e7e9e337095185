ghost use Rattle.std.specs.Prelude.{ℕ, List};
ghost use Rattle.serde_json.specs.View.{view};
ghost use Rattle.ov_specs.specs.operations.Conditions.{Condition as condition};
ghost use Rattle.ov_specs.specs.operations.MatchingRows.{on_conditions};
ghost use Rattle.ov_specs.specs.operations.OpOutcome as spec;
ghost use Rattle.ov_specs.specs.rows.Database.{Database};
ghost use Rattle.ov_specs.specs.schema.SchemaTypes.{Table as table};
ghost use Rattle.ov_ops.specs.Outcomes.{context_of, GoesOnAs};

use crate::context::OpCtx;
use crate::owns::Owns;
use ov_conds::Condition;
use ov_projection::{OpError, OpFault, text_at};
use ov_schema::Table;
use ov_stage::conditions_of;
use serde_json::Value;
use std::alloc::Global;

/// The table that the operation names, with its name (RFC 7047, 5.2).
pub(crate) fn table_at<'a, O: Owns>(
    ctx: &OpCtx<'a, '_, '_, '_, O>,
    operation: &'a Value,
) -> Result<(&'a str, &'a Table), OpFault>
    ensures { (before : Database) (next : List ℕ → table → spec.OpOutcome)
        → GoesOnAs (spec.on_table (context_of O.owned ctx.now before) (view operation.now) next)
        (λ t. next t.0.now t.1.now) result }
{
    let Some(name) = text_at(operation, "table") else {
        return Err(OpFault::Refused(OpError::Syntax));
    };
    let Some(table) = ctx.schema.table(name) else {
        return Err(OpFault::Refused(OpError::UnknownTable));
    };
    Ok((name, table))
}

/// The conditions of `where` on rows of the table (RFC 7047, 5.2.2).
pub(crate) fn conditions_at<O: Owns>(
    alloc: Global,
    ctx: &OpCtx<'_, '_, '_, '_, O>,
    table: &Table,
    operation: &Value,
) -> Result<Vec<Condition>, OpFault>
    ensures { (before : Database) (next : List condition → spec.OpOutcome)
        → GoesOnAs
        (on_conditions (context_of O.owned ctx.now before) table.now (view operation.now) next)
        (λ v. next v.items) result }
{
    let Some(items) = operation.get("where").and_then(Value::as_array) else {
        return Err(OpFault::Refused(OpError::Syntax));
    };
    conditions_of(alloc, table, items.as_slice(), ctx.inserts)
}
