ghost use Rattle.std.specs.Prelude.{◌≡◌, IfOk, OnOk, map};
ghost use Rattle.serde_json.specs.View.{view};
ghost use Rattle.ov_specs.specs.operations.Delete as spec;
ghost use Rattle.ov_specs.specs.operations.MatchingRows.{without_rows, matching};
ghost use Rattle.ov_ops.specs.Outcomes.{context_of, IsDone};

use crate::context::OpCtx;
use crate::count::count_result;
use crate::members::{conditions_at, table_at};
use crate::owns::Owns;
use ov_conds::Condition;
use ov_projection::OpFault;
use ov_results::OpResult;
use ov_rows::RowKey;
use ov_stage::Stage;
use serde_json::Value;
use std::alloc::{AllocError, Global};

/// The keys of the table's rows that meet all conditions.
fn keys_of(
    alloc: Global,
    stage: &Stage<'_>,
    table: &str,
    conditions: &[Condition],
) -> Result<Vec<RowKey>, AllocError>
    ensures { IfOk result (λ v. v.items
        ≡ map (λ r. r.0) (matching stage.now.now table.now conditions.now)) }
{
    let mut keys = Vec::new(alloc);
    let rows = stage.matching(alloc, table, conditions)?;
    for row in &rows {
        keys.push(RowKey::new(alloc, table, *row.id)?)?;
    }
    Ok(keys)
}

/// Removes the rows at these keys.
fn remove_rows(stage: &mut Stage<'_>, keys: Vec<RowKey>) -> Result<(), AllocError>
    ensures rows { OnOk result (stage.new
        ≡ record stage.old { now = without_rows keys.items stage.old.now }) }
    ensures frame { stage.new.before ≡ stage.old.before }
{
    for key in keys {
        stage.remove(key)?;
    }
    Ok(())
}

/// Removes the matching rows, and counts them (RFC 7047, 5.2.5).
pub(crate) fn delete<'a, O: Owns>(
    alloc: Global,
    stage: &mut Stage<'_>,
    ctx: &OpCtx<'a, '_, '_, '_, O>,
    operation: &'a Value,
) -> Result<OpResult, OpFault>
    ensures done { IsDone
        (spec.delete_outcome (context_of O.owned ctx.now stage.old.before) stage.old.now
        (view operation.now))
        result stage.new.now }
    ensures frame { stage.new.before ≡ stage.old.before }
{
    let (name, table) = table_at(ctx, operation)?;
    let conditions = conditions_at(alloc, ctx, table, operation)?;
    let keys = keys_of(alloc, stage, name, conditions.as_slice())?;
    let result = count_result(alloc, keys.len())?;
    remove_rows(stage, keys)?;
    Ok(result)
}
