ghost use Rattle.std.specs.Prelude.{◌≡◌, IfOk, map};
ghost use Rattle.serde_json.specs.View.{view};
ghost use Rattle.ov_specs.specs.operations.MatchingRows.{matching};
ghost use Rattle.ov_specs.specs.operations.Update as spec;
ghost use Rattle.ov_ops.specs.Outcomes.{context_of, IsDone};

use crate::changed::put_rows;
use crate::context::OpCtx;
use crate::count::count_result;
use crate::members::{conditions_at, table_at};
use crate::owns::Owns;
use ov_conds::Condition;
use ov_given::{GivenRow, given_over, given_values};
use ov_projection::{OpError, OpFault};
use ov_results::OpResult;
use ov_rows::{Columns, NamedValues, RowKey};
use ov_stage::Stage;
use serde_json::Value;
use std::alloc::{AllocError, Global};

/// The table's rows that meet all conditions, with the given values in place of theirs.
fn updated_rows(
    alloc: Global,
    stage: &Stage<'_>,
    table: &str,
    conditions: &[Condition],
    given: &NamedValues,
) -> Result<Vec<(RowKey, Columns)>, AllocError>
    ensures { IfOk result (λ v. v.items
        ≡ map (spec.updated_row given.now) (matching stage.now.now table.now conditions.now)) }
{
    let mut changed = Vec::new(alloc);
    let rows = stage.matching(alloc, table, conditions)?;
    for row in &rows {
        let stored = row.row;
        let key = RowKey::new(alloc, table, *row.id)?;
        changed.push((key, given_over(alloc, given, &stored.columns)?))?;
    }
    Ok(changed)
}

/// Gives the matching rows these values, and counts them, changed or not (RFC 7047, 5.2.3).
pub(crate) fn update<'a, O: Owns>(
    alloc: Global,
    stage: &mut Stage<'_>,
    ctx: &OpCtx<'a, '_, '_, '_, O>,
    operation: &'a Value,
) -> Result<OpResult, OpFault>
    ensures done { IsDone
        (spec.update_outcome (context_of O.owned ctx.now stage.old.before) stage.old.now
        (view operation.now))
        result stage.new.now }
    ensures frame { stage.new.before ≡ stage.old.before }
{
    let (name, table) = table_at(ctx, operation)?;
    let conditions = conditions_at(alloc, ctx, table, operation)?;
    let Some(members) = operation.get("row").and_then(Value::as_object) else {
        return Err(OpFault::Refused(OpError::Syntax));
    };
    let given = given_values(alloc, GivenRow::Changed, table, members, ctx.inserts)?;
    let changed = updated_rows(alloc, stage, name, conditions.as_slice(), &given)?;
    let result = count_result(alloc, changed.len())?;
    put_rows(stage, ctx, changed)?;
    Ok(result)
}
