ghost use Rattle.std.specs.Prelude.{◌≡◌};
ghost use Rattle.serde_json.specs.View.{view};
ghost use Rattle.ov_specs.specs.operations.Mutate as spec;
ghost use Rattle.ov_specs.specs.operations.MatchingRows.{matching};
ghost use Rattle.ov_ops.specs.Outcomes.{context_of, IsDone};
ghost use Rattle.ov_projection.specs.Errors.{IsOpResult};

use crate::changed::put_rows;
use crate::context::OpCtx;
use crate::count::count_result;
use crate::members::{conditions_at, table_at};
use crate::owns::Owns;
use ov_conds::Condition;
use ov_given::{mutated_columns, mutations_of};
use ov_mutate::Mutation;
use ov_projection::{OpError, OpFault};
use ov_results::OpResult;
use ov_rows::{Columns, RowKey};
use ov_stage::Stage;
use serde_json::Value;
use std::alloc::{AllocError, Global};

/// The table's rows that meet all conditions, mutated one after another, or the error of the first that has one.
fn mutated_rows(
    alloc: Global,
    stage: &Stage<'_>,
    table: &str,
    conditions: &[Condition],
    mutations: &[Mutation<'_>],
) -> Result<Vec<(RowKey, Columns)>, OpFault>
    ensures { IsOpResult (λ v. v.items)
        (spec.mutated_rows mutations.now (matching stage.now.now table.now conditions.now)) result }
{
    let mut changed = Vec::new(alloc);
    let rows = stage.matching(alloc, table, conditions)?;
    for row in &rows {
        let stored = row.row;
        let columns = mutated_columns(alloc, mutations, &stored.columns)?;
        let key = RowKey::new(alloc, table, *row.id)?;
        if let Err(refused) = changed.push((key, columns)) {
            return Err(AllocError::from(refused).into());
        }
    }
    Ok(changed)
}

/// Applies the mutations to the matching rows, and counts these (RFC 7047, 5.2.4).
pub(crate) fn mutate<'a, O: Owns>(
    alloc: Global,
    stage: &mut Stage<'_>,
    ctx: &OpCtx<'a, '_, '_, '_, O>,
    operation: &'a Value,
) -> Result<OpResult, OpFault>
    ensures done { IsDone
        (spec.mutate_outcome (context_of O.owned ctx.now stage.old.before) stage.old.now
        (view operation.now))
        result stage.new.now }
    ensures frame { stage.new.before ≡ stage.old.before }
{
    let (name, table) = table_at(ctx, operation)?;
    let conditions = conditions_at(alloc, ctx, table, operation)?;
    let Some(items) = operation.get("mutations").and_then(Value::as_array) else {
        return Err(OpFault::Refused(OpError::Syntax));
    };
    let mutations = mutations_of(alloc, table, items.as_slice(), ctx.inserts)?;
    let changed = mutated_rows(
        alloc,
        stage,
        name,
        conditions.as_slice(),
        mutations.as_slice(),
    )?;
    let result = count_result(alloc, changed.len())?;
    put_rows(stage, ctx, changed)?;
    Ok(result)
}
