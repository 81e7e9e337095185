ghost use Rattle.std.specs.Prelude.{◌≡◌, IfOk, map};
ghost use Rattle.serde_json.specs.View.{view};
ghost use Rattle.ov_specs.specs.operations.MatchingRows.{matching};
ghost use Rattle.ov_specs.specs.operations.Select.{projection};
ghost use Rattle.ov_specs.specs.operations.OpOutcome.{OpContext};
ghost use Rattle.ov_specs.specs.operations.Wait as spec;
ghost use Rattle.ov_specs.specs.rows.Database.{Database};
ghost use Rattle.ov_ops.specs.Outcomes.{context_of, GoesOnAs, IsOutcome};
ghost use Rattle.ov_given.specs.Waiting.{until_view};

use crate::context::OpCtx;
use crate::empty::empty_result;
use crate::members::{conditions_at, table_at};
use crate::outcome::OpOutcome;
use crate::owns::Owns;
use crate::select::shown_rows;
use ov_base::Text;
use ov_conds::Condition;
use ov_given::{Until, is_met, timeout_of, told_rows, until_of};
use ov_projection::{OpError, OpFault, ShownRow, compared_columns, text_at};
use ov_stage::Stage;
use serde_json::Value;
use std::alloc::{AllocError, Global};

/// What is waited for, and for how long.
#[derive(Drop)]
struct Waited<'a> {
    table: &'a str,
    timeout: Option<u64>,
    conditions: Vec<Condition>,
    compared: Vec<Text>,
    until: Until,
    told: Vec<ShownRow>,
}

impl<'a> Waited<'a> {
    /// Reads the members in their order (RFC 7047, 5.2.6).
    fn read<O: Owns>(
        alloc: Global,
        ctx: &OpCtx<'a, '_, '_, '_, O>,
        operation: &'a Value,
    ) -> Result<Waited<'a>, OpFault>
        ensures { (before rows : Database)
            → GoesOnAs
            (spec.wait_outcome (context_of O.owned ctx.now before) rows (view operation.now))
            (λ w. spec.waits (context_of O.owned ctx.now before) w.timeout
            (spec.is_met (until_view w.until)
            (map (projection w.compared.items)
            (matching rows w.table.now w.conditions.items))
            w.told.items)
            rows)
            result }
    {
        let (name, table) = table_at(ctx, operation)?;
        let timeout = timeout_of(operation.get("timeout"))?;
        let conditions = conditions_at(alloc, ctx, table, operation)?;
        let compared = compared_columns(alloc, table, operation.get("columns"))?;
        let Some(word) = text_at(operation, "until") else {
            return Err(OpFault::Refused(OpError::Syntax));
        };
        let Some(until) = until_of(word) else {
            return Err(OpFault::Refused(OpError::Syntax));
        };
        let Some(items) = operation.get("rows").and_then(Value::as_array) else {
            return Err(OpFault::Refused(OpError::Syntax));
        };
        let told = told_rows(
            alloc,
            table,
            compared.as_slice(),
            items.as_slice(),
            ctx.inserts,
        )?;
        Ok(Waited {
            table: name,
            timeout,
            conditions,
            compared,
            until,
            told,
        })
    }
}

/// Whether the wait is met.
fn has_come(alloc: Global, stage: &Stage<'_>, waited: &Waited<'_>) -> Result<bool, AllocError>
    ensures { IfOk result (λ b. b
        ≡ spec.is_met (until_view waited.now.until)
        (map (projection waited.now.compared.items)
        (matching stage.now.now waited.now.table.now waited.now.conditions.items))
        waited.now.told.items) }
{
    let (conditions, compared) = (waited.conditions.as_slice(), waited.compared.as_slice());
    let seen = shown_rows(alloc, stage, waited.table, conditions, compared)?;
    is_met(alloc, waited.until, seen.as_slice(), waited.told.as_slice())
}

/// Ends the wait if it is met; otherwise the transaction waits on, until it is as old as the timeout.
fn come(alloc: Global, timeout: Option<u64>, age: u64, has_come: bool) -> OpOutcome
    ensures { (c : OpContext) (rows : Database) → c.age ≡ age
        → IsOutcome (spec.waits c timeout has_come rows) result rows }
{
    if has_come {
        return OpOutcome::Done(empty_result(alloc));
    }
    match timeout {
        Some(timeout) if timeout <= age => OpOutcome::Fault(OpError::TimedOut),
        _ => OpOutcome::Blocked(timeout),
    }
}

/// Waits until the matching rows are, or are not, the given ones (RFC 7047, 5.2.6).
pub(crate) fn wait<'a, O: Owns>(
    alloc: Global,
    stage: &Stage<'_>,
    ctx: &OpCtx<'a, '_, '_, '_, O>,
    operation: &'a Value,
) -> OpOutcome
    ensures { IsOutcome
        (spec.wait_outcome (context_of O.owned ctx.now stage.now.before) stage.now.now
        (view operation.now))
        result stage.now.now }
{
    let waited = match Waited::read(alloc, ctx, operation) {
        Ok(waited) => waited,
        Err(OpFault::Refused(error)) => return OpOutcome::Fault(error),
        Err(OpFault::Memory) => return OpOutcome::NoMemory,
    };
    match has_come(alloc, stage, &waited) {
        Ok(has_come) => come(alloc, waited.timeout, ctx.age, has_come),
        Err(AllocError) => OpOutcome::NoMemory,
    }
}
