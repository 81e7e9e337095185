ghost use Rattle.std.specs.Prelude.{◌≡◌};
ghost use Rattle.serde_json.specs.View.{view};
ghost use Rattle.ov_specs.specs.operations.Insert as spec;
ghost use Rattle.ov_ops.specs.Outcomes.{context_of, IsDone};

use crate::context::OpCtx;
use crate::members::table_at;
use crate::owns::Owns;
use ov_given::{name_fault, new_row, uuid_fault};
use ov_projection::{OpError, OpFault};
use ov_results::OpResult;
use ov_rows::{Columns, RowKey};
use ov_stage::Stage;
use serde_json::Value;
use std::alloc::Global;
use uuid::Uuid;

/// Whether a row of the table has the identifier now; or had it before the transaction, if it was chosen.
fn is_taken(stage: &Stage<'_>, key: &RowKey, is_chosen: bool) -> bool
    ensures { result ≡ spec.is_taken stage.now.before stage.now.now key.now is_chosen }
{
    stage.contains(key) || (is_chosen && stage.before().contains(key))
}

/// Puts the row at its identifier, which may not be taken.
fn put_new<O: Owns>(
    alloc: Global,
    stage: &mut Stage<'_>,
    ctx: &OpCtx<'_, '_, '_, '_, O>,
    table: &str,
    columns: Columns,
    is_chosen: bool,
    id: Uuid,
) -> Result<OpResult, OpFault>
    ensures done { IsDone
        (spec.put_new (context_of O.owned ctx.now stage.old.before) stage.old.now table.now columns
        is_chosen id)
        result stage.new.now }
    ensures frame { stage.new.before ≡ stage.old.before }
{
    let key = RowKey::new(alloc, table, id)?;
    if is_taken(stage, &key, is_chosen) {
        return Err(OpFault::Refused(OpError::DuplicateUuid));
    }
    stage.put(key, ctx.version, columns)?;
    Ok(OpResult::of_new_row(id))
}

/// The insert at this place of the transaction: makes a row of `row` and puts it at the identifier that it chooses, or that was
/// drawn for it (RFC 7047, 5.2.1; ovsdb-server(7), 5.2.1).
pub(crate) fn insert<'a, O: Owns>(
    alloc: Global,
    stage: &mut Stage<'_>,
    ctx: &OpCtx<'a, '_, '_, '_, O>,
    place: usize,
    operation: &'a Value,
) -> Result<OpResult, OpFault>
    ensures done { IsDone
        (spec.insert_outcome (context_of O.owned ctx.now stage.old.before) place stage.old.now
        (view operation.now))
        result stage.new.now }
    ensures frame { stage.new.before ≡ stage.old.before }
{
    let (name, table) = table_at(ctx, operation)?;
    let chosen = operation.get("uuid");
    if let Some(error) = uuid_fault(chosen) {
        return Err(OpFault::Refused(error));
    }
    if let Some(error) = name_fault(ctx.inserts, place, operation.get("uuid-name")) {
        return Err(OpFault::Refused(error));
    }
    let Some(members) = operation.get("row").and_then(Value::as_object) else {
        return Err(OpFault::Refused(OpError::Syntax));
    };
    let columns = new_row(alloc, table, members, ctx.inserts)?;
    let id = ctx.inserts.id_at(place);
    put_new(alloc, stage, ctx, name, columns, chosen.is_some(), id)
}
