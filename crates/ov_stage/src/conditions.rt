ghost use Rattle.std.specs.Prelude.{◌≡◌, IfOk, IfSome};
ghost use Rattle.std.specs.List.{filter};
ghost use Rattle.serde_json.specs.View.{items_view};
ghost use Rattle.ov_specs.specs.operations.MatchingRows as spec;
ghost use Rattle.ov_projection.specs.Errors.{IsOpResult};
ghost use Rattle.ov_stage.specs.Staging.{AreOnlyOf, meets};

use ov_atoms::Names;
use ov_conds::Condition;
use ov_projection::OpFault;
use ov_rows::RowView;
use ov_schema::Table;
use serde_json::Value;
use std::alloc::{AllocError, Global};
use uuid::Uuid;

/// The conditions of a `where`, or the fault of the first that cannot be read (RFC 7047, 5.2.2).
pub fn conditions_of<N: Names>(
    alloc: Global,
    table: &Table,
    items: &[Value],
    names: &N,
) -> Result<Vec<Condition>, OpFault>
    ensures { IsOpResult (λ v. v.items)
        (spec.conditions_read (N.names names.now) table.now (items_view items.now)) result }
{
    let mut conditions = Vec::new(alloc);
    for item in items {
        let condition = Condition::read(alloc, table, item, names)?;
        if let Err(refused) = conditions.push(condition) {
            return Err(AllocError::from(refused).into());
        }
    }
    Ok(conditions)
}

/// Whether a row meets all conditions; its identifier and version count as columns.
fn meets(conditions: &[Condition], row: &RowView<'_>) -> bool
    ensures { result ≡ meets conditions.now row.now }
{
    for condition in conditions {
        if !condition.holds(row) {
            return false;
        }
    }
    true
}

/// The identifier of every row that meets all conditions, if one of them asks for it.
pub(crate) fn only_id(conditions: &[Condition]) -> Option<Uuid>
    ensures { IfSome result (λ id. AreOnlyOf id conditions.now) }
{
    for condition in conditions {
        if let Some(id) = condition.only_id() {
            return Some(id);
        }
    }
    None
}

/// The rows that meet all conditions. Without conditions, returns the same rows and allocates nothing.
pub(crate) fn meeting<'a>(
    alloc: Global,
    rows: Vec<RowView<'a>>,
    conditions: &[Condition],
) -> Result<Vec<RowView<'a>>, AllocError>
    ensures { IfOk result (λ met. met.items ≡ filter (meets conditions.now) rows.entry.items) }
{
    if conditions.is_empty() {
        return Ok(rows);
    }
    let mut met = Vec::new(alloc);
    for row in &rows {
        if meets(conditions, row) {
            met.push(*row)?;
        }
    }
    Ok(met)
}
