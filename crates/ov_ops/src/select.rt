ghost use Rattle.std.specs.Prelude.{◌≡◌, IfOk, map, true};
ghost use Rattle.serde_json.specs.View.{view, items_of};
ghost use Rattle.ov_specs.specs.operations.MatchingRows.{matching};
ghost use Rattle.ov_specs.specs.operations.Select as spec;
ghost use Rattle.ov_ops.specs.Outcomes.{context_of, IsDone};
ghost use Rattle.ov_ops.specs.Shown.{shown_of};

use crate::ahead::look_ahead;
use crate::context::OpCtx;
use crate::members::{conditions_at, table_at};
use crate::owns::Owns;
use ov_base::Text;
use ov_conds::Condition;
use ov_projection::{OpFault, ShownRow, chosen_columns, shown_tree};
use ov_results::{ArrayText, OpResult};
use ov_rows::RowView;
use ov_stage::Stage;
use serde_json::Value;
use std::alloc::{AllocError, Global};
use std::collections::BTreeSet;

/// What is shown of these rows.
fn shown_of(
    alloc: Global,
    names: &[Text],
    rows: &[RowView<'_>],
) -> Result<Vec<ShownRow>, AllocError>
    ensures { IfOk result (λ v. v.items ≡ map (shown_of names.now) rows.now) }
{
    let mut shown = Vec::with_capacity(alloc, rows.len())?;
    for row in rows {
        shown.push(ShownRow::of(alloc, names, row)?)?;
    }
    Ok(shown)
}

/// What is shown of the table's rows that meet the conditions, in ascending order of their identifiers.
pub(crate) fn shown_rows(
    alloc: Global,
    stage: &Stage<'_>,
    table: &str,
    conditions: &[Condition],
    names: &[Text],
) -> Result<Vec<ShownRow>, AllocError>
    ensures { IfOk result (λ v. v.items
        ≡ map (spec.projection names.now) (matching stage.now.now table.now conditions.now)) }
{
    let found = stage.matching(alloc, table, conditions)?;
    shown_of(alloc, names, found.as_slice())
}

/// What is shown of these rows, as text.
fn text_of(alloc: Global, names: &[Text], rows: &[RowView<'_>]) -> Result<ArrayText, AllocError>
    ensures { IfOk result (λ text. text
        ≡ items_of (map (λ r. spec.written_row (shown_of names.now r)) rows.now)) }
{
    let mut text = ArrayText::new(alloc);
    for at in 0..rows.len() {
        look_ahead(&mut text, names, rows, at)?;
        text.push(alloc, shown_tree(alloc, names, &rows[at])?.into())?;
    }
    Ok(text)
}

/// These rows as text; of equal rows, the first alone.
fn text_once(alloc: Global, rows: &[ShownRow]) -> Result<ArrayText, AllocError>
    ensures { IfOk result (λ text. text
        ≡ items_of (map spec.written_row (spec.without_repeats rows.now))) }
{
    let mut seen = BTreeSet::new(alloc);
    let mut text = ArrayText::new(alloc);
    for row in rows {
        if seen.insert(row)? {
            text.push(alloc, row.tree(alloc)?.into())?;
        }
    }
    Ok(text)
}

/// What is shown of these rows without repeats, as text. If the columns tell the rows apart, no repeats are looked for.
fn text_shown(
    alloc: Global,
    are_apart: bool,
    names: &[Text],
    rows: &[RowView<'_>],
) -> Result<ArrayText, AllocError>
    requires { are_apart ≡ true
        → spec.without_repeats (map (shown_of names.now) rows.now)
        ≡ map (shown_of names.now) rows.now }
    ensures { IfOk result (λ text. text
        ≡ items_of
        (map spec.written_row (spec.without_repeats (map (shown_of names.now) rows.now)))) }
{
    if are_apart {
        return text_of(alloc, names, rows);
    }
    let shown = shown_of(alloc, names, rows)?;
    text_once(alloc, shown.as_slice())
}

/// The result of a select: these columns of the table's rows that meet all conditions, in ascending order of their
/// identifiers; of rows that are equal in all these columns, the first alone (RFC 7047, 5.2.2).
pub fn select_result(
    alloc: Global,
    stage: &Stage<'_>,
    table: &str,
    conditions: &[Condition],
    names: &[Text],
) -> Result<OpResult, AllocError>
    ensures { IfOk result (λ r. r
        ≡ spec.select_result
        (spec.without_repeats
        (map (spec.projection names.now)
        (matching stage.now.now table.now conditions.now)))) }
{
    let rows = stage.matching(alloc, table, conditions)?;
    let are_apart = stage.tells_apart(table, names);
    let text = text_shown(alloc, are_apart, names, rows.as_slice())?;
    Ok(OpResult::of_rows(text))
}

/// The chosen columns of the matching rows (RFC 7047, 5.2.2).
pub(crate) fn select<'a, O: Owns>(
    alloc: Global,
    stage: &Stage<'_>,
    ctx: &OpCtx<'a, '_, '_, '_, O>,
    operation: &'a Value,
) -> Result<OpResult, OpFault>
    ensures { IsDone
        (spec.select_outcome (context_of O.owned ctx.now stage.now.before) stage.now.now
        (view operation.now))
        result stage.now.now }
{
    let (name, table) = table_at(ctx, operation)?;
    let conditions = conditions_at(alloc, ctx, table, operation)?;
    let names = chosen_columns(alloc, table, operation.get("columns"))?;
    Ok(select_result(alloc, stage, name, conditions.as_slice(), names.as_slice())?)
}
