ghost use Rattle.std.specs.Prelude.{◌≡◌, IfOk, not, option_map};
ghost use Rattle.std.specs.List.{filter, list_all, list_any};
ghost use Rattle.std.specs.Option.{option_copied};
ghost use Rattle.std.specs.FinMap.{keys, contains_key};
ghost use Rattle.serde_json.specs.Find.{as_str};
ghost use Rattle.serde_json.specs.View.{view, items_view};
ghost use Rattle.std.specs.Str.{bytes_eq};
ghost use Rattle.ov_specs.specs.operations.Select as spec;
ghost use Rattle.ov_specs.specs.operations.Wait.{compared_columns};
ghost use Rattle.ov_specs.specs.rows.RowNames.{is_own_column};
ghost use Rattle.ov_specs.specs.values.Reading.{each_read, list_read};
ghost use Rattle.ov_projection.specs.Errors.{IsOpResult};

use crate::fault::{OpError, OpFault};
use ov_base::Text;
use ov_schema::{Table, is_own};
use serde_json::Value;
use std::alloc::{AllocError, Global};

fn each_text(alloc: Global, items: &[Value]) -> Result<Option<Vec<Text>>, AllocError>
    ensures { IfOk result (λ o. option_map (λ v. v.items) o
        ≡ each_read as_str (items_view items.now)) }
{
    let mut texts = Vec::new(alloc);
    for item in items {
        match item.as_str() {
            Some(text) => texts.push(Text::from_str(alloc, text)?)?,
            None => return Ok(None),
        }
    }
    Ok(Some(texts))
}

/// The texts of an array.
fn texts_of(alloc: Global, tree: &Value) -> Result<Option<Vec<Text>>, AllocError>
    ensures { IfOk result (λ o. option_map (λ v. v.items) o ≡ list_read as_str (view tree.now)) }
{
    match tree.as_array() {
        Some(items) => each_text(alloc, items.as_slice()),
        None => Ok(None),
    }
}

/// Whether the name is one of these.
pub fn is_among(names: &[Text], name: &str) -> bool
    ensures { result ≡ list_any (bytes_eq name.now) names.now }
{
    for named in names {
        if name == named.as_str() {
            return true;
        }
    }
    false
}

fn are_known(table: &Table, names: &[Text]) -> bool
    ensures { result ≡ list_all (contains_key table.now.columns) names.now }
{
    for name in names {
        if table.column(name.as_str()).is_none() {
            return false;
        }
    }
    true
}

/// The named columns of the table, in ascending order.
fn columns_named(alloc: Global, table: &Table, names: &[Text]) -> Result<Vec<Text>, AllocError>
    ensures { IfOk result (λ v. v.items ≡ spec.columns_named table.now names.now) }
{
    let mut named = Vec::new(alloc);
    for (name, _column) in table.columns() {
        if is_among(names, name.as_str()) {
            named.push(Text::from_str(alloc, name.as_str())?)?;
        }
    }
    Ok(named)
}

fn all_columns(alloc: Global, table: &Table) -> Result<Vec<Text>, AllocError>
    ensures { IfOk result (λ v. v.items ≡ keys table.now.columns) }
{
    let mut names = Vec::new(alloc);
    for (name, _column) in table.columns() {
        names.push(Text::from_str(alloc, name.as_str())?)?;
    }
    Ok(names)
}

/// The columns of the table but `_uuid` and `_version`, in ascending order.
fn other_columns(alloc: Global, table: &Table) -> Result<Vec<Text>, AllocError>
    ensures { IfOk result (λ v. v.items
        ≡ filter (λ name. not (is_own_column name)) (keys table.now.columns)) }
{
    let mut names = Vec::new(alloc);
    for (name, _column) in table.columns() {
        if !is_own(name.as_str()) {
            names.push(Text::from_str(alloc, name.as_str())?)?;
        }
    }
    Ok(names)
}

/// The columns that an array names, in ascending order (RFC 7047, 5.2.2).
pub fn listed_columns(alloc: Global, table: &Table, columns: &Value) -> Result<Vec<Text>, OpFault>
    ensures { IsOpResult (λ v. v.items)
        (spec.listed_columns table.now (list_read as_str (view columns.now))) result }
{
    let Some(names) = texts_of(alloc, columns)? else {
        return Err(OpFault::Refused(OpError::Syntax));
    };
    if !are_known(table, names.as_slice()) {
        return Err(OpFault::Refused(OpError::UnknownColumn));
    }
    Ok(columns_named(alloc, table, names.as_slice())?)
}

/// The chosen columns; without `columns` all of them (RFC 7047, 5.2.2).
pub fn chosen_columns(
    alloc: Global,
    table: &Table,
    columns: Option<&Value>,
) -> Result<Vec<Text>, OpFault>
    ensures { IsOpResult (λ v. v.items)
        (spec.selected_columns table.now (option_map view (option_copied columns.entry))) result }
{
    match columns {
        Some(columns) => listed_columns(alloc, table, columns),
        None => Ok(all_columns(alloc, table)?),
    }
}

/// The columns to compare; without `columns` all but `_uuid` and `_version` (RFC 7047, 5.2.6, which names no default).
pub fn compared_columns(
    alloc: Global,
    table: &Table,
    columns: Option<&Value>,
) -> Result<Vec<Text>, OpFault>
    ensures { IsOpResult (λ v. v.items)
        (compared_columns table.now (option_map view (option_copied columns.entry))) result }
{
    match columns {
        Some(columns) => listed_columns(alloc, table, columns),
        None => Ok(other_columns(alloc, table)?),
    }
}
