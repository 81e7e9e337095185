ghost use Rattle.std.specs.Prelude.{◌≡◌, IfOk, map, option_map, option_and_then};
ghost use Rattle.std.specs.FinMap.{get};
ghost use Rattle.std.specs.Option.{option_copied};
ghost use Rattle.serde_json.specs.Find.{as_number};
ghost use Rattle.serde_json.specs.View.{view, items_view, members_view};
ghost use Rattle.ov_specs.specs.operations.Wait as wait;
ghost use Rattle.ov_specs.specs.values.Reading.{integer_read};
ghost use Rattle.ov_projection.specs.Errors.{IsOpResult};

use ov_atoms::{AtomFault, Datum, Names, read_datum};
use ov_base::Text;
use ov_projection::{OpError, OpFault, ShownRow, is_among};
use ov_rows::NamedValues;
use ov_schema::{Column, Table};
use serde_json::{Map, Value};
use std::alloc::{AllocError, Global};

/// The number of a tree, if it is at least 0.
fn natural_of(tree: &Value) -> Option<u64>
    ensures { result
        ≡ option_and_then wait.natural (option_and_then integer_read (as_number (view tree.now))) }
{
    match tree.as_i64() {
        Some(number) => u64::try_from(number).ok(),
        None => None,
    }
}

/// The `timeout` of a `wait` in milliseconds, an integer that is at least 0; `None` if it is left out (RFC 7047, 5.2.6).
pub fn timeout_of(tree: Option<&Value>) -> Result<Option<u64>, OpFault>
    ensures { IsOpResult (λ o. o) (wait.timeout_read (option_map view (option_copied tree.entry)))
        result }
{
    let Some(tree) = tree else {
        return Ok(None);
    };
    match natural_of(tree) {
        Some(milliseconds) => Ok(Some(milliseconds)),
        None => Err(OpFault::Refused(OpError::Syntax)),
    }
}

/// The value stated for one of the compared columns. It has the kinds of the column, but need not meet its constraints.
fn told_value<N: Names>(
    alloc: Global,
    compared: &[Text],
    name: &str,
    column: Option<&Column>,
    tree: &Value,
    names: &N,
) -> Result<Datum, OpFault>
    ensures { IsOpResult (λ d. d)
        (wait.told_value (N.names names.now) compared.now name.now (option_copied column.entry)
        (view tree.now))
        result }
{
    let Some(column) = column else {
        return Err(OpFault::Refused(OpError::Syntax));
    };
    if !is_among(compared, name) {
        return Err(OpFault::Refused(OpError::Syntax));
    }
    match read_datum(alloc, tree, column.kinds(), names) {
        Ok(datum) => Ok(datum),
        Err(AtomFault::Syntax) => Err(OpFault::Refused(OpError::Syntax)),
        Err(AtomFault::Clash) => Err(OpFault::Refused(OpError::Constraint)),
        Err(AtomFault::Memory) => Err(OpFault::Memory),
    }
}

/// The values stated for a row, in ascending order of their names, or the fault of the first that has one.
fn told_values<N: Names>(
    alloc: Global,
    table: &Table,
    compared: &[Text],
    members: &Map<String, Value>,
    names: &N,
) -> Result<NamedValues, OpFault>
    ensures { IsOpResult (λ v. v)
        (wait.told_values (N.names names.now) table.now compared.now
        (members_view members.now.entries))
        result }
{
    let mut values = NamedValues::new(alloc);
    for (name, tree) in members.iter() {
        let column = table.column(name.as_str());
        let datum = told_value(alloc, compared, name.as_str(), column, tree, names)?;
        values.insert(String::from_str(alloc, name.as_str())?, datum)?;
    }
    Ok(values)
}

/// The value stated for a column.
fn told_of<'a>(told: &'a NamedValues, name: &str) -> Option<&'a Datum>
    ensures { option_copied result ≡ get told.now name.now }
{
    told.map().get(name)
}

/// The value stated for a column of the table, or else its default.
fn told_or_default(
    alloc: Global,
    table: &Table,
    told: &NamedValues,
    name: &str,
) -> Result<Option<Datum>, AllocError>
    ensures { IfOk result (λ o. o ≡ wait.told_or_default table.now told.now name.now) }
{
    let Some(column) = table.column(name) else {
        return Ok(None);
    };
    match told_of(told, name) {
        Some(datum) => Ok(Some(datum.copy(alloc)?)),
        None => Ok(Some(column.default_of(alloc)?)),
    }
}

/// A stated row, seen as a row of the table is: the compared columns, in their order.
fn told_projection(
    alloc: Global,
    table: &Table,
    compared: &[Text],
    told: &NamedValues,
) -> Result<ShownRow, AllocError>
    ensures { IfOk result (λ r. r ≡ wait.told_projection table.now compared.now told.now) }
{
    let mut columns = Vec::new(alloc);
    for name in compared {
        if let Some(datum) = told_or_default(alloc, table, told, name.as_str())? {
            columns.push((String::from_str(alloc, name.as_str())?, datum))?;
        }
    }
    Ok(ShownRow::new(columns))
}

/// The values that a tree, which is an object, states for a row.
fn told_row<N: Names>(
    alloc: Global,
    table: &Table,
    compared: &[Text],
    tree: &Value,
    names: &N,
) -> Result<NamedValues, OpFault>
    ensures { IsOpResult (λ v. v)
        (wait.told_row (N.names names.now) table.now compared.now (view tree.now)) result }
{
    match tree.as_object() {
        Some(members) => told_values(alloc, table, compared, members, names),
        None => Err(OpFault::Refused(OpError::Syntax)),
    }
}

/// The `rows` of a `wait`, each read entirely before the next, or the fault of the first that has one. A row states values of
/// the compared columns, and is seen with the defaults of those that it leaves out (RFC 7047, 5.2.6, which sets no order).
pub fn told_rows<N: Names>(
    alloc: Global,
    table: &Table,
    compared: &[Text],
    items: &[Value],
    names: &N,
) -> Result<Vec<ShownRow>, OpFault>
    ensures { IsOpResult (λ v. v.items)
        (wait.told_rows (N.names names.now) table.now compared.now (items_view items.now)) result }
{
    let mut rows = Vec::new(alloc);
    for item in items {
        let told = told_row(alloc, table, compared, item, names)?;
        let row = told_projection(alloc, table, compared, &told)?;
        if let Err(refused) = rows.push(row) {
            return Err(AllocError::from(refused).into());
        }
    }
    Ok(rows)
}
