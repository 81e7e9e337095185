ghost use Rattle.std.specs.Prelude.{◌≡◌, IfOk, IfErr, Some, option_and_then, option_map};
ghost use Rattle.serde_json.specs.Find as find;
ghost use Rattle.serde_json.specs.View.{view};
ghost use Rattle.ov_specs.specs.rows.Held.{OneText, columns_stored, if_fits, row_of_body};
ghost use Rattle.ov_specs.specs.rows.Suits.{is_value_for};
ghost use Rattle.ov_specs.specs.schema.SchemaTypes.{kinds_of};
ghost use Rattle.ov_specs.specs.values.Reading.{reads};
ghost use Rattle.ov_specs.specs.values.Uuid.{no_names};
ghost use Rattle.ov_specs.specs.wire.Message.{tree_of};
ghost use Rattle.ov_keeper.specs.declared.fault.KeepFault.TheVariants.{Memory};
ghost use Rattle.ov_stored.specs.Loading.{IsLoaded, whole_entry};
ghost use Rattle.ov_stored.specs.Guessed.{are_values_for};
ghost use Rattle.ov_stored.specs.Stored.{row_stored};
ghost use Rattle.ov_stored.specs.declared.fault.OpenFault.TheVariants.{Keeping};

use crate::fault::OpenFault;
use ov_atoms::{AtomFault, Datum, NoNames, read_datum};
use ov_keeper::{KeepFault, Line};
use ov_rows::{BodyReader, Columns, NamedValues, Row, ValueIter};
use ov_schema::{Column, Schema, Table, is_own};
use serde_json::Value;
use std::alloc::Global;

/// The row that a line of format 1 holds. Refused as `BadBody` if the schema has no such table, if the body lacks a fitting
/// value for a column, or if the row would be stored as other bytes, even by one space.
pub fn row_of(alloc: Global, schema: &Schema, line: &Line) -> Result<Row, OpenFault>
    ensures { IsLoaded (λ row. row) (row_stored schema.now (whole_entry line.now).0
        (whole_entry line.now).1) result }
{
    let mut reader = BodyReader::new(alloc);
    next_row(alloc, &mut reader, schema, line)
}

/// As `row_of`, with a reader that is reused line after line.
pub(crate) fn next_row(
    alloc: Global,
    reader: &mut BodyReader,
    schema: &Schema,
    line: &Line,
) -> Result<Row, OpenFault>
    ensures { IsLoaded (λ row. row) (row_stored schema.now (whole_entry line.now).0
        (whole_entry line.now).1) result }
{
    match schema.table(line.table.as_str()) {
        Some(table) => row_of_table(alloc, reader, table, line),
        None => Err(OpenFault::BadBody),
    }
}

/// The row of a table that a stored line holds. If guessing finds no row, the body is read in full.
fn row_of_table(
    alloc: Global,
    reader: &mut BodyReader,
    table: &Table,
    line: &Line,
) -> Result<Row, OpenFault>
    ensures { IsLoaded (λ row. row) (row_of_body table.now line.now.version
        (OneText line.now.body)) result }
{
    match row_by_guess(alloc, reader, table, line) {
        Ok(row) => Ok(row),
        Err(AtomFault::Memory) => Err(OpenFault::Keeping(KeepFault::Memory)),
        Err(AtomFault::Syntax | AtomFault::Clash) => row_in_full(alloc, table, line),
    }
}

/// The row of a table whose text is the line's body, if guessing finds it. Any fault other than `Memory` only says that it
/// found none.
fn row_by_guess(
    alloc: Global,
    reader: &mut BodyReader,
    table: &Table,
    line: &Line,
) -> Result<Row, AtomFault>
    ensures { IfOk result (λ row. row_of_body table.now line.now.version (OneText line.now.body)
        ≡ Some row) }
{
    let columns = reader.columns(alloc, table.row_shape(), line.body.as_slice())?;
    if !are_values_for(table, columns.values()) {
        return Err(AtomFault::Syntax);
    }
    Ok(Row {
        version: line.version,
        columns,
    })
}

/// Whether these are values for the table's columns except `_uuid` and `_version`, one for each and in their order.
pub(crate) fn are_values_for(table: &Table, values: ValueIter<'_>) -> bool
    ensures { result ≡ are_values_for table.now values.entry }
{
    let mut rest = values;
    for (name, column) in table.columns() {
        if !is_own(name.as_str()) {
            let Some(datum) = rest.next() else {
                return false;
            };
            if !is_value_for(column, datum) {
                return false;
            }
        }
    }
    rest.next().is_none()
}

/// Whether this is a value of the column's kinds that fits it.
fn is_value_for(column: &Column, datum: &Datum) -> bool
    ensures { result ≡ is_value_for column.now datum.now }
{
    datum.is_of(column.kinds()) && column.fits(datum)
}

/// The row of a table that a stored line holds, read from the tree of its body.
fn row_in_full(alloc: Global, table: &Table, line: &Line) -> Result<Row, OpenFault>
    ensures { IsLoaded (λ row. row) (row_of_body table.now line.now.version
        (OneText line.now.body)) result }
{
    let columns = columns_of(alloc, table, line.body.as_slice())?;
    let row = Row {
        version: line.version,
        columns,
    };
    let stored = row.columns.text(alloc)?;
    if stored.as_slice() == line.body.as_slice() {
        Ok(row)
    } else {
        Err(OpenFault::BadBody)
    }
}

/// All columns of the table except `_uuid` and `_version`, each with its value from the text.
fn columns_of(alloc: Global, table: &Table, text: &[u8]) -> Result<Columns, OpenFault>
    ensures { IsLoaded (λ columns. columns) (columns_stored (OneText text.now) table.now) result }
{
    let values = values_of(alloc, table, text)?;
    Ok(Columns::of(alloc, table.row_shape(), values)?)
}

/// The values that the text has for all columns of the table except `_uuid` and `_version`.
fn values_of(alloc: Global, table: &Table, text: &[u8]) -> Result<NamedValues, OpenFault>
    ensures { IsLoaded (λ values. values) (columns_stored (OneText text.now) table.now) result }
{
    let body = tree_of(alloc, text)?;
    let mut values = NamedValues::new(alloc);
    for (name, column) in table.columns() {
        if !is_own(name.as_str()) {
            let datum = value_of(alloc, &body, name.as_str(), column)?;
            values.insert(String::from_str(alloc, name.as_str())?, datum)?;
        }
    }
    Ok(values)
}

/// The tree of a text, if it is JSON.
pub(crate) fn tree_of(alloc: Global, text: &[u8]) -> Result<Option<Value>, OpenFault>
    ensures ok { IfOk result (λ tree. option_map view tree ≡ tree_of text.now) }
    ensures err { IfErr result (λ fault. fault ≡ Keeping Memory) }
{
    match Value::from_slice(alloc, text) {
        Ok(tree) => Ok(Some(tree)),
        Err(error) if error.is_memory() => Err(OpenFault::Keeping(KeepFault::Memory)),
        Err(_) => Ok(None),
    }
}

/// The body's value for a column, if it fits.
fn value_of(
    alloc: Global,
    body: &Option<Value>,
    name: &str,
    column: &Column,
) -> Result<Datum, OpenFault>
    ensures { IsLoaded (λ datum. datum) (option_and_then
        (λ d. if_fits column.now (reads no_names (kinds_of column.now.type_of) d))
        (option_and_then (find.get name.now) (option_map view body.now))) result }
{
    let Some(body) = body else {
        return Err(OpenFault::BadBody);
    };
    let Some(tree) = body.get(name) else {
        return Err(OpenFault::BadBody);
    };
    value_in(alloc, tree, column)
}

/// The value that a tree stands for, if it fits the column.
pub(crate) fn value_in(alloc: Global, tree: &Value, column: &Column) -> Result<Datum, OpenFault>
    ensures { IsLoaded (λ datum. datum) (if_fits column.now
        (reads no_names (kinds_of column.now.type_of) (view tree.now))) result }
{
    match read_datum(alloc, tree, column.kinds(), &NoNames) {
        Ok(datum) if column.fits(&datum) => Ok(datum),
        Ok(_) | Err(AtomFault::Syntax | AtomFault::Clash) => Err(OpenFault::BadBody),
        Err(AtomFault::Memory) => Err(OpenFault::Keeping(KeepFault::Memory)),
    }
}
