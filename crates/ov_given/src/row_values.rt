ghost use Rattle.std.specs.Prelude.{◌≡◌, IfOk};
ghost use Rattle.std.specs.Option.{option_copied};
ghost use Rattle.serde_json.specs.View.{view, members_view};
ghost use Rattle.ov_specs.specs.operations.GivenRow as rows;
ghost use Rattle.ov_specs.specs.operations.Insert as insert;
ghost use Rattle.ov_specs.specs.schema.SchemaTypes.{kinds_of};
ghost use Rattle.ov_specs.specs.values.Reading.{Reads, reads};
ghost use Rattle.ov_projection.specs.Errors.{IsOpResult};
ghost use Rattle.ov_given.specs.Rows.{may_be};

use ov_atoms::{AtomFault, Datum, Names, read_datum};
use ov_projection::{OpError, OpFault};
use ov_rows::{Columns, NamedValues};
use ov_schema::{Column, Table, is_own};
use serde_json::{Map, Value};
use std::alloc::{AllocError, Global};

/// Which row the values are given to.
#[derive(Clone, Copy, Debug, PartialEq, Eq)]
pub enum GivenRow {
    /// One that an insert makes: all columns may be given except `_uuid` and `_version` (RFC 7047, 5.2.1).
    New,
    /// One that exists: of these columns only the mutable ones (RFC 7047, 5.2.3, and 3.2, `<column-schema>`).
    Changed,
}

impl GivenRow {
    /// Whether the row may be given a value in the column of this name.
    fn may_be(self, name: &str, column: &Column) -> bool
        ensures { result ≡ may_be self name.now column.now }
    {
        match self {
            GivenRow::New => !is_own(name),
            GivenRow::Changed => !is_own(name) && column.is_mutable(),
        }
    }
}

/// The value, if it fits its column.
fn fitting(column: &Column, datum: Datum) -> Result<Datum, OpFault>
    ensures { IsOpResult (λ d. d) (rows.fitting_reading column.now (Reads datum)) result }
{
    if column.fits(&datum) {
        Ok(datum)
    } else {
        Err(OpFault::Refused(OpError::Constraint))
    }
}

/// The value that a tree gives a column (RFC 7047, 5.1, `<value>`).
fn value_read<N: Names>(
    alloc: Global,
    column: &Column,
    tree: &Value,
    names: &N,
) -> Result<Datum, OpFault>
    ensures { IsOpResult (λ d. d)
        (rows.fitting_reading column.now
        (reads (N.names names.now) (kinds_of column.now.type_of) (view tree.now)))
        result }
{
    match read_datum(alloc, tree, column.kinds(), names) {
        Ok(datum) => fitting(column, datum),
        Err(AtomFault::Syntax) => Err(OpFault::Refused(OpError::Syntax)),
        Err(AtomFault::Clash) => Err(OpFault::Refused(OpError::Constraint)),
        Err(AtomFault::Memory) => Err(OpFault::Memory),
    }
}

/// The value given to a column, which the table has and which may be given one.
fn given_value<N: Names>(
    alloc: Global,
    row: GivenRow,
    name: &str,
    column: Option<&Column>,
    tree: &Value,
    names: &N,
) -> Result<Datum, OpFault>
    ensures { IsOpResult (λ d. d)
        (rows.given_value (may_be row) (N.names names.now) name.now (option_copied column.entry)
        (view tree.now))
        result }
{
    let Some(column) = column else {
        return Err(OpFault::Refused(OpError::UnknownColumn));
    };
    if !row.may_be(name, column) {
        return Err(OpFault::Refused(OpError::Constraint));
    }
    value_read(alloc, column, tree, names)
}

/// The values that the `row` of an insert or an update gives, or the fault of the first that has one, in ascending order of
/// the columns' names. For one value, the first of these is reported: there is no such column, it may not be given, its tree
/// cannot be read, it does not fit (RFC 7047, 5.1, `<row>`, 5.2.1 and 5.2.3, which set no order).
pub fn given_values<N: Names>(
    alloc: Global,
    row: GivenRow,
    table: &Table,
    members: &Map<String, Value>,
    names: &N,
) -> Result<NamedValues, OpFault>
    ensures { IsOpResult (λ v. v)
        (rows.given_values (may_be row) (N.names names.now) table.now
        (members_view members.now.entries))
        result }
{
    let mut values = NamedValues::new(alloc);
    for (name, tree) in members.iter() {
        let column = table.column(name.as_str());
        let datum = given_value(alloc, row, name.as_str(), column, tree, names)?;
        values.insert(String::from_str(alloc, name.as_str())?, datum)?;
    }
    Ok(values)
}

/// The default of a column, if it fits.
fn default_given(alloc: Global, column: &Column) -> Result<Datum, OpFault>
    ensures { IsOpResult (λ d. d) (insert.fitting_default column.now) result }
{
    fitting(column, column.default_of(alloc)?)
}

/// The values, with the defaults of those that were not given.
fn with_defaults(alloc: Global, table: &Table, values: NamedValues) -> Result<NamedValues, OpFault>
    ensures { IsOpResult (λ v. v) (insert.with_defaults table.now values) result }
{
    let mut values = values;
    for (name, column) in table.columns() {
        if !is_own(name.as_str()) && !values.contains(name.as_str()) {
            let datum = default_given(alloc, column)?;
            values.insert(String::from_str(alloc, name.as_str())?, datum)?;
        }
    }
    Ok(values)
}

/// The values of all columns of a new row.
fn new_values<N: Names>(
    alloc: Global,
    table: &Table,
    members: &Map<String, Value>,
    names: &N,
) -> Result<NamedValues, OpFault>
    ensures { IsOpResult (λ v. v)
        (insert.new_row (N.names names.now) table.now (members_view members.now.entries)) result }
{
    let values = given_values(alloc, GivenRow::New, table, members, names)?;
    with_defaults(alloc, table, values)
}

/// All columns of the row that an insert makes: the given ones, and the defaults of the others (RFC 7047, 5.2.1). Rows of one
/// table share the names and the defaults of their columns.
pub fn new_row<N: Names>(
    alloc: Global,
    table: &Table,
    members: &Map<String, Value>,
    names: &N,
) -> Result<Columns, OpFault>
    ensures { IsOpResult (λ c. c)
        (insert.new_row (N.names names.now) table.now (members_view members.now.entries)) result }
{
    let values = new_values(alloc, table, members, names)?;
    Ok(Columns::sharing(alloc, table.row_shape(), values)?)
}

/// The columns of a row with the given values in their places (RFC 7047, 5.2.3). Their names and defaults stay shared.
pub fn given_over(
    alloc: Global,
    given: &NamedValues,
    columns: &Columns,
) -> Result<Columns, AllocError>
    ensures { IfOk result (λ c. c ≡ rows.given_over given.now columns.now) }
{
    let mut over = columns.copy(alloc)?;
    for (name, datum) in given.map() {
        over = over.with_value(alloc, name.as_str(), datum.copy(alloc)?)?;
    }
    Ok(over)
}
