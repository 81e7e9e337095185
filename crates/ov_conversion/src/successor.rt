ghost use Rattle.std.specs.Prelude.{◌≡◌, ◌&&◌};
ghost use Rattle.std.specs.FinMap.{get};
ghost use Rattle.std.specs.List.{list_any};
ghost use Rattle.std.specs.Str.{bytes_eq};
ghost use Rattle.ov_specs.specs.conversion.Converted as spec;
ghost use Rattle.ov_specs.specs.conversion.Converted.{is_of_changed_type};
ghost use Rattle.ov_specs.specs.rows.RowNames.{row_columns, without_own_columns};
ghost use Rattle.ov_specs.specs.schema.Newer.{newer_than};
ghost use Rattle.ov_specs.specs.schema.Schema.{is_some_and};

use ov_base::Text;
use ov_schema::{Column, Schema, Table, is_own};

/// Whether a database of the old schema can become one of the new schema: the schemas have the same name, and the new one is
/// newer (RFC 7047, 3.1, `<version>`). A schema without a version has no successor, and is none itself. Allocates nothing.
pub fn is_successor(old: &Schema, new: &Schema) -> bool
    ensures { result ≡ (bytes_eq old.now.name new.now.name && newer_than new.now old.now) }
{
    old.name().as_str() == new.name().as_str() && new.newer_than(old)
}

/// Whether the old table has this column, with another type.
fn is_of_changed_type(old: &Table, name: &str, column: &Column) -> bool
    ensures { result ≡ is_of_changed_type old.now (name.now, column.now) }
{
    if is_own(name) {
        return false;
    }
    match old.column(name) {
        Some(former) => !former.same_type(column),
        None => false,
    }
}

/// Whether the old table has one of these columns, with another type.
fn is_any_of_changed_type(old: &Table, columns: &[(Text, Column)]) -> bool
    ensures { result
        ≡ list_any (is_of_changed_type old.now)
        (without_own_columns columns.now) }
{
    for (name, column) in columns {
        if !is_own(name.as_str()) && is_of_changed_type(old, name.as_str(), column) {
            return true;
        }
    }
    false
}

/// Whether both schemas have the table of this name, and a column of both tables has another type.
fn is_changed_table(old: &Schema, new: &Schema, name: &str) -> bool
    ensures { result
        ≡ is_some_and (λ table. is_some_and
        (λ former. list_any (is_of_changed_type former) (row_columns table))
        (get old.now.tables name.now)) (get new.now.tables name.now) }
{
    let Some(table) = new.table(name) else {
        return false;
    };
    match old.table(name) {
        Some(former) => is_any_of_changed_type(former, table.columns()),
        None => false,
    }
}

/// Whether a column that a table has in both schemas has another type (RFC 7047, 3.2, `<type>`). Whether a column is ephemeral
/// or mutable is no part of its type. Allocates nothing.
pub fn has_changed_type(old: &Schema, new: &Schema) -> bool
    ensures { result ≡ spec.has_changed_type old.now new.now }
{
    for (name, _table) in new.tables() {
        if is_changed_table(old, new, name.as_str()) {
            return true;
        }
    }
    false
}
