//! Whether there is room for the tables of stored format 2.

ghost use Rattle.std.specs.Prelude.{◌≡◌, ◌↔◌, IsTrue, is_some};
ghost use Rattle.std.specs.List.{list_any};
ghost use Rattle.sqlite.specs.Rows.{sequence};
ghost use Rattle.sqlite.specs.Does.{lacks_sequence};
ghost use Rattle.ov_tables.specs.Tables.{HasFreeNames, HasFreeName, is_key_to};

use sqlite_catalog::layout::is_used;
use sqlite_schema::names::same_name;
use sqlite_schema::schema::{Reference, Schema, Table};

/// Whether the foreign key names the table of this name, which need not exist.
fn is_key_to(reference: &Reference, name: &[u8]) -> bool
    ensures { result ≡ is_key_to name.now reference.now }
{
    same_name(name, reference.parent.as_slice())
}

/// Whether the table has such a foreign key.
fn has_key_to(table: &Table, name: &[u8]) -> bool
    ensures { result ≡ list_any (is_key_to name.now) table.now.references }
{
    table
        .references
        .as_slice()
        .iter()
        .any(|reference| is_key_to(reference, name))
}

/// Whether any of the tables has one.
fn have_key_to(tables: &[Table], name: &[u8]) -> bool
    ensures { result ≡ list_any (λ t. list_any (is_key_to name.now) t.references) tables.now }
{
    tables.iter().any(|table| has_key_to(table, name))
}

/// Whether a table has an AUTOINCREMENT key.
fn are_counted(tables: &[Table]) -> bool
    ensures { result ≡ list_any (λ t. t.is_counted) tables.now }
{
    tables.iter().any(|table| table.is_counted)
}

/// Whether `sqlite_sequence` exists.
fn has_sequence(schema: &Schema) -> bool
    ensures { result ≡ is_some (sequence schema.now) }
{
    match schema.table_named(b"sqlite_sequence") {
        Some(place) => schema.tables.as_slice().get(place).is_some(),
        None => false,
    }
}

/// Whether a table has an AUTOINCREMENT key and `sqlite_sequence` is missing: SQLite would make it beside the next table.
pub(crate) fn lacks_sequence(schema: &Schema) -> bool
    ensures { result ≡ lacks_sequence schema.now }
{
    are_counted(schema.tables.as_slice()) && !has_sequence(schema)
}

/// Whether there is room for a table of this name.
pub(crate) fn has_room_for(schema: &Schema, name: &[u8]) -> bool
    ensures { IsTrue result ↔ HasFreeName schema.now name.now }
{
    !is_used(schema, name) && !have_key_to(schema.tables.as_slice(), name)
}

/// Whether the tables of stored format 2 can be made after everything that is there.
pub fn has_room(schema: &Schema) -> bool
    ensures { IsTrue result ↔ HasFreeNames schema.now }
{
    has_room_for(schema, b"meta")
        && has_room_for(schema, b"head")
        && has_room_for(schema, b"cell")
        && !lacks_sequence(schema)
}
