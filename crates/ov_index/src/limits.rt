ghost use Rattle.std.specs.Prelude.{◌≡◌, length};
ghost use Rattle.std.specs.FinMap.{get, entries};
ghost use Rattle.std.specs.List.{list_any};
ghost use Rattle.ov_index.specs.Indexing.{AreIndexesOf};
ghost use Rattle.ov_specs.specs.integrity.Limits.{rows_of, has_too_many, is_over_limits};
ghost use Rattle.ov_specs.specs.rows.Suits.{Suits};
ghost use Rattle.ov_specs.specs.schema.Schema.{is_some_and};

use crate::indexes::Indexes;
use ov_base::Text;
use ov_rows::Rows;
use ov_schema::{Schema, Table};

/// The number of rows in the table of this name.
fn count_of(rows: &Rows, name: &str) -> usize
    ensures { result ≡ length (rows_of name.now rows.now) }
{
    match rows.of_table(name) {
        Some(table) => table.map().len(),
        None => 0,
    }
}

/// Whether there are more rows than the table's `maxRows` (RFC 7047, 3.2, `<table-schema>`, maxRows).
fn has_more_than_max(table: &Table, name: &str, rows: &Rows) -> bool
    ensures { result ≡ has_too_many rows.now (name.now, table.now) }
{
    match table.max_rows() {
        Some(most) => i128::from(most) < (count_of(rows, name) as i128),
        None => false,
    }
}

/// Whether the table of this name, if there is one, has too many rows.
fn has_too_many(schema: &Schema, name: &str, rows: &Rows) -> bool
    ensures { result
        ≡ is_some_and (λ table. has_too_many rows.now (name.now, table))
        (get schema.now.tables name.now) }
{
    match schema.table(name) {
        Some(table) => has_more_than_max(table, name, rows),
        None => false,
    }
}

/// Whether one of the tables of these names has too many rows.
fn is_any_too_many(schema: &Schema, tables: &[(Text, Table)], rows: &Rows) -> bool
    ensures { result
        ≡ list_any
        (λ t. is_some_and (λ table. has_too_many rows.now (t.0, table))
        (get schema.now.tables t.0))
        tables.now }
{
    for (name, _table) in tables {
        if has_too_many(schema, name.as_str(), rows) {
            return true;
        }
    }
    false
}

/// Whether a table has too many rows.
fn have_too_many(schema: &Schema, rows: &Rows) -> bool
    ensures { result ≡ list_any (has_too_many rows.now) (entries schema.now.tables) }
{
    is_any_too_many(schema, schema.tables(), rows)
}

/// Whether a table has more rows than its `maxRows`, or two that are alike in an index (RFC 7047, 3.2, `<table-schema>`,
/// maxRows and indexes). The indexes must be those of the rows. Allocates nothing.
pub fn is_over_limits(schema: &Schema, rows: &Rows, indexes: &Indexes) -> bool
    requires indexed { AreIndexesOf schema.now rows.now indexes.now }
    requires suits { Suits schema.now rows.now }
    ensures { result ≡ is_over_limits schema.now rows.now }
{
    have_too_many(schema, rows) || indexes.has_two()
}
