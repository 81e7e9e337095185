//! Whether a database has the tables of one of the stored formats.

ghost use Rattle.std.specs.Prelude.{◌≡◌, ◌↔◌, ◌∷◌, ◌||◌, [], codes, IsTrue, not, ◌==◌};
ghost use Rattle.std.specs.Prelude.{option_map};
ghost use Rattle.std.specs.List.{list_any, list_all};
ghost use Rattle.sqlite_schema.specs.declared.schema.Kind.TheVariants as kind;
ghost use Rattle.sqlite_schema.specs.Names.{same_name};
ghost use Rattle.ov_tables.specs.Tables.{no_schema, HasLineTables, HasCellTables, HasOurTables};
ghost use Rattle.ov_tables.specs.Tables.{HasTable, IsAlone, meta_table, line_table, head_table};
ghost use Rattle.ov_tables.specs.Tables.{cell_table, loose, plain_table, table_of, tree_number};
ghost use Rattle.ov_tables.specs.Tables.{points_to, is_apart, is_allowed};

use crate::room::{has_room_for, lacks_sequence};
use sqlite::types::Value;
use sqlite_items::Items;
use sqlite_schema::names::same_name;
use sqlite_schema::schema::{Column, Index, Kind, Reference, Schema, Table};
use sqlite_value::keys::{Collation, Order};

/// Whether nothing has been made yet.
pub fn is_blank(schema: &Schema) -> bool
    ensures { IsTrue result ↔ (schema.now ≡ no_schema) }
{
    schema.tables.is_empty() && schema.indexes.is_empty() && schema.views.is_empty()
}

/// Whether the column has this name and kind, and no rules.
fn is_loose(column: &Column, name: &[u8], kind: Kind) -> bool
    ensures { IsTrue result ↔ (column.now ≡ loose name.now kind) }
{
    column.name.as_slice() == name
        && column.kind == kind
        && !column.is_strict
        && !column.not_null
        && matches!(column.default, Value::Null)
        && column.collation == Collation::Binary
}

/// Whether they are the columns of `meta`.
fn are_meta_columns(columns: &[Column]) -> bool
    ensures { IsTrue result ↔ (columns.now
        ≡ loose (codes "k") kind.Text ∷ loose (codes "v") kind.Any ∷ []) }
{
    match columns {
        [k, v] => is_loose(k, b"k", Kind::Text) && is_loose(v, b"v", Kind::Any),
        _ => false,
    }
}

/// Whether they are the columns of `line`.
fn are_line_columns(columns: &[Column]) -> bool
    ensures { IsTrue result ↔ (columns.now
        ≡ loose (codes "tbl") kind.Text ∷ loose (codes "id") kind.Any
        ∷ loose (codes "ver") kind.Any ∷ loose (codes "body") kind.Any ∷ []) }
{
    match columns {
        [tbl, id, version, body] => {
            is_loose(tbl, b"tbl", Kind::Text)
                && is_loose(id, b"id", Kind::Any)
                && is_loose(version, b"ver", Kind::Any)
                && is_loose(body, b"body", Kind::Any)
        }
        _ => false,
    }
}

/// Whether they are the columns of `head`.
fn are_head_columns(columns: &[Column]) -> bool
    ensures { IsTrue result ↔ (columns.now
        ≡ loose (codes "tbl") kind.Text ∷ loose (codes "id") kind.Any
        ∷ loose (codes "ver") kind.Any ∷ []) }
{
    match columns {
        [tbl, id, version] => {
            is_loose(tbl, b"tbl", Kind::Text)
                && is_loose(id, b"id", Kind::Any)
                && is_loose(version, b"ver", Kind::Any)
        }
        _ => false,
    }
}

/// Whether they are the columns of `cell`.
fn are_cell_columns(columns: &[Column]) -> bool
    ensures { IsTrue result ↔ (columns.now
        ≡ loose (codes "tbl") kind.Text ∷ loose (codes "id") kind.Any
        ∷ loose (codes "col") kind.Text ∷ loose (codes "body") kind.Any ∷ []) }
{
    match columns {
        [tbl, id, column, body] => {
            is_loose(tbl, b"tbl", Kind::Text)
                && is_loose(id, b"id", Kind::Any)
                && is_loose(column, b"col", Kind::Text)
                && is_loose(body, b"body", Kind::Any)
        }
        _ => false,
    }
}

fn has_places(key: &Items<usize>, places: &[usize]) -> bool
    ensures { IsTrue result ↔ (key.now ≡ places.now) }
{
    key.as_slice() == places
}

/// Whether these columns are the only unique key.
fn is_only_key(uniques: &[Items<usize>], places: &[usize]) -> bool
    ensures { IsTrue result ↔ (uniques.now ≡ places.now ∷ []) }
{
    match uniques {
        [key] => has_places(key, places),
        _ => false,
    }
}

/// Whether there is one index, which ascends in each column.
fn is_ascending(orders: &[Order]) -> bool
    ensures { IsTrue result ↔ (orders.now ≡ (record { digits = 0 }) ∷ []) }
{
    match orders {
        [order] => order.digits == 0,
        _ => false,
    }
}

/// Whether the table has no rule except its primary key, which is not the number of a row.
fn is_plain(table: &Table) -> bool
    ensures { IsTrue result ↔ (table.now
        ≡ plain_table table.now.name table.now.tree table.now.columns table.now.primary) }
{
    table.key.is_none()
        && is_only_key(table.uniques.as_slice(), table.primary.as_slice())
        && is_ascending(table.orders.as_slice())
        && table.checks.roots.is_empty()
        && table.references.is_empty()
        && table.computed.is_empty()
        && table.stamps.places.is_empty()
        && table.stamps.terms.roots.is_empty()
        && table.stamps.formats.is_empty()
        && !table.is_counted
}

fn is_meta(table: &Table) -> bool
    ensures { IsTrue result ↔ (table.now ≡ meta_table table.now.tree) }
{
    is_plain(table)
        && table.name.as_slice() == b"meta".as_slice()
        && are_meta_columns(table.columns.as_slice())
        && table.primary.as_slice() == [1].as_slice()
}

fn is_line(table: &Table) -> bool
    ensures { IsTrue result ↔ (table.now ≡ line_table table.now.tree) }
{
    is_plain(table)
        && table.name.as_slice() == b"line".as_slice()
        && are_line_columns(table.columns.as_slice())
        && table.primary.as_slice() == [1, 2].as_slice()
}

fn is_head(table: &Table) -> bool
    ensures { IsTrue result ↔ (table.now ≡ head_table table.now.tree) }
{
    is_plain(table)
        && table.name.as_slice() == b"head".as_slice()
        && are_head_columns(table.columns.as_slice())
        && table.primary.as_slice() == [1, 2].as_slice()
}

fn is_cell(table: &Table) -> bool
    ensures { IsTrue result ↔ (table.now ≡ cell_table table.now.tree) }
{
    is_plain(table)
        && table.name.as_slice() == b"cell".as_slice()
        && are_cell_columns(table.columns.as_slice())
        && table.primary.as_slice() == [1, 2, 3].as_slice()
}

/// The table of a name, as SQLite looks for it.
fn table_of<'a>(schema: &'a Schema, name: &[u8]) -> Option<&'a Table>
    ensures { option_map (λ t. t.now) result ≡ table_of schema.now name.now }
{
    schema
        .tables
        .as_slice()
        .iter()
        .find(|table| same_name(table.name.as_slice(), name))
}

/// Whether no table of another name has the tree of this one.
fn has_own_tree(schema: &Schema, table: &Table) -> bool
    ensures { result ≡ list_all (λ t. not (t.tree == table.now.tree)
        || same_name t.name table.now.name) schema.now.tables }
{
    let tree = table.tree;
    let name = table.name.as_slice();
    schema.tables.as_slice().iter().all(|other| other.tree != tree
        || same_name(other.name.as_slice(), name))
}

/// Whether the foreign key points to the table with this tree.
fn points_to(tree: u32, schema: &Schema, reference: &Reference) -> bool
    ensures { result ≡ points_to tree schema.now reference.now }
{
    match table_of(schema, reference.parent.as_slice()) {
        Some(table) => table.tree == tree,
        None => false,
    }
}

/// Whether the table has a foreign key to the one with this tree.
fn refers_to(tree: u32, schema: &Schema, table: &Table) -> bool
    ensures { result ≡ list_any (points_to tree schema.now) table.now.references }
{
    table
        .references
        .as_slice()
        .iter()
        .any(|reference| points_to(tree, schema, reference))
}

/// Whether no table has a foreign key to the one with this tree.
fn are_apart(tree: u32, schema: &Schema) -> bool
    ensures { result ≡ list_all (is_apart tree schema.now) schema.now.tables }
{
    schema
        .tables
        .as_slice()
        .iter()
        .all(|table| !refers_to(tree, schema, table))
}

/// Whether the index forbids no row of the table with this tree, or is that of its primary key, which has this name.
fn is_allowed(key: &[u8], tree: u32, index: &Index) -> bool
    ensures { result ≡ is_allowed key.now tree index.now }
{
    !(index.is_unique && index.table == tree) || same_name(key, index.name.as_slice())
}

/// Whether no other index forbids rows of the table.
fn are_allowed(key: &[u8], tree: u32, schema: &Schema) -> bool
    ensures { result ≡ list_all (is_allowed key.now tree) schema.now.indexes }
{
    schema
        .indexes
        .as_slice()
        .iter()
        .all(|index| is_allowed(key, tree, index))
}

/// Whether nothing else concerns the table, and the index of its primary key has this name.
fn is_alone(schema: &Schema, table: &Table, key: &[u8]) -> bool
    ensures { IsTrue result ↔ IsAlone schema.now table.now key.now }
{
    has_own_tree(schema, table)
        && are_apart(table.tree, schema)
        && are_allowed(key, table.tree, schema)
}

/// Whether the table `meta` is there as this program makes it, and everything else leaves it alone.
fn has_meta(schema: &Schema) -> bool
    ensures { IsTrue result
        ↔ HasTable schema.now (meta_table (tree_number schema.now (codes "meta"))) }
{
    match table_of(schema, b"meta") {
        Some(table) => is_meta(table) && is_alone(schema, table, b"sqlite_autoindex_meta_1"),
        None => false,
    }
}

/// Whether the table `line` is there as this program makes it, and everything else leaves it alone.
fn has_line(schema: &Schema) -> bool
    ensures { IsTrue result
        ↔ HasTable schema.now (line_table (tree_number schema.now (codes "line"))) }
{
    match table_of(schema, b"line") {
        Some(table) => is_line(table) && is_alone(schema, table, b"sqlite_autoindex_line_1"),
        None => false,
    }
}

/// Whether the table `head` is there as this program makes it, and everything else leaves it alone.
fn has_head(schema: &Schema) -> bool
    ensures { IsTrue result
        ↔ HasTable schema.now (head_table (tree_number schema.now (codes "head"))) }
{
    match table_of(schema, b"head") {
        Some(table) => is_head(table) && is_alone(schema, table, b"sqlite_autoindex_head_1"),
        None => false,
    }
}

/// Whether the table `cell` is there as this program makes it, and everything else leaves it alone.
fn has_cell(schema: &Schema) -> bool
    ensures { IsTrue result
        ↔ HasTable schema.now (cell_table (tree_number schema.now (codes "cell"))) }
{
    match table_of(schema, b"cell") {
        Some(table) => is_cell(table) && is_alone(schema, table, b"sqlite_autoindex_cell_1"),
        None => false,
    }
}

/// Whether the tables are those of stored format 1, with room for those of format 2.
fn has_line_tables(schema: &Schema) -> bool
    ensures { IsTrue result ↔ HasLineTables schema.now }
{
    has_meta(schema)
        && has_line(schema)
        && has_room_for(schema, b"head")
        && has_room_for(schema, b"cell")
        && !lacks_sequence(schema)
}

/// Whether the database has the tables of stored format 2, wherever they are in it. It may have others too.
pub fn has_cell_tables(schema: &Schema) -> bool
    ensures { IsTrue result ↔ HasCellTables schema.now }
{
    has_meta(schema) && has_head(schema) && has_cell(schema)
}

/// Whether the database has the tables of one of the stored formats, wherever they are in it. It may have others too.
pub fn is_ours(schema: &Schema) -> bool
    ensures { IsTrue result ↔ HasOurTables schema.now }
{
    has_line_tables(schema) || has_cell_tables(schema)
}
