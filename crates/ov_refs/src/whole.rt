ghost use Rattle.std.specs.Prelude.{◌≡◌, ◌&&◌, IsTrue};
ghost use Rattle.std.specs.FinMap.{contains_key, entries, get};
ghost use Rattle.std.specs.List.{list_all};
ghost use Rattle.ov_rows.specs.Nested.{in_table};
ghost use Rattle.ov_refs.specs.Linking.{AreLinksOf};
ghost use Rattle.ov_refs.specs.Whole as spec;
ghost use Rattle.ov_specs.specs.integrity.Kept.{is_supported};
ghost use Rattle.ov_specs.specs.integrity.References.{references};
ghost use Rattle.ov_specs.specs.schema.Schema.{is_some_and};

use crate::borrowed_key::BorrowedKey;
use crate::holders::Holders;
use crate::key_set::KeySet;
use crate::links::Links;
use crate::table_holders::TableHolders;
use ov_rows::{RowId, Rows, TableRows};
use ov_schema::Schema;
use std::collections::btree_map::Iter;

/// Whether each row of the table of this name that is referred to exists.
fn are_there_in(rows: &Rows, name: &str, holders: &TableHolders) -> bool
    ensures { result
        ≡ list_all (spec.is_there rows.now) (in_table name.now (entries holders.now)) }
{
    for (id, set) in holders.map() {
        if !set.is_empty() && rows.row(name, *id.as_uuid()).is_none() {
            return false;
        }
    }
    true
}

/// Whether each row that is referred to exists.
fn are_there(rows: &Rows, holders: &Holders) -> bool
    ensures { result ≡ list_all (spec.is_there rows.now) (entries holders.now) }
{
    for (name, table) in holders.tables() {
        if !are_there_in(rows, name.as_str(), table) {
            return false;
        }
    }
    true
}

/// Whether each row that is referred to, strongly or weakly, exists.
fn are_all_there(rows: &Rows, links: &Links) -> bool
    ensures { result
        ≡ (list_all (spec.is_there rows.now) (entries links.now.strong) && list_all
        (spec.is_there rows.now) (entries links.now.weak)) }
{
    are_there(rows, links.strong()) && are_there(rows, links.weak())
}

/// Advances past the holders of the row, and returns whether another row is among them. If the row has no holders there,
/// nothing is left.
fn is_held(holders: &mut Iter<'_, RowId, KeySet>, key: &BorrowedKey<'_>) -> bool
    ensures held { result ≡ spec.is_held key.now holders.old }
    ensures past { IsTrue result → holders.new ≡ spec.past key.now.1 holders.old }
{
    while let Some((id, set)) = holders.next() {
        if *id.as_uuid() == key.id() {
            return set.has_another(key);
        }
    }
    false
}

/// Whether each of these rows of the table of this name has another row among its holders. Rows and holders are in the same
/// order, so one pass over both is enough.
fn are_held(name: &str, rows: &TableRows, holders: &TableHolders) -> bool
    ensures { result ≡ spec.are_held name.now (entries rows.now) (entries holders.now) }
{
    let mut left = holders.map().iter();
    for (id, _) in rows.map() {
        if !is_held(&mut left, &BorrowedKey::new(name, *id.as_uuid())) {
            return false;
        }
    }
    true
}

/// Whether the table of this name is a root table.
fn is_root_table(schema: &Schema, name: &str) -> bool
    ensures { result ≡ is_some_and (λ table. table.is_root) (get schema.now.tables name.now) }
{
    match schema.table(name) {
        Some(table) => table.is_root(),
        None => false,
    }
}

/// Whether the table of this name is a root table, or each of its rows has another row among its holders.
fn is_table_supported(schema: &Schema, name: &str, rows: &TableRows, strong: &Holders) -> bool
    ensures { result
        ≡ list_all (spec.is_root_or_held schema.now strong.now)
        (in_table name.now (entries rows.now)) }
{
    if is_root_table(schema, name) {
        return true;
    }
    match strong.of_table(name) {
        Some(holders) => are_held(name, rows, holders),
        None => rows.map().is_empty(),
    }
}

/// Whether each row is in a root table or has another row among its holders.
fn are_supported(schema: &Schema, rows: &Rows, strong: &Holders) -> bool
    ensures { result
        ≡ list_all (spec.is_root_or_held schema.now strong.now) (entries rows.now) }
{
    for (name, table) in rows.tables() {
        if !is_table_supported(schema, name.as_str(), table, strong) {
            return false;
        }
    }
    true
}

/// Whether each reference points to an existing row, and each row is in a root table or is referred to strongly by another
/// row (RFC 7047, 3.2, `<base-type>`, refType, and `<table-schema>`, isRoot). Visits all rows and links, and allocates
/// nothing.
pub fn are_references_whole(schema: &Schema, rows: &Rows, links: &Links) -> bool
    requires linked { AreLinksOf schema.now rows.now links.now }
    ensures { result
        ≡ (list_all (λ r. contains_key rows.now r.to.key) (references schema.now rows.now) &&
        list_all (λ r. is_supported schema.now rows.now r.0) (entries rows.now)) }
{
    are_all_there(rows, links) && are_supported(schema, rows, links.strong())
}
