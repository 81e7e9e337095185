use crate::texts::push;
use ov_base::Text;
use ov_db::{Db, ListKeeper};
use ov_index::IndexKey;
use ov_keeper::{Cell, CellLine, Change, Keeper};
use ov_refs::KeySet;
use ov_rows::{Row, RowKey, Rows, TableRows};
use ov_schema::{Schema, Table, text_of};
use std::alloc::{AllocError, Global};
use std::collections::BTreeSet;
use std::test::Fail;
use test_basics::{cells_of, schema_of_text};
use uuid::Uuid;

/// The keys of rows, and the keys at which the rows stand in the indexes of their tables.
#[derive(Drop)]
pub(crate) struct Lookups {
    rows: BTreeSet<RowKey>,
    places: BTreeSet<IndexKey>,
}

impl Lookups {
    /// No keys.
    pub(crate) fn new(alloc: Global) -> Lookups {
        Lookups {
            rows: BTreeSet::new(alloc),
            places: BTreeSet::new(alloc),
        }
    }

    /// Adds the index keys of a row of the table with this name.
    fn add_places(
        &mut self,
        alloc: Global,
        name: &str,
        table: &Table,
        row: &Row,
    ) -> Result<(), AllocError> {
        for (number, index) in table.indexes().iter().enumerate() {
            let place = IndexKey::at(alloc, name, number, index.as_slice(), &row.columns)?;
            self.places.insert(place)?;
        }
        Ok(())
    }

    /// Adds the keys of the rows of a table.
    fn add_rows(
        &mut self,
        alloc: Global,
        schema: &Schema,
        name: &str,
        rows: &TableRows,
    ) -> Result<(), AllocError> {
        let Some(table) = schema.table(name) else {
            return Ok(());
        };
        for (id, row) in rows.map() {
            self.rows.insert(RowKey::new(alloc, name, *id.as_uuid())?)?;
            self.add_places(alloc, name, table, row)?;
        }
        Ok(())
    }

    /// Adds the keys of all rows.
    pub(crate) fn add(
        &mut self,
        alloc: Global,
        schema: &Schema,
        rows: &Rows,
    ) -> Result<(), AllocError> {
        for (name, table) in rows.tables() {
            self.add_rows(alloc, schema, name.as_str(), table)?;
        }
        Ok(())
    }

    /// What a database reports for these keys. For the key of a row: how many strong references other rows have to it, and
    /// which rows refer to it weakly. For a key of an index: the row that stands there. Each has a line with its key; that of
    /// an index omits the values.
    pub(crate) fn told<K: Keeper + Drop>(&self, alloc: Global, db: &Db<K>) -> Result<String, Fail> {
        let mut text = String::new(alloc);
        self.push_rows(alloc, &mut text, db)?;
        self.push_places(alloc, &mut text, db)?;
        Ok(text)
    }

    /// Adds what a database reports for the keys of rows.
    fn push_rows<K: Keeper + Drop>(
        &self,
        alloc: Global,
        text: &mut String,
        db: &Db<K>,
    ) -> Result<(), Fail> {
        for key in &self.rows {
            push_row(alloc, text, db, key)?;
        }
        Ok(())
    }

    /// Adds what a database reports for the keys of indexes.
    fn push_places<K: Keeper + Drop>(
        &self,
        alloc: Global,
        text: &mut String,
        db: &Db<K>,
    ) -> Result<(), Fail> {
        for key in &self.places {
            push(text, text_of_place(alloc, db, key))?;
        }
        Ok(())
    }
}

/// Adds what a database reports of the rows that refer to a row.
fn push_row<K: Keeper + Drop>(
    alloc: Global,
    text: &mut String,
    db: &Db<K>,
    key: &RowKey,
) -> Result<(), Fail> {
    let count = db.strong_count(key.table(), key.id());
    push(text, text_of_count(alloc, key, count))?;
    if let Some(holders) = db.weak_holders(key.table(), key.id()) {
        push_keys(alloc, text, holders)?;
    }
    Ok(text.push_str("\n")?)
}

/// The text of a row's key, and how many strong references the row has.
fn text_of_count(alloc: Global, key: &RowKey, count: u64) -> Result<String, Fail> {
    let table = key.table();
    let id = key.id();
    Ok(format!(in alloc; "{table} {id} {count}")?)
}

/// Adds the keys of rows, each after a space.
fn push_keys(alloc: Global, text: &mut String, keys: &KeySet) -> Result<(), Fail> {
    for key in keys.iter() {
        text.push_str(" ")?;
        push(text, text_of_key(alloc, key))?;
    }
    Ok(())
}

/// The text of a row's key.
fn text_of_key(alloc: Global, key: &RowKey) -> Result<String, Fail> {
    let table = key.table();
    let id = key.id();
    Ok(format!(in alloc; "{table} {id}")?)
}

/// What a database reports of the row at a key of an index.
fn text_of_place<K: Keeper + Drop>(
    alloc: Global,
    db: &Db<K>,
    key: &IndexKey,
) -> Result<String, Fail> {
    let table = key.table();
    let number = key.number();
    match db.indexed(table, number, key.values()) {
        Some(id) => Ok(format!(in alloc; "{table} index {number} {id}\n")?),
        None => Ok(format!(in alloc; "{table} index {number}\n")?),
    }
}

/// The cells of a row, which are the members of the text of all its columns.
fn cells_of_row(alloc: Global, row: &Row) -> Result<Vec<Cell>, Fail> {
    let text = row.columns.text(alloc)?;
    cells_of(alloc, str::from_utf8(text.as_slice())?)
}

/// A row in cells.
fn line_of_row(alloc: Global, table: &str, id: Uuid, row: &Row) -> Result<CellLine, Fail> {
    Ok(CellLine {
        table: Text::from_str(alloc, table)?,
        id,
        version: row.version,
        cells: cells_of_row(alloc, row)?,
    })
}

/// Adds the changes that put a table's rows.
fn push_rows(
    alloc: Global,
    changes: &mut Vec<Change>,
    table: &str,
    rows: &TableRows,
) -> Result<(), Fail> {
    for (id, row) in rows.map() {
        changes.push(Change::Put(line_of_row(alloc, table, *id.as_uuid(), row)?))?;
    }
    Ok(())
}

/// The changes that put all rows.
fn changes_of(alloc: Global, rows: &Rows) -> Result<Vec<Change>, Fail> {
    let mut changes = Vec::new(alloc);
    for (name, table) in rows.tables() {
        push_rows(alloc, &mut changes, name.as_str(), table)?;
    }
    Ok(changes)
}

/// A keeper of these rows.
fn keeper_of_rows(alloc: Global, schema: Text, rows: &Rows) -> Result<ListKeeper, Fail> {
    let changes = changes_of(alloc, rows)?;
    let mut keeper = ListKeeper::new(alloc, schema);
    match keeper.commit(alloc, changes.as_slice()) {
        Ok(()) => Ok(keeper),
        Err(_) => Err(Fail::new("not kept")),
    }
}

/// A database that is opened from these rows.
pub(crate) fn opened_from(
    alloc: Global,
    schema: &Schema,
    rows: &Rows,
) -> Result<Db<ListKeeper>, Fail> {
    let text = text_of(alloc, schema)?;
    let again = schema_of_text(alloc, text.as_str())?;
    let keeper = keeper_of_rows(alloc, text, rows)?;
    Ok(Db::open(alloc, keeper, again)?)
}
