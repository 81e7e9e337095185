use crate::texts::{
    fact_text, number_text, owned, parts_of, push_item, push_made_item, text_of_bytes, two_parts,
};
use ov_atoms::{Atom, Datum, write_datum};
use ov_base::Text;
use ov_db::Delta;
use ov_rows::{Columns, NamedValues, Row, RowKey, Rows, TableRows};
use ov_schema::Table;
use std::alloc::{AllocError, Global};
use std::mem;
use std::test::Fail;
use test_basics::{Scripted, agrees, is_text, net, number, switch};

/// Columns are found by name and written in order.
const COLUMNS: &str = r#"get name -> atoms
get load -> atoms
get id -> none
text -> {"load":4,"main":["set",[]],"name":"s1","ports":["set",[]]}"#;

/// The text of a row's columns.
pub(crate) fn text_of_columns(alloc: Global, columns: &Columns) -> Result<String, Fail> {
    text_of_bytes(columns.text(alloc)?)
}

/// The columns of a row. The commands are `get NAME` and `text`.
#[derive(Drop)]
struct Cells {
    columns: Columns,
}

impl Cells {
    /// The kind of value in a column.
    fn get(&self, name: &str) -> &'static str {
        match self.columns.get(name) {
            Some(datum) if datum.atoms().is_some() => "atoms",
            Some(_) => "pairs",
            None => "none",
        }
    }
}

impl Scripted for Cells {
    fn answer(&mut self, alloc: Global, command: &str) -> Result<String, Fail> {
        match command.split_once(" ") {
            Some(("get", name)) => owned(alloc, self.get(name)),
            _ => text_of_columns(alloc, &self.columns),
        }
    }
}

/// The columns of a switch with this load.
pub(crate) fn columns_of_switch(alloc: Global, load: i64) -> Result<Columns, AllocError> {
    switch(alloc, "s1", load)?.columns.copy(alloc)
}

#[test]
fn columns_are_found_by_name_and_written_in_order(rt: HostRuntime) -> Result<(), Fail> {
    let columns = columns_of_switch(rt.alloc(), 4)?;
    agrees(rt.alloc(), Cells { columns }, COLUMNS)
}

/// Of two values with the same name, the second is kept.
const GATHERED: &str = r#"has name -> false
put name s1
put name s2
put id a
has name -> true
has load -> false
text -> {"id":"a","name":"s2"}
has name -> false"#;

/// Values by name. The commands are `put NAME TEXT`, `has NAME` and `text`, which turns them into columns.
#[derive(Drop)]
struct Gathered {
    values: NamedValues,
}

/// The value of a text.
fn datum_of(alloc: Global, text: &str) -> Result<Datum, AllocError> {
    Ok(Datum::of_atom(Atom::Text(Text::from_str(alloc, text)?)))
}

/// Puts a text in a column.
fn put_text(
    alloc: Global,
    values: &mut NamedValues,
    name: &str,
    text: &str,
) -> Result<(), AllocError> {
    let datum = datum_of(alloc, text)?;
    values.insert(String::from_str(alloc, name)?, datum)
}

impl Gathered {
    /// Puts a text in a column.
    fn put(&mut self, alloc: Global, cell: &str) -> Result<String, Fail> {
        let (name, text) = two_parts(cell)?;
        put_text(alloc, &mut self.values, name, text)?;
        Ok(String::new(alloc))
    }

    /// Turns the values into columns; no value remains.
    fn text(&mut self, alloc: Global) -> Result<String, Fail> {
        let values = mem::replace(&mut self.values, NamedValues::new(alloc));
        let columns = Columns::with_own_names(alloc, values)?;
        text_of_columns(alloc, &columns)
    }
}

impl Scripted for Gathered {
    fn answer(&mut self, alloc: Global, command: &str) -> Result<String, Fail> {
        let (word, rest) = parts_of(command);
        match word {
            "put" => self.put(alloc, rest),
            "has" => fact_text(alloc, self.values.contains(rest)),
            _ => self.text(alloc),
        }
    }
}

#[test]
fn values_are_gathered_by_their_names(rt: HostRuntime) -> Result<(), Fail> {
    let values = NamedValues::new(rt.alloc());
    agrees(rt.alloc(), Gathered { values }, GATHERED)
}

/// The text of a value.
fn text_of_datum(alloc: Global, datum: &Datum) -> Result<String, Fail> {
    Ok(write_datum(alloc, datum)?.to_string(alloc)?)
}

/// Adds the name of a column, followed by its default.
fn push_column(alloc: Global, text: &mut String, name: &str, default: &Datum) -> Result<(), Fail> {
    push_item(text, name)?;
    push_made_item(text, text_of_datum(alloc, default))
}

/// The names of a row's columns, each followed by its default, as all rows of the table share them.
fn shape_text(alloc: Global, table: &Table) -> Result<String, Fail> {
    let shape = table.row_shape().share()?;
    let mut text = String::new(alloc);
    for (name, default) in shape.names().iter().zip(shape.defaults()) {
        push_column(alloc, &mut text, name.as_str(), default)?;
    }
    Ok(text)
}

/// The names and the defaults of a switch's columns.
fn shape_of_switch(alloc: Global) -> Result<String, Fail> {
    let schema = net(alloc)?;
    shape_text(alloc, schema.table("Switch").ok_or("no table")?)
}

#[test]
fn names_and_defaults_are_shared(rt: HostRuntime) -> Result<(), Fail> {
    let shape = shape_of_switch(rt.alloc())?;
    let text = r#"load;0;main;["set",[]];name;"";ports;["set",[]];"#;
    is_text(rt.alloc(), shape.as_str(), text)
}

/// The key of a table and a number.
pub(crate) fn key_of(alloc: Global, key: &str) -> Result<RowKey, Fail> {
    let (table, id) = two_parts(key)?;
    Ok(RowKey::new(alloc, table, number(id)?)?)
}

/// Rows of two tables, one of them put twice.
const TWO_TABLES: &str = "put Switch 2
put Port 9
put Switch 1
put Switch 2
keys -> Port 9;Switch 1;Switch 2;";

/// A row is removed by its key, if there is one.
const TAKEN_OUT: &str = "put Switch 2
put Port 9
put Switch 1
put Switch 2
remove Port 2
keys -> Port 9;Switch 1;Switch 2;
remove Switch 2
keys -> Port 9;Switch 1;";

/// Rows that are put and removed. The commands are `put KEY`, `remove KEY` and `keys`.
#[derive(Drop)]
pub(crate) struct Standing {
    pub(crate) rows: Rows,
}

/// Adds a key.
fn push_key(alloc: Global, text: &mut String, table: &str, id: u128) -> Result<(), Fail> {
    let key = format!(in alloc; "{table} {id}")?;
    push_item(text, key.as_str())
}

/// Adds the keys of a table's rows.
fn push_keys(alloc: Global, text: &mut String, table: &str, rows: &TableRows) -> Result<(), Fail> {
    for (id, _row) in rows.map() {
        push_key(alloc, text, table, id.as_uuid().as_u128())?;
    }
    Ok(())
}

impl Standing {
    fn keys(&self, alloc: Global) -> Result<String, Fail> {
        let mut text = String::new(alloc);
        for (table, rows) in self.rows.tables() {
            push_keys(alloc, &mut text, table.as_str(), rows)?;
        }
        Ok(text)
    }

    fn put(&mut self, alloc: Global, key: &str) -> Result<String, Fail> {
        let key = key_of(alloc, key)?;
        let row = switch(alloc, "s1", 4)?;
        self.rows.insert(alloc, &key, row)?;
        Ok(String::new(alloc))
    }

    fn remove(&mut self, alloc: Global, key: &str) -> Result<String, Fail> {
        let key = key_of(alloc, key)?;
        self.rows.remove(&key);
        Ok(String::new(alloc))
    }
}

impl Scripted for Standing {
    fn answer(&mut self, alloc: Global, command: &str) -> Result<String, Fail> {
        match command.split_once(" ") {
            Some(("put", key)) => self.put(alloc, key),
            Some(("remove", key)) => self.remove(alloc, key),
            _ => self.keys(alloc),
        }
    }
}

/// Runs a script, starting with no rows.
fn stand(alloc: Global, script: &str) -> Result<(), Fail> {
    let rows = Rows::new(alloc);
    agrees(alloc, Standing { rows }, script)
}

#[test]
fn rows_of_one_table_stand_together(rt: HostRuntime) -> Result<(), Fail> {
    stand(rt.alloc(), TWO_TABLES)
}

#[test]
fn a_row_is_taken_out_by_its_key(rt: HostRuntime) -> Result<(), Fail> {
    stand(rt.alloc(), TAKEN_OUT)
}

/// A row that is put and removed again, and one that is put.
const ONE_CHANGE: &str = "empty -> true
put Switch 1
remove Switch 1
put Port 1
empty -> false
changes -> 2
change Switch 1 -> none
change Port 1 -> a row
change Port 2 -> nothing";

/// Changes of rows. The commands are `put KEY`, `remove KEY`, `change KEY`, `empty` and `changes`.
#[derive(Drop)]
struct Changing {
    delta: Delta,
}

/// The word for a change.
fn word_of(change: Option<&Option<Row>>) -> &'static str {
    match change {
        Some(Some(_)) => "a row",
        Some(None) => "none",
        None => "nothing",
    }
}

/// Puts a switch at a key.
pub(crate) fn put_switch(alloc: Global, delta: &mut Delta, key: RowKey) -> Result<(), AllocError> {
    let row = switch(alloc, "s1", 4)?;
    delta.insert(key, Some(row))
}

impl Changing {
    /// Puts a row at the key.
    fn put(&mut self, alloc: Global, key: &str) -> Result<String, Fail> {
        let key = key_of(alloc, key)?;
        put_switch(alloc, &mut self.delta, key)?;
        Ok(String::new(alloc))
    }

    /// Puts no row at the key.
    fn remove(&mut self, alloc: Global, key: &str) -> Result<String, Fail> {
        let key = key_of(alloc, key)?;
        self.delta.insert(key, None)?;
        Ok(String::new(alloc))
    }

    /// The word for the key's change.
    fn change(&self, alloc: Global, key: &str) -> Result<String, Fail> {
        let key = key_of(alloc, key)?;
        owned(alloc, word_of(self.delta.change(&key)))
    }
}

impl Scripted for Changing {
    fn answer(&mut self, alloc: Global, command: &str) -> Result<String, Fail> {
        let (word, key) = parts_of(command);
        match word {
            "put" => self.put(alloc, key),
            "remove" => self.remove(alloc, key),
            "change" => self.change(alloc, key),
            "empty" => fact_text(alloc, self.delta.is_empty()),
            _ => number_text(alloc, self.delta.map().len() as u64),
        }
    }
}

#[test]
fn a_delta_has_one_change_of_a_key(rt: HostRuntime) -> Result<(), Fail> {
    let delta = Delta::new(rt.alloc());
    agrees(rt.alloc(), Changing { delta }, ONE_CHANGE)
}
