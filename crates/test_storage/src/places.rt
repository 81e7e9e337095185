//! Where the cells of a row stand after it was changed.

ghost use Rattle.std.specs.Prelude.{◌≡◌, false};

use crate::stores::{closed_after, created};
use crate::trials::{Trial, found_in_memory};
use sqlite::types::ValueRef;
use sqlite::{Alter, Connection, Row};
use std::alloc::Global;
use std::test::Fail;
use test_basics::is_text;

/// A row of which one cell is changed, before another row.
const CHANGED: &str = r#"put Port 1 0 {"name":"one","tag":1}
put Port 2 0 {"name":"two","tag":2}
commit -> made
put Port 1 1 {"name":"one","tag":3}
commit -> made
lines -> Port 1 1 {"name":"one","tag":3};Port 2 0 {"name":"two","tag":2};"#;

/// A row that gets another column in place of one.
const REPLACED: &str = r#"put Port 1 0 {"name":"one","tag":1}
put Port 2 0 {"name":"two","tag":2}
commit -> made
put Port 1 1 {"name":"one","speed":3}
commit -> made
lines -> Port 1 1 {"name":"one","speed":3};Port 2 0 {"name":"two","tag":2};"#;

/// The number of a row, as text.
fn text_of_number(alloc: Global, row: &Row) -> Result<String, Fail> {
    match row.get_ref(0) {
        Ok(ValueRef::Int(number)) => Ok(format!(in alloc; "{number};")?),
        _ => Err(Fail::new("no number")),
    }
}

/// Adds the number of a row.
fn push_number(alloc: Global, text: &mut String, row: &Row) -> Result<(), Fail> {
    let number = text_of_number(alloc, row)?;
    Ok(text.push_str(number.as_str())?)
}

/// The numbers of rows.
fn text_of_numbers(alloc: Global, rows: &[Row]) -> Result<String, Fail> {
    let mut text = String::new(alloc);
    for row in rows {
        push_number(alloc, &mut text, row)?;
    }
    Ok(text)
}

/// The numbers of the cells, in the order in which SQLite finds them: that of their keys.
fn numbers<S: Alter + Drop>(alloc: Global, connection: &mut Connection<S>) -> Result<String, Fail>
    requires { connection.old.in_transaction ≡ false }
{
    let rows = connection
        .transaction()
        .query_all("SELECT rowid FROM cell", &[])?;
    text_of_numbers(alloc, rows.as_slice())
}

/// The numbers of the cells after a script over a new store.
#[derive(Clone, Copy)]
struct Numbered<'a> {
    script: &'a str,
}

impl<'a> Trial for Numbered<'a> {
    fn found<S: Alter + Drop>(
        &self,
        alloc: Global,
        connection: Connection<S>,
    ) -> Result<String, Fail> {
        let store = created(alloc, connection)?;
        let mut connection = closed_after(alloc, store, self.script)?;
        numbers(alloc, &mut connection)
    }
}

/// Tests the numbers after a script over a new store in memory.
fn are_numbered(alloc: Global, script: &str, wanted: &str) -> Result<(), Fail> {
    let found = found_in_memory(alloc, &Numbered { script })?;
    is_text(alloc, found.as_str(), wanted)
}

#[test]
fn a_cell_is_changed_in_its_place(rt: HostRuntime) -> Result<(), Fail> {
    are_numbered(rt.alloc(), CHANGED, "1;2;3;4;")
}

#[test]
fn a_row_of_other_columns_is_replaced(rt: HostRuntime) -> Result<(), Fail> {
    are_numbered(rt.alloc(), REPLACED, "5;6;3;4;")
}
