//! Tables of both formats and others beside them, made by SQL, and what is found in them.

ghost use Rattle.std.specs.Prelude.{◌≡◌, false};

use sqlite::types::ValueRef;
use sqlite::{Alter, Connection};
use std::alloc::Global;
use std::test::Fail;

/// The statement for a word.
pub(crate) fn statement(word: &str) -> &'static str {
    match word {
        "meta" => "CREATE TABLE meta(k TEXT PRIMARY KEY, v BLOB);",
        "head" => "CREATE TABLE head(tbl TEXT, id BLOB, ver BLOB, PRIMARY KEY(tbl,id));",
        "cell" => {
            "CREATE TABLE cell(tbl TEXT, id BLOB, col TEXT, body BLOB, PRIMARY KEY(tbl,id,col));"
        }
        "line" => {
            "CREATE TABLE line(tbl TEXT, id BLOB, ver BLOB, body BLOB, PRIMARY KEY(tbl,id));"
        }
        "schema" => "INSERT INTO meta VALUES('schema',x'6f6c64');",
        "one" => "INSERT INTO meta VALUES('format',x'31');",
        "two" => "INSERT INTO meta VALUES('format',x'32');",
        _ => statement_of_rows(word),
    }
}

/// The same for a word of rows, or of what differs from the formats.
fn statement_of_rows(word: &str) -> &'static str {
    match word {
        "row" => {
            "INSERT INTO line VALUES('Port',x'000102030405060708090a0b0c0d0e0f',x'000102030405060708090a0b0c0d0e0f',x'7b7d');"
        }
        "head_row" => {
            "INSERT INTO head VALUES('Port',x'000102030405060708090a0b0c0d0e0f',x'000102030405060708090a0b0c0d0e0f');"
        }
        "cell_row" => {
            "INSERT INTO cell VALUES('Port',x'000102030405060708090a0b0c0d0e0f','tag',x'37');"
        }
        "seven" => "UPDATE meta SET v=x'37' WHERE k='format';",
        "third" => "INSERT INTO meta VALUES('more',x'31');",
        "short" => "UPDATE line SET id=x'000102030405060708090a0b0c0d0e';",
        "no_version" => "UPDATE line SET ver=NULL;",
        "no_text" => "UPDATE line SET tbl=x'ff';",
        "short_head" => "UPDATE head SET ver=x'000102030405060708090a0b0c0d0e';",
        "no_head_text" => "UPDATE head SET tbl=x'ff';",
        "other_cell" => "UPDATE cell SET tbl='Switch';",
        "short_cell" => "UPDATE cell SET id=x'000102030405060708090a0b0c0d0e';",
        "no_column" => "UPDATE cell SET col=NULL;",
        "no_body" => "UPDATE cell SET body=NULL;",
        _ => statement_of_others(word),
    }
}

/// The same for a word of what may stand beside the tables.
fn statement_of_others(word: &str) -> &'static str {
    match word {
        "foreign" => "CREATE TABLE other(a);",
        "seven_there" => "INSERT INTO other VALUES(7);",
        "foreign_line" => "CREATE TABLE line(a);",
        "view" => "CREATE VIEW v AS SELECT 1;",
        "counted" => "CREATE TABLE counted(id INTEGER PRIMARY KEY AUTOINCREMENT);",
        "index" => "CREATE INDEX other ON line(ver);",
        "unique" => "CREATE UNIQUE INDEX other ON line(ver);",
        "cell_index" => "CREATE INDEX other ON cell(col);",
        "cell_unique" => "CREATE UNIQUE INDEX other ON cell(col);",
        "key" => "CREATE TABLE other(a REFERENCES meta(k));",
        "head_key" => "CREATE TABLE other(a REFERENCES head(tbl));",
        "upper" => "CREATE TABLE META(a);",
        "line_view" => "CREATE VIEW Line AS SELECT 1;",
        "head_view" => "CREATE VIEW Head AS SELECT 1;",
        "index_cell" => "CREATE INDEX cell ON other(a);",
        "text_id" =>
            "CREATE TABLE line(tbl TEXT, id TEXT, ver BLOB, body BLOB, PRIMARY KEY(tbl,id));",
        "text_head" => "CREATE TABLE head(tbl TEXT, id TEXT, ver BLOB, PRIMARY KEY(tbl,id));",
        _ => "CREATE TABLE cell(tbl TEXT, id BLOB, col TEXT, body BLOB, PRIMARY KEY(tbl,id));",
    }
}

/// Whether the other table has its row.
fn has_other_row<S: Alter + Drop>(connection: &mut Connection<S>) -> Result<bool, Fail>
    requires { connection.old.in_transaction ≡ false }
{
    let rows = connection
        .transaction()
        .query_all("SELECT a FROM other", &[])?;
    Ok(match rows.as_slice() {
        [row] => matches!(row.get_ref(0), Ok(ValueRef::Int(7))),
        _ => false,
    })
}

/// The same, as text.
pub(crate) fn text_of_other_row<S: Alter + Drop>(
    alloc: Global,
    connection: &mut Connection<S>,
) -> Result<String, Fail>
    requires { connection.old.in_transaction ≡ false }
{
    let has_row = has_other_row(connection)?;
    Ok(format!(in alloc; "{has_row}")?)
}

/// The number of rows of the table `line`, as text.
pub(crate) fn text_of_left<S: Alter + Drop>(
    alloc: Global,
    connection: &mut Connection<S>,
) -> Result<String, Fail>
    requires { connection.old.in_transaction ≡ false }
{
    let rows = connection
        .transaction()
        .query_all("SELECT tbl FROM line", &[])?;
    Ok(format!(in alloc; "{}", rows.len())?)
}
