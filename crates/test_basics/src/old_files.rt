//! The SQL of a database of stored format 1, as older programs wrote it.

use crate::lines::line_of;
use ov_keeper::Line;
use std::alloc::Global;
use std::test::Fail;

/// The tables, and the row of `meta` that names the format.
const TABLES: &str = "CREATE TABLE meta(k TEXT PRIMARY KEY, v BLOB);
CREATE TABLE line(tbl TEXT, id BLOB, ver BLOB, body BLOB, PRIMARY KEY(tbl,id));
INSERT INTO meta VALUES('format',x'31');
";

/// Adds the two hexadecimal digits of a byte.
fn push_digits(alloc: Global, text: &mut String, byte: u8) -> Result<(), Fail> {
    let digits = format!(in alloc; "{byte:02x}")?;
    Ok(text.push_str(digits.as_str())?)
}

/// Adds a comma and a blob of these bytes, which SQL writes in hexadecimal digits.
fn push_blob(alloc: Global, text: &mut String, bytes: &[u8]) -> Result<(), Fail> {
    text.push_str(",x'")?;
    for byte in bytes {
        push_digits(alloc, text, *byte)?;
    }
    Ok(text.push_str("'")?)
}

/// Adds the statement that puts the schema's text.
fn push_schema(alloc: Global, text: &mut String, schema: &str) -> Result<(), Fail> {
    text.push_str("INSERT INTO meta VALUES('schema'")?;
    push_blob(alloc, text, schema.as_bytes())?;
    Ok(text.push_str(");\n")?)
}

/// Adds the statement that puts a line.
fn push_line(alloc: Global, text: &mut String, line: &Line) -> Result<(), Fail> {
    text.push_str("INSERT INTO line VALUES('")?;
    text.push_str(line.table.as_str())?;
    text.push_str("'")?;
    push_blob(alloc, text, line.id.as_bytes())?;
    push_blob(alloc, text, line.version.as_bytes())?;
    push_blob(alloc, text, line.body.as_slice())?;
    Ok(text.push_str(");\n")?)
}

/// Adds the statement that puts the line of a text.
fn push_line_of(alloc: Global, text: &mut String, line: &str) -> Result<(), Fail> {
    let line = line_of(alloc, line)?;
    push_line(alloc, text, &line)
}

/// Adds the statements that put the schema's text and these lines.
fn push_all(alloc: Global, text: &mut String, schema: &str, lines: &str) -> Result<(), Fail> {
    push_schema(alloc, text, schema)?;
    for line in lines.lines() {
        push_line_of(alloc, text, line)?;
    }
    Ok(())
}

/// The statements that make a database of format 1 with this schema text and these lines.
pub fn whole_file(alloc: Global, schema: &str, lines: &str) -> Result<String, Fail> {
    let mut statements = String::from_str(alloc, TABLES)?;
    push_all(alloc, &mut statements, schema, lines)?;
    Ok(statements)
}
