use crate::tree_texts::value;
use ov_base::{Bytes, Text};
use ov_keeper::{Cell, CellLine, Change, Line};
use serde_json::Value;
use std::alloc::{AllocError, Global};
use std::test::Fail;
use uuid::Uuid;

/// The identifier with this number.
pub fn number(text: &str) -> Result<Uuid, Fail> {
    Ok(Uuid::from_u128(text.parse::<u128>()?))
}

/// The parts of a text before and after its first space. Fails with these words if it has none.
fn parted<'a>(text: &'a str, lack: &'static str) -> Result<(&'a str, &'a str), Fail> {
    match text.split_once(" ") {
        Some(parts) => Ok(parts),
        None => Err(Fail::new(lack)),
    }
}

/// The line with these parts.
fn line_with(
    alloc: Global,
    table: &str,
    id: Uuid,
    version: Uuid,
    body: &str,
) -> Result<Line, AllocError> {
    let body = Bytes::from_slice(alloc, body.as_bytes())?;
    Ok(Line {
        table: Text::from_str(alloc, table)?,
        id,
        version,
        body,
    })
}

/// The line of a text, as format 1 has it: its table, its identifier and version as numbers, and its body.
pub fn line_of(alloc: Global, text: &str) -> Result<Line, Fail> {
    let (table, rest) = parted(text, "no identifier")?;
    let (id, rest) = parted(rest, "no version")?;
    let (version, body) = parted(rest, "no body")?;
    let id = number(id)?;
    let version = number(version)?;
    Ok(line_with(alloc, table, id, version, body)?)
}

/// The lines of a text, one in a line.
pub fn lines_of(alloc: Global, text: &str) -> Result<Vec<Line>, Fail> {
    let mut lines = Vec::new(alloc);
    for line in text.lines() {
        lines.push(line_of(alloc, line)?)?;
    }
    Ok(lines)
}

/// A cell with this body.
pub fn cell(alloc: Global, column: &str, body: &[u8]) -> Result<Cell, Fail> {
    Ok(Cell {
        column: Text::from_str(alloc, column)?,
        body: Bytes::from_slice(alloc, body)?,
    })
}

/// The cell of a member of an object.
fn cell_of_member(alloc: Global, name: &str, member: &Value) -> Result<Cell, Fail> {
    let body = member.to_vec(alloc)?;
    cell(alloc, name, body.as_slice())
}

/// A cell for each member of an object.
fn cells_of_object(alloc: Global, object: &Value) -> Result<Vec<Cell>, Fail> {
    let Value::Object(members) = object else {
        return Err(Fail::new("no object"));
    };
    let mut cells = Vec::new(alloc);
    for (name, member) in members.iter() {
        cells.push(cell_of_member(alloc, name.as_str(), member)?)?;
    }
    Ok(cells)
}

/// A cell for each member of the object with this text.
pub fn cells_of(alloc: Global, text: &str) -> Result<Vec<Cell>, Fail> {
    let object = value(alloc, text)?;
    cells_of_object(alloc, &object)
}

/// The row of a text, in cells: as its line, whose body is an object with a member for each cell.
pub fn cell_line_of(alloc: Global, text: &str) -> Result<CellLine, Fail> {
    let Line {
        table,
        id,
        version,
        body,
    } = line_of(alloc, text)?;
    let cells = cells_of(alloc, str::from_utf8(body.as_slice())?)?;
    Ok(CellLine {
        table,
        id,
        version,
        cells,
    })
}

/// The removal of the row of a key's text: its table, and its identifier as a number.
fn removal_of(alloc: Global, key: &str) -> Result<Change, Fail> {
    let (table, id) = parted(key, "no identifier")?;
    let id = number(id)?;
    let table = Text::from_str(alloc, table)?;
    Ok(Change::Remove { table, id })
}

/// The change that puts the row of a text.
fn put_of(alloc: Global, line: &str) -> Result<Change, Fail> {
    Ok(Change::Put(cell_line_of(alloc, line)?))
}

/// The change of a text: `put` and a row, or `remove` and a key.
pub fn change_of(alloc: Global, text: &str) -> Result<Change, Fail> {
    let (word, rest) = parted(text, "no change")?;
    match word {
        "put" => put_of(alloc, rest),
        "remove" => removal_of(alloc, rest),
        _ => Err(Fail::new("no change")),
    }
}
