use ov_keeper::{Cell, CellLine, Line, Lines};
use std::alloc::Global;
use std::test::Fail;
use uuid::Uuid;

/// The text of a row: its table, its identifier and version as numbers, and its body.
fn text_of(
    alloc: Global,
    table: &str,
    id: &Uuid,
    version: &Uuid,
    body: &str,
) -> Result<String, Fail> {
    let id = id.as_u128();
    let version = version.as_u128();
    Ok(format!(in alloc; "{table} {id} {version} {body}")?)
}

/// The text of a line of format 1.
pub fn text_of_line(alloc: Global, line: &Line) -> Result<String, Fail> {
    let body = str::from_utf8(line.body.as_slice())?;
    text_of(alloc, line.table.as_str(), &line.id, &line.version, body)
}

/// The text of a cell, as a member of an object.
fn text_of_cell(alloc: Global, cell: &Cell) -> Result<String, Fail> {
    let column = cell.column.as_str();
    let body = str::from_utf8(cell.body.as_slice())?;
    Ok(format!(in alloc; "\"{column}\":{body}")?)
}

/// The text of an object whose members are these cells, in ascending order.
fn object_of(alloc: Global, cells: &[Cell]) -> Result<String, Fail> {
    let mut members = Vec::new(alloc);
    for cell in cells {
        members.push(text_of_cell(alloc, cell)?)?;
    }
    members.sort()?;
    let members = with_commas(alloc, members.as_slice())?;
    Ok(format!(in alloc; "{{{members}}}")?)
}

/// Texts, with commas between them.
fn with_commas(alloc: Global, texts: &[String]) -> Result<String, Fail> {
    let mut all = String::new(alloc);
    for text in texts {
        if !all.as_str().is_empty() {
            all.push_str(",")?;
        }
        all.push_str(text.as_str())?;
    }
    Ok(all)
}

/// The text of a row in cells, in the form of its line of format 1.
pub fn text_of_cell_line(alloc: Global, line: &CellLine) -> Result<String, Fail> {
    let body = object_of(alloc, line.cells.as_slice())?;
    text_of(
        alloc,
        line.table.as_str(),
        &line.id,
        &line.version,
        body.as_str(),
    )
}

/// The texts of lines of format 1.
fn texts_of_whole(alloc: Global, lines: &[Line]) -> Result<Vec<String>, Fail> {
    let mut texts = Vec::new(alloc);
    for line in lines {
        texts.push(text_of_line(alloc, line)?)?;
    }
    Ok(texts)
}

/// The texts of rows in cells.
fn texts_in_cells(alloc: Global, lines: &[CellLine]) -> Result<Vec<String>, Fail> {
    let mut texts = Vec::new(alloc);
    for line in lines {
        texts.push(text_of_cell_line(alloc, line)?)?;
    }
    Ok(texts)
}

/// The texts of the rows of either format, in ascending order, each followed by a semicolon.
pub fn text_of_lines(alloc: Global, lines: &Lines) -> Result<String, Fail> {
    let mut texts = match lines {
        Lines::Whole(lines) => texts_of_whole(alloc, lines.as_slice())?,
        Lines::InCells(lines) => texts_in_cells(alloc, lines.as_slice())?,
    };
    texts.sort()?;
    with_semicolons(alloc, texts.as_slice())
}

/// Texts, each followed by a semicolon.
fn with_semicolons(alloc: Global, texts: &[String]) -> Result<String, Fail> {
    let mut all = String::new(alloc);
    for text in texts {
        all.push_str(text.as_str())?;
        all.push_str(";")?;
    }
    Ok(all)
}
