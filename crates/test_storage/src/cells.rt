//! Rows of format 2 of which one cell differs.

use crate::opens::{EVERY, HOLDER, first_line, rows_of};
use ov_keeper::{Cell, CellLine, Change, Keeper, ListKeeper};
use std::alloc::Global;
use std::test::Fail;
use test_basics::{NET, Scripted, agrees, cell, cell_line_of, keeper_of, text_of_cell_line};

/// Opens a row of format 2 in which one cell differs.
///
/// A command is a column and the body of its cell, which takes the place of the cell of that column or is one more; or a column
/// alone, which then has no cell. The answer is `kept` if the row opens with exactly these cells, or else why it does not open.
#[derive(Drop)]
struct Cells {
    schema: &'static str,
    /// The row, in the form of its line.
    row: &'static str,
    /// The rows beside it.
    others: &'static str,
}

/// Adds the cell of a column with this body.
fn push_cell(alloc: Global, cells: &mut Vec<Cell>, column: &str, body: &str) -> Result<(), Fail> {
    Ok(cells.push(cell(alloc, column, body.as_bytes())?)?)
}

/// Takes out the cell of a column.
fn remove(cells: &mut Vec<Cell>, column: &str) {
    cells.retain(|cell| cell.column.as_str() != column);
}

/// Takes out the cell of a column, and adds one with the body of a command, if it has one.
fn change(alloc: Global, cells: &mut Vec<Cell>, command: &str) -> Result<(), Fail> {
    match command.split_once(" ") {
        Some((column, body)) => {
            remove(cells, column);
            push_cell(alloc, cells, column, body)
        }
        None => {
            remove(cells, command);
            Ok(())
        }
    }
}

/// The row of a line with the cell of a command in the place of its own.
fn changed(alloc: Global, row: &str, command: &str) -> Result<CellLine, Fail> {
    let mut line = cell_line_of(alloc, row)?;
    change(alloc, &mut line.cells, command)?;
    Ok(line)
}

/// A keeper of format 2 that holds the rows of these lines, and this one.
fn keeper_with(
    alloc: Global,
    schema: &str,
    lines: &str,
    row: CellLine,
) -> Result<ListKeeper, Fail> {
    let mut keeper = keeper_of(alloc, schema, lines)?;
    let changes = vec![in alloc; Change::Put(row)]?;
    match keeper.commit(alloc, changes.as_slice()) {
        Ok(()) => Ok(keeper),
        Err(_) => Err(Fail::new("not kept")),
    }
}

/// The first line of what is found, or `kept` if it is this one.
fn first_or_kept(alloc: Global, found: &str, line: &str) -> Result<String, Fail> {
    let first = first_line(alloc, found)?;
    if first.as_str() == line {
        return Ok(String::from_str(alloc, "kept")?);
    }
    Ok(first)
}

impl Cells {
    /// What opens with a row beside the others.
    fn opened(&self, alloc: Global, row: CellLine) -> Result<String, Fail> {
        let keeper = keeper_with(alloc, self.schema, self.others, row)?;
        rows_of(alloc, keeper, self.schema)
    }

    /// The first line of that, or `kept` if it is the row's own.
    fn opened_or_kept(&self, alloc: Global, row: CellLine) -> Result<String, Fail> {
        let line = text_of_cell_line(alloc, &row)?;
        let found = self.opened(alloc, row)?;
        first_or_kept(alloc, found.as_str(), line.as_str())
    }
}

impl Scripted for Cells {
    fn answer(&mut self, alloc: Global, command: &str) -> Result<String, Fail> {
        let row = changed(alloc, self.row, command)?;
        self.opened_or_kept(alloc, row)
    }
}

/// A port.
const PORT: &str = r#"Port 2 1 {"name":"p1","peer":["set",[]],"tag":7}"#;

/// Cells of a port: a column missing, and added, also those that every row has by itself; not JSON, spaces; values of another
/// kind, out of range, too many, out of order, not as they are written; a real.
const PORT_CELLS: &str = r#"tag 7 -> kept
tag 4095 -> kept
tag ["set",[]] -> kept
name "" -> kept
name "\u0001é" -> kept
tag -> a stored row does not fit the schema
name -> a stored row does not fit the schema
other 1 -> a stored row does not fit the schema
Tag 7 -> a stored row does not fit the schema
_uuid ["uuid","00000000-0000-0000-0000-000000000002"] -> a stored row does not fit the schema
_version ["uuid","00000000-0000-0000-0000-000000000001"] -> a stored row does not fit the schema
tag  -> a stored row does not fit the schema
tag x -> a stored row does not fit the schema
tag  7 -> a stored row does not fit the schema
tag 7  -> a stored row does not fit the schema
tag 7x -> a stored row does not fit the schema
name "p1"x -> a stored row does not fit the schema
peer ["set", []] -> a stored row does not fit the schema
name 1 -> a stored row does not fit the schema
tag "7" -> a stored row does not fit the schema
tag null -> a stored row does not fit the schema
tag {"tag":7} -> a stored row does not fit the schema
tag 4096 -> a stored row does not fit the schema
tag -1 -> a stored row does not fit the schema
tag ["set",[7,8]] -> a stored row does not fit the schema
tag ["set",[7]] -> a stored row does not fit the schema
tag 07 -> a stored row does not fit the schema
tag 7.0 -> a stored row does not fit the schema
tag -0 -> a stored row does not fit the schema
peer ["uuid","00000000-0000-0000-0000-00000000000A"] -> a stored row does not fit the schema
peer ["named-uuid","a"] -> a stored row does not fit the schema
name "\u0070" -> a stored row does not fit the schema"#;

#[test]
fn cells_that_are_no_row_are_refused(rt: HostRuntime) -> Result<(), Fail> {
    let cells = Cells {
        schema: NET,
        row: PORT,
        others: HOLDER,
    };
    agrees(rt.alloc(), cells, PORT_CELLS)
}

/// A row of All.
const ALL: &str =
    r#"All 2 1 {"flag":false,"id":["uuid","00000000-0000-0000-0000-000000000000"],"ids":["set",[]],"name":"","number":0,"numbers":["set",[]],"truths":["map",[]],"words":["map",[]]}"#;

/// Cells of All, of each kind: with no elements, one and some, and texts with escapes; then other words and brackets, elements
/// out of order or repeated, a repeated key, values of another kind, a U+0000, other numbers.
const ALL_CELLS: &str = r#"flag true -> kept
id ["uuid","01234567-89ab-cdef-0123-456789abcdef"] -> kept
ids ["uuid","00000000-0000-0000-0000-000000000003"] -> kept
ids ["set",[["uuid","00000000-0000-0000-0000-000000000003"],["uuid","00000000-0000-0000-0000-000000000005"]]] -> kept
name "a\"\\n\u0001é😀" -> kept
number -9223372036854775808 -> kept
number 9223372036854775807 -> kept
numbers 7 -> kept
numbers ["set",[-3,0,7]] -> kept
truths ["map",[[["uuid","00000000-0000-0000-0000-000000000003"],false],[["uuid","00000000-0000-0000-0000-000000000005"],true]]] -> kept
words ["map",[["","x"],["map","set"],["set","uuid"]]] -> kept
nane "" -> a stored row does not fit the schema
ids ["sets",[]] -> a stored row does not fit the schema
id ["uuid","00000000-0000-0000-0000-000000000000","x"] -> a stored row does not fit the schema
id ["uuid","0000000000000000-0000-000000000000"] -> a stored row does not fit the schema
numbers ["set",[7,-3]] -> a stored row does not fit the schema
numbers ["set",[7,7]] -> a stored row does not fit the schema
numbers ["set",["x"]] -> a stored row does not fit the schema
words ["map",[["a","b"],["a","c"]]] -> a stored row does not fit the schema
words ["map",[["b","c"],["a","c"]]] -> a stored row does not fit the schema
name "\u0000" -> a stored row does not fit the schema
number -0 -> a stored row does not fit the schema
number 9223372036854775808 -> a stored row does not fit the schema
flag null -> a stored row does not fit the schema"#;

#[test]
fn cells_of_every_kind_are_opened(rt: HostRuntime) -> Result<(), Fail> {
    let cells = Cells {
        schema: EVERY,
        row: ALL,
        others: "",
    };
    agrees(rt.alloc(), cells, ALL_CELLS)
}
