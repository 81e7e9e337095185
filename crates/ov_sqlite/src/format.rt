//! Whether the contents of the tables are of the stored format whose tables are there, and what they hold.

ghost use Rattle.std.specs.Prelude.{◌≡◌, ◌≢◌, false, map, IfOk, IfSome, Err};
ghost use Rattle.sqlite.specs.State.{HasCleanDisk};
ghost use Rattle.sqlite.specs.Held.{state};
ghost use Rattle.ov_keeper.specs.Views.{line_entry};
ghost use Rattle.ov_tables.specs.Tables.{HasOurTables};
ghost use Rattle.ov_tables.specs.Format.{IsFormat, IsCellFormat, NamesOther, entry};
ghost use Rattle.ov_sqlite.specs.Reading.{ReadsTables, HasMalformedLine, IsHeldBy, are_cells};
ghost use Rattle.ov_sqlite.specs.Reading.{MayReadCells, MayReadRows, ReadsCells, ReadsLines};
ghost use Rattle.ov_sqlite.specs.Reading.{MayHaveTables};

use crate::columns::line_columns_of;
use crate::fault::fault_of;
use crate::join::Joining;
use crate::read::{read_bare_lines, read_lines, read_meta};
use crate::write::probe;
use ov_base::{Bytes, Text};
use ov_keeper::{CellLine, KeepFault, Line, Lines, Loaded};
use ov_tables::{each_cell, has_cell_tables};
use sqlite::{Alter, Connection, Row};
use std::alloc::{AllocError, Global};

/// The heads with their cells. Returns `Format` if a row is malformed, or a cell has no head.
fn read_joined<S: Alter>(
    alloc: Global,
    conn: &mut Connection<S>,
) -> Result<Vec<CellLine>, KeepFault>
    requires { conn.old.in_transaction ≡ false }
    ensures mode { conn.new.in_transaction ≡ false }
    ensures reads { ReadsTables result MayReadCells (λ db lines. ReadsCells db lines.items)
        (λ db. (text : _) → ¬ IsCellFormat text db)
        (state S.Store conn.old) (state S.Store conn.new) }
    ensures ours { result ≢ Err KeepFault.NotOurs }
{
    // Its contract says that the rows obey the schema.
    let _schema = conn.schema();
    let lines = match read_bare_lines(alloc, conn) {
        Ok(lines) => lines,
        Err(fault) => return Err(fault),
    };
    let mut joining = Joining::new(alloc, lines);
    match each_cell(conn, &mut joining) {
        Ok(true) => Ok(joining.lines),
        Ok(false) if joining.is_malformed => Err(KeepFault::Format),
        // The numbers of the rows do not ascend.
        Ok(false) => Err(KeepFault::Device),
        Err(error) => Err(fault_of(&error)),
    }
}

/// The lines of the rows, if each row is one.
fn lines_of(alloc: Global, rows: &[Row]) -> Result<Option<Vec<Line>>, AllocError>
    ensures { IfOk result (λ all. IfSome all (λ lines. map line_entry lines.items
        ≡ map entry rows.now)) }
{
    let mut lines = Vec::with_capacity(alloc, rows.len())?;
    for row in rows {
        let Some(parts) = line_columns_of(row) else {
            return Ok(None);
        };
        lines.push(Line {
            table: Text::from_str(alloc, parts.table)?,
            id: parts.id,
            version: parts.version,
            body: Bytes::from_slice(alloc, parts.body)?,
        })?;
    }
    Ok(Some(lines))
}

/// The lines of stored format 1. Returns `Format` if a row is no line.
fn read_whole<S: Alter>(alloc: Global, conn: &mut Connection<S>) -> Result<Vec<Line>, KeepFault>
    requires { conn.old.in_transaction ≡ false }
    ensures mode { conn.new.in_transaction ≡ false }
    ensures reads { ReadsTables result (MayReadRows false)
        (λ db lines. ReadsLines db (Lines.Whole lines)) HasMalformedLine
        (state S.Store conn.old) (state S.Store conn.new) }
    ensures ours { result ≢ Err KeepFault.NotOurs }
{
    // Its contract says that the rows obey the schema.
    let _schema = conn.schema();
    let rows = match read_lines(conn) {
        Ok(rows) => rows,
        Err(fault) => return Err(fault),
    };
    match lines_of(alloc, rows.as_slice()) {
        Ok(Some(lines)) => Ok(lines),
        // Each row was tested.
        Ok(None) => Err(KeepFault::Device),
        Err(_) => Err(KeepFault::Memory),
    }
}

/// The rows of this format. Returns `Format` if a row is malformed, or a cell has no head.
fn read_rows<S: Alter>(
    alloc: Global,
    conn: &mut Connection<S>,
    in_cells: bool,
) -> Result<Lines, KeepFault>
    requires { conn.old.in_transaction ≡ false }
    ensures mode { conn.new.in_transaction ≡ false }
    ensures reads { ReadsTables result (MayReadRows in_cells)
        (λ db lines. (are_cells lines ≡ in_cells) × ReadsLines db lines)
        (λ db. (text : _) → ¬ IsFormat text db)
        (state S.Store conn.old) (state S.Store conn.new) }
    ensures ours { result ≢ Err KeepFault.NotOurs }
{
    if in_cells {
        match read_joined(alloc, conn) {
            Ok(lines) => Ok(Lines::InCells(lines)),
            Err(fault) => Err(fault),
        }
    } else {
        match read_whole(alloc, conn) {
            Ok(lines) => Ok(Lines::Whole(lines)),
            Err(fault) => Err(fault),
        }
    }
}

/// What the tables hold, with a test of all rows of the format whose tables are there. Returns `NotOurs` if `meta` names the
/// other format, and `Format` if a row is not as in the format.
pub fn read_all<S: Alter>(alloc: Global, conn: &mut Connection<S>) -> Result<Loaded, KeepFault>
    requires { conn.old.in_transaction ≡ false }
    ensures mode { conn.new.in_transaction ≡ false }
    ensures reads { ReadsTables result MayHaveTables IsHeldBy
        (λ db. (text : _) → ¬ IsFormat text db)
        (state S.Store conn.old) (state S.Store conn.new) }
    ensures ours { HasCleanDisk (state S.Store conn.new)
        → HasOurTables (state S.Store conn.old).now.schema
        → result ≡ Err KeepFault.NotOurs → NamesOther (state S.Store conn.old).now }
{
    // Its contract says that the rows obey the schema.
    let in_cells = has_cell_tables(conn.schema());
    let named = match read_meta(alloc, conn) {
        Ok(named) => named,
        Err(fault) => return Err(fault),
    };
    if (named.format == 2) != in_cells {
        return Err(KeepFault::NotOurs);
    }
    let lines = match read_rows(alloc, conn, in_cells) {
        Ok(lines) => lines,
        Err(fault) => return Err(fault),
    };
    // The connection keeps the statement of this test, so the test after a failed commit allocates nothing.
    match probe(conn) {
        Ok(()) => Ok(Loaded {
            schema: named.schema,
            lines,
        }),
        Err(error) => Err(fault_of(&error)),
    }
}
