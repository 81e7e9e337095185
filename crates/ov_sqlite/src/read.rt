//! The rows of the tables, read and tested.

ghost use Rattle.std.specs.Prelude.{◌≡◌, ◌≢◌, codes, false, Err};
ghost use Rattle.sqlite.specs.Held.{state};
ghost use Rattle.ov_tables.specs.Tables.{meta_table, line_table, head_table};
ghost use Rattle.ov_tables.specs.Format.{IsMeta, IsLine, IsHead, entry, head_of};
ghost use Rattle.ov_tables.specs.Format.{rows_of_meta, rows_of_line, rows_of_head};
ghost use Rattle.ov_tables.specs.Querying.{MayRead, head_selected, row_selected};
ghost use Rattle.ov_sqlite.specs.Reading.{ReadsTables, ReadsRows, ReadsHeads};
ghost use Rattle.ov_sqlite.specs.Reading.{HasMalformedLine, HasMalformedHead};

use crate::fault::fault_of;
use crate::join::lines_of_heads;
use crate::meta::meta_of;
use crate::rows::{are_heads, are_lines, test_numbers};
use ov_base::Text;
use ov_keeper::{CellLine, KeepFault};
use ov_tables::{head_rows, line_rows, meta_rows};
use sqlite::{Alter, Connection, Row};
use std::alloc::Global;

/// What `meta` says: the number of the format, and the text of the schema.
#[derive(Drop)]
pub(crate) struct Named {
    pub format: u8,
    pub schema: Text,
}

/// What `meta` says. Returns `Format` if its rows are not those of a stored format.
pub(crate) fn read_meta<S: Alter>(
    alloc: Global,
    conn: &mut Connection<S>,
) -> Result<Named, KeepFault>
    requires { conn.old.in_transaction ≡ false }
    ensures mode { conn.new.in_transaction ≡ false }
    ensures reads { ReadsTables result (MayRead meta_table (codes "meta"))
        (λ db named. IsMeta named.format named.schema (rows_of_meta db.trees))
        (λ db. (n : _) → (text : _) → ¬ IsMeta n text (rows_of_meta db.trees))
        (state S.Store conn.old) (state S.Store conn.new) }
    ensures ours { result ≢ Err KeepFault.NotOurs }
{
    let rows = match meta_rows(conn) {
        Ok(rows) => rows,
        Err(error) => return Err(fault_of(&error)),
    };
    let Some(meta) = meta_of(rows.as_slice()) else {
        return Err(KeepFault::Format);
    };
    match Text::from_str(alloc, meta.schema) {
        Ok(schema) => Ok(Named {
            format: meta.format,
            schema,
        }),
        Err(_) => Err(KeepFault::Memory),
    }
}

/// The rows of `line`. Returns `Format` if one of them is no line.
pub(crate) fn read_lines<S: Alter>(conn: &mut Connection<S>) -> Result<Vec<Row>, KeepFault>
    requires { conn.old.in_transaction ≡ false }
    ensures mode { conn.new.in_transaction ≡ false }
    ensures reads { ReadsTables result (MayRead line_table (codes "line"))
        (λ db rows. ReadsRows IsLine entry row_selected (rows_of_line db.trees) rows.items)
        HasMalformedLine (state S.Store conn.old) (state S.Store conn.new) }
    ensures ours { result ≢ Err KeepFault.NotOurs }
{
    let rows = match line_rows(conn) {
        Ok(rows) => rows,
        Err(error) => return Err(fault_of(&error)),
    };
    match test_numbers(rows.as_slice()) {
        Ok(()) => {}
        Err(fault) => return Err(fault),
    }
    if !are_lines(rows.as_slice()) {
        return Err(KeepFault::Format);
    }
    Ok(rows)
}

/// The rows of `head`. Returns `Format` if one of them is no head.
fn read_heads<S: Alter>(conn: &mut Connection<S>) -> Result<Vec<Row>, KeepFault>
    requires { conn.old.in_transaction ≡ false }
    ensures mode { conn.new.in_transaction ≡ false }
    ensures reads { ReadsTables result (MayRead head_table (codes "head"))
        (λ db rows. ReadsRows IsHead head_of head_selected (rows_of_head db.trees) rows.items)
        HasMalformedHead (state S.Store conn.old) (state S.Store conn.new) }
    ensures ours { result ≢ Err KeepFault.NotOurs }
{
    let rows = match head_rows(conn) {
        Ok(rows) => rows,
        Err(error) => return Err(fault_of(&error)),
    };
    match test_numbers(rows.as_slice()) {
        Ok(()) => {}
        Err(fault) => return Err(fault),
    }
    if !are_heads(rows.as_slice()) {
        return Err(KeepFault::Format);
    }
    Ok(rows)
}

/// The lines of the heads, without cells. Returns `Format` if a row is no head.
pub(crate) fn read_bare_lines<S: Alter>(
    alloc: Global,
    conn: &mut Connection<S>,
) -> Result<Vec<CellLine>, KeepFault>
    requires { conn.old.in_transaction ≡ false }
    ensures mode { conn.new.in_transaction ≡ false }
    ensures reads { ReadsTables result (MayRead head_table (codes "head"))
        (λ db lines. ReadsHeads (rows_of_head db.trees) lines.items) HasMalformedHead
        (state S.Store conn.old) (state S.Store conn.new) }
    ensures ours { result ≢ Err KeepFault.NotOurs }
{
    let heads = match read_heads(conn) {
        Ok(heads) => heads,
        Err(fault) => return Err(fault),
    };
    match lines_of_heads(alloc, heads.as_slice()) {
        Ok(Some(lines)) => Ok(lines),
        // Each row was tested.
        Ok(None) => Err(KeepFault::Device),
        Err(_) => Err(KeepFault::Memory),
    }
}
