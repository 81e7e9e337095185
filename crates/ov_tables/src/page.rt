//! What the first page of a file shows without opening the file.

ghost use Rattle.std.specs.Prelude.{IsTrue};
ghost use Rattle.ov_tables.specs.HasText.{HasText, ListsOurs};
ghost use Rattle.ov_tables.specs.Tables.{create_line, create_head, create_cell};

use crate::make::{CREATE_CELL, CREATE_HEAD, CREATE_LINE, CREATE_META};

/// The first bytes of a file that SQLite made.
const MAGIC: &[u8] = b"SQLite format 3\0";

/// Whether this is the first page of a file in write-ahead mode that lists the tables of one of the two formats and no other
/// object: each table, and the index of its primary key. A file of format 2 may have the empty `line` of format 1 too.
pub fn lists_tables(page: &[u8]) -> bool
    ensures { IsTrue result → ListsOurs page.now }
{
    page.starts_with(MAGIC)
        && page.get(18..20) == Some(&[2, 2])
        && has_text(page, CREATE_META.as_bytes())
        && (lists_lines(page) || lists_cells(page))
}

/// Whether the page lists this number of objects, which is below 256.
fn has_objects(page: &[u8], count: u8) -> bool {
    page.get(103..105) == Some(&[0, count])
}

/// Whether the page lists four objects, and `line` is among them.
fn lists_lines(page: &[u8]) -> bool
    ensures { IsTrue result → HasText create_line page.now }
{
    has_objects(page, 4) && has_text(page, CREATE_LINE.as_bytes())
}

/// Whether the page lists six objects, or eight if `line` is among them, and `head` and `cell` are.
fn lists_cells(page: &[u8]) -> bool
    ensures head { IsTrue result → HasText create_head page.now }
    ensures cell { IsTrue result → HasText create_cell page.now }
{
    (has_objects(page, 6) || has_objects(page, 8) && has_text(page, CREATE_LINE.as_bytes()))
        && has_text(page, CREATE_HEAD.as_bytes())
        && has_text(page, CREATE_CELL.as_bytes())
}

/// Whether the text occurs in the bytes.
fn has_text(bytes: &[u8], text: &[u8]) -> bool
    ensures { IsTrue result → HasText text.now bytes.now }
{
    for at in 0..bytes.len() {
        if bytes[at..].starts_with(text) {
            return true;
        }
    }
    false
}
