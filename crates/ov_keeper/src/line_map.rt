ghost use Rattle.std.specs.Prelude.{◌≡◌, ◌+◌, ◌≤◌, [], ◌∷◌, map, reverse, IfOk, OnOk, OnErr};
ghost use Rattle.std.specs.FinMap.{empty};
ghost use Rattle.ov_specs.specs.rows.Cells.{after_cell_change, after_cell_changes};
ghost use Rattle.ov_keeper.specs.LineMap.{lines_in, spare_in, room_for};
ghost use Rattle.ov_keeper.specs.Views.{change_view, changes_view, cell_line_entry};

use crate::cell_line::{Cell, CellLine, copy_cells};
use crate::change::{Change, copy_all};
use crate::line_key::LineKey;
use ov_base::Text;
use std::alloc::{AllocError, Global};
use std::collections::HashMap;
use std::marker::Model;
use uuid::Uuid;

/// What a row has beside its key: its version, and its cells.
#[derive(Drop)]
pub(crate) struct RowCells {
    version: Uuid,
    cells: Vec<Cell>,
}

impl Model for RowCells {
    ghost use Rattle.ov_specs.specs.rows.Cells as stored;
    ghost use Rattle.ov_keeper.specs.CellCode.{cell_line_code};

    ghost Value = { stored.CellLine };

    ghost coded = { cell_line_code };

    ghost use Rattle.ov_keeper.specs.Views.{cells_view};

    ghost view = { λ r. (r.version, cells_view r.cells.items) };
}

/// Rows by their keys.
#[derive(Drop)]
pub(crate) struct LineMap {
    rows: HashMap<LineKey, RowCells>,
}

impl LineMap {
    /// A map without rows.
    pub(crate) fn new(alloc: Global) -> LineMap
        ensures { lines_in result ≡ empty }
    {
        LineMap {
            rows: HashMap::new(alloc),
        }
    }

    /// Makes all changes, in order, or none. What may be refused comes first: a copy of each change, and room for all rows
    /// that are put.
    pub(crate) fn commit(&mut self, alloc: Global, changes: &[Change]) -> Result<(), AllocError>
        ensures ok { OnOk result (lines_in self.new ≡ after_cell_changes (changes_view changes.now)
            (lines_in self.old)) }
        ensures err { OnErr result (lines_in self.new ≡ lines_in self.old) }
    {
        let mut copies = copy_all(alloc, changes)?;
        self.rows.reserve(puts_among(changes))?;
        copies.reverse();
        self.make_all(copies);
        Ok(())
    }

    /// Makes the changes, the last one first. Allocates nothing, since there is room for the rows.
    fn make_all(&mut self, changes: Vec<Change>)
        requires { room_for (changes_view changes.items) ≤ spare_in self.old }
        ensures { lines_in self.new ≡ after_cell_changes (changes_view (reverse changes.items))
            (lines_in self.old) }
    {
        let mut changes = changes;
        while let Some(change) = changes.pop() {
            self.make_one(change);
        }
    }

    fn make_one(&mut self, change: Change)
        requires { room_for (change_view change ∷ []) ≤ spare_in self.old }
        ensures lines { lines_in self.new ≡ after_cell_change (change_view change)
            (lines_in self.old) }
        ensures spare { spare_in self.old ≤ spare_in self.new + room_for (change_view change ∷ []) }
    {
        match change {
            Change::Put(line) => {
                let CellLine {
                    table,
                    id,
                    version,
                    cells,
                } = line;
                let Ok(_) = self
                    .rows
                    .insert(LineKey { table, id }, RowCells { version, cells })
                else {
                    unreachable!()
                };
            }
            Change::Remove { table, id } => {
                self.rows.remove(&LineKey { table, id });
            }
        }
    }

    /// A copy of each row.
    pub(crate) fn copies(&self, alloc: Global) -> Result<Vec<CellLine>, AllocError>
        ensures { IfOk result (λ lines. map cell_line_entry lines.items ≡ self.now.rows.entries) }
    {
        let mut lines = Vec::with_capacity(alloc, self.rows.len())?;
        for (key, kept) in self.rows.iter() {
            lines.push(CellLine {
                table: Text::from_str(alloc, key.table.as_str())?,
                id: key.id,
                version: kept.version,
                cells: copy_cells(alloc, kept.cells.as_slice())?,
            })?;
        }
        Ok(lines)
    }
}

/// How many of the changes put a row.
fn puts_among(changes: &[Change]) -> usize
    ensures { result ≡ room_for (changes_view changes.now) }
{
    let mut puts = 0;
    for change in changes {
        if let Change::Put(_) = change {
            puts += 1;
        }
    }
    puts
}
