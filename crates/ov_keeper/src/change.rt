ghost use Rattle.std.specs.Prelude.{◌≡◌, IfOk};
ghost use Rattle.ov_keeper.specs.Views.{change_view, changes_view};

use crate::cell_line::CellLine;
use ov_base::Text;
use std::alloc::{AllocError, Global};
use uuid::Uuid;

/// A change of one row.
#[derive(Drop)]
pub enum Change {
    /// Puts the row, replacing any with its table and identifier, and all cells of that one.
    Put(CellLine),
    /// Removes the row and its cells, if there is one.
    Remove { table: Text, id: Uuid },
}

impl Change {
    /// A change with the same parts.
    pub fn copy(&self, alloc: Global) -> Result<Change, AllocError>
        ensures { IfOk result (λ copy. change_view copy ≡ change_view self.now) }
    {
        match self {
            Change::Put(line) => Ok(Change::Put(line.copy(alloc)?)),
            Change::Remove { table, id } => Ok(Change::Remove {
                table: Text::from_str(alloc, table.as_str())?,
                id: *id,
            }),
        }
    }
}

/// A copy of each change, in order.
pub(crate) fn copy_all(alloc: Global, changes: &[Change]) -> Result<Vec<Change>, AllocError>
    ensures { IfOk result (λ copies. changes_view copies.items ≡ changes_view changes.now) }
{
    let mut copies = Vec::new(alloc);
    for change in changes {
        copies.push(change.copy(alloc)?)?;
    }
    Ok(copies)
}
