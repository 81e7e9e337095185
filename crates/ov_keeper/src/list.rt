ghost use Rattle.std.specs.Prelude.{◌≡◌, ◌↔◌, IfOk, OnOk};
ghost use Rattle.std.specs.FinMap.{empty, remove};
ghost use Rattle.ov_specs.specs.rows.Cells.{Stored, InCells, after_cell_change, after_cell_changes};
ghost use Rattle.ov_specs.specs.rows.Cells.{rewritten};
ghost use Rattle.ov_keeper.specs.Keeping.{loaded_contents};
ghost use Rattle.ov_keeper.specs.ListKeeper.{contents_of, lines_of};
ghost use Rattle.ov_keeper.specs.Views.{change_view, changes_view};

use crate::cell_line::CellLine;
use crate::change::{Change, copy_all};
use crate::fault::KeepFault;
use crate::keeper::{Keeper, Lines, Loaded};
use ov_base::Text;
use std::alloc::{AllocError, Global};
use uuid::Uuid;

/// A keeper in memory, of format 2, for tests and small databases: a load takes time quadratic in the number of changes made,
/// counted from the last rewrite. Each refusal is `Memory`, and a refused call changes nothing that it holds.
#[derive(Drop)]
pub struct ListKeeper {
    schema: Text,
    made: Vec<Change>,
}

impl ListKeeper {
    /// A keeper with this schema text and no rows.
    pub fn new(alloc: Global, schema: Text) -> ListKeeper
        ensures { (held : Stored) → ⟦<ListKeeper as Keeper>⟧.leaves result held ↔
            (held ≡ record { schema = schema; lines = InCells empty }) }
    {
        ListKeeper {
            schema,
            made: Vec::new(alloc),
        }
    }

    /// A keeper with this schema text and the rows that the changes put, starting from none.
    fn with_changes(
        alloc: Global,
        schema: &Text,
        changes: &[Change],
    ) -> Result<ListKeeper, AllocError>
        ensures { IfOk result (λ keeper. contents_of keeper
            ≡ rewritten schema.now (changes_view changes.now)) }
    {
        Ok(ListKeeper {
            schema: Text::from_str(alloc, schema.as_str())?,
            made: copy_all(alloc, changes)?,
        })
    }

    /// What it holds.
    fn contents(&self, alloc: Global) -> Result<Loaded, AllocError>
        ensures { IfOk result (λ loaded. loaded_contents loaded ≡ contents_of self.now) }
    {
        Ok(Loaded {
            schema: Text::from_str(alloc, self.schema.as_str())?,
            lines: Lines::InCells(lines_after(alloc, self.made.as_slice())?),
        })
    }
}

impl Keeper for ListKeeper {
    ghost use Rattle.std.specs.Prelude.{◌≡◌, IfOk, IfErr, OnOk, OnErr};
    ghost use Rattle.ov_keeper.specs.declared.fault.KeepFault.TheVariants.{Memory};
    ghost use Rattle.ov_specs.specs.rows.Cells.{rewritten};
    ghost use Rattle.ov_keeper.specs.Keeping.{LeavesMade, changed, loaded_contents};
    ghost use Rattle.ov_keeper.specs.Views.{changes_view};
    ghost use Rattle.ov_keeper.specs.ListKeeper.{contents_of, finds, some_contents};

    ghost is_honest = { λ _. Unit {0} };

    ghost leaves = { finds };

    ghost failed = { λ _. 0 };

    ghost format = { λ _. 2 };

    ghost leaves_some = { λ k _. some_contents (contents_of k) };

    fn failures(&self) -> u64 {
        0
    }

    fn format(&self) -> u8 {
        2
    }

    fn load(&mut self, alloc: Global) -> Result<Loaded, KeepFault>
        ensures ok { IfOk result (λ loaded. contents_of self.old ≡ loaded_contents loaded) }
        ensures memory { IfErr result (λ fault. fault ≡ Memory) }
        ensures same { contents_of self.new ≡ contents_of self.old }
    {
        match self.contents(alloc) {
            Ok(loaded) => Ok(loaded),
            Err(_) => Err(KeepFault::Memory),
        }
    }

    fn commit(&mut self, alloc: Global, changes: &[Change]) -> Result<(), KeepFault>
        ensures ok { OnOk result (LeavesMade (changed (changes_view changes.now)) (finds self.old)
            (finds self.new)) }
        ensures memory { IfErr result (λ fault. fault ≡ Memory) }
        ensures same { OnErr result (contents_of self.new ≡ contents_of self.old) }
    {
        let Ok(mut more) = copy_all(alloc, changes) else {
            return Err(KeepFault::Memory);
        };
        match self.made.append(&mut more) {
            Ok(()) => Ok(()),
            Err(_) => Err(KeepFault::Memory),
        }
    }

    fn rewrite(&mut self, alloc: Global, schema: &Text, changes: &[Change]) -> Result<(), KeepFault>
        ensures ok { OnOk result (contents_of self.new ≡ rewritten schema.now
            (changes_view changes.now)) }
        ensures memory { IfErr result (λ fault. fault ≡ Memory) }
        ensures same { OnErr result (contents_of self.new ≡ contents_of self.old) }
    {
        match ListKeeper::with_changes(alloc, schema, changes) {
            Ok(keeper) => {
                *self = keeper;
                Ok(())
            }
            Err(_) => Err(KeepFault::Memory),
        }
    }
}

/// The rows that the changes make, starting from none.
fn lines_after(alloc: Global, changes: &[Change]) -> Result<Vec<CellLine>, AllocError>
    ensures { IfOk result (λ lines. lines_of lines.items
        ≡ after_cell_changes (changes_view changes.now) empty) }
{
    let mut lines = Vec::new(alloc);
    for change in changes {
        make_change(alloc, change, &mut lines)?;
    }
    Ok(lines)
}

fn make_change(alloc: Global, change: &Change, lines: &mut Vec<CellLine>) -> Result<(), AllocError>
    ensures { OnOk result (lines_of lines.new.items ≡ after_cell_change (change_view change.now)
        (lines_of lines.old.items)) }
{
    match change {
        Change::Put(line) => {
            remove_line(lines, line.table.as_str(), line.id);
            lines.push(line.copy(alloc)?)?;
        }
        Change::Remove { table, id } => remove_line(lines, table.as_str(), *id),
    }
    Ok(())
}

fn remove_line(lines: &mut Vec<CellLine>, table: &str, id: Uuid)
    ensures { lines_of lines.new.items ≡ remove (lines_of lines.old.items) (table.now, id) }
{
    lines.retain(|line| !line.is_at(table, id));
}
