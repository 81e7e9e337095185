ghost use Rattle.std.specs.Prelude.{◌≡◌, ◌↔◌, IfOk, OnOk, OnErr};
ghost use Rattle.std.specs.FinMap.{empty};
ghost use Rattle.ov_specs.specs.rows.Cells.{Stored, InCells, after_cell_changes, rewritten};
ghost use Rattle.ov_keeper.specs.Keeping.{loaded_contents};
ghost use Rattle.ov_keeper.specs.LineMap.{lines_of_map};
ghost use Rattle.ov_keeper.specs.VolatileKeeper.{contents_of};
ghost use Rattle.ov_keeper.specs.Views.{changes_view};

use crate::change::Change;
use crate::fault::KeepFault;
use crate::keeper::{Keeper, Lines, Loaded};
use crate::line_map::LineMap;
use ov_base::Text;
use std::alloc::{AllocError, Global};
use std::marker::Model;

/// A keeper in memory, of format 2, for a database that is gone when the program ends. It holds each row once, in a hash map.
///
/// Each refusal is `Memory`, and a refused call changes nothing that it holds. A load takes time proportional to the rows, and
/// a commit or a rewrite to its changes, except when the map is rehashed, mostly for twice the room. During a rewrite it holds
/// the former rows beside the new ones. It takes 9 * 2^28 rows at most.
pub struct VolatileKeeper {
    schema: Text,
    // None before the first commit or rewrite, which brings an allocator.
    lines: Option<LineMap>,
}

impl Model for VolatileKeeper {
    ghost use Rattle.std.specs.Prelude.{ℕ, List};
    ghost use Rattle.std.specs.Coded.{coded×, coded_ℕ, coded_list};
    ghost use Rattle.ov_specs.specs.rows.Cells.{CellLines};
    ghost use Rattle.ov_keeper.specs.CellCode.{cell_lines_code};
    ghost use Rattle.ov_keeper.specs.LineMap.{lines_of_map};

    ghost Value = { List ℕ × CellLines };

    ghost coded = { coded× (coded_list coded_ℕ) cell_lines_code };

    ghost view = { λ k. (k.schema, lines_of_map k.lines) };
}

impl Drop for VolatileKeeper {
    // An explicit drop, so that crates above need not prove the drop of its rows again.
    fn drop(self) {
        let VolatileKeeper { schema, lines } = self;
        drop(schema);
        drop(lines);
    }
}

impl VolatileKeeper {
    /// A keeper with this schema text and no rows.
    pub fn new(schema: Text) -> VolatileKeeper
        ensures { (held : Stored) → ⟦<VolatileKeeper as Keeper>⟧.leaves result held ↔
            (held ≡ record { schema = schema; lines = InCells empty }) }
    {
        VolatileKeeper {
            schema,
            lines: None,
        }
    }

    /// A keeper with this schema text and the rows that the changes put, starting from none.
    fn with_changes(
        alloc: Global,
        schema: &Text,
        changes: &[Change],
    ) -> Result<VolatileKeeper, AllocError>
        ensures { IfOk result (λ keeper. contents_of keeper
            ≡ rewritten schema.now (changes_view changes.now)) }
    {
        let mut lines = LineMap::new(alloc);
        lines.commit(alloc, changes)?;
        Ok(VolatileKeeper {
            schema: Text::from_str(alloc, schema.as_str())?,
            lines: Some(lines),
        })
    }

    /// What it holds.
    fn contents(&self, alloc: Global) -> Result<Loaded, AllocError>
        ensures { IfOk result (λ loaded. loaded_contents loaded ≡ contents_of self.now) }
    {
        let lines = match &self.lines {
            Some(lines) => lines.copies(alloc)?,
            None => Vec::new(alloc),
        };
        Ok(Loaded {
            schema: Text::from_str(alloc, self.schema.as_str())?,
            lines: Lines::InCells(lines),
        })
    }
}

impl Keeper for VolatileKeeper {
    ghost use Rattle.std.specs.Prelude.{◌≡◌, IfOk, IfErr, OnOk, OnErr};
    ghost use Rattle.ov_keeper.specs.declared.fault.KeepFault.TheVariants.{Memory};
    ghost use Rattle.ov_specs.specs.rows.Cells.{rewritten};
    ghost use Rattle.ov_keeper.specs.Keeping.{changed, loaded_contents};
    ghost use Rattle.ov_keeper.specs.Views.{changes_view};
    ghost use Rattle.ov_keeper.specs.ListKeeper.{some_contents};
    ghost use Rattle.ov_keeper.specs.VolatileKeeper.{contents_of, finds};

    ghost is_honest = { λ _. Unit {0} };

    ghost leaves = { finds };

    ghost failed = { λ _. 0 };

    ghost format = { λ _. 2 };

    ghost leaves_some = { λ k _. some_contents (contents_of k) };

    fn failures(&self) -> u64 {
        0
    }

    fn format(&self) -> u8 {
        2
    }

    fn load(&mut self, alloc: Global) -> Result<Loaded, KeepFault>
        ensures ok { IfOk result (λ loaded. contents_of self.old ≡ loaded_contents loaded) }
        ensures memory { IfErr result (λ fault. fault ≡ Memory) }
        ensures same { self.new ≡ self.old }
    {
        match self.contents(alloc) {
            Ok(loaded) => Ok(loaded),
            Err(_) => Err(KeepFault::Memory),
        }
    }

    fn commit(&mut self, alloc: Global, changes: &[Change]) -> Result<(), KeepFault>
        ensures made { OnOk result (contents_of self.new
            ≡ changed (changes_view changes.now) (contents_of self.old)) }
        ensures memory { IfErr result (λ fault. fault ≡ Memory) }
        ensures same { OnErr result (self.new ≡ self.old) }
    {
        match commit_lines(alloc, &mut self.lines, changes) {
            Ok(()) => Ok(()),
            Err(_) => Err(KeepFault::Memory),
        }
    }

    fn rewrite(&mut self, alloc: Global, schema: &Text, changes: &[Change]) -> Result<(), KeepFault>
        ensures made { OnOk result (contents_of self.new
            ≡ rewritten schema.now (changes_view changes.now)) }
        ensures memory { IfErr result (λ fault. fault ≡ Memory) }
        ensures same { OnErr result (self.new ≡ self.old) }
    {
        match VolatileKeeper::with_changes(alloc, schema, changes) {
            Ok(keeper) => {
                *self = keeper;
                Ok(())
            }
            Err(_) => Err(KeepFault::Memory),
        }
    }
}

/// Makes all changes, in order, or none.
fn commit_lines(
    alloc: Global,
    lines: &mut Option<LineMap>,
    changes: &[Change],
) -> Result<(), AllocError>
    ensures ok { OnOk result (lines_of_map lines.new ≡ after_cell_changes (changes_view changes.now)
        (lines_of_map lines.old)) }
    ensures err { OnErr result (lines_of_map lines.new ≡ lines_of_map lines.old) }
{
    match lines {
        Some(map) => map.commit(alloc, changes),
        None => {
            let mut map = LineMap::new(alloc);
            map.commit(alloc, changes)?;
            *lines = Some(map);
            Ok(())
        }
    }
}
