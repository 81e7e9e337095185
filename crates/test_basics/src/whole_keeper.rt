use ov_base::{Bytes, Text};
use ov_keeper::{Change, KeepFault, Keeper, Line, Lines, ListKeeper, Loaded};
use std::alloc::{AllocError, Global};

/// A keeper in memory that holds lines of format 1 until its first rewrite, and rows of format 2 afterwards. No contract says
/// what it holds: for tests of openings.
#[derive(Drop)]
pub struct WholeKeeper {
    /// Whether it has not been rewritten.
    is_whole: bool,
    lines: Vec<Line>,
    /// The text of the schema, and after a rewrite the rows.
    inner: ListKeeper,
}

impl WholeKeeper {
    ghost use Rattle.std.specs.Prelude.{◌≡◌, IfErr};
    ghost use Rattle.ov_keeper.specs.declared.fault.KeepFault.TheVariants.{Memory};

    /// A keeper of format 1 with this schema text and these lines.
    pub fn new(alloc: Global, schema: Text, lines: Vec<Line>) -> WholeKeeper {
        WholeKeeper {
            is_whole: true,
            lines,
            inner: ListKeeper::new(alloc, schema),
        }
    }

    /// The lines of format 1, or else the rows.
    fn held(&self, alloc: Global, rows: Lines) -> Result<Lines, KeepFault>
        ensures { IfErr result (λ fault. fault ≡ Memory) }
    {
        if !self.is_whole {
            return Ok(rows);
        }
        match copy_lines(alloc, self.lines.as_slice()) {
            Ok(copies) => Ok(Lines::Whole(copies)),
            Err(_) => Err(KeepFault::Memory),
        }
    }
}

/// A copy of each line.
fn copy_lines(alloc: Global, lines: &[Line]) -> Result<Vec<Line>, AllocError> {
    let mut copies = Vec::new(alloc);
    for line in lines {
        copies.push(copy_line(alloc, line)?)?;
    }
    Ok(copies)
}

/// A line with the same parts.
fn copy_line(alloc: Global, line: &Line) -> Result<Line, AllocError> {
    Ok(Line {
        table: Text::from_str(alloc, line.table.as_str())?,
        id: line.id,
        version: line.version,
        body: Bytes::from_slice(alloc, line.body.as_slice())?,
    })
}

impl Keeper for WholeKeeper {
    ghost use Rattle.std.specs.Prelude.{if◌then◌else◌};

    // So its laws say nothing.
    ghost is_honest = { λ _. ⊥ };

    ghost leaves = { λ _ _. ⊥ };

    ghost failed = { λ _. 0 };

    ghost format = { λ k. if k.is_whole then 1 else 2 };

    ghost leaves_some = { λ _ honest. absurd honest };

    fn failures(&self) -> u64 {
        0
    }

    fn format(&self) -> u8 {
        if self.is_whole { 1 } else { 2 }
    }

    fn load(&mut self, alloc: Global) -> Result<Loaded, KeepFault> {
        let Loaded { schema, lines } = self.inner.load(alloc)?;
        let lines = self.held(alloc, lines)?;
        Ok(Loaded { schema, lines })
    }

    fn commit(&mut self, alloc: Global, changes: &[Change]) -> Result<(), KeepFault> {
        self.inner.commit(alloc, changes)
    }

    fn rewrite(
        &mut self,
        alloc: Global,
        schema: &Text,
        changes: &[Change],
    ) -> Result<(), KeepFault> {
        self.inner.rewrite(alloc, schema, changes)?;
        self.is_whole = false;
        Ok(())
    }
}
