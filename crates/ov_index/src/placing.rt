ghost use Rattle.std.specs.Prelude.{◌≡◌, [], ◌∷◌, OnOk};
ghost use Rattle.ov_index.specs.Changing.{IsPlaced};
ghost use Rattle.ov_index.specs.Collecting.{AreAdded, IsSameWithout, AreMoreGone};
ghost use Rattle.ov_index.specs.Indexing.{AreIndexesOf, without_entries};

use crate::entry::{IndexEntry, entries_of_row, is_among};
use crate::indexes::Indexes;
use ov_rows::{Row, RowKey, Rows};
use ov_schema::Schema;
use std::alloc::{AllocError, Global};
use std::collections::BTreeMap;

/// What changes of rows do to the indexes.
#[derive(Drop)]
pub struct IndexChanges {
    /// The entries added for new rows; they were not there before.
    pub added: Vec<IndexEntry>,
    /// The entries of former rows, to be removed when the changes take effect.
    pub gone: Vec<IndexEntry>,
}

impl IndexChanges {
    /// No changes.
    pub fn new(alloc: Global) -> IndexChanges
        ensures added { result.added.items ≡ [] }
        ensures gone { result.gone.items ≡ [] }
    {
        IndexChanges {
            added: Vec::new(alloc),
            gone: Vec::new(alloc),
        }
    }
}

impl Indexes {
    /// Adds the entry and lists it, unless it is there. If an allocation fails, nothing is changed.
    fn add_new(
        &mut self,
        alloc: Global,
        entry: IndexEntry,
        added: &mut Vec<IndexEntry>,
    ) -> Result<(), AllocError>
        ensures back { IsSameWithout added.old.items self.old added.new.items self.new }
        ensures on { OnOk result (AreAdded (entry ∷ []) self.old self.new) }
    {
        added.reserve(1)?;
        let listed = entry.copy(alloc)?;
        if self.add(alloc, entry)? {
            added.push_reserved(listed);
        }
        Ok(())
    }

    /// Adds the entries that are not there, and lists them.
    fn add_all_new(
        &mut self,
        alloc: Global,
        entries: Vec<IndexEntry>,
        added: &mut Vec<IndexEntry>,
    ) -> Result<(), AllocError>
        ensures back { IsSameWithout added.old.items self.old added.new.items self.new }
        ensures on { OnOk result (AreAdded entries.items self.old self.new) }
    {
        for entry in entries {
            self.add_new(alloc, entry, added)?;
        }
        Ok(())
    }

    /// Adds the entries that the changes make, so that nothing is left to allocate later. Lists those that were not there,
    /// and those that the former rows had and the new ones do not. `rows` are those before the changes.
    pub fn place(
        &mut self,
        alloc: Global,
        schema: &Schema,
        rows: &Rows,
        changes: &BTreeMap<RowKey, Option<Row>>,
        room: &mut IndexChanges,
    ) -> Result<(), AllocError>
        requires indexed { AreIndexesOf schema.now rows.now self.old }
        requires added { room.old.added.items ≡ [] }
        requires gone { room.old.gone.items ≡ [] }
        ensures back { AreIndexesOf schema.now rows.now
            (without_entries room.new.added.items self.new) }
        ensures on { OnOk result
            (IsPlaced schema.now changes.now.entries rows.now room.new.gone.items self.new) }
    {
        for (key, row) in changes {
            let new = entries_of_row(alloc, schema, key, row.as_ref())?;
            let old = entries_of_row(alloc, schema, key, rows.row(key.table(), key.id()))?;
            push_gone(&mut room.gone, old, new.as_slice())?;
            self.add_all_new(alloc, new, &mut room.added)?;
        }
        Ok(())
    }
}

/// Lists the old entries that are not among the new ones.
fn push_gone(
    gone: &mut Vec<IndexEntry>,
    old: Vec<IndexEntry>,
    new: &[IndexEntry],
) -> Result<(), AllocError>
    ensures { OnOk result (AreMoreGone old.items new.now gone.old.items gone.new.items) }
{
    for entry in old {
        if !is_among(new, &entry) {
            gone.push(entry)?;
        }
    }
    Ok(())
}
