ghost use Rattle.std.specs.Prelude.{◌≡◌, ◌++◌, [], ◌∷◌, IfOk};
ghost use Rattle.ov_history.specs.History.{newest};

use crate::event::Entry;
use std::alloc::{AllocError, Global};
use std::collections::VecDeque;
use std::marker::Model;

/// The most entries that are kept.
const MOST_ENTRIES: usize = 4096;

/// The newest entries, oldest first. Their room is allocated once, so that no entry allocates later.
#[derive(Drop)]
pub struct History {
    entries: VecDeque<Entry>,
}

impl Model for History {
    ghost use Rattle.std.specs.Prelude.{List, ◌≤◌};
    ghost use Rattle.std.specs.VecDeque.{deque_len, deque_capacity};
    ghost use Rattle.std.specs.Coded.{codes};
    ghost use Rattle.ov_specs.specs.codes.TreeCode.{tree_code, items_code};
    ghost use Rattle.ov_history.specs.declared.event.Entry.{Entry};
    ghost use Rattle.ov_history.specs.History.{most_entries};

    ghost Value = { List Entry };

    ghost coded = { Prim.hlevel (codes, tree_code, items_code) };

    ghost view = { λ h. h.entries.items };

    ghost invariant = { λ h. (deque_len h.entries ≤ most_entries)
        × (most_entries ≤ deque_capacity h.entries) };
}

impl History {
    /// Creates an empty history, with room for all entries that are ever kept.
    pub fn new(alloc: Global) -> Result<History, AllocError>
        ensures { IfOk result (λ h. h ≡ []) }
    {
        Ok(History {
            entries: VecDeque::with_capacity(alloc, MOST_ENTRIES)?,
        })
    }

    /// Appends an entry. If there are already as many as are kept, the oldest goes.
    pub fn push(&mut self, entry: Entry)
        ensures { self.new ≡ newest (self.old ++ entry ∷ []) }
    {
        if self.entries.len() == MOST_ENTRIES {
            let _oldest = self.entries.pop_front();
        }
        self.entries.push_back_reserved(entry);
    }

    /// The entries.
    pub fn entries(&self) -> &VecDeque<Entry>
        ensures { result.now.items ≡ self.now }
    {
        &self.entries
    }
}
