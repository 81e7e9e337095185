ghost use Rattle.std.specs.Prelude.{◌≡◌, ◌==◌, not, OnOk, OnErr, IfOk};
ghost use Rattle.std.specs.FinMap.{empty, contains_key, insert, remove, keys, len};

use smallvec::SmallVec;
use std::alloc::{AllocError, Global};
use std::marker::Model;
use uuid::Uuid;

/// The identifiers of the rows at a key, ascending. There is nearly always one, which is stored inline.
pub struct IdSet {
    ids: SmallVec<Uuid, 1>,
}

impl Model for IdSet {
    ghost use Rattle.ov_index.specs.Indexing as indexing;
    ghost use Rattle.ov_index.specs.Indexing.{Ascend, id_set_code, set_of_ids};

    ghost Value = { indexing.IdSet };

    ghost coded = { id_set_code };

    ghost view = { λ s. set_of_ids s.ids.items };

    ghost invariant = { λ s. Ascend s.ids.items };
}

impl Drop for IdSet {
    // An explicit drop, so that code that drops a set need not know where its identifiers are stored.
    fn drop(self) {
        let IdSet { ids } = self;
        drop(ids);
    }
}

impl IdSet {
    /// The set of this identifier alone.
    pub(crate) fn of(alloc: Global, id: Uuid) -> Result<IdSet, AllocError>
        ensures { IfOk result (λ set. set ≡ insert empty id tt) }
    {
        let mut ids = SmallVec::new(alloc);
        ids.push(id)?;
        Ok(IdSet { ids })
    }

    /// The number of identifiers.
    pub fn len(&self) -> usize
        ensures { result ≡ len self.now }
    {
        self.ids.len()
    }

    /// Whether there are no identifiers.
    pub fn is_empty(&self) -> bool
        ensures { result ≡ (len self.now == 0) }
    {
        self.ids.is_empty()
    }

    /// All identifiers, ascending.
    pub fn as_slice(&self) -> &[Uuid]
        ensures { result.now ≡ keys self.now }
    {
        self.ids.as_slice()
    }

    /// Adds this identifier, unless it is there; returns whether it was added. If an allocation fails, nothing is changed.
    pub(crate) fn insert(&mut self, id: Uuid) -> Result<bool, AllocError>
        ensures ok { OnOk result (self.new ≡ insert self.old id tt) }
        ensures is_new { IfOk result (λ is_new. is_new ≡ not (contains_key self.old id)) }
        ensures err { OnErr result (self.new ≡ self.old) }
    {
        match self.ids.as_slice().binary_search(&id) {
            Ok(_) => Ok(false),
            Err(place) => {
                self.ids.insert(place, id)?;
                Ok(true)
            }
        }
    }

    /// Removes this identifier, if it is there.
    pub(crate) fn remove(&mut self, id: Uuid)
        ensures { self.new ≡ remove self.old id }
    {
        if let Ok(place) = self.ids.as_slice().binary_search(&id) {
            self.ids.remove(place);
        }
    }
}
