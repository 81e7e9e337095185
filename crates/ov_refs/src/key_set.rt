ghost use Rattle.std.specs.Prelude.{◌≡◌, ◌==◌, ◌∷◌, [], IfOk, OnOk, OnErr};
ghost use Rattle.std.specs.BTreeSet.{insert_key};
ghost use Rattle.std.specs.List.Sorted.{IsStrictlySortedBy};
ghost use Rattle.std.specs.FinMap.{empty, contains_key, insert, remove, keys, len};
ghost use Rattle.ov_specs.specs.rows.Lines.{line_cmp};
ghost use Rattle.ov_refs.specs.Whole.{has_another};

use crate::borrowed_key::BorrowedKey;
use crate::key_iter::KeyIter;
use Keys::*;
use ov_rows::RowKey;
use std::alloc::{AllocError, Global};
use std::collections::BTreeSet;
use std::marker::Model;

/// Stores the keys of a set: a single one inline, several in a tree.
#[derive(Drop)]
enum Keys {
    Empty,
    One(RowKey),
    Many(BTreeSet<RowKey>),
}

/// A set of rows, by their keys. Most rows that are referred to have one holder, so a single key is stored inline.
pub struct KeySet {
    stored: Keys,
}

impl Model for KeySet {
    ghost use Rattle.std.specs.Prelude.{T, map};
    ghost use Rattle.std.specs.FinMap.{is_sorted};
    ghost use Rattle.ov_specs.specs.rows.Lines.{line_cmp};
    ghost use Rattle.ov_refs.specs.Holding as holding;
    ghost use Rattle.ov_refs.specs.Holding.{key_set_code, set_of_keys};
    ghost use Rattle.ov_specs.specs.values.Value.{marked};
    ghost use Rattle.ov_refs.specs.StoredKeys.{keys_in};

    ghost Value = { holding.KeySet };

    ghost coded = { key_set_code };

    ghost view = { λ s. set_of_keys (keys_in s.stored) };

    ghost invariant = { λ s. T (is_sorted line_cmp (map marked (keys_in s.stored))) };
}

impl Drop for KeySet {
    // An explicit drop, so that code that drops a set need not know where its keys are stored.
    fn drop(self) {
        let KeySet { stored } = self;
        drop(stored);
    }
}

/// The set of these two keys, which differ.
fn pair(alloc: Global, first: &RowKey, second: RowKey) -> Result<BTreeSet<RowKey>, AllocError>
    ensures keys { IfOk result (λ set. set.keys ≡ insert_key line_cmp (first.now ∷ []) second) }
    ensures ordered { IfOk result (λ set. IsStrictlySortedBy line_cmp set.keys) }
{
    let mut set = BTreeSet::new(alloc);
    set.insert(RowKey::new(alloc, first.table(), first.id())?)?;
    set.insert(second)?;
    Ok(set)
}

impl KeySet {
    /// The empty set.
    pub fn new() -> KeySet
        ensures { result ≡ empty }
    {
        KeySet { stored: Empty }
    }

    /// The number of rows in the set.
    fn len(&self) -> usize
        ensures { result ≡ len self.now }
    {
        match &self.stored {
            Empty => 0,
            One(_) => 1,
            Many(keys) => keys.len(),
        }
    }

    /// Whether the set is empty.
    pub fn is_empty(&self) -> bool
        ensures { result ≡ (len self.now == 0) }
    {
        self.len() == 0
    }

    /// Whether the set has the row.
    pub fn contains(&self, key: &RowKey) -> bool
        ensures { result ≡ contains_key self.now key.now }
    {
        match &self.stored {
            Empty => false,
            One(one) => key == one,
            Many(keys) => keys.contains(key),
        }
    }

    /// Whether the set has another row than this one. Looks at two keys at most.
    pub(crate) fn has_another(&self, key: &BorrowedKey<'_>) -> bool
        ensures { result ≡ has_another key.now self.now }
    {
        for other in self.iter() {
            if !key.is(other) {
                return true;
            }
        }
        false
    }

    /// All keys, ascending.
    pub fn iter(&self) -> KeyIter<'_>
        ensures { result ≡ keys self.now }
    {
        match &self.stored {
            Empty => KeyIter::of_few(None),
            One(one) => KeyIter::of_few(Some(one)),
            Many(keys) => KeyIter::of_many(keys),
        }
    }

    /// Adds the row, unless it is there. If an allocation fails, nothing is changed.
    pub fn insert(&mut self, alloc: Global, key: RowKey) -> Result<(), AllocError>
        ensures ok { OnOk result (self.new ≡ insert self.old key tt) }
        ensures err { OnErr result (self.new ≡ self.old) }
    {
        match &mut self.stored {
            Empty => self.stored = One(key),
            One(one) => {
                if key != *one {
                    self.stored = Many(pair(alloc, one, key)?);
                }
            }
            Many(keys) => {
                keys.insert(key)?;
            }
        }
        Ok(())
    }

    /// Removes the row, if it is there.
    pub fn remove(&mut self, key: &RowKey)
        ensures { self.new ≡ remove self.old key.now }
    {
        match &mut self.stored {
            Empty => {}
            One(one) => {
                if key == one {
                    self.stored = Empty;
                }
            }
            Many(keys) => {
                keys.remove(key);
            }
        }
    }
}
