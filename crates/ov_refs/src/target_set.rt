ghost use Rattle.std.specs.Prelude.{◌≡◌, ◌||◌, ◌++◌, Bool, false, if◌then◌else◌, IfOk, OnOk};
ghost use Rattle.std.specs.FinMap.{contains_key};
ghost use Rattle.std.specs.List.{flat_map};
ghost use Rattle.ov_specs.specs.rows.Lines.{LineKey};
ghost use Rattle.ov_refs.specs.Placed.{has_target, is_target, lost_one};

use crate::key_set::KeySet;
use crate::reference::RowReference;
use crate::target::Target;
use ov_rows::RowKey;
use std::alloc::{AllocError, Global};

/// The targets of a row, unordered.
#[derive(Drop)]
pub(crate) struct TargetSet {
    strong: KeySet,
    weak: KeySet,
}

impl TargetSet {
    /// The empty set.
    fn new() -> TargetSet
        ensures { (strong : Bool) (to : LineKey)
            → contains_key (if strong then result.strong else result.weak) to
            ≡ false }
    {
        TargetSet {
            strong: KeySet::new(),
            weak: KeySet::new(),
        }
    }

    /// Adds the target, unless it is there.
    fn insert(&mut self, alloc: Global, target: Target) -> Result<(), AllocError>
        ensures { OnOk result ((strong : Bool) (to : LineKey)
            → contains_key (if strong then self.new.strong else self.new.weak) to
            ≡ (contains_key (if strong then self.old.strong else self.old.weak) to || is_target
            strong to target)) }
    {
        if target.is_strong {
            self.strong.insert(alloc, target.key)
        } else {
            self.weak.insert(alloc, target.key)
        }
    }

    /// The targets of the list.
    pub(crate) fn of(alloc: Global, targets: Vec<Target>) -> Result<TargetSet, AllocError>
        ensures { IfOk result (λ set. (strong : Bool) (to : LineKey)
            → contains_key (if strong then set.strong else set.weak) to
            ≡ has_target strong to targets.items) }
    {
        let mut set = TargetSet::new();
        for target in targets {
            set.insert(alloc, target)?;
        }
        Ok(set)
    }

    /// Whether the set has the target.
    fn contains(&self, target: &Target) -> bool
        ensures { result
            ≡ contains_key (if target.now.is_strong then self.now.strong else self.now.weak)
            target.now.key }
    {
        if target.is_strong {
            self.strong.contains(&target.key)
        } else {
            self.weak.contains(&target.key)
        }
    }

    /// Lists a reference from the row of this key to the target, unless the set has the target.
    fn push_other(
        &self,
        alloc: Global,
        from: &RowKey,
        target: Target,
        gone: &mut Vec<RowReference>,
    ) -> Result<(), AllocError>
        ensures { OnOk result (gone.new.items
            ≡ gone.old.items ++ lost_one from.now self.now.strong self.now.weak target) }
    {
        if !self.contains(&target) {
            gone.push(RowReference::new(alloc, from, target)?)?;
        }
        Ok(())
    }

    /// Lists references from the row of this key to the targets that the set does not have.
    pub(crate) fn push_others(
        &self,
        alloc: Global,
        from: &RowKey,
        targets: Vec<Target>,
        gone: &mut Vec<RowReference>,
    ) -> Result<(), AllocError>
        ensures { OnOk result (gone.new.items
            ≡ gone.old.items ++ flat_map (lost_one from.now self.now.strong self.now.weak)
            targets.items) }
    {
        for target in targets {
            self.push_other(alloc, from, target, gone)?;
        }
        Ok(())
    }
}
