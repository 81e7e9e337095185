ghost use Rattle.std.specs.Prelude.{◌≡◌, IfOk, OnOk};
ghost use Rattle.ov_support.specs.Changes.{AreChanges, with_changed_row, with_strong};

use ov_refs::{Holders, KeySet, Target, targets_of};
use ov_rows::{Row, RowKey};
use ov_schema::Schema;
use ov_stage::Stage;
use std::alloc::{AllocError, Global};
use std::marker::Model;

/// What a transaction has changed: the keys where it put or removed a row, and the rows to which those that it put refer
/// strongly.
#[derive(Drop)]
pub(crate) struct Changes {
    keys: KeySet,
    strong: Holders,
}

impl Model for Changes {
    ghost use Rattle.ov_support.specs.Changes as changes;
    ghost use Rattle.ov_support.specs.Changes.{changes_code};

    ghost Value = { changes.Changes };

    ghost coded = { changes_code };

    ghost view = { λ c. record { keys = c.keys; strong = c.strong } };
}

impl Changes {
    /// The changed keys.
    pub(crate) fn keys(&self) -> &KeySet
        ensures { result.now ≡ self.now.keys }
    {
        &self.keys
    }

    /// The rows at these keys that refer strongly to rows.
    pub(crate) fn strong(&self) -> &Holders
        ensures { result.now ≡ self.now.strong }
    {
        &self.strong
    }

    /// Adds the row of this key, if its reference is a strong one.
    fn add_target(&mut self, alloc: Global, key: &RowKey, target: Target) -> Result<(), AllocError>
        ensures { OnOk result (self.new ≡ with_strong key.now target self.old) }
    {
        if target.is_strong {
            let from = RowKey::new(alloc, key.table(), key.id())?;
            self.strong.add(alloc, &target.key, from)?;
        }
        Ok(())
    }

    /// Adds the change of this key.
    fn add_change(
        &mut self,
        alloc: Global,
        schema: &Schema,
        key: &RowKey,
        change: &Option<Row>,
    ) -> Result<(), AllocError>
        ensures { OnOk result
            (self.new ≡ with_changed_row schema.now (key.now, change.now) self.old) }
    {
        self.keys
            .insert(alloc, RowKey::new(alloc, key.table(), key.id())?)?;
        if let Some(row) = change {
            for target in targets_of(alloc, schema, key.table(), &row.columns)? {
                self.add_target(alloc, key, target)?;
            }
        }
        Ok(())
    }

    /// What has been changed on this stage.
    pub(crate) fn of(
        alloc: Global,
        schema: &Schema,
        stage: &Stage<'_>,
    ) -> Result<Changes, AllocError>
        ensures { IfOk result (AreChanges schema.now stage.now.before stage.now.now) }
    {
        let mut changes = Changes {
            keys: KeySet::new(),
            strong: Holders::new(alloc),
        };
        for (key, change) in stage.changes().map() {
            changes.add_change(alloc, schema, key, change)?;
        }
        Ok(changes)
    }
}
