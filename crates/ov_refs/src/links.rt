ghost use Rattle.std.specs.Prelude.{◌≡◌, ◌++◌, [], ◌∷◌, IfOk, OnOk, OnErr};
ghost use Rattle.std.specs.FinMap.{get, entries};
ghost use Rattle.ov_specs.specs.integrity.References.{targets_in};
ghost use Rattle.ov_specs.specs.rows.Database.{Database};
ghost use Rattle.ov_specs.specs.rows.Changed.{IsAfter};
ghost use Rattle.ov_refs.specs.Linking.{AreLinksOf, AreNone, with_targets_of_rows, with_target, with_targets};
ghost use Rattle.ov_refs.specs.Linking.{without_reference, without_references};
ghost use Rattle.ov_refs.specs.Counting.{strong_count};
ghost use Rattle.ov_specs.specs.values.Capped.{capped_to_64_bits};
ghost use Rattle.ov_refs.specs.Placed.{Adds, AreAlike, lost, refers, targets_at};
ghost use Rattle.ov_rows.specs.Nested.{in_table};

use crate::borrowed_key::BorrowedKey;
use crate::counting::count_holders;
use crate::holders::Holders;
use crate::link_changes::LinkChanges;
use crate::reference::RowReference;
use crate::target::Target;
use crate::target_set::TargetSet;
use crate::targets::{targets_at, targets_of};
use ov_rows::{Columns, Row, RowKey, Rows, TableRows};
use ov_schema::Schema;
use std::alloc::{AllocError, Global};
use std::collections::BTreeMap;
use std::marker::Model;
use uuid::Uuid;

/// Which rows refer to which, strongly and weakly (RFC 7047, 3.2, `<base-type>`, refType).
#[derive(Drop)]
pub struct Links {
    strong: Holders,
    weak: Holders,
}

impl Model for Links {
    ghost use Rattle.ov_refs.specs.Linking as linking;
    ghost use Rattle.ov_refs.specs.Linking.{links_code};

    ghost Value = { linking.Links };

    ghost coded = { links_code };

    ghost view = { λ l. record { strong = l.strong; weak = l.weak } };
}

impl Links {
    /// No row refers to any row.
    pub fn new(alloc: Global) -> Links
        ensures { AreNone result }
    {
        Links {
            strong: Holders::new(alloc),
            weak: Holders::new(alloc),
        }
    }

    /// For each row, the rows that refer strongly to it.
    pub fn strong(&self) -> &Holders
        ensures { result.now ≡ self.now.strong }
    {
        &self.strong
    }

    /// For each row, the rows that refer weakly to it.
    pub fn weak(&self) -> &Holders
        ensures { result.now ≡ self.now.weak }
    {
        &self.weak
    }

    /// The number of strong references from different rows to the row of this identifier in the table of this name, which
    /// stays at 2^64-1 (RFC 7047, 3.2, `<base-type>`, refType). The links are those of the rows. Reads only the rows that
    /// refer to it, and allocates nothing.
    pub fn strong_count(&self, schema: &Schema, rows: &Rows, table: &str, id: Uuid) -> u64
        requires { AreLinksOf schema.now rows.now self.now }
        ensures { result ≡ capped_to_64_bits (strong_count schema.now rows.now (table.now, id)) }
    {
        match self.strong.of(table, id) {
            Some(holders) => count_holders(schema, rows, holders, &BorrowedKey::new(table, id)),
            None => 0,
        }
    }

    /// Whether the row refers to the target.
    fn has(&self, from: &RowKey, to: &Target) -> bool
        ensures { result ≡ refers to.now.is_strong self.now to.now.key from.now }
    {
        if to.is_strong {
            self.strong.has(&to.key, from)
        } else {
            self.weak.has(&to.key, from)
        }
    }

    /// Adds the reference from the row to the target. If an allocation fails, nothing is changed.
    fn add_target(
        &mut self,
        alloc: Global,
        from: &RowKey,
        target: &Target,
    ) -> Result<(), AllocError>
        ensures ok { OnOk result (self.new ≡ with_target from.now target.now self.old) }
        ensures err { OnErr result (self.new ≡ self.old) }
    {
        let from = RowKey::new(alloc, from.table(), from.id())?;
        if target.is_strong {
            self.strong.add(alloc, &target.key, from)
        } else {
            self.weak.add(alloc, &target.key, from)
        }
    }

    /// Adds the references of the row of this key, which has these columns.
    fn add_row(
        &mut self,
        alloc: Global,
        schema: &Schema,
        key: &RowKey,
        columns: &Columns,
    ) -> Result<(), AllocError>
        ensures { OnOk result (self.new
            ≡ with_targets key.now (targets_in (get schema.now.tables key.now.0) columns.now)
            self.old) }
    {
        for target in targets_of(alloc, schema, key.table(), columns)? {
            self.add_target(alloc, key, &target)?;
        }
        Ok(())
    }

    /// Adds the references of the rows of a table.
    fn add_table(
        &mut self,
        alloc: Global,
        schema: &Schema,
        name: &str,
        rows: &TableRows,
    ) -> Result<(), AllocError>
        ensures { OnOk result (self.new
            ≡ with_targets_of_rows schema.now (in_table name.now (entries rows.now)) self.old) }
    {
        for (id, row) in rows.map() {
            let key = RowKey::new(alloc, name, *id.as_uuid())?;
            self.add_row(alloc, schema, &key, &row.columns)?;
        }
        Ok(())
    }

    /// The links of these rows. Reads all of them.
    pub fn of(alloc: Global, schema: &Schema, rows: &Rows) -> Result<Links, AllocError>
        ensures { IfOk result (AreLinksOf schema.now rows.now) }
    {
        let mut links = Links::new(alloc);
        for (name, table) in rows.tables() {
            links.add_table(alloc, schema, name.as_str(), table)?;
        }
        Ok(links)
    }

    /// Adds the reference from the row to the target and lists it, unless it is there.
    fn place_target(
        &mut self,
        alloc: Global,
        from: &RowKey,
        to: &Target,
        added: &mut Vec<RowReference>,
    ) -> Result<(), AllocError>
        ensures back { AreAlike (without_references added.new.items self.new)
            (without_references added.old.items self.old) }
        ensures adds { OnOk result (Adds from.now (to.now ∷ []) self.old self.new) }
    {
        if self.has(from, to) {
            return Ok(());
        }
        added.reserve(1)?;
        let reference = RowReference::new(alloc, from, to.copied(alloc)?)?;
        self.add_target(alloc, from, to)?;
        added.push_reserved(reference);
        Ok(())
    }

    /// Adds the references from the row to the targets, and lists those that were not there.
    fn place_targets(
        &mut self,
        alloc: Global,
        from: &RowKey,
        targets: &[Target],
        added: &mut Vec<RowReference>,
    ) -> Result<(), AllocError>
        ensures back { AreAlike (without_references added.new.items self.new)
            (without_references added.old.items self.old) }
        ensures adds { OnOk result (Adds from.now targets.now self.old self.new) }
    {
        for target in targets {
            self.place_target(alloc, from, target, added)?;
        }
        Ok(())
    }

    /// Adds the references of the changed row, and lists those that were not there before. Also lists those that the row had
    /// before and does not have after.
    fn place_change(
        &mut self,
        alloc: Global,
        schema: &Schema,
        rows: &Rows,
        key: &RowKey,
        change: &Option<Row>,
        room: &mut LinkChanges,
    ) -> Result<(), AllocError>
        ensures back { AreAlike (without_references room.new.added.items self.new)
            (without_references room.old.added.items self.old) }
        ensures adds { OnOk result
            (Adds key.now (targets_at schema.now key.now change.now) self.old self.new) }
        ensures gone { OnOk result (room.new.gone.items
            ≡ room.old.gone.items ++ lost key.now
            (targets_at schema.now key.now (get rows.now key.now))
            (targets_at schema.now key.now change.now)) }
    {
        let before = targets_at(alloc, schema, key, rows.row(key.table(), key.id()))?;
        let after = targets_at(alloc, schema, key, change.as_ref())?;
        self.place_targets(alloc, key, after.as_slice(), &mut room.added)?;
        let after = TargetSet::of(alloc, after)?;
        after.push_others(alloc, key, before, &mut room.gone)
    }

    /// Prepares the links for a commit of these changes: adds the references of the changed rows, and lists those that were
    /// not there before. Also lists those that the rows of these keys had before and do not have after.
    ///
    /// If an allocation fails, what was added so far is listed. So removing what was added restores the links of the rows
    /// before the changes, and removing what is gone gives those of the rows after them; neither allocates.
    pub fn place(
        &mut self,
        alloc: Global,
        schema: &Schema,
        rows: &Rows,
        changes: &BTreeMap<RowKey, Option<Row>>,
        room: &mut LinkChanges,
    ) -> Result<(), AllocError>
        requires linked { AreLinksOf schema.now rows.now self.old }
        requires none { (room.old.added.items ≡ []) × (room.old.gone.items ≡ []) }
        ensures back { AreLinksOf schema.now rows.now
            (without_references room.new.added.items self.new) }
        ensures on { OnOk result ((after : Database) → IsAfter changes.now.entries rows.now after
            → AreLinksOf schema.now after (without_references room.new.gone.items self.new)) }
    {
        for (key, change) in changes {
            self.place_change(alloc, schema, rows, key, change, room)?;
        }
        Ok(())
    }

    /// Removes the reference.
    fn remove(&mut self, reference: &RowReference)
        ensures { self.new ≡ without_reference reference.now self.old }
    {
        if reference.to.is_strong {
            self.strong.remove(&reference.to.key, &reference.from);
        } else {
            self.weak.remove(&reference.to.key, &reference.from);
        }
    }

    /// Removes these references. Allocates nothing.
    pub fn take_out(&mut self, references: &[RowReference])
        ensures { self.new ≡ without_references references.now self.old }
    {
        for reference in references {
            self.remove(reference);
        }
    }
}
