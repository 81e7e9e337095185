use ov_index::{IndexChanges, Indexes, is_over_limits};
use ov_refs::{LinkChanges, Links, are_references_whole};
use ov_rows::{RowKey, Rows};
use ov_schema::Schema;
use ov_stored::{Delta, OpenFault, make_changes, place_rows, take_out_rows};
use std::alloc::{AllocError, Global};

/// The rows, and two lookups that each commit updates: which rows refer to which, and which rows have which values in an index.
#[derive(Drop)]
pub(crate) struct Resident {
    pub(crate) rows: Rows,
    pub(crate) links: Links,
    pub(crate) indexes: Indexes,
}

/// The space that a commit reserves before it calls the keeper, so that it allocates nothing afterwards.
#[derive(Drop)]
pub(crate) struct Room<'a> {
    /// The new keys. Each has an empty row.
    added: Vec<&'a RowKey>,
    /// The references that are added, and those that are removed when the commit is made.
    links: LinkChanges,
    /// The index entries that are added, and those that are removed then.
    indexes: IndexChanges,
}

impl<'a> Room<'a> {
    ghost use Rattle.ov_db.specs.Residing.{IsNoRoom};

    /// No reserved space.
    pub(crate) fn new(alloc: Global) -> Room<'a>
        ensures { IsNoRoom result }
    {
        Room {
            added: Vec::new(alloc),
            links: LinkChanges::new(alloc),
            indexes: IndexChanges::new(alloc),
        }
    }
}

impl Resident {
    ghost use Rattle.std.specs.Prelude.{◌≡◌, true, IfOk, IfErr, OnOk};
    ghost use Rattle.ov_specs.specs.integrity.Committed.{is_whole};
    ghost use Rattle.ov_specs.specs.rows.Database.{Database};
    ghost use Rattle.ov_specs.specs.rows.Suits.{Suits};
    ghost use Rattle.ov_specs.specs.schema.SchemaTypes.{Schema};
    ghost use Rattle.ov_stored.specs.Changing.{Delta, applied};
    ghost use Rattle.ov_db.specs.Opening.{IsNotWhole};
    ghost use Rattle.ov_stored.specs.Placing.{HasPlacesFor};
    ghost use Rattle.ov_db.specs.Residing.{IsBeside, IsResident, IsNoRoom, IsReady, LeadsBack};
    ghost use Rattle.ov_db.specs.Residing.{LeadsOn};

    /// Makes the links and indexes of these rows, if a commit would leave the rows as they are. Checks all of them.
    pub(crate) fn of(alloc: Global, schema: &Schema, rows: Rows) -> Result<Resident, OpenFault>
        requires { Suits schema.now rows }
        ensures resident { IfOk result (IsResident schema.now rows) }
        ensures whole { IfOk result (λ resident. is_whole schema.now rows ≡ true) }
        ensures err { IfErr result (IsNotWhole schema.now rows) }
    {
        let links = Links::of(alloc, schema, &rows)?;
        let indexes = Indexes::of(alloc, schema, &rows)?;
        if !are_references_whole(schema, &rows, &links) || is_over_limits(schema, &rows, &indexes) {
            return Err(OpenFault::Broken);
        }
        Ok(Resident {
            rows,
            links,
            indexes,
        })
    }

    /// Reserves space for the changes, so that nothing has to grow later. Lists in `room` what is added, and what the
    /// changes remove.
    pub(crate) fn place<'a>(
        &mut self,
        alloc: Global,
        schema: &Schema,
        delta: &'a Delta,
        room: &mut Room<'a>,
    ) -> Result<(), AllocError>
        requires beside { IsBeside schema.now self.old.rows self.old }
        requires none { IsNoRoom room.old }
        ensures back { LeadsBack schema.now self.old.rows room.new self.new }
        ensures on { OnOk result (LeadsOn schema.now delta.now self.old.rows room.new self.new) }
    {
        let changes = delta.map();
        self.links
            .place(alloc, schema, &self.rows, changes, &mut room.links)?;
        self.indexes
            .place(alloc, schema, &self.rows, changes, &mut room.indexes)?;
        place_rows(alloc, &mut self.rows, delta, &mut room.added)
    }

    /// Removes again what was added to reserve space.
    pub(crate) fn take_back(&mut self, room: Room)
        ensures { (schema : Schema) (database : Database)
            → LeadsBack schema database room.entry self.old
            → IsResident schema database self.new }
    {
        self.links.take_out(room.links.added.as_slice());
        self.indexes.take_out(room.indexes.added.as_slice());
        take_out_rows(&mut self.rows, room.added);
    }

    /// Removes the references and index entries that the changes remove.
    pub(crate) fn let_go(&mut self, room: Room)
        ensures { (schema : Schema) (delta : Delta) (database : Database)
            → LeadsOn schema delta database room.entry self.old
            → IsReady schema delta database self.new }
    {
        self.links.take_out(room.links.gone.as_slice());
        self.indexes.take_out(room.indexes.gone.as_slice());
    }

    /// Makes the changes. Space for them is reserved, so nothing grows.
    pub(crate) fn make(&mut self, alloc: Global, delta: Delta)
        requires { HasPlacesFor delta self.old.rows }
        ensures { (schema : Schema) (database : Database) → IsReady schema delta database self.old
            → IsResident schema (applied delta database) self.new }
    {
        make_changes(alloc, &mut self.rows, delta);
    }
}
