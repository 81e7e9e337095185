ghost use Rattle.std.specs.Prelude.{◌≡◌, ◌≤◌, ◌==◌, true, is_some, option_copied, option_map, IfOk};
ghost use Rattle.std.specs.Prelude.{IfErr, None, Ok};
ghost use Rattle.std.specs.FinMap.{get, entries, keys, len};
ghost use Rattle.std.specs.List.{filter};
ghost use Rattle.ov_specs.specs.conversion.Converted.{opening_of};
ghost use Rattle.ov_specs.specs.rows.Cells.{Stored};
ghost use Rattle.std.specs.Str.{bytes_eq};
ghost use Rattle.ov_rows.specs.Nested.{rows_in};
ghost use Rattle.ov_keeper.specs.Keeping.{HasFailed};
ghost use Rattle.ov_keeper.specs.declared.fault.KeepFault.TheVariants.{Device};
ghost use Rattle.ov_stored.specs.Changing.{SuitsChanges, applied};
ghost use Rattle.ov_refs.specs.Counting.{strong_count};
ghost use Rattle.ov_specs.specs.values.Capped.{capped_to_64_bits};
ghost use Rattle.ov_refs.specs.Linking.{AreLinksOf};
ghost use Rattle.ov_index.specs.IndexKeys.{index_key};
ghost use Rattle.ov_index.specs.Indexing.{AreIndexesOf};
ghost use Rattle.ov_specs.specs.integrity.Committed.{is_whole};
ghost use Rattle.ov_db.specs.Committing.{AreKept, Commits, MayFindRows, MayBeHeld};
ghost use Rattle.ov_db.specs.Lookups.{TellsIndexed, if_any, weak_holders};
ghost use Rattle.ov_db.specs.Opening.{FindsOne, IsConvertFault, IsOpenFault, IsReadFault};
ghost use Rattle.ov_db.specs.Opening.{LeavesOpened, LeavesUnopened, TellsRefusal, open_of};
ghost use Rattle.ov_db.specs.declared.answer.StoreAnswer.TheVariants.{Kept, Failed};
ghost use Rattle.ov_stored.specs.declared.fault.OpenFault.TheVariants.{Keeping, SchemaDiffers};

use crate::answer::StoreAnswer;
use crate::fault::RefusedOpen;
use crate::open::open_whole;
use crate::resident::{Resident, Room};
use ov_atoms::Datum;
use ov_index::Indexes;
use ov_keeper::{KeepFault, Keeper};
use ov_refs::{KeySet, Links};
use ov_rows::{Row, Rows, TableRows};
use ov_schema::Schema;
use ov_stored::{Delta, changes_of};
use std::alloc::Global;
use std::marker::Model;
use uuid::Uuid;

/// A database: its rows under their schema, and the keeper that stores them in format 2 (RFC 7047, 3.2).
///
/// An open at this moment, even after a crash, finds the rows as they are, or those that a failed commit would have left.
pub struct Db<K: Keeper> {
    schema: Schema,
    resident: Resident,
    /// The changes of a failed commit.
    failed: Option<Delta>,
    keeper: K,
}

impl<K: Keeper> Model for Db<K> {
    ghost use Rattle.std.specs.Prelude.{◌≡◌, option_map};
    ghost use Rattle.std.specs.Coded.{codes};
    ghost use Rattle.ov_specs.specs.codes.SchemaCode.{schema_code};
    ghost use Rattle.ov_stored.specs.Changing.{applied};
    ghost use Rattle.ov_db.specs.Committing.{MayBeHeld, AreKept};
    ghost use Rattle.ov_db.specs.KeptDatabase.{KeptDatabase};
    ghost use Rattle.ov_db.specs.Residing.{IsBeside};
    ghost use Rattle.ov_rows.specs.Resident.{database_code};

    ghost Value = { KeptDatabase K };

    ghost coded = { Prim.hlevel (codes, schema_code, database_code, K.code) };

    ghost view = { λ d. record {
      schema = d.schema;
      committed = d.resident.rows;
      sealed = option_map (λ delta. applied delta d.resident.rows) d.failed;
      keeper = d.keeper;
    } };

    ghost invariant = { λ d. (K.Keeper.format d.keeper ≡ 2)
        × (K.Keeper.is_honest d.keeper
        → MayBeHeld (K.Keeper.leaves d.keeper) d.schema d.resident.rows
        (option_map (λ delta. applied delta d.resident.rows) d.failed))
        × AreKept d.schema d.resident.rows
        (option_map (λ delta. applied delta d.resident.rows) d.failed)
        × IsBeside d.schema d.resident.rows d.resident };
}

impl<K: Keeper + Drop> Drop for Db<K> {
    // Has its own `drop`, so that crates above do not prove the drop of its parts again.
    fn drop(self) {
        let Db {
            schema,
            resident,
            failed,
            keeper,
        } = self;
        drop(schema);
        drop(resident);
        drop(failed);
        drop(keeper);
    }
}

impl<K: Keeper + Drop> Db<K> {
    /// Opens the database that a keeper holds, in either format.
    ///
    /// Refuses with the keeper's fault if its load fails, as `SchemaDiffers` if the keeper holds another text than the
    /// schema's, as `BadBody` if what is stored for one of its rows is no row of the schema, as `Broken` if the rows break a
    /// rule of commits or a commit would change them, and with the keeper's fault if a write fails; the first of these that
    /// applies. A failed allocation is the keeper's fault `Memory`. Rows of format 1 are written anew in format 2, once; else
    /// nothing is written. A refusal gives the keeper and the schema back, and changes nothing that is held; only after the
    /// fault `Device` the keeper may hold the same rows in format 2.
    pub fn open(alloc: Global, mut keeper: K, schema: Schema) -> Result<Db<K>, RefusedOpen<K>>
        ensures rest { IfOk result (λ d. (d.schema ≡ schema) × (d.sealed ≡ None)) }
        ensures held { IfOk result (λ d. K.is_honest d.keeper → (held : Stored)
            → K.leaves keeper held → open_of schema held ≡ Ok d.committed) }
        // What is found now might have been found before, or it is the database in format 2, over rows of format 1.
        ensures left { IfOk result (λ d. K.is_honest d.keeper
            → LeavesOpened (K.leaves keeper) (K.leaves d.keeper)
            (open_of schema) schema d.committed) }
        ensures honest { IfOk result (λ d. K.is_honest d.keeper → K.is_honest keeper) }
        ensures kinds { IfErr result (λ e. IsOpenFault e.fault) }
        // Over a keeper of format 2 nothing is written, so no write fails.
        ensures read_kinds { IfErr result (λ e. K.is_honest e.keeper → K.format keeper ≡ 2
            → IsReadFault e.fault) }
        ensures fault { IfErr result (λ e. K.is_honest e.keeper → (held : Stored)
            → K.leaves keeper held → TellsRefusal (open_of schema held) e.fault) }
        // A failure of the device has a cause: the keeper's count rose in this call, or was already at its maximum.
        ensures cause { IfErr result (λ e. e.fault ≡ Keeping Device
            → HasFailed (K.failed keeper) (K.failed e.keeper)) }
        ensures counts { IfErr result (λ e. K.failed keeper ≤ K.failed e.keeper) }
        ensures left_refused { IfErr result (λ e. K.is_honest e.keeper
            → LeavesUnopened (K.leaves keeper) (K.leaves e.keeper)
            (open_of schema) schema e.fault) }
        ensures format_refused { IfErr result (λ e. K.format e.keeper ≡ K.format keeper) }
        // Another text was what an open would have found, and nothing else.
        ensures one { IfErr result (λ e. K.is_honest e.keeper → e.fault ≡ SchemaDiffers
            → FindsOne (K.leaves keeper)) }
        ensures honest_refused { IfErr result (λ e. K.is_honest e.keeper → K.is_honest keeper) }
        ensures schema { IfErr result (λ e. e.schema ≡ schema) }
    {
        match open_whole(alloc, &mut keeper, &schema, None) {
            Ok(resident) => Ok(Db {
                schema,
                resident,
                failed: None,
                keeper,
            }),
            Err(fault) => Err(RefusedOpen {
                fault,
                keeper,
                schema,
            }),
        }
    }

    /// Opens the database that a keeper holds under an older schema, and converts it to this one: the keeper then holds the
    /// schema's text and the converted rows, in format 2. If it holds the schema's own text, opens it as `open` does.
    ///
    /// The stored text must be that of an accepted schema of the same name with an older version, and what is stored for each
    /// row a row of it. The rows are carried over in one commit of this version, under the new schema. Refuses with the
    /// keeper's fault if its load fails, as `BadBody` if the text is no schema or what is stored for a row is not a row of it,
    /// as `SchemaDiffers` if the schema has another name or is not newer, as `Broken` if the stored rows break a rule of
    /// commits, as `TypeChanged` if a column of both schemas has two types, as `NotConvertible` if that commit fails, and with
    /// the keeper's fault if the write of the converted rows fails; the first of these that applies. A failed allocation is the
    /// keeper's fault `Memory`. A refusal gives the keeper and the schema back, and changes nothing that is held; only after
    /// the fault `Device` the keeper may hold the converted rows.
    pub fn convert(
        alloc: Global,
        mut keeper: K,
        schema: Schema,
        version: Uuid,
    ) -> Result<Db<K>, RefusedOpen<K>>
        ensures rest { IfOk result (λ d. (d.schema ≡ schema) × (d.sealed ≡ None)) }
        ensures held { IfOk result (λ d. K.is_honest d.keeper → (held : Stored)
            → K.leaves keeper held → opening_of schema version held ≡ Ok d.committed) }
        // What is found now might have been found before, or it is the database in format 2, over rows of format 1 or of
        // another schema.
        ensures left { IfOk result (λ d. K.is_honest d.keeper
            → LeavesOpened (K.leaves keeper) (K.leaves d.keeper)
            (opening_of schema version) schema d.committed) }
        ensures honest { IfOk result (λ d. K.is_honest d.keeper → K.is_honest keeper) }
        ensures kinds { IfErr result (λ e. IsConvertFault e.fault) }
        ensures fault { IfErr result (λ e. K.is_honest e.keeper → (held : Stored)
            → K.leaves keeper held → TellsRefusal (opening_of schema version held) e.fault) }
        // A failure of the device has a cause: the keeper's count rose in this call, or was already at its maximum.
        ensures cause { IfErr result (λ e. e.fault ≡ Keeping Device
            → HasFailed (K.failed keeper) (K.failed e.keeper)) }
        ensures counts { IfErr result (λ e. K.failed keeper ≤ K.failed e.keeper) }
        ensures left_refused { IfErr result (λ e. K.is_honest e.keeper
            → LeavesUnopened (K.leaves keeper) (K.leaves e.keeper)
            (opening_of schema version) schema e.fault) }
        ensures format_refused { IfErr result (λ e. K.format e.keeper ≡ K.format keeper) }
        ensures honest_refused { IfErr result (λ e. K.is_honest e.keeper → K.is_honest keeper) }
        ensures schema { IfErr result (λ e. e.schema ≡ schema) }
    {
        match open_whole(alloc, &mut keeper, &schema, Some(version)) {
            Ok(resident) => Ok(Db {
                schema,
                resident,
                failed: None,
                keeper,
            }),
            Err(fault) => Err(RefusedOpen {
                fault,
                keeper,
                schema,
            }),
        }
    }

    /// The schema.
    pub fn schema(&self) -> &Schema
        ensures { result.now ≡ self.now.schema }
    {
        &self.schema
    }

    /// Which rows refer to which. Allocates nothing.
    pub fn links(&self) -> &Links
        ensures { AreLinksOf self.now.schema self.now.committed result.now }
    {
        &self.resident.links
    }

    /// Which rows have which values in an index. Allocates nothing.
    pub fn indexes(&self) -> &Indexes
        ensures { AreIndexesOf self.now.schema self.now.committed result.now }
    {
        &self.resident.indexes
    }

    /// The number of strong references from different rows to the row of this identifier in the table of this name, which
    /// stays at 2^64-1 (RFC 7047, 3.2, `<base-type>`, refType). Reads only the rows that refer to it, and allocates nothing.
    pub fn strong_count(&self, table: &str, id: Uuid) -> u64
        ensures { result
            ≡ capped_to_64_bits
            (strong_count self.now.schema self.now.committed (table.now, id)) }
    {
        let links = &self.resident.links;
        links.strong_count(&self.schema, &self.resident.rows, table, id)
    }

    /// The rows that refer weakly to the row of this identifier in the table of this name, in ascending order and each once,
    /// or `None` if there are none (RFC 7047, 3.2, `<base-type>`, refType). Allocates nothing.
    pub fn weak_holders(&self, table: &str, id: Uuid) -> Option<&KeySet>
        ensures { option_map keys (option_copied result)
            ≡ if_any (weak_holders self.now.schema self.now.committed (table.now, id)) }
    {
        let holders = self.resident.links.weak().of(table, id)?;
        if holders.is_empty() {
            None
        } else {
            Some(holders)
        }
    }

    /// The row, at most one, that has these values in the columns of the index of this number, counted from 0, of the table of
    /// this name (RFC 7047, 3.2, `<table-schema>`, indexes). Allocates nothing.
    pub fn indexed(&self, table: &str, number: usize, values: &[Datum]) -> Option<Uuid>
        ensures { TellsIndexed self.now.schema self.now.committed
            (index_key table.now number values.now) result }
    {
        let ids = self.resident.indexes.at(table, number, values)?;
        ids.as_slice().first().copied()
    }

    /// The rows.
    pub fn rows(&self) -> &Rows
        ensures { result.now ≡ self.now.committed }
    {
        &self.resident.rows
    }

    /// The row with this identifier in the table of this name.
    pub fn row(&self, table: &str, id: Uuid) -> Option<&Row>
        ensures { option_copied result ≡ get self.now.committed (table.now, id) }
    {
        self.resident.rows.row(table, id)
    }

    /// The rows of the table of this name; `None` only if it has none. Allocates nothing.
    pub fn rows_of(&self, table: &str) -> Option<&TableRows>
        ensures { rows_in table.now (option_copied result)
            ≡ filter (λ r. bytes_eq r.0.0 table.now) (entries self.now.committed) }
    {
        self.resident.rows.of_table(table)
    }

    /// Whether a commit has failed. If so, no later commit is made until the database is opened again.
    pub fn sealed(&self) -> bool
        ensures { result ≡ is_some self.now.sealed }
    {
        self.failed.is_some()
    }

    /// How often the keeper's device has failed. The count stays at 2^64-1.
    pub fn failures(&self) -> u64
        ensures { result ≡ K.failed self.now.keeper }
    {
        self.keeper.failures()
    }

    /// Consumes the database and returns its keeper.
    pub fn into_keeper(self) -> K
        ensures same { result ≡ self.keeper }
        ensures format { K.format result ≡ 2 }
    {
        let Db {
            schema: _,
            resident: _,
            failed: _,
            keeper,
        } = self;
        keeper
    }

    /// For contracts: what a crash at this moment leaves. Does nothing.
    pub fn shows_left(&self)
        ensures held { K.is_honest self.now.keeper → MayBeHeld
            (K.leaves self.now.keeper) self.now.schema self.now.committed self.now.sealed }
        ensures found { K.is_honest self.now.keeper → MayFindRows
            (K.leaves self.now.keeper) self.now.schema self.now.committed self.now.sealed }
        // An open finds something.
        ensures some { K.is_honest self.now.keeper → ∥ ((held : Stored)
            × K.leaves self.now.keeper held) ∥₁ }
        ensures format { K.format self.now.keeper ≡ 2 }
    {
        let _keeper = &self.keeper;
    }

    /// For contracts: each row is a row of the schema and is what its cells read back as, and a commit would leave the rows
    /// as they are. The same holds for the rows that a failed commit would have left. Does nothing.
    pub fn shows_kept(&self)
        ensures { AreKept self.now.schema self.now.committed self.now.sealed }
    {
        let _resident = &self.resident;
    }

    /// Makes all of the changes or none, with one call of the keeper. Each row that they put must be a row of the schema,
    /// and the rows after them must break no rule of commits.
    ///
    /// Unless the answer is `Kept`, the rows stay as they are. After `Failed` the database is sealed: what the commit would
    /// have made is kept beside the rows, and each later commit returns `Failed` without calling the keeper. If there are no
    /// changes, returns `Kept` without calling the keeper. Allocates nothing after the call of the keeper.
    pub fn commit(&mut self, alloc: Global, delta: Delta) -> StoreAnswer
        requires suits { SuitsChanges self.old.schema delta }
        requires whole { is_whole self.old.schema (applied delta self.old.committed) ≡ true }
        ensures commits { self.old.sealed ≡ None → Commits delta self.old result self.new }
        ensures sealed { is_some self.old.sealed ≡ true → (result ≡ Failed)
            × (self.new ≡ self.old) }
        ensures empty { self.old.sealed ≡ None → (len delta == 0) ≡ true → (result ≡ Kept)
            × (self.new ≡ self.old) }
        // A failure has a cause: the device's count rises, unless it is at its maximum.
        ensures cause { self.old.sealed ≡ None → result ≡ Failed
            → HasFailed (K.failed self.old.keeper) (K.failed self.new.keeper) }
        ensures counts { K.failed self.old.keeper ≤ K.failed self.new.keeper }
        ensures honest { K.is_honest self.new.keeper → K.is_honest self.old.keeper }
    {
        if self.sealed() {
            return StoreAnswer::Failed;
        }
        if delta.is_empty() {
            return StoreAnswer::Kept;
        }
        self.commit_changes(alloc, delta)
    }

    /// Commits changes to a database that is not sealed.
    fn commit_changes(&mut self, alloc: Global, delta: Delta) -> StoreAnswer
        requires unsealed { self.old.sealed ≡ None }
        requires suits { SuitsChanges self.old.schema delta }
        requires whole { is_whole self.old.schema (applied delta self.old.committed) ≡ true }
        ensures commits { Commits delta self.old result self.new }
        ensures cause { result ≡ Failed → HasFailed (K.failed self.old.keeper)
            (K.failed self.new.keeper) }
        ensures counts { K.failed self.old.keeper ≤ K.failed self.new.keeper }
        ensures honest { K.is_honest self.new.keeper → K.is_honest self.old.keeper }
    {
        let Ok(changes) = changes_of(alloc, &delta) else {
            return StoreAnswer::Exhausted;
        };
        let mut room = Room::new(alloc);
        let Ok(()) = self.resident.place(alloc, &self.schema, &delta, &mut room) else {
            self.resident.take_back(room);
            return StoreAnswer::Exhausted;
        };
        match self.keeper.commit(alloc, changes.as_slice()) {
            Ok(()) => {
                self.resident.let_go(room);
                self.resident.make(alloc, delta);
                StoreAnswer::Kept
            }
            Err(KeepFault::Device) => {
                self.resident.take_back(room);
                self.failed = Some(delta);
                StoreAnswer::Failed
            }
            Err(_) => {
                self.resident.take_back(room);
                StoreAnswer::Exhausted
            }
        }
    }
}
