ghost use Rattle.std.specs.Prelude.{◌≡◌, ◌==◌, List, map, option_copied, option_to_list, true};
ghost use Rattle.std.specs.Prelude.{false, IfOk, IfSome, OnOk, OnErr};
ghost use Rattle.std.specs.List.{filter};
ghost use Rattle.std.specs.FinMap.{contains_key, get, insert, remove, entries, len};
ghost use Rattle.ov_stored.specs.Changing.{applied};
ghost use Rattle.ov_index.specs.Changing.{are_any_alike};
ghost use Rattle.ov_index.specs.Indexing.{AreIndexesOf, Ascend};
ghost use Rattle.ov_rows.specs.Lending.{lent_row_of};
ghost use Rattle.ov_specs.specs.operations.Conditions as conditions;
ghost use Rattle.ov_specs.specs.operations.MatchingRows.{meets_all, matching};
ghost use Rattle.ov_specs.specs.rows.Database.{same_database};
ghost use Rattle.ov_specs.specs.rows.Version.{row_now};
ghost use Rattle.std.specs.Str.{bytes_eq};
ghost use Rattle.ov_stage.specs.Apart.{AreToldApart};
ghost use Rattle.ov_stage.specs.Asked.{AreIdsOf};
ghost use Rattle.ov_stage.specs.Staging.{Differs, entry_if_found};

use crate::conditions::{meeting, only_id};
use crate::former::is_former;
use crate::indexed::Indexed;
use crate::lookup::{row_after, rows_of_ids};
use crate::merge::{rows_after, rows_of};
use ov_base::Text;
use ov_conds::Condition;
use ov_index::Indexes;
use ov_projection::is_among;
use ov_rows::{Columns, Row, RowKey, RowView, Rows};
use ov_schema::Schema;
use ov_stored::Delta;
use std::alloc::{AllocError, Global};
use std::marker::Model;
use uuid::Uuid;

/// The rows as a transaction has made them so far. The committed rows are not touched.
#[derive(Drop)]
pub struct Stage<'a> {
    rows: &'a Rows,
    /// The indexes of these rows, if they are kept. No two of the rows are equal in one.
    indexed: Option<Indexed<'a>>,
    delta: Delta,
}

impl<'a> Model for Stage<'a> {
    ghost use Rattle.ov_stored.specs.Changing.{applied};
    ghost use Rattle.ov_stage.specs.Asked.{AreIndexesIf};
    ghost use Rattle.ov_stage.specs.Staging.{Differs, Stage, stage_code};

    ghost Value = { Stage };

    ghost coded = { stage_code };

    ghost view = { λ s. record { before = s.rows.now; now = applied s.delta s.rows.now } };

    ghost invariant = { λ s. Differs s.delta s.rows.now × AreIndexesIf s.rows.now s.indexed };
}

impl<'a> Stage<'a> {
    /// Starts with the rows before the first operation.
    pub fn new(alloc: Global, rows: &'a Rows) -> Stage<'a>
        ensures { result ≡ record { before = rows.now; now = rows.now } }
    {
        Stage {
            rows,
            indexed: None,
            delta: Delta::new(alloc),
        }
    }

    /// Starts with the rows before the first operation, of which no two are equal in an index, and their indexes: when
    /// conditions ask for values in all columns of an index, only the rows that have them are looked at.
    pub fn with_indexes(
        alloc: Global,
        schema: &'a Schema,
        rows: &'a Rows,
        indexes: &'a Indexes,
    ) -> Stage<'a>
        requires indexed { AreIndexesOf schema.now rows.now indexes.now }
        requires apart { are_any_alike schema.now rows.now ≡ false }
        ensures { result ≡ record { before = rows.now; now = rows.now } }
    {
        Stage {
            rows,
            indexed: Some(Indexed { schema, indexes }),
            delta: Delta::new(alloc),
        }
    }

    /// The rows before the first operation.
    pub fn before(&self) -> &Rows
        ensures { result.now ≡ self.now.before }
    {
        self.rows
    }

    /// What the operations have changed so far. Each change differs from what was at its key before.
    pub fn changes(&self) -> &Delta
        ensures made { applied result.now self.now.before ≡ self.now.now }
        ensures differs { Differs result.now self.now.before }
    {
        &self.delta
    }

    /// The current row of this key, if there is one. Looks at no other row.
    pub fn row(&self, key: &RowKey) -> Option<&Row>
        ensures { option_copied result ≡ get self.now.now key.now }
    {
        match self.delta.change(key) {
            Some(change) => change.as_ref(),
            None => self.rows.row(key.table(), key.id()),
        }
    }

    /// Whether there is now a row of this key.
    pub fn contains(&self, key: &RowKey) -> bool
        ensures { result ≡ contains_key self.now.now key.now }
    {
        match self.delta.change(key) {
            Some(change) => change.is_some(),
            None => self.rows.contains(key),
        }
    }

    /// Puts a row of these columns at the key, in a transaction of this version. A row that is as it was before the
    /// transaction keeps its version, and is no change (RFC 7047, 3.2). If an allocation fails, nothing is changed.
    pub fn put(&mut self, key: RowKey, version: Uuid, columns: Columns) -> Result<(), AllocError>
        ensures ok { OnOk result (self.new
            ≡ record self.old
            { now = insert self.old.now key (row_now self.old.before version key columns) }) }
        ensures err { OnErr result (self.new ≡ self.old) }
    {
        if is_former(self.rows, &key, &columns) {
            self.delta.remove(&key);
            return Ok(());
        }
        self.delta.insert(key, Some(Row { version, columns }))?;
        Ok(())
    }

    /// Removes the row of the key, if there is one. If an allocation fails, nothing is changed.
    pub fn remove(&mut self, key: RowKey) -> Result<(), AllocError>
        ensures ok { OnOk result (self.new ≡ record self.old { now = remove self.old.now key }) }
        ensures err { OnErr result (self.new ≡ self.old) }
    {
        if !self.rows.contains(&key) {
            self.delta.remove(&key);
            return Ok(());
        }
        self.delta.insert(key, None)?;
        Ok(())
    }

    /// The current rows of the table of this name, in ascending order of their identifiers.
    pub fn rows_of(&self, alloc: Global, table: &str) -> Result<Vec<RowView<'_>>, AllocError>
        ensures { IfOk result (λ rows. map (lent_row_of table.now) rows.items
            ≡ filter (λ r. bytes_eq r.0.0 table.now) (entries self.now.now)) }
    {
        let rows = rows_of(alloc, self.rows, table)?;
        rows_after(alloc, rows, &self.delta, table)
    }

    /// Identifiers that include those of all rows of the table of this name that met all conditions before the first
    /// operation, if the conditions ask for values in all columns of an index.
    fn ids_asked(
        &self,
        alloc: Global,
        table: &str,
        conditions: &[Condition],
    ) -> Result<Option<&[Uuid]>, AllocError>
        ensures ascending { IfOk result (λ asked. IfSome asked (λ ids. Ascend ids.now)) }
        ensures all { IfOk result
            (λ asked. IfSome asked
            (λ ids. AreIdsOf conditions.now self.now.before table.now ids.now)) }
    {
        match self.indexed {
            Some(indexed) => indexed.ids_asked(alloc, conditions, table),
            None => Ok(None),
        }
    }

    /// Current rows of the table of this name: those of these identifiers before the first operation, and those that the
    /// operations have put.
    fn rows_of_ids(
        &self,
        alloc: Global,
        table: &str,
        ids: &[Uuid],
    ) -> Result<Vec<RowView<'_>>, AllocError>
        requires { Ascend ids.now }
        ensures { (asked : List conditions.Condition)
            → AreIdsOf asked self.now.before table.now ids.now
            → IfOk result (λ rows. filter (meets_all asked) (map (lent_row_of table.now) rows.items)
            ≡ matching self.now.now table.now asked) }
    {
        let before = rows_of_ids(alloc, self.rows, table, ids)?;
        rows_after(alloc, before, &self.delta, table)
    }

    /// The current row of this identifier in the table of this name, if there is one.
    fn rows_at(&self, alloc: Global, table: &str, id: Uuid) -> Result<Vec<RowView<'_>>, AllocError>
        ensures { IfOk result (λ rows. map (lent_row_of table.now) rows.items
            ≡ option_to_list (entry_if_found (table.now, id) (get self.now.now (table.now, id)))) }
    {
        let key = RowKey::new(alloc, table, id)?;
        let mut rows = Vec::new(alloc);
        if let Some(row) = row_after(self.rows, &self.delta, &key) {
            rows.push(row)?;
        }
        Ok(rows)
    }

    /// Rows of the table of this name: all that meet the conditions, and possibly others.
    fn candidates(
        &self,
        alloc: Global,
        table: &str,
        conditions: &[Condition],
    ) -> Result<Vec<RowView<'_>>, AllocError>
        ensures { IfOk result
            (λ rows. filter (meets_all conditions.now) (map (lent_row_of table.now) rows.items)
            ≡ matching self.now.now table.now conditions.now) }
    {
        if let Some(id) = only_id(conditions) {
            return self.rows_at(alloc, table, id);
        }
        match self.ids_asked(alloc, table, conditions)? {
            Some(ids) => self.rows_of_ids(alloc, table, ids),
            None => self.rows_of(alloc, table),
        }
    }

    /// The rows of the table of this name that meet all conditions, in ascending order of their identifiers (RFC 7047,
    /// 5.2.2). If a condition asks for one identifier, looks at no other row. If conditions ask for values in all columns of
    /// an index, looks only at the rows that have them and at those that the operations have put.
    pub fn matching(
        &self,
        alloc: Global,
        table: &str,
        conditions: &[Condition],
    ) -> Result<Vec<RowView<'_>>, AllocError>
        ensures { IfOk result (λ rows. map (lent_row_of table.now) rows.items
            ≡ matching self.now.now table.now conditions.now) }
    {
        let rows = self.candidates(alloc, table, conditions)?;
        meeting(alloc, rows, conditions)
    }

    /// Whether an index tells the rows of the table of this name apart when these columns are shown. Two rows that operations
    /// have put may be equal until the commit, so once there are changes, no index does.
    fn has_any_index(&self, table: &str, names: &[Text]) -> bool
        ensures { result ≡ true → AreToldApart self.now.now table.now names.now }
    {
        match self.indexed {
            Some(indexed) => self.delta.is_empty() && indexed.has_any(table, names),
            None => false,
        }
    }

    /// Whether these columns tell the rows of the table of this name apart, so that no two are equal in all of them: if the
    /// identifiers are among them or, as long as nothing is changed, all columns of an index are. Looks at no row: false says
    /// nothing about the rows.
    pub fn tells_apart(&self, table: &str, names: &[Text]) -> bool
        ensures { result ≡ true → AreToldApart self.now.now table.now names.now }
    {
        is_among(names, "_uuid") || self.has_any_index(table, names)
    }

    /// What the operations have changed: each of these changes differs from what was there. It is empty exactly if the rows
    /// are as before them.
    pub fn into_delta(self) -> Delta
        ensures made { applied result self.entry.before ≡ self.entry.now }
        ensures differs { Differs result self.entry.before }
        ensures least { (len result == 0) ≡ same_database self.entry.before self.entry.now }
    {
        let Stage {
            rows: _,
            indexed: _,
            delta,
        } = self;
        delta
    }
}
