ghost use Rattle.std.specs.Prelude.{◌≡◌, List, ℕ, IfOk, OnOk, option_map, string_bytes};
ghost use Rattle.std.specs.Option.{option_to_list};
ghost use Rattle.serde_json.specs.Data.{Data, no_members, item, no_items};
ghost use Rattle.ov_stored.specs.Changing.{applied};
ghost use Rattle.ov_specs.specs.monitors.Updates as spec;
ghost use Rattle.ov_specs.specs.rows.Database.{placed};
ghost use Rattle.ov_specs.specs.wire.Frame.{frame};

use crate::object::Object;
use crate::table::MonitoredTable;
use ov_base::{Tree, Trees};
use ov_db::Delta;
use ov_rows::Rows;
use std::alloc::{AllocError, Global};
use std::marker::Model;

/// A monitor: the value that names it, and what it reports of which tables (RFC 7047, 4.1.5).
#[derive(Drop)]
pub(crate) struct Monitor {
    pub(crate) id: Tree,
    pub(crate) tables: Vec<MonitoredTable>,
}

impl Model for Monitor {
    ghost use Rattle.ov_specs.specs.monitors.Monitors as spec;
    ghost use Rattle.ov_specs.specs.codes.MonitorCode.{monitor_code};

    ghost Value = { spec.Monitor };

    ghost coded = { monitor_code };

    ghost view = { λ m. record { id = m.id; tables = m.tables.items } };
}

/// Puts the rows of a table under its name, if there are any.
fn put_table(
    alloc: Global,
    told: &mut Object,
    table: &MonitoredTable,
    rows: Object,
) -> Result<(), AllocError>
    ensures { (xs : List (List ℕ × Data)) → rows ≡ placed no_members xs
        → OnOk result (told.new
        ≡ placed told.old (option_to_list (spec.under_table table.now.table xs))) }
{
    if rows.is_empty() {
        return Ok(());
    }
    told.put(alloc, table.table.as_str(), rows.into_tree())
}

impl Monitor {
    /// What it reports initially (RFC 7047, 4.1.5).
    pub(crate) fn initial(&self, alloc: Global, rows: &Rows) -> Result<Tree, AllocError>
        ensures { IfOk result (λ t. t ≡ spec.initial rows.now self.now) }
    {
        let mut told = Object::new(alloc);
        for table in &self.tables {
            let found = table.initial_rows(alloc, rows)?;
            put_table(alloc, &mut told, table, found)?;
        }
        Ok(told.into_tree())
    }

    /// Its tables with something to report, under their names.
    fn updated_tables(
        &self,
        alloc: Global,
        rows: &Rows,
        delta: &Delta,
    ) -> Result<Object, AllocError>
        ensures { IfOk result (λ o. o
            ≡ placed no_members
            (spec.table_updates (spec.updated_rows rows.now (applied delta.now rows.now))
            self.now)) }
    {
        let mut told = Object::new(alloc);
        for table in &self.tables {
            let found = table.updated_rows(alloc, rows, delta)?;
            put_table(alloc, &mut told, table, found)?;
        }
        Ok(told)
    }

    /// What it reports of these changes, if anything (RFC 7047, 4.1.6).
    fn updates(&self, alloc: Global, rows: &Rows, delta: &Delta) -> Result<Option<Tree>, AllocError>
        ensures { IfOk result (λ o. o
            ≡ spec.updates rows.now (applied delta.now rows.now) self.now) }
    {
        let told = self.updated_tables(alloc, rows, delta)?;
        if told.is_empty() {
            return Ok(None);
        }
        Ok(Some(told.into_tree()))
    }

    /// The params of its update, if it reports anything (RFC 7047, 4.1.6).
    pub(crate) fn update_params(
        &self,
        alloc: Global,
        rows: &Rows,
        delta: &Delta,
    ) -> Result<Option<Trees>, AllocError>
        ensures { IfOk result (λ o. o
            ≡ option_map (spec.update_params self.now)
            (spec.updates rows.now (applied delta.now rows.now) self.now)) }
    {
        let Some(told) = self.updates(alloc, rows, delta)? else {
            return Ok(None);
        };
        Ok(Some(pair(alloc, self.id.copy()?, told)?))
    }
}

/// The two trees, in order.
fn pair(alloc: Global, first: Tree, second: Tree) -> Result<Trees, AllocError>
    ensures { IfOk result (λ t. t ≡ item first (item second no_items)) }
{
    let mut items = Vec::with_capacity(alloc, 2)?;
    items.push(first.into_value())?;
    items.push(second.into_value())?;
    Ok(Trees::new(items))
}

/// The text that a name is sent as.
pub(crate) fn name_of(alloc: Global, id: &Tree) -> Result<String, AllocError>
    ensures { IfOk result (λ s. string_bytes s ≡ frame id.now) }
{
    id.as_value().to_string(alloc)
}
