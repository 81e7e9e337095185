ghost use Rattle.std.specs.Prelude.{◌≡◌, ◌∷◌, ◌++◌, [], IfOk, OnOk, map, filter, option_map};
ghost use Rattle.std.specs.FinMap.{get, contains_key, keys};
ghost use Rattle.std.specs.List.{list_all, list_any};
ghost use Rattle.ov_specs.specs.monitors.Requests as spec;
ghost use Rattle.ov_watch.specs.Views.{IsWatchResult, selects};

use crate::fault::WatchFault;
use crate::request::MonitorRequest;
use crate::requests::TableRequests;
use crate::select::Kind;
use ov_base::Text;
use ov_schema::{Schema, Table};
use std::alloc::{AllocError, Global};
use std::marker::Model;

/// What is reported of a table: for each kind of change the columns, in ascending order, or `None` if the kind is not reported.
#[derive(Drop)]
pub(crate) struct MonitoredTable {
    pub(crate) table: Text,
    pub(crate) initial: Option<Vec<Text>>,
    pub(crate) inserted: Option<Vec<Text>>,
    pub(crate) deleted: Option<Vec<Text>>,
    pub(crate) modified: Option<Vec<Text>>,
}

impl Model for MonitoredTable {
    ghost use Rattle.std.specs.Prelude.{option_map};
    ghost use Rattle.ov_specs.specs.monitors.Requests as spec;
    ghost use Rattle.ov_specs.specs.codes.MonitorCode.{monitored_table_code};

    ghost Value = { spec.MonitoredTable };

    ghost coded = { monitored_table_code };

    ghost view = { λ t. record {
      table = t.table;
      initial = option_map (λ v. v.items) t.initial;
      insert = option_map (λ v. v.items) t.inserted;
      delete = option_map (λ v. v.items) t.deleted;
      modify = option_map (λ v. v.items) t.modified;
    } };
}

impl MonitoredTable {
    /// What these requests amount to under the schema. A missing table is refused before a missing column.
    fn of(
        alloc: Global,
        schema: &Schema,
        asked: &TableRequests,
    ) -> Result<MonitoredTable, WatchFault>
        ensures { IsWatchResult (λ t. t)
            (spec.monitored_table (get schema.now.tables asked.now.0) asked.now) result }
    {
        let Some(table) = schema.table(asked.table.as_str()) else {
            return Err(WatchFault::UnknownTable);
        };
        if !are_known(table, asked.requests.as_slice()) {
            return Err(WatchFault::UnknownColumn);
        }
        Ok(monitored(alloc, table, asked)?)
    }
}

/// What the requests for each table amount to, or the first fault.
pub(crate) fn monitored_tables(
    alloc: Global,
    schema: &Schema,
    asked: &[TableRequests],
) -> Result<Vec<MonitoredTable>, WatchFault>
    ensures { IsWatchResult (λ v. v.items) (spec.monitored_tables schema.now asked.now) result }
{
    let mut tables = Vec::new(alloc);
    for table in asked {
        add_table(&mut tables, MonitoredTable::of(alloc, schema, table)?)?;
    }
    Ok(tables)
}

fn add_table(tables: &mut Vec<MonitoredTable>, table: MonitoredTable) -> Result<(), AllocError>
    ensures { OnOk result (tables.new.items ≡ tables.old.items ++ table ∷ []) }
{
    tables.push(table)?;
    Ok(())
}

/// Whether the table has all columns that the requests name.
fn are_known(table: &Table, requests: &[MonitorRequest]) -> bool
    ensures { result
        ≡ list_all (contains_key table.now.columns) (spec.requested_columns requests.now) }
{
    for request in requests {
        if !has_columns(table, request.names()) {
            return false;
        }
    }
    true
}

fn has_columns(table: &Table, names: &[Text]) -> bool
    ensures { result ≡ list_all (contains_key table.now.columns) names.now }
{
    for name in names {
        if table.column(name.as_str()).is_none() {
            return false;
        }
    }
    true
}

/// What the requests amount to; the table has all of their columns.
fn monitored(
    alloc: Global,
    table: &Table,
    asked: &TableRequests,
) -> Result<MonitoredTable, AllocError>
    ensures { IfOk result (λ t. t ≡ spec.monitored table.now asked.now) }
{
    let requests = asked.requests.as_slice();
    Ok(MonitoredTable {
        table: Text::from_str(alloc, asked.table.as_str())?,
        initial: monitored_columns(alloc, table, requests, Kind::Initial)?,
        inserted: monitored_columns(alloc, table, requests, Kind::Insert)?,
        deleted: monitored_columns(alloc, table, requests, Kind::Delete)?,
        modified: monitored_columns(alloc, table, requests, Kind::Modify)?,
    })
}

/// The columns that are reported at this kind of change, or `None` if no request selects it.
fn monitored_columns(
    alloc: Global,
    table: &Table,
    requests: &[MonitorRequest],
    kind: Kind,
) -> Result<Option<Vec<Text>>, AllocError>
    ensures { IfOk result (λ o. option_map (λ v. v.items) o
        ≡ spec.monitored_columns table.now (filter (selects kind) requests.now)) }
{
    let selected = selected(alloc, requests, kind)?;
    if selected.is_empty() {
        return Ok(None);
    }
    Ok(Some(columns_of(alloc, table, selected.as_slice())?))
}

/// The requests that select this kind of change.
fn selected(
    alloc: Global,
    requests: &[MonitorRequest],
    kind: Kind,
) -> Result<Vec<&MonitorRequest>, AllocError>
    ensures { IfOk result (λ v. map (λ r. r.now) v.items ≡ filter (selects kind) requests.now) }
{
    let mut selected = Vec::new(alloc);
    for request in requests {
        if request.selects(kind) {
            selected.push(request)?;
        }
    }
    Ok(selected)
}

/// The columns of the table that at least one request covers.
fn columns_of(
    alloc: Global,
    table: &Table,
    requests: &[&MonitorRequest],
) -> Result<Vec<Text>, AllocError>
    ensures { IfOk result (λ v. v.items
        ≡ filter
        (λ name. list_any (λ request. spec.is_one_of request.columns name)
        (map (λ r. r.now) requests.now))
        (keys table.now.columns)) }
{
    let mut names = Vec::new(alloc);
    for (name, _column) in table.columns() {
        if is_asked(requests, name.as_str()) {
            names.push(Text::from_str(alloc, name.as_str())?)?;
        }
    }
    Ok(names)
}

/// Whether at least one request covers the column of this name.
fn is_asked(requests: &[&MonitorRequest], name: &str) -> bool
    ensures { result
        ≡ list_any (λ request. spec.is_one_of request.columns name.now)
        (map (λ r. r.now) requests.now) }
{
    for request in requests {
        if request.is_about(name) {
            return true;
        }
    }
    false
}
