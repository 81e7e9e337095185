ghost use Rattle.std.specs.Prelude.{◌≡◌, ◌∷◌, ◌++◌, [], IfOk, OnOk, map, option_map};
ghost use Rattle.serde_json.specs.Find.{as_array};
ghost use Rattle.serde_json.specs.View.{view, items_view, members_view};
ghost use Rattle.ov_specs.specs.monitors.Requests as spec;
ghost use Rattle.ov_specs.specs.schema.Schema.{has_twice};
ghost use Rattle.ov_specs.specs.schema.SchemaShape.{each_member};
ghost use Rattle.ov_specs.specs.values.Reading.{each_read};

use crate::request::MonitorRequest;
use ov_base::Text;
use serde_json::{Map, Value};
use std::alloc::{AllocError, Global};
use std::collections::BTreeSet;
use std::marker::Model;

/// The requests for a table, under its name (RFC 7047, 4.1.5, `<monitor-requests>`).
#[derive(Drop)]
pub(crate) struct TableRequests {
    pub(crate) table: Text,
    pub(crate) requests: Vec<MonitorRequest>,
}

impl Model for TableRequests {
    ghost use Rattle.std.specs.Coded.{coded×, coded_ℕ, coded_list};
    ghost use Rattle.ov_specs.specs.monitors.Requests as spec;
    ghost use Rattle.ov_specs.specs.codes.MonitorCode.{request_code};

    ghost Value = { spec.TableRequests };

    ghost coded = { coded× (coded_list coded_ℕ) (coded_list request_code) };

    ghost view = { λ t. (t.table, t.requests.items) };
}

/// The requests of a monitor, in ascending order of the tables' names; `None` if any part is malformed.
pub(crate) fn read_requests(
    alloc: Global,
    tree: &Value,
) -> Result<Option<Vec<TableRequests>>, AllocError>
    ensures { IfOk result (λ o. option_map (λ v. v.items) o ≡ spec.requests_read (view tree.now)) }
{
    match tree.as_object() {
        Some(members) => each_table(alloc, members),
        None => Ok(None),
    }
}

fn each_table(
    alloc: Global,
    members: &Map<String, Value>,
) -> Result<Option<Vec<TableRequests>>, AllocError>
    ensures { IfOk result (λ o. option_map (λ v. v.items) o
        ≡ each_member spec.table_requests_read (members_view members.now.entries)) }
{
    let mut tables = Vec::new(alloc);
    for (name, tree) in members.iter() {
        match table_requests(alloc, tree)? {
            Some(requests) => {
                let table = Text::from_str(alloc, name.as_str())?;
                tables.push(TableRequests { table, requests })?;
            }
            None => return Ok(None),
        }
    }
    Ok(Some(tables))
}

/// The requests for a table, which name no column twice.
fn table_requests(alloc: Global, tree: &Value) -> Result<Option<Vec<MonitorRequest>>, AllocError>
    ensures { IfOk result (λ o. option_map (λ v. v.items) o
        ≡ spec.table_requests_read (view tree.now)) }
{
    let Some(requests) = one_or_each(alloc, tree)? else {
        return Ok(None);
    };
    if name_twice(alloc, requests.as_slice())? {
        return Ok(None);
    }
    Ok(Some(requests))
}

fn one_or_each(alloc: Global, tree: &Value) -> Result<Option<Vec<MonitorRequest>>, AllocError>
    ensures { IfOk result (λ o. option_map (λ v. v.items) o
        ≡ spec.one_or_each (as_array (view tree.now)) (view tree.now)) }
{
    match tree.as_array() {
        Some(items) => each_request(alloc, items.as_slice()),
        None => one_request(alloc, tree),
    }
}

fn one_request(alloc: Global, tree: &Value) -> Result<Option<Vec<MonitorRequest>>, AllocError>
    ensures { IfOk result (λ o. option_map (λ v. v.items) o
        ≡ option_map (λ r. r ∷ []) (spec.request_read (view tree.now))) }
{
    let Some(request) = MonitorRequest::read(alloc, tree)? else {
        return Ok(None);
    };
    let mut requests = Vec::new(alloc);
    requests.push(request)?;
    Ok(Some(requests))
}

fn each_request(alloc: Global, items: &[Value]) -> Result<Option<Vec<MonitorRequest>>, AllocError>
    ensures { IfOk result (λ o. option_map (λ v. v.items) o
        ≡ each_read spec.request_read (items_view items.now)) }
{
    let mut requests = Vec::new(alloc);
    for item in items {
        match MonitorRequest::read(alloc, item)? {
            Some(request) => requests.push(request)?,
            None => return Ok(None),
        }
    }
    Ok(Some(requests))
}

/// Whether the requests name a column twice.
fn name_twice(alloc: Global, requests: &[MonitorRequest]) -> Result<bool, AllocError>
    ensures { IfOk result (λ b. b ≡ has_twice (spec.requested_columns requests.now)) }
{
    let names = names_in(alloc, requests)?;
    has_twice(alloc, names.as_slice())
}

/// The columns that the requests name, request by request.
fn names_in(alloc: Global, requests: &[MonitorRequest]) -> Result<Vec<&Text>, AllocError>
    ensures { IfOk result (λ v. map (λ t. t.now) v.items ≡ spec.requested_columns requests.now) }
{
    let mut names = Vec::new(alloc);
    for request in requests {
        add_names(&mut names, request.names())?;
    }
    Ok(names)
}

fn add_names<'a>(names: &mut Vec<&'a Text>, more: &'a [Text]) -> Result<(), AllocError>
    ensures { OnOk result (map (λ t. t.now) names.new.items
        ≡ map (λ t. t.now) names.old.items ++ more.now) }
{
    for name in more {
        names.push(name)?;
    }
    Ok(())
}

/// Whether a name occurs twice among these. Uses a set, since there may be as many names as fit in a message.
fn has_twice(alloc: Global, names: &[&Text]) -> Result<bool, AllocError>
    ensures { IfOk result (λ b. b ≡ has_twice (map (λ t. t.now) names.now)) }
{
    let mut seen = BTreeSet::new(alloc);
    for name in names {
        if !seen.insert(name.as_str())? {
            return Ok(true);
        }
    }
    Ok(false)
}
