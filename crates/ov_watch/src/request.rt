ghost use Rattle.std.specs.Prelude.{◌≡◌, IfOk, [], codes, option_map, option_and_then, unwrap_or};
ghost use Rattle.std.specs.Option.{option_copied};
ghost use Rattle.serde_json.specs.Find as find;
ghost use Rattle.serde_json.specs.Find.{as_str};
ghost use Rattle.serde_json.specs.View.{view, items_view};
ghost use Rattle.ov_specs.specs.monitors.Requests as spec;
ghost use Rattle.ov_specs.specs.values.Reading.{each_read, list_read};
ghost use Rattle.ov_watch.specs.Views.{column_choice_view, selects};

use crate::select::{Kind, MonitorSelect};
use ov_base::Text;
use ov_projection::is_among;
use serde_json::Value;
use std::alloc::{AllocError, Global};
use std::marker::Model;

/// Which columns of a table a request covers.
#[derive(Drop)]
pub(crate) enum ColumnChoice {
    /// All but `_uuid`.
    NotNamed,
    /// The columns of these names.
    Named(Vec<Text>),
}

/// A request for a table (RFC 7047, 4.1.5, `<monitor-request>`).
#[derive(Drop)]
pub(crate) struct MonitorRequest {
    columns: ColumnChoice,
    select: MonitorSelect,
}

impl Model for MonitorRequest {
    ghost use Rattle.ov_specs.specs.monitors.Requests as spec;
    ghost use Rattle.ov_specs.specs.codes.MonitorCode.{request_code};
    ghost use Rattle.ov_watch.specs.Views.{column_choice_view, select_view};

    ghost Value = { spec.MonitorRequest };

    ghost coded = { request_code };

    ghost view = { λ r. record {
      columns = column_choice_view r.columns;
      select = select_view r.select;
    } };
}

impl MonitorRequest {
    /// Reads a request from a tree; `None` if it is malformed.
    pub(crate) fn read(alloc: Global, tree: &Value) -> Result<Option<MonitorRequest>, AllocError>
        ensures { IfOk result (λ o. o ≡ spec.request_read (view tree.now)) }
    {
        match tree.as_object() {
            Some(_members) => request_in(alloc, tree),
            None => Ok(None),
        }
    }

    /// The columns that it names.
    pub(crate) fn names(&self) -> &[Text]
        ensures { result.now ≡ unwrap_or self.now.columns [] }
    {
        match &self.columns {
            ColumnChoice::NotNamed => &[],
            ColumnChoice::Named(names) => names.as_slice(),
        }
    }

    /// Whether it selects this kind of change.
    pub(crate) fn selects(&self, kind: Kind) -> bool
        ensures { result ≡ selects kind self.now }
    {
        match kind {
            Kind::Initial => self.select.initial,
            Kind::Insert => self.select.insert,
            Kind::Delete => self.select.delete,
            Kind::Modify => self.select.modify,
        }
    }

    /// Whether it covers the column of this name.
    pub(crate) fn is_about(&self, name: &str) -> bool
        ensures { result ≡ spec.is_one_of self.now.columns name.now }
    {
        match &self.columns {
            ColumnChoice::NotNamed => name != "_uuid",
            ColumnChoice::Named(names) => is_among(names.as_slice(), name),
        }
    }
}

/// Reads a request from an object.
fn request_in(alloc: Global, tree: &Value) -> Result<Option<MonitorRequest>, AllocError>
    ensures { IfOk result (λ o. o
        ≡ option_and_then
        (λ columns. spec.with_columns columns
        (spec.select_read (find.get (codes "select") (view tree.now))))
        (spec.columns_read (find.get (codes "columns") (view tree.now)))) }
{
    let Some(columns) = chosen_columns(alloc, tree.get("columns"))? else {
        return Ok(None);
    };
    match MonitorSelect::read(tree.get("select")) {
        Some(select) => Ok(Some(MonitorRequest { columns, select })),
        None => Ok(None),
    }
}

/// The columns chosen by a member `columns`, which may be left out; `None` if it is malformed.
fn chosen_columns(alloc: Global, tree: Option<&Value>) -> Result<Option<ColumnChoice>, AllocError>
    ensures { IfOk result (λ o. option_map column_choice_view o
        ≡ spec.columns_read (option_map view (option_copied tree.entry))) }
{
    let Some(tree) = tree else {
        return Ok(Some(ColumnChoice::NotNamed));
    };
    match texts_of(alloc, tree)? {
        Some(names) => Ok(Some(ColumnChoice::Named(names))),
        None => Ok(None),
    }
}

/// The texts of an array.
fn texts_of(alloc: Global, tree: &Value) -> Result<Option<Vec<Text>>, AllocError>
    ensures { IfOk result (λ o. option_map (λ v. v.items) o ≡ list_read as_str (view tree.now)) }
{
    match tree.as_array() {
        Some(items) => each_text(alloc, items.as_slice()),
        None => Ok(None),
    }
}

fn each_text(alloc: Global, items: &[Value]) -> Result<Option<Vec<Text>>, AllocError>
    ensures { IfOk result (λ o. option_map (λ v. v.items) o
        ≡ each_read as_str (items_view items.now)) }
{
    let mut texts = Vec::new(alloc);
    for item in items {
        match item.as_str() {
            Some(text) => texts.push(Text::from_str(alloc, text)?)?,
            None => return Ok(None),
        }
    }
    Ok(Some(texts))
}
