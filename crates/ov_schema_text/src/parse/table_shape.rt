ghost use Rattle.std.specs.Prelude.{◌≡◌, IfOk, [], map, option_map, unwrap_or, codes};
ghost use Rattle.serde_json.specs.Find.{get, as_str};
ghost use Rattle.serde_json.specs.View.{view, items_view, members_view};
ghost use Rattle.ov_specs.specs.values.Reading.{each_read};
ghost use Rattle.ov_specs.specs.schema.SchemaShape.{optional, each_member, column_shape};
ghost use Rattle.ov_specs.specs.schema.SchemaShape.{table_shape};
ghost use Rattle.ov_specs.specs.values.Reading.{list_read};
ghost use Rattle.ov_schema_text.specs.ShapeViews.{named_column_view, texts_view, indexes_view};
ghost use Rattle.ov_schema_text.specs.ShapeViews.{table_view};

use crate::parse::member::{members_at, optional_bool, optional_number};
use crate::parse::type_shape::ColumnShape;
use serde_json::{Map, Value};
use std::alloc::{AllocError, Global};

/// The members of a table, with its columns in the order of the tree (RFC 7047, 3.2, `<table-schema>`).
#[derive(Drop)]
pub struct TableShape<'a> {
    pub columns: Vec<(&'a str, ColumnShape<'a>)>,
    pub max_rows: Option<i64>,
    pub is_root: bool,
    pub indexes: Vec<Vec<&'a str>>,
}

impl<'a> TableShape<'a> {
    /// The table that a tree is, or `None` if a member is missing or of a wrong kind.
    pub(crate) fn read(alloc: Global, tree: &'a Value) -> Result<Option<TableShape<'a>>, AllocError>
        ensures { IfOk result (λ o. option_map table_view o ≡ table_shape (view tree.now)) }
    {
        let Some(members) = members_at(tree, "columns") else {
            return Ok(None);
        };
        let Some(columns) = columns_of(alloc, members)? else {
            return Ok(None);
        };
        let Some(max_rows) = optional_number(tree, "maxRows") else {
            return Ok(None);
        };
        let Some(root) = optional_bool(tree, "isRoot") else {
            return Ok(None);
        };
        let Some(indexes) = optional_indexes(alloc, tree)? else {
            return Ok(None);
        };
        Ok(Some(TableShape {
            columns,
            max_rows,
            is_root: root.unwrap_or(false),
            indexes,
        }))
    }
}

/// The columns with their names, or `None` if one cannot be read.
fn columns_of<'a>(
    alloc: Global,
    members: &'a Map<String, Value>,
) -> Result<Option<Vec<(&'a str, ColumnShape<'a>)>>, AllocError>
    ensures { IfOk result (λ o. option_map (λ v. map named_column_view v.items) o
        ≡ each_member column_shape (members_view members.now.entries)) }
{
    let mut columns = Vec::new(alloc);
    for (name, member) in members.iter() {
        match ColumnShape::read(member) {
            Some(column) => columns.push((name.as_str(), column))?,
            None => return Ok(None),
        }
    }
    Ok(Some(columns))
}

/// The indexes, empty if they are not given. `None`: something else is there.
fn optional_indexes<'a>(
    alloc: Global,
    tree: &'a Value,
) -> Result<Option<Vec<Vec<&'a str>>>, AllocError>
    ensures { IfOk result (λ o. option_map (λ v. indexes_view v.items) o
        ≡ option_map (λ o2. unwrap_or o2 [])
        (optional (list_read (list_read as_str)) (get (codes "indexes") (view tree.now)))) }
{
    match tree.get("indexes") {
        Some(member) => match member.as_array() {
            Some(items) => indexes_of(alloc, items),
            None => Ok(None),
        },
        None => Ok(Some(Vec::new(alloc))),
    }
}

fn indexes_of<'a>(
    alloc: Global,
    items: &'a Vec<Value>,
) -> Result<Option<Vec<Vec<&'a str>>>, AllocError>
    ensures { IfOk result (λ o. option_map (λ v. indexes_view v.items) o
        ≡ each_read (list_read as_str) (items_view items.now.items)) }
{
    let mut indexes = Vec::new(alloc);
    for item in items {
        match texts_of(alloc, item)? {
            Some(texts) => indexes.push(texts)?,
            None => return Ok(None),
        }
    }
    Ok(Some(indexes))
}

/// The texts of an array, or `None` if it is not an array of texts.
fn texts_of<'a>(alloc: Global, tree: &'a Value) -> Result<Option<Vec<&'a str>>, AllocError>
    ensures { IfOk result (λ o. option_map (λ v. texts_view v.items) o
        ≡ list_read as_str (view tree.now)) }
{
    match tree.as_array() {
        Some(items) => each_text(alloc, items),
        None => Ok(None),
    }
}

fn each_text<'a>(alloc: Global, items: &'a Vec<Value>) -> Result<Option<Vec<&'a str>>, AllocError>
    ensures { IfOk result (λ o. option_map (λ v. texts_view v.items) o
        ≡ each_read as_str (items_view items.now.items)) }
{
    let mut texts = Vec::new(alloc);
    for item in items {
        match item.as_str() {
            Some(text) => texts.push(text)?,
            None => return Ok(None),
        }
    }
    Ok(Some(texts))
}
