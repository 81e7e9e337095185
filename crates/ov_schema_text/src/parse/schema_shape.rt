ghost use Rattle.std.specs.Prelude.{◌≡◌, IfOk, map, option_map};
ghost use Rattle.serde_json.specs.View.{view, members_view};
ghost use Rattle.ov_specs.specs.schema.SchemaShape.{each_member, table_shape, schema_shape};
ghost use Rattle.ov_schema_text.specs.ShapeViews.{named_table_view, schema_view};

use crate::parse::member::{members_at, optional_text, text_at};
use crate::parse::table_shape::TableShape;
use serde_json::{Map, Value};
use std::alloc::{AllocError, Global};

/// The members of a schema, with its tables in the order of the tree (RFC 7047, 3.2, `<database-schema>`). They are of the
/// right kinds but not yet judged.
#[derive(Drop)]
pub struct SchemaShape<'a> {
    pub name: &'a str,
    pub version: Option<&'a str>,
    pub tables: Vec<(&'a str, TableShape<'a>)>,
}

impl<'a> SchemaShape<'a> {
    /// The members of a schema, or `None` if one is missing or of a wrong kind. Other members are ignored.
    pub fn read(alloc: Global, tree: &'a Value) -> Result<Option<SchemaShape<'a>>, AllocError>
        ensures { IfOk result (λ o. option_map schema_view o ≡ schema_shape (view tree.now)) }
    {
        let Some(name) = text_at(tree, "name") else {
            return Ok(None);
        };
        let Some(version) = optional_text(tree, "version") else {
            return Ok(None);
        };
        if optional_text(tree, "cksum").is_none() {
            return Ok(None);
        }
        let Some(members) = members_at(tree, "tables") else {
            return Ok(None);
        };
        let Some(tables) = tables_of(alloc, members)? else {
            return Ok(None);
        };
        Ok(Some(SchemaShape {
            name,
            version,
            tables,
        }))
    }
}

/// The tables with their names, or `None` if one cannot be read.
fn tables_of<'a>(
    alloc: Global,
    members: &'a Map<String, Value>,
) -> Result<Option<Vec<(&'a str, TableShape<'a>)>>, AllocError>
    ensures { IfOk result (λ o. option_map (λ v. map named_table_view v.items) o
        ≡ each_member table_shape (members_view members.now.entries)) }
{
    let mut tables = Vec::new(alloc);
    for (name, member) in members.iter() {
        match TableShape::read(alloc, member)? {
            Some(table) => tables.push((name.as_str(), table))?,
            None => return Ok(None),
        }
    }
    Ok(Some(tables))
}
