ghost use Rattle.std.specs.Prelude.{◌≡◌, IfOk, IfErr, map, Ok, option_map};
ghost use Rattle.serde_json.specs.Data.{Data};
ghost use Rattle.serde_json.specs.View.{view};
ghost use Rattle.ov_specs.specs.schema.SchemaShape.{schema_shape};
ghost use Rattle.ov_specs.specs.schema.Schema.{judged, accepted_schema, accepted};
ghost use Rattle.ov_schema_text.specs.Built.{named_table_of};
ghost use Rattle.ov_schema_text.specs.SchemaMembers.{schema_of_members};
ghost use Rattle.ov_schema_text.specs.Refusals.{RefusesWith, JudgesWith};
ghost use Rattle.ov_schema_text.specs.ShapeViews.{named_table_view, schema_view};

use crate::parse::schema_shape::SchemaShape;
use crate::parse::table_shape::TableShape;
use ov_base::{Text, Tree};
use ov_schema::{Schema, SchemaFault, Table};
use serde_json::Value;
use std::alloc::{AllocError, Global};

/// What is read from a schema's tree.
#[derive(Drop)]
pub(crate) struct SchemaMembers {
    name: Text,
    version: Option<Text>,
    tables: Vec<(Text, Table)>,
}

/// The schema that a tree is. The first refusal in the order of `SchemaFault` that applies anywhere in the tree is returned;
/// `Memory` may be returned for any tree. Unknown members are ignored, and kept in the tree.
pub fn schema_of_tree(alloc: Global, tree: Tree) -> Result<Schema, SchemaFault>
    ensures ok { IfOk result (λ s. accepted tree ≡ Ok s) }
    ensures tree { IfOk result (λ s. s.tree ≡ tree) }
    ensures refused { IfErr result (λ fault. RefusesWith tree fault) }
{
    let parts = SchemaMembers::read(alloc, tree.as_value())?;
    Ok(Schema::new(parts.name, parts.version, parts.tables, tree))
}

impl SchemaMembers {
    /// What the tree says, unless it is refused.
    fn read(alloc: Global, tree: &Value) -> Result<SchemaMembers, SchemaFault>
        ensures ok { IfOk result (λ p. judged (view tree.now) (schema_shape (view tree.now))
            ≡ Ok (schema_of_members (view tree.now) p)) }
        ensures refused { IfErr result (λ fault. JudgesWith (view tree.now) fault) }
    {
        let Some(shape) = SchemaShape::read(alloc, tree)? else {
            return Err(SchemaFault::Syntax);
        };
        match shape.refusal(alloc)? {
            Some(fault) => Err(fault),
            None => Ok(SchemaMembers::build(alloc, &shape)?),
        }
    }

    /// The parts of a schema that has these members.
    fn build(alloc: Global, shape: &SchemaShape<'_>) -> Result<SchemaMembers, AllocError>
        ensures { IfOk result (λ p. (d : Data) → schema_of_members d p
            ≡ accepted_schema d (schema_view shape.now)) }
    {
        Ok(SchemaMembers {
            name: Text::from_str(alloc, shape.name)?,
            version: optional_text(alloc, shape.version)?,
            tables: tables_of(alloc, shape.tables.as_slice(), shape.has_root())?,
        })
    }
}

fn optional_text(alloc: Global, text: Option<&str>) -> Result<Option<Text>, AllocError>
    ensures { IfOk result (λ o. o ≡ option_map (λ t. t.now) text.entry) }
{
    match text {
        Some(text) => Ok(Some(Text::from_str(alloc, text)?)),
        None => Ok(None),
    }
}

/// The tables with their names.
fn tables_of(
    alloc: Global,
    shapes: &[(&str, TableShape<'_>)],
    some_root: bool,
) -> Result<Vec<(Text, Table)>, AllocError>
    ensures { IfOk result (λ v. v.items
        ≡ map (named_table_of some_root) (map named_table_view shapes.now)) }
{
    let mut tables = Vec::new(alloc);
    for (name, shape) in shapes {
        let table = shape.build(alloc, some_root)?;
        tables.push((Text::from_str(alloc, *name)?, table))?;
    }
    Ok(tables)
}
