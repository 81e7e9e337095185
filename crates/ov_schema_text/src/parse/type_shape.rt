ghost use Rattle.std.specs.Prelude.{◌≡◌, None, option_map};
ghost use Rattle.serde_json.specs.Find.{get};
ghost use Rattle.serde_json.specs.View.{view};
ghost use Rattle.ov_specs.specs.schema.SchemaShape.{optional, base_shape, most, type_members};
ghost use Rattle.ov_specs.specs.schema.SchemaShape.{type_shape, column_shape};
ghost use Rattle.ov_schema_text.specs.ShapeViews.{base_view, most_view, type_view, column_view};

use crate::parse::base_shape::{BaseShape, TypeName};
use crate::parse::member::{optional_bool, optional_number};
use serde_json::Value;

/// The maximum count of a type (RFC 7047, 3.2, `<type>`, max).
#[derive(Clone, Copy)]
pub enum Most {
    AtMost(i64),
    Unlimited,
}

impl Most {
    fn read(tree: &Value) -> Option<Most>
        ensures { option_map most_view result ≡ most (view tree.now) }
    {
        match tree.as_str() {
            Some("unlimited") => Some(Most::Unlimited),
            Some(_) => None,
            None => Some(Most::AtMost(tree.as_i64()?)),
        }
    }
}

/// The members of a type (RFC 7047, 3.2, `<type>`).
#[derive(Clone, Copy)]
pub struct TypeShape<'a> {
    pub key: BaseShape<'a>,
    pub value: Option<BaseShape<'a>>,
    pub min: Option<i64>,
    pub max: Option<Most>,
}

impl<'a> TypeShape<'a> {
    /// The type that a tree is, or `None` if a member is missing or of a wrong kind.
    fn read(tree: &'a Value) -> Option<TypeShape<'a>>
        ensures { option_map type_view result ≡ type_shape (view tree.now) }
    {
        match tree.as_str() {
            Some(word) => Some(TypeShape::plain(BaseShape::plain(TypeName::of_word(word)?))),
            None => TypeShape::of_members(tree),
        }
    }

    /// The type of scalars.
    pub fn plain(key: BaseShape<'a>) -> TypeShape<'a>
        ensures { type_view result
            ≡ record { key = base_view key.entry; value = None; min = None; max = None } }
    {
        TypeShape {
            key,
            value: None,
            min: None,
            max: None,
        }
    }

    fn of_members(tree: &'a Value) -> Option<TypeShape<'a>>
        ensures { option_map type_view result ≡ type_members (view tree.now) }
    {
        Some(TypeShape {
            key: BaseShape::read(tree.get("key")?)?,
            value: optional_base(tree, "value")?,
            min: optional_number(tree, "min")?,
            max: optional_most(tree, "max")?,
        })
    }
}

/// The base type at a name, if there is one. The outer `None`: something else is there.
fn optional_base<'a>(tree: &'a Value, name: &str) -> Option<Option<BaseShape<'a>>>
    ensures { option_map (λ o. option_map base_view o) result
        ≡ optional base_shape (get name.now (view tree.now)) }
{
    match tree.get(name) {
        Some(member) => Some(Some(BaseShape::read(member)?)),
        None => Some(None),
    }
}

/// The maximum count at a name, if there is one. The outer `None`: something else is there.
fn optional_most(tree: &Value, name: &str) -> Option<Option<Most>>
    ensures { option_map (λ o. option_map most_view o) result
        ≡ optional most (get name.now (view tree.now)) }
{
    match tree.get(name) {
        Some(member) => Some(Some(Most::read(member)?)),
        None => Some(None),
    }
}

/// The members of a column (RFC 7047, 3.2, `<column-schema>`).
#[derive(Clone, Copy)]
pub struct ColumnShape<'a> {
    pub type_of: TypeShape<'a>,
    pub is_ephemeral: bool,
    pub is_mutable: bool,
}

impl<'a> ColumnShape<'a> {
    /// The column that a tree is, or `None` if a member is missing or of a wrong kind.
    pub(crate) fn read(tree: &'a Value) -> Option<ColumnShape<'a>>
        ensures { option_map column_view result ≡ column_shape (view tree.now) }
    {
        Some(ColumnShape {
            type_of: TypeShape::read(tree.get("type")?)?,
            is_ephemeral: optional_bool(tree, "ephemeral")?.unwrap_or(false),
            is_mutable: optional_bool(tree, "mutable")?.unwrap_or(true),
        })
    }
}
