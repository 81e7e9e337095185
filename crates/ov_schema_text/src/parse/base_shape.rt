ghost use Rattle.std.specs.Prelude.{◌≡◌, option_map};
ghost use Rattle.serde_json.specs.View.{view};
ghost use Rattle.ov_specs.specs.schema.SchemaShape.{type_name, is_integer_type, is_text_type};
ghost use Rattle.ov_specs.specs.schema.SchemaShape.{plain_base, ranges_fit, base_members};
ghost use Rattle.ov_specs.specs.schema.SchemaShape.{base_shape};
ghost use Rattle.ov_specs.specs.schema.Schema.{kind_named};
ghost use Rattle.ov_atoms.specs.Views.{kind_view};
ghost use Rattle.ov_schema_text.specs.ShapeViews.{name_view, base_view};

use crate::parse::member::{optional_number, optional_text, text_at};
use ov_atoms::AtomKind;
use serde_json::Value;

/// An atomic type's name (RFC 7047, 3.2, `<atomic-type>`). "real" is known, and refused later.
#[derive(Clone, Copy)]
pub enum TypeName {
    Kind(AtomKind),
    Real,
}

impl TypeName {
    /// The type of this name.
    pub(crate) fn of_word(word: &str) -> Option<TypeName>
        ensures { option_map name_view result ≡ type_name word.now }
    {
        match word {
            "integer" => Some(TypeName::Kind(AtomKind::Integer)),
            "boolean" => Some(TypeName::Kind(AtomKind::Boolean)),
            "string" => Some(TypeName::Kind(AtomKind::Text)),
            "uuid" => Some(TypeName::Kind(AtomKind::Uuid)),
            "real" => Some(TypeName::Real),
            _ => None,
        }
    }

    /// The atomic type of the name. For "real", which no accepted schema has, it is integers.
    pub fn kind(self) -> AtomKind
        ensures { kind_view result ≡ kind_named (name_view self) }
    {
        match self {
            TypeName::Kind(kind) => kind,
            TypeName::Real => AtomKind::Integer,
        }
    }

    fn is_integer(self) -> bool
        ensures { result ≡ is_integer_type (name_view self) }
    {
        matches!(self, TypeName::Kind(AtomKind::Integer))
    }

    fn is_text(self) -> bool
        ensures { result ≡ is_text_type (name_view self) }
    {
        matches!(self, TypeName::Kind(AtomKind::Text))
    }
}

/// The members of a base type (RFC 7047, 3.2, `<base-type>`).
#[derive(Clone, Copy)]
pub struct BaseShape<'a> {
    pub of: TypeName,
    pub choices: Option<&'a Value>,
    pub least: Option<i64>,
    pub greatest: Option<i64>,
    pub shortest: Option<i64>,
    pub longest: Option<i64>,
    pub ref_table: Option<&'a str>,
    pub ref_type: Option<&'a str>,
}

impl<'a> BaseShape<'a> {
    /// The base type that is given as a name alone.
    pub fn plain(of: TypeName) -> BaseShape<'a>
        ensures { base_view result ≡ plain_base (name_view of) }
    {
        BaseShape {
            of,
            choices: None,
            least: None,
            greatest: None,
            shortest: None,
            longest: None,
            ref_table: None,
            ref_type: None,
        }
    }

    /// The base type that a tree is, or `None` if a member is missing or of a wrong kind, or a range is given for a type
    /// other than its own.
    pub(crate) fn read(tree: &'a Value) -> Option<BaseShape<'a>>
        ensures { option_map base_view result ≡ base_shape (view tree.now) }
    {
        match tree.as_str() {
            Some(word) => Some(BaseShape::plain(TypeName::of_word(word)?)),
            None => BaseShape::of_members(tree),
        }
    }

    fn of_members(tree: &'a Value) -> Option<BaseShape<'a>>
        ensures { option_map base_view result ≡ base_members (view tree.now) }
    {
        let base = BaseShape {
            of: TypeName::of_word(text_at(tree, "type")?)?,
            choices: tree.get("enum"),
            least: optional_number(tree, "minInteger")?,
            greatest: optional_number(tree, "maxInteger")?,
            shortest: optional_number(tree, "minLength")?,
            longest: optional_number(tree, "maxLength")?,
            ref_table: optional_text(tree, "refTable")?,
            ref_type: optional_text(tree, "refType")?,
        };
        if base.ranges_fit() { Some(base) } else { None }
    }

    /// Whether ranges are given only for their own type.
    fn ranges_fit(&self) -> bool
        ensures { result ≡ ranges_fit (base_view self.now) }
    {
        let has_bounds = self.least.is_some() || self.greatest.is_some();
        let has_lengths = self.shortest.is_some() || self.longest.is_some();
        (self.of.is_integer() || !has_bounds) && (self.of.is_text() || !has_lengths)
    }
}
