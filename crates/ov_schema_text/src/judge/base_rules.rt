ghost use Rattle.std.specs.Prelude.{◌≡◌, not, IfOk};
ghost use Rattle.ov_specs.specs.schema.Schema.{is_real_type, is_uuid_type, has_table, above, below};
ghost use Rattle.ov_specs.specs.schema.Schema.{is_some_and, is_bad_base_range, is_strength};
ghost use Rattle.ov_specs.specs.schema.Schema.{is_bad_reference, is_bad_enum, is_weak, is_strong};
ghost use Rattle.ov_schema_text.specs.ShapeViews.{name_view, base_view, schema_view};

use crate::parse::base_shape::{BaseShape, TypeName};
use crate::parse::choices::{has_atoms, read_choices};
use crate::parse::schema_shape::SchemaShape;
use ov_atoms::AtomKind;
use std::alloc::{AllocError, Global};

impl TypeName {
    /// Whether it is "real".
    pub(crate) fn is_real(self) -> bool
        ensures { result ≡ is_real_type (name_view self) }
    {
        matches!(self, TypeName::Real)
    }

    fn is_uuid(self) -> bool
        ensures { result ≡ is_uuid_type (name_view self) }
    {
        matches!(self, TypeName::Kind(AtomKind::Uuid))
    }
}

impl BaseShape<'_> {
    /// Whether a minimum is above its maximum, or a length is negative.
    pub(crate) fn is_bad_range(&self) -> bool
        ensures { result ≡ is_bad_base_range (base_view self.now) }
    {
        is_above(self.least, self.greatest)
            || is_below(0, self.shortest)
            || is_below(0, self.longest)
            || is_above(self.shortest, self.longest)
    }

    /// Whether `refTable` names no table.
    pub(crate) fn has_unknown_table(&self, schema: &SchemaShape<'_>) -> bool
        ensures { result
            ≡ is_some_and (λ name. not (has_table (schema_view schema.now) name))
            (base_view self.now).ref_table }
    {
        match self.ref_table {
            Some(name) => !schema.has_table(name),
            None => false,
        }
    }

    /// Whether `refType` is not one of its two words or has no `refTable`, or `refTable` is given for a type other than
    /// "uuid".
    pub(crate) fn is_bad_reference(&self) -> bool
        ensures { result ≡ is_bad_reference (base_view self.now) }
    {
        let is_bad_strength = match self.ref_type {
            Some(word) => !is_strength(word),
            None => false,
        };
        is_bad_strength
            || (self.ref_type.is_some() && self.ref_table.is_none())
            || (self.ref_table.is_some() && !self.of.is_uuid())
    }

    /// Whether `enum` does not read as a set of one or more atoms of the type.
    pub(crate) fn is_bad_enum(&self, alloc: Global) -> Result<bool, AllocError>
        ensures { IfOk result (λ b. b ≡ is_bad_enum (base_view self.now)) }
    {
        let Some(tree) = self.choices else {
            return Ok(false);
        };
        match read_choices(alloc, self.of, Some(tree))? {
            Some(choices) => Ok(!has_atoms(&choices)),
            None => Ok(true),
        }
    }

    /// Whether it is a weak reference.
    pub(crate) fn is_weak(&self) -> bool
        ensures { result ≡ is_weak (base_view self.now) }
    {
        match self.ref_type {
            Some(word) => self.ref_table.is_some() && word == "weak",
            None => false,
        }
    }

    /// Whether it is a strong reference, as it is if no strength is given.
    pub fn is_strong(&self) -> bool
        ensures { result ≡ is_strong (base_view self.now) }
    {
        self.ref_table.is_some() && !self.is_weak()
    }
}

fn is_strength(word: &str) -> bool
    ensures { result ≡ is_strength word.now }
{
    word == "strong" || word == "weak"
}

fn is_above(least: Option<i64>, greatest: Option<i64>) -> bool
    ensures { result ≡ above least greatest }
{
    match (least, greatest) {
        (Some(least), Some(greatest)) => greatest < least,
        _ => false,
    }
}

/// Whether the number is given and below the bound.
pub(crate) fn is_below(bound: i64, number: Option<i64>) -> bool
    ensures { result ≡ below bound number }
{
    match number {
        Some(number) => number < bound,
        None => false,
    }
}
