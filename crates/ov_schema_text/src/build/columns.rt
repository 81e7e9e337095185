ghost use Rattle.std.specs.Prelude.{◌≡◌, IfOk, option_map};
ghost use Rattle.ov_specs.specs.schema.Schema.{accepted_base, reference_of, max_of, accepted_type};
ghost use Rattle.ov_specs.specs.schema.Schema.{accepted_column};
ghost use Rattle.ov_schema_text.specs.ShapeViews.{base_view, most_view, type_view, column_view};

use crate::parse::base_shape::BaseShape;
use crate::parse::choices::read_choices;
use crate::parse::type_shape::{ColumnShape, Most, TypeShape};
use ov_base::Text;
use ov_schema::{BaseType, Column, ColumnType, Reference};
use std::alloc::{AllocError, Global};

impl BaseShape<'_> {
    /// The base type of these members.
    fn build(&self, alloc: Global) -> Result<BaseType, AllocError>
        ensures { IfOk result (λ b. b ≡ accepted_base (base_view self.now)) }
    {
        Ok(BaseType::new(
            self.of.kind(),
            read_choices(alloc, self.of, self.choices)?,
            self.least,
            self.greatest,
            self.shortest,
            self.longest,
            self.reference(alloc)?,
        ))
    }

    /// The table that it refers to, if any.
    fn reference(&self, alloc: Global) -> Result<Option<Reference>, AllocError>
        ensures { IfOk result (λ o. o ≡ reference_of (base_view self.now)) }
    {
        match self.ref_table {
            Some(table) => {
                let table = Text::from_str(alloc, table)?;
                Ok(Some(Reference::new(table, self.is_strong())))
            }
            None => Ok(None),
        }
    }
}

impl TypeShape<'_> {
    /// The type of these members.
    fn build(&self, alloc: Global) -> Result<ColumnType, AllocError>
        ensures { IfOk result (λ t. t ≡ accepted_type (type_view self.now)) }
    {
        let key = self.key.build(alloc)?;
        let value = optional_type(alloc, &self.value)?;
        Ok(ColumnType::new(key, value, self.min.unwrap_or(1), max_of(self.max)))
    }
}

impl ColumnShape<'_> {
    /// The column of these members.
    pub(crate) fn build(&self, alloc: Global) -> Result<Column, AllocError>
        ensures { IfOk result (λ c. c ≡ accepted_column (column_view self.now)) }
    {
        let type_of = self.type_of.build(alloc)?;
        let is_mutable = self.is_mutable || self.type_of.is_weak();
        Ok(Column::new(type_of, self.is_ephemeral, is_mutable))
    }
}

fn optional_type(
    alloc: Global,
    shape: &Option<BaseShape<'_>>,
) -> Result<Option<BaseType>, AllocError>
    ensures { IfOk result (λ o. o ≡ option_map accepted_base (option_map base_view shape.now)) }
{
    match shape {
        Some(shape) => Ok(Some(shape.build(alloc)?)),
        None => Ok(None),
    }
}

/// The maximum: 1 if it is not given, `None` if it is "unlimited".
fn max_of(max: Option<Most>) -> Option<i64>
    ensures { result ≡ max_of (option_map most_view max) }
{
    match max {
        Some(Most::AtMost(count)) => Some(count),
        Some(Most::Unlimited) => None,
        None => Some(1),
    }
}
