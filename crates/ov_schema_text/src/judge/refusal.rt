ghost use Rattle.std.specs.Prelude.{◌≡◌, Some, IfOk, option_map};
ghost use Rattle.ov_specs.specs.schema.Schema.{any_base, any_type, has_bad_name, has_bad_version};
ghost use Rattle.ov_specs.specs.schema.Schema.{has_bad_range, is_strong_weak, refusal_of_shape};
ghost use Rattle.ov_schema_text.specs.ShapeViews.{schema_view};
ghost use Rattle.ov_schema_text.specs.Flaws.{base_has};
ghost use Rattle.ov_schema_text.specs.FaultViews.{refusal_view};

use crate::judge::flaws::{BaseFlaw, ColumnFlaw, TableFlaw};
use crate::judge::names::{is_bad_name, is_version};
use crate::parse::schema_shape::SchemaShape;
use ov_schema::SchemaFault;
use std::alloc::{AllocError, Global};

impl SchemaShape<'_> {
    /// The first refusal, in their order, that applies anywhere.
    pub fn refusal(&self, alloc: Global) -> Result<Option<SchemaFault>, AllocError>
        ensures { IfOk result (λ o. option_map refusal_view o
            ≡ option_map Some (refusal_of_shape (schema_view self.now))) }
    {
        if self.has_bad_name(alloc)? {
            return Ok(Some(SchemaFault::BadName));
        }
        if self.has_bad_version() {
            return Ok(Some(SchemaFault::BadVersion));
        }
        if self.has(alloc, TableFlaw::NoColumns)? {
            return Ok(Some(SchemaFault::NoColumns));
        }
        if self.has_bad_range(alloc)? {
            return Ok(Some(SchemaFault::BadRange));
        }
        if self.has_base(alloc, BaseFlaw::Real)? {
            return Ok(Some(SchemaFault::RealNotSupported));
        }
        if self.has_base(alloc, BaseFlaw::RefTable)? {
            return Ok(Some(SchemaFault::UnknownRefTable));
        }
        if self.has_base(alloc, BaseFlaw::RefType)? {
            return Ok(Some(SchemaFault::BadRefType));
        }
        if self.has_base(alloc, BaseFlaw::Enum)? {
            return Ok(Some(SchemaFault::BadEnum));
        }
        if self.has(alloc, TableFlaw::Index)? {
            return Ok(Some(SchemaFault::BadIndex));
        }
        if self.has_strong_weak(alloc)? {
            return Ok(Some(SchemaFault::StrongWeakMap));
        }
        Ok(None)
    }

    /// Whether the name of the schema, of a table or of a column is bad.
    fn has_bad_name(&self, alloc: Global) -> Result<bool, AllocError>
        ensures { IfOk result (λ b. b ≡ has_bad_name (schema_view self.now)) }
    {
        if is_bad_name(self.name) {
            return Ok(true);
        }
        if self.has(alloc, TableFlaw::Name)? {
            return Ok(true);
        }
        self.has(alloc, TableFlaw::Column(ColumnFlaw::Name))
    }

    fn has_bad_version(&self) -> bool
        ensures { result ≡ has_bad_version (schema_view self.now) }
    {
        match self.version {
            Some(version) => !is_version(version),
            None => false,
        }
    }

    /// Whether a range, a count or a table's maximum number of rows is bad.
    fn has_bad_range(&self, alloc: Global) -> Result<bool, AllocError>
        ensures { IfOk result (λ b. b ≡ has_bad_range (schema_view self.now)) }
    {
        if self.has_base(alloc, BaseFlaw::Range)? {
            return Ok(true);
        }
        if self.has(alloc, TableFlaw::Column(ColumnFlaw::Count))? {
            return Ok(true);
        }
        self.has(alloc, TableFlaw::MaxRows)
    }

    fn has_strong_weak(&self, alloc: Global) -> Result<bool, AllocError>
        ensures { IfOk result (λ b. b ≡ any_type is_strong_weak (schema_view self.now)) }
    {
        self.has(alloc, TableFlaw::Column(ColumnFlaw::StrongWeak))
    }

    /// Whether the keys or the values of some column have the flaw.
    fn has_base(&self, alloc: Global, flaw: BaseFlaw) -> Result<bool, AllocError>
        ensures { IfOk result (λ b. b
            ≡ any_base (base_has (schema_view self.now) flaw) (schema_view self.now)) }
    {
        self.has(alloc, TableFlaw::Column(ColumnFlaw::Base(flaw)))
    }
}
