ghost use Rattle.std.specs.Prelude.{◌≡◌, IfOk};
ghost use Rattle.std.specs.List.{list_any};
ghost use Rattle.ov_specs.specs.schema.Schema.{any_table, has_table};
ghost use Rattle.ov_schema_text.specs.ShapeViews.{base_view, column_view, table_view, schema_view};
ghost use Rattle.ov_schema_text.specs.Flaws.{base_has, types_have, column_has, table_has};
ghost use Rattle.ov_schema_text.specs.Flaws.{shape_has};

use crate::judge::base_rules::is_below;
use crate::judge::names::is_bad_name;
use crate::parse::base_shape::BaseShape;
use crate::parse::schema_shape::SchemaShape;
use crate::parse::table_shape::TableShape;
use crate::parse::type_shape::ColumnShape;
use std::alloc::{AllocError, Global};

/// What may be wrong with a base type (RFC 7047, 3.2, `<base-type>`).
#[derive(Clone, Copy)]
pub(crate) enum BaseFlaw {
    Range,
    Real,
    RefTable,
    RefType,
    Enum,
}

/// What may be wrong with a column (RFC 7047, 3.2, `<column-schema>`).
#[derive(Clone, Copy)]
pub(crate) enum ColumnFlaw {
    Name,
    Count,
    StrongWeak,
    /// A flaw of the keys or the values.
    Base(BaseFlaw),
}

/// What may be wrong with a table (RFC 7047, 3.2, `<table-schema>`).
#[derive(Clone, Copy)]
pub(crate) enum TableFlaw {
    Name,
    NoColumns,
    MaxRows,
    Index,
    /// A flaw of some column.
    Column(ColumnFlaw),
}

impl BaseShape<'_> {
    fn has(
        &self,
        alloc: Global,
        schema: &SchemaShape<'_>,
        flaw: BaseFlaw,
    ) -> Result<bool, AllocError>
        ensures { IfOk result (λ b. b
            ≡ base_has (schema_view schema.now) flaw (base_view self.now)) }
    {
        match flaw {
            BaseFlaw::Range => Ok(self.is_bad_range()),
            BaseFlaw::Real => Ok(self.of.is_real()),
            BaseFlaw::RefTable => Ok(self.has_unknown_table(schema)),
            BaseFlaw::RefType => Ok(self.is_bad_reference()),
            BaseFlaw::Enum => self.is_bad_enum(alloc),
        }
    }
}

impl ColumnShape<'_> {
    fn has(
        &self,
        alloc: Global,
        schema: &SchemaShape<'_>,
        name: &str,
        flaw: ColumnFlaw,
    ) -> Result<bool, AllocError>
        ensures { IfOk result (λ b. b
            ≡ column_has (schema_view schema.now) flaw name.now (column_view self.now)) }
    {
        match flaw {
            ColumnFlaw::Name => Ok(is_bad_name(name)),
            ColumnFlaw::Count => Ok(self.type_of.is_bad_count()),
            ColumnFlaw::StrongWeak => Ok(self.type_of.is_strong_weak()),
            ColumnFlaw::Base(flaw) => self.has_in_types(alloc, schema, flaw),
        }
    }

    /// Whether the type of the keys or that of the values has the flaw.
    fn has_in_types(
        &self,
        alloc: Global,
        schema: &SchemaShape<'_>,
        flaw: BaseFlaw,
    ) -> Result<bool, AllocError>
        ensures { IfOk result (λ b. b
            ≡ types_have (schema_view schema.now) flaw (column_view self.now).type_of) }
    {
        if self.type_of.key.has(alloc, schema, flaw)? {
            return Ok(true);
        }
        match &self.type_of.value {
            Some(value) => value.has(alloc, schema, flaw),
            None => Ok(false),
        }
    }
}

impl TableShape<'_> {
    fn has(
        &self,
        alloc: Global,
        schema: &SchemaShape<'_>,
        name: &str,
        flaw: TableFlaw,
    ) -> Result<bool, AllocError>
        ensures { IfOk result (λ b. b
            ≡ table_has (schema_view schema.now) flaw name.now (table_view self.now)) }
    {
        match flaw {
            TableFlaw::Name => Ok(is_bad_name(name)),
            TableFlaw::NoColumns => Ok(self.columns.is_empty()),
            TableFlaw::MaxRows => Ok(is_below(1, self.max_rows)),
            TableFlaw::Index => Ok(self.has_bad_index()),
            TableFlaw::Column(flaw) => self.has_in_columns(alloc, schema, flaw),
        }
    }

    /// Whether some column has the flaw.
    fn has_in_columns(
        &self,
        alloc: Global,
        schema: &SchemaShape<'_>,
        flaw: ColumnFlaw,
    ) -> Result<bool, AllocError>
        ensures { IfOk result (λ b. b
            ≡ list_any (λ c. column_has (schema_view schema.now) flaw c.0 c.1)
            (table_view self.now).columns) }
    {
        for (name, column) in &self.columns {
            if column.has(alloc, schema, *name, flaw)? {
                return Ok(true);
            }
        }
        Ok(false)
    }
}

impl SchemaShape<'_> {
    /// Whether some table has the flaw.
    pub(crate) fn has(&self, alloc: Global, flaw: TableFlaw) -> Result<bool, AllocError>
        ensures { IfOk result (λ b. b ≡ shape_has flaw (schema_view self.now)) }
    {
        for (name, table) in &self.tables {
            if table.has(alloc, self, *name, flaw)? {
                return Ok(true);
            }
        }
        Ok(false)
    }

    /// Whether there is a table of this name.
    pub(crate) fn has_table(&self, name: &str) -> bool
        ensures { result ≡ has_table (schema_view self.now) name.now }
    {
        for (known, _) in &self.tables {
            if *known == name {
                return true;
            }
        }
        false
    }

    /// Whether a table is declared a root table.
    pub fn has_root(&self) -> bool
        ensures { result ≡ any_table (λ name t. t.is_root) (schema_view self.now) }
    {
        for (_, table) in &self.tables {
            if table.is_root {
                return true;
            }
        }
        false
    }
}
