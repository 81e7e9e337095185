ghost use Rattle.std.specs.Prelude.{◌≡◌, ◌++◌, IfOk, map};
ghost use Rattle.std.specs.Option.{option_copied};
ghost use Rattle.std.specs.FinMap.{get, entries, from_entries};
ghost use Rattle.ov_specs.specs.rows.RowNames.{row_names};
ghost use Rattle.ov_specs.specs.schema.Schema.{own_column, own_columns};
ghost use Rattle.ov_schema.specs.Built.{indexes_in};
ghost use Rattle.ov_schema.specs.NamedViews.{named_view};
ghost use Rattle.ov_schema.specs.Shapes.{row_defaults};

use crate::column::Column;
use crate::named::{ascending, find_named, find_near};
use crate::row_shape::shape_of;
use ov_atoms::RowShape;
use ov_base::Text;
use std::alloc::{AllocError, Global};
use std::marker::Model;

/// The number of columns that each table has besides the declared ones.
const OWN_COLUMNS: usize = 2;

/// A table of a schema (RFC 7047, 3.2, `<table-schema>`). It has the columns `_uuid` and `_version` besides the declared
/// ones.
pub struct Table {
    columns: Vec<(Text, Column)>,
    row_shape: RowShape,
    max_rows: Option<i64>,
    is_root: bool,
    indexes: Vec<Vec<Text>>,
}

impl Model for Table {
    ghost use Rattle.std.specs.Prelude.{◌≡◌, T};
    ghost use Rattle.std.specs.FinMap.{from_entries, is_sorted};
    ghost use Rattle.ov_specs.specs.schema.SchemaTypes as types;
    ghost use Rattle.ov_specs.specs.codes.SchemaCode.{table_code};
    ghost use Rattle.ov_schema.specs.Built.{indexes_in};
    ghost use Rattle.ov_schema.specs.Shapes.{shape_in};

    ghost Value = { types.Table };

    ghost coded = { table_code };

    ghost view = { λ t. record {
      columns = from_entries t.columns.items;
      max_rows = t.max_rows;
      is_root = t.is_root;
      indexes = indexes_in t.indexes.items;
    } };

    ghost invariant = { λ t. T (is_sorted types.name_cmp t.columns.items)
        × (t.row_shape ≡ shape_in t.columns.items) };
}

impl Drop for Table {
    // An explicit drop, so that crates above need not prove the drop of its parts again.
    fn drop(self) {
        let Table {
            columns,
            row_shape,
            indexes,
            max_rows: _,
            is_root: _,
        } = self;
        drop(columns);
        drop(row_shape);
        drop(indexes);
    }
}

impl Table {
    /// The table of these parts, with `_uuid` and `_version` before the declared columns. If two columns have one name, the
    /// first is kept.
    pub fn new(
        alloc: Global,
        columns: Vec<(String, Column)>,
        max_rows: Option<i64>,
        is_root: bool,
        indexes: Vec<Vec<Text>>,
    ) -> Result<Table, AllocError>
        ensures { IfOk result (λ t. t ≡ record {
          columns = from_entries (own_columns ++ map named_view columns.items);
          max_rows = max_rows;
          is_root = is_root;
          indexes = indexes_in indexes.items;
        }) }
    {
        let columns = ascending(alloc, with_own(alloc, columns)?)?;
        Ok(Table {
            row_shape: shape_of(alloc, columns.as_slice())?,
            columns,
            max_rows,
            is_root,
            indexes,
        })
    }

    /// The column of this name, which may be `_uuid` or `_version`. The search is linear.
    pub fn column(&self, name: &str) -> Option<&Column>
        ensures { option_copied result ≡ get self.now.columns name.now }
    {
        find_named(&self.columns, name)
    }

    /// The column of this name, as [`Table::column`] finds it. Looks first where the column at `place` of a row is: after
    /// the table's own columns, whose names come before those that begin with a lowercase letter.
    pub fn column_near(&self, place: usize, name: &str) -> Option<&Column>
        ensures { option_copied result ≡ get self.now.columns name.now }
    {
        find_near(&self.columns, place.wrapping_add(OWN_COLUMNS), name)
    }

    /// All columns with their names, including `_uuid` and `_version`, in ascending order of the names' bytes.
    pub fn columns(&self) -> &[(Text, Column)]
        ensures { result.now ≡ entries self.now.columns }
    {
        self.columns.as_slice()
    }

    /// What all rows of the table share: the names of their columns, without `_uuid` and `_version`, in ascending order of
    /// their bytes, and the default of each.
    pub fn row_shape(&self) -> &RowShape
        ensures names { result.now.names ≡ row_names self.now }
        ensures defaults { result.now.defaults ≡ row_defaults self.now }
    {
        &self.row_shape
    }

    /// The maximum number of rows after a commit, at least 1, or `None` if there is no limit.
    pub fn max_rows(&self) -> Option<i64>
        ensures { result ≡ self.now.max_rows }
    {
        self.max_rows
    }

    /// Whether rows stay even if nothing refers to them (RFC 7047, 3.2, `<table-schema>`, isRoot).
    pub fn is_root(&self) -> bool
        ensures { result ≡ self.now.is_root }
    {
        self.is_root
    }

    /// The lists of columns in which no two rows are equal after a commit, in the order of the schema.
    pub fn indexes(&self) -> &[Vec<Text>]
        ensures { indexes_in result.now ≡ self.now.indexes }
    {
        self.indexes.as_slice()
    }
}

/// The columns of every table, which no client may change, followed by these.
fn with_own(
    alloc: Global,
    columns: Vec<(String, Column)>,
) -> Result<Vec<(String, Column)>, AllocError>
    ensures { IfOk result (λ v. map named_view v.items
        ≡ own_columns ++ map named_view columns.items) }
{
    let mut declared = columns;
    let mut all = Vec::new(alloc);
    all.push(own_column(alloc, "_uuid")?)?;
    all.push(own_column(alloc, "_version")?)?;
    all.append(&mut declared)?;
    Ok(all)
}

fn own_column(alloc: Global, name: &str) -> Result<(String, Column), AllocError>
    ensures { IfOk result (λ c. named_view c ≡ (name.now, own_column)) }
{
    Ok((String::from_str(alloc, name)?, Column::own()))
}
