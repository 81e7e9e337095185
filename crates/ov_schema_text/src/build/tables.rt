ghost use Rattle.std.specs.Prelude.{◌≡◌, ◌||◌, not, IfOk, map};
ghost use Rattle.ov_specs.specs.schema.Schema.{accepted_table};
ghost use Rattle.ov_schema.specs.Built.{indexes_in};
ghost use Rattle.ov_schema.specs.NamedViews.{named_view};
ghost use Rattle.ov_schema_text.specs.Built.{named_column_of};
ghost use Rattle.ov_schema_text.specs.ShapeViews.{named_column_view, texts_view, indexes_view};
ghost use Rattle.ov_schema_text.specs.ShapeViews.{table_view};

use crate::parse::table_shape::TableShape;
use crate::parse::type_shape::ColumnShape;
use ov_base::Text;
use ov_schema::{Column, Table};
use std::alloc::{AllocError, Global};

impl TableShape<'_> {
    /// The table of these members. If no table is declared a root table, each is one.
    pub(crate) fn build(&self, alloc: Global, some_root: bool) -> Result<Table, AllocError>
        ensures { IfOk result (λ t. t ≡ accepted_table some_root (table_view self.now)) }
    {
        let columns = columns_of(alloc, self.columns.as_slice())?;
        let is_root = is_root(self.is_root, some_root);
        let indexes = copy_indexes(alloc, self.indexes.as_slice())?;
        Table::new(alloc, columns, self.max_rows, is_root, indexes)
    }
}

/// Whether a table is a root table: it is declared one, or no table is.
fn is_root(is_called_root: bool, some_root: bool) -> bool
    ensures { result ≡ (is_called_root || not some_root) }
{
    is_called_root || !some_root
}

/// The declared columns with their names.
fn columns_of(
    alloc: Global,
    shapes: &[(&str, ColumnShape<'_>)],
) -> Result<Vec<(String, Column)>, AllocError>
    ensures { IfOk result (λ v. map named_view v.items
        ≡ map named_column_of (map named_column_view shapes.now)) }
{
    let mut columns = Vec::new(alloc);
    for (name, shape) in shapes {
        let column = shape.build(alloc)?;
        columns.push((String::from_str(alloc, *name)?, column))?;
    }
    Ok(columns)
}

fn copy_indexes(alloc: Global, indexes: &[Vec<&str>]) -> Result<Vec<Vec<Text>>, AllocError>
    ensures { IfOk result (λ v. indexes_in v.items ≡ indexes_view indexes.now) }
{
    let mut copies = Vec::new(alloc);
    for index in indexes {
        copies.push(copy_texts(alloc, index.as_slice())?)?;
    }
    Ok(copies)
}

fn copy_texts(alloc: Global, texts: &[&str]) -> Result<Vec<Text>, AllocError>
    ensures { IfOk result (λ v. v.items ≡ texts_view texts.now) }
{
    let mut copies = Vec::new(alloc);
    for text in texts {
        copies.push(Text::from_str(alloc, *text)?)?;
    }
    Ok(copies)
}
