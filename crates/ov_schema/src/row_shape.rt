ghost use Rattle.std.specs.Prelude.{◌≡◌, IfOk};
ghost use Rattle.ov_specs.specs.rows.RowNames.{is_own_column};
ghost use Rattle.ov_schema.specs.Shapes.{shape_in};

use crate::column::Column;
use ov_atoms::RowShape;
use ov_base::Text;
use std::alloc::{AllocError, Global};

/// Whether this is the name of a column that each row has by itself (RFC 7047, 3.2).
pub fn is_own(name: &str) -> bool
    ensures { result ≡ is_own_column name.now }
{
    name == "_uuid" || name == "_version"
}

/// The names and the defaults of these columns, except those that each row has by itself.
pub(crate) fn shape_of(alloc: Global, columns: &[(Text, Column)]) -> Result<RowShape, AllocError>
    ensures { IfOk result (λ shape. shape ≡ shape_in columns.now) }
{
    let mut names = Vec::new(alloc);
    let mut defaults = Vec::new(alloc);
    for (name, column) in columns {
        if !is_own(name.as_str()) {
            names.push(String::from_str(alloc, name.as_str())?)?;
            defaults.push(column.default_of(alloc)?)?;
        }
    }
    RowShape::new(alloc, names, defaults)
}
