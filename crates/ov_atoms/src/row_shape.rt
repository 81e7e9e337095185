ghost use Rattle.std.specs.Prelude.{◌≡◌, map, string_bytes, IfOk};

use crate::datum::Datum;
use std::alloc::{AllocError, Global};
use std::marker::Model;
use std::sync::Arc;

/// What all rows of a table share: the names of their columns, ascending, and the default value of each. A row with
/// names of its own has no defaults: the list of them is empty.
#[derive(Drop)]
pub struct RowShape {
    parts: Arc<Parts>,
}

#[derive(Drop)]
struct Parts {
    names: Vec<String>,
    defaults: Vec<Datum>,
}

impl Model for RowShape {
    ghost use Rattle.std.specs.Prelude.{map, string_bytes};
    ghost use Rattle.std.specs.Arc.{arc_value};
    ghost use Rattle.ov_atoms.specs.Shape.{Shape, shape_code};

    ghost Value = { Shape };

    ghost coded = { shape_code };

    ghost view = { λ s. record {
      names = map string_bytes (arc_value s.parts).names.items;
      defaults = (arc_value s.parts).defaults.items;
    } };
}

impl RowShape {
    /// The shape of rows with these names, and with these defaults at the same places.
    pub fn new(
        alloc: Global,
        names: Vec<String>,
        defaults: Vec<Datum>,
    ) -> Result<RowShape, AllocError>
        ensures { IfOk result (λ shape. shape ≡ record {
          names = map string_bytes names.items;
          defaults = defaults.items;
        }) }
    {
        Ok(RowShape {
            parts: Arc::new(alloc, Parts { names, defaults })?,
        })
    }

    /// The same shape, not copied.
    pub fn share(&self) -> Result<RowShape, AllocError>
        ensures { IfOk result (λ shape. shape ≡ self.now) }
    {
        Ok(RowShape {
            parts: Arc::try_clone(&self.parts)?,
        })
    }

    /// The names of the columns.
    pub fn names(&self) -> &[String]
        ensures { map string_bytes result.now ≡ self.now.names }
    {
        self.parts.names.as_slice()
    }

    /// The default values, each at the place of its column.
    pub fn defaults(&self) -> &[Datum]
        ensures { result.now ≡ self.now.defaults }
    {
        self.parts.defaults.as_slice()
    }
}
