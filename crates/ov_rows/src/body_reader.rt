ghost use Rattle.std.specs.Prelude.{◌≡◌, IfOk, length, Some};
ghost use Rattle.std.specs.FinMap.{keys};
ghost use Rattle.serde_json.specs.Written.{compact_text};
ghost use Rattle.ov_specs.specs.wire.Message.{tree_of};
ghost use Rattle.ov_rows.specs.Body.{body_of, AreOfKinds};
ghost use Rattle.ov_rows.specs.Named.{DoAscend};

use crate::columns::Columns;
use crate::guess::guess_values;
use json::{Reader, Scratch};
use ov_atoms::{AtomFault, Datum, RowShape};
use std::alloc::Global;

/// Reads the columns of rows from the bodies of their lines. Each read reuses the memory of the one before.
#[derive(Drop)]
pub struct BodyReader {
    scratch: Scratch,
}

impl BodyReader {
    /// A reader that has allocated nothing yet.
    pub fn new(alloc: Global) -> BodyReader {
        BodyReader {
            scratch: Scratch::new(alloc),
        }
    }

    /// The columns of exactly this shape, shared and not copied, whose text is this body. `Syntax` and `Clash` say that
    /// none were found, not that there are none: the values are guessed, and their text is compared with the body. Columns
    /// are found for a body that `Columns::text` wrote of such columns.
    pub fn columns(
        &mut self,
        alloc: Global,
        shape: &RowShape,
        body: &[u8],
    ) -> Result<Columns, AtomFault>
        requires { DoAscend shape.now.names }
        ensures names { IfOk result (λ columns. keys columns ≡ shape.now.names) }
        ensures text { IfOk result (λ columns. compact_text (body_of columns) ≡ body.now) }
        ensures reads_back { IfOk result (λ columns. AreOfKinds columns
            → tree_of body.now ≡ Some (body_of columns)) }
    {
        let values = self.values(alloc, shape.names().len(), body)?;
        let columns = Columns::listed(alloc, shape.share()?, values)?;
        let text = columns.text_in(Vec::with_capacity(alloc, body.len())?)?;
        if text.as_slice() == body {
            Ok(columns)
        } else {
            Err(AtomFault::Syntax)
        }
    }

    /// Reads `count` values, guessing each one's kind.
    fn values(&mut self, alloc: Global, count: usize, body: &[u8]) -> Result<Vec<Datum>, AtomFault>
        ensures { IfOk result (λ values. length values.items ≡ count) }
    {
        let Ok(text) = str::from_utf8(body) else {
            return Err(AtomFault::Syntax);
        };
        let mut reader = Reader::new(text, &mut self.scratch)?;
        guess_values(alloc, count, &mut reader)
    }
}
