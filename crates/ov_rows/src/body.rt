ghost use Rattle.std.specs.Prelude.{◌≡◌, [], IfOk, Some};
ghost use Rattle.serde_json.specs.Written.{compact_text};
ghost use Rattle.ov_specs.specs.wire.Message.{tree_of};
ghost use Rattle.ov_atoms.specs.Tokens.{Puts};
ghost use Rattle.ov_rows.specs.Body.{body_of, AreOfKinds, column_tokens};

use crate::columns::Columns;
use json::Writer;
use ov_atoms::{Datum, put_datum};
use ov_base::Bytes;
use std::alloc::{AllocError, Global};

impl Columns {
    /// The body of the row's line: the compact text of the object of all columns, each with its written value, in ascending
    /// order of their names. It reads back as that object if each value is of some kinds, as in every table.
    pub fn text(&self, alloc: Global) -> Result<Bytes, AllocError>
        ensures text { IfOk result (λ text. text ≡ compact_text (body_of self.now)) }
        ensures reads_back { AreOfKinds self.now
            → IfOk result (λ text. tree_of text ≡ Some (body_of self.now)) }
    {
        self.text_in(Vec::new(alloc))
    }

    /// The same text in this buffer, which must be empty and grows only if it is too small.
    pub(crate) fn text_in(&self, buffer: Vec<u8>) -> Result<Bytes, AllocError>
        requires { buffer.items ≡ [] }
        ensures text { IfOk result (λ text. text ≡ compact_text (body_of self.now)) }
        ensures reads_back { AreOfKinds self.now
            → IfOk result (λ text. tree_of text ≡ Some (body_of self.now)) }
    {
        let mut out = Writer::new(buffer);
        out.begin_object()?;
        for (name, datum) in self.names().iter().zip(self.values()) {
            put_column(&mut out, name.as_str(), datum)?;
        }
        out.end_object()?;
        Ok(Bytes::from_vec(out.into_inner()))
    }
}

/// Appends a column: its name and its written value.
fn put_column(out: &mut Writer, name: &str, datum: &Datum) -> Result<(), AllocError>
    ensures { Puts result out.old out.new (column_tokens (name.now, datum.now)) }
{
    out.key(name)?;
    put_datum(out, datum)
}
