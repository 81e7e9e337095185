ghost use Rattle.std.specs.Prelude.{◌≡◌, ◌++◌, ◌∷◌, [], IfOk, OnOk, codes};
ghost use Rattle.serde_json.specs.Data.{array};
ghost use Rattle.serde_json.specs.Written.{compact_text};
ghost use Rattle.ov_specs.specs.operations.Insert.{insert_result};
ghost use Rattle.ov_specs.specs.rows.Database.{object_of};
ghost use Rattle.ov_specs.specs.wire.Beginning.{BeginsAs};

use crate::array_text::ArrayText;
use ov_base::{Bytes, Tree};
use std::alloc::{AllocError, Global};
use std::marker::Model;
use uuid::Uuid;

/// How a result is stored: rows as their text, since they can be many, and the identifier of a new row as it is.
#[derive(Drop)]
enum Stored {
    Tree(Tree),
    Rows(ArrayText),
    NewRow(Uuid),
}

/// The result of an operation (RFC 7047, 4.1.3 and 5.2), which contracts see as its JSON tree.
pub struct OpResult {
    stored: Stored,
}

impl Model for OpResult {
    ghost use Rattle.serde_json.specs.Data.{Data};
    ghost use Rattle.ov_specs.specs.codes.TreeCode.{tree_code};
    ghost use Rattle.ov_results.specs.Stored.{tree_in};

    ghost Value = { Data };

    ghost coded = { tree_code };

    ghost view = { λ r. tree_in r.stored };
}

impl Drop for OpResult {
    // An explicit drop, so that code that drops a result need not know how it is stored.
    fn drop(self) {
        let OpResult { stored } = self;
        drop(stored);
    }
}

impl From<Tree> for OpResult {
    ghost use Rattle.std.specs.Prelude.{◌≡◌};

    ghost from_gives = { λ tree r. r ≡ tree };

    fn from(tree: Tree) -> OpResult {
        OpResult {
            stored: Stored::Tree(tree),
        }
    }
}

/// Writes the object whose one member `rows` is this array.
fn write_rows(text: &mut Vec<u8>, rows: &ArrayText) -> Result<(), AllocError>
    ensures ok { OnOk result (text.new.items
        ≡ text.old.items ++ compact_text (object_of ((codes "rows", array rows.now) ∷ []))) }
    ensures grown { BeginsAs text.old.items text.new.items }
{
    text.extend_from_slice(b"{\"rows\":[")?;
    text.extend_from_slice(rows.as_slice())?;
    text.extend_from_slice(b"]}")?;
    Ok(())
}

/// Writes the object whose one member `uuid` is this identifier. Its text needs no escapes.
fn write_new_row(text: &mut Vec<u8>, id: Uuid) -> Result<(), AllocError>
    ensures ok { OnOk result (text.new.items ≡ text.old.items ++ compact_text (insert_result id)) }
    ensures grown { BeginsAs text.old.items text.new.items }
{
    let mut buffer = Uuid::encode_buffer();
    let id: &str = id.hyphenated().encode_lower(&mut buffer);
    text.extend_from_slice(b"{\"uuid\":[\"uuid\",\"")?;
    text.extend_from_slice(id.as_bytes())?;
    text.extend_from_slice(b"\"]}")?;
    Ok(())
}

/// Writes the tree.
fn write_tree(alloc: Global, text: &mut Vec<u8>, tree: &Tree) -> Result<(), AllocError>
    ensures ok { OnOk result (text.new.items ≡ text.old.items ++ compact_text tree.now) }
    ensures grown { BeginsAs text.old.items text.new.items }
{
    let bytes = tree.to_bytes(alloc)?;
    text.extend_from_slice(bytes.as_slice())
}

impl OpResult {
    /// The result of a select: these rows (RFC 7047, 5.2.2).
    pub fn of_rows(rows: ArrayText) -> OpResult
        ensures { result ≡ object_of ((codes "rows", array rows) ∷ []) }
    {
        OpResult {
            stored: Stored::Rows(rows),
        }
    }

    /// The result of an insert: the identifier of its row (RFC 7047, 5.2.1).
    pub fn of_new_row(id: Uuid) -> OpResult
        ensures { result ≡ insert_result id }
    {
        OpResult {
            stored: Stored::NewRow(id),
        }
    }

    /// Appends the text that is sent: compact, with the members of each object in ascending order of their names' bytes. If
    /// an allocation fails, a part of it may have been written.
    pub(crate) fn write(&self, alloc: Global, text: &mut Vec<u8>) -> Result<(), AllocError>
        ensures ok { OnOk result (text.new.items ≡ text.old.items ++ compact_text self.now) }
        ensures grown { BeginsAs text.old.items text.new.items }
    {
        match &self.stored {
            Stored::Tree(tree) => write_tree(alloc, text, tree),
            Stored::Rows(rows) => write_rows(text, rows),
            Stored::NewRow(id) => write_new_row(text, *id),
        }
    }

    /// The text that is sent: compact, with the members of each object in ascending order of their names' bytes.
    pub fn to_bytes(&self, alloc: Global) -> Result<Bytes, AllocError>
        ensures { IfOk result (λ b. b ≡ compact_text self.now) }
    {
        let mut text = Vec::new(alloc);
        self.write(alloc, &mut text)?;
        Ok(Bytes::from_vec(text))
    }
}
