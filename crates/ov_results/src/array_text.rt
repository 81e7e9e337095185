ghost use Rattle.std.specs.Prelude.{◌≡◌, ◌↔◌, ◌++◌, ◌∷◌, [], not, OnOk, OnErr, IsTrue};
ghost use Rattle.serde_json.specs.Data.{array, no_items};
ghost use Rattle.serde_json.specs.Written.{compact_text, comma_if};
ghost use Rattle.ov_specs.specs.operations.Transaction.{and_item};
ghost use Rattle.ov_specs.specs.wire.Beginning.{BeginsAs};

use crate::item_trace::ItemTrace;
use crate::op_result::OpResult;
use std::alloc::{AllocError, Global};
use std::marker::Model;

/// JSON trees without reals, in order, as the text of their array without its brackets. A tree is not kept after it is
/// written, to save memory when there are many results.
#[derive(Drop)]
pub struct ArrayText {
    text: Vec<u8>,
    is_empty: bool,
    trace: ItemTrace,
}

impl Model for ArrayText {
    ghost use Rattle.std.specs.Prelude.{◌≡◌, false};
    ghost use Rattle.serde_json.specs.Data.{Items};
    ghost use Rattle.ov_results.specs.Texts.{comma_joined, are_none};
    ghost use Rattle.ov_specs.specs.codes.TreeCode.{items_code};

    ghost Value = { Items };

    ghost coded = { items_code };

    ghost view = { λ a. a.trace.items };

    ghost invariant = { λ a. (a.text.items ≡ comma_joined false a.trace.items)
        × (a.is_empty ≡ are_none a.trace.items) };
}

/// Appends one more item of an array: a comma, except before the first, and the item.
fn write_item(
    alloc: Global,
    text: &mut Vec<u8>,
    is_first: bool,
    item: &OpResult,
) -> Result<(), AllocError>
    ensures ok { OnOk result (text.new.items
        ≡ text.old.items ++ (comma_if (not is_first) ++ compact_text item.now)) }
    ensures grown { BeginsAs text.old.items text.new.items }
{
    if !is_first {
        text.push(b',')?;
    }
    item.write(alloc, text)
}

impl ArrayText {
    /// No trees.
    pub fn new(alloc: Global) -> ArrayText
        ensures { result ≡ no_items }
    {
        ArrayText {
            text: Vec::new(alloc),
            is_empty: true,
            trace: ItemTrace::new(),
        }
    }

    /// Whether there are no trees.
    pub fn is_empty(&self) -> bool
        ensures { IsTrue result ↔ (self.now ≡ no_items) }
    {
        self.is_empty
    }

    /// Reserves space for `more` bytes, so that the text need not grow while they are written. If that fails, nothing is
    /// changed either.
    pub fn reserve(&mut self, more: usize) -> Result<(), AllocError>
        ensures { self.new ≡ self.old }
    {
        self.text.reserve(more)
    }

    /// The text between the brackets of the array.
    pub fn as_slice(&self) -> &[u8]
        ensures { 91 ∷ (result.now ++ 93 ∷ []) ≡ compact_text (array self.now) }
    {
        self.text.as_slice()
    }

    /// Appends a tree. If an allocation fails, nothing is changed.
    pub fn push(&mut self, alloc: Global, item: OpResult) -> Result<(), AllocError>
        ensures ok { OnOk result (self.new ≡ and_item self.old item) }
        ensures err { OnErr result (self.new ≡ self.old) }
    {
        let before = self.text.len();
        if let Err(refused) = write_item(alloc, &mut self.text, self.is_empty, &item) {
            self.text.truncate(before);
            return Err(refused);
        }
        self.is_empty = false;
        self.trace = self.trace.and(&item);
        Ok(())
    }
}
