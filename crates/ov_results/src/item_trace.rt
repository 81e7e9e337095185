ghost use Rattle.std.specs.Prelude.{◌≡◌};
ghost use Rattle.std.specs.Borrow.{ftrue};
ghost use Rattle.serde_json.specs.Data.{Items, no_items};
ghost use Rattle.ov_specs.specs.codes.TreeCode.{items_code};
ghost use Rattle.ov_specs.specs.operations.Transaction.{and_item};

use crate::op_result::OpResult;
use std::marker::{Model, PhantomData};

/// Trees that only contracts see, in order. At run time it is empty and its calls do nothing.
#[derive(Drop)]
pub(crate) struct ItemTrace {
    marker: PhantomData<u8>,
    pub ghost items: { Items } by { items_code },
}

impl Model for ItemTrace {
    ghost also_owns = { λ _. ftrue };
}

unsafe impl Send for ItemTrace {}

impl ItemTrace {
    /// No trees yet.
    pub(crate) fn new() -> ItemTrace
        ensures { result.items ≡ no_items }
    {
        ItemTrace {
            marker: PhantomData,
        }
    }

    /// These trees and one more after them.
    pub(crate) fn and(&self, _item: &OpResult) -> ItemTrace
        ensures { result.items ≡ and_item self.now.items _item.now }
    {
        ItemTrace {
            marker: PhantomData,
        }
    }
}
