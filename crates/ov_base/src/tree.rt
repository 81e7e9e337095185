ghost use Rattle.std.specs.Prelude.{◌≡◌, ◌≤◌, IfOk, Some, false};
ghost use Rattle.serde_json.specs.Data.{depth};
ghost use Rattle.serde_json.specs.Read.{max_depth};
ghost use Rattle.serde_json.specs.Written.{compact_text};
ghost use Rattle.serde_json.specs.View.{view};
ghost use Rattle.ov_specs.specs.wire.Message.{tree_of};
ghost use Rattle.ov_specs.specs.wire.Tree.{has_real};

use crate::bytes::Bytes;
use serde_json::Value;
use std::alloc::{AllocError, Global};
use std::marker::Model;

/// A JSON tree without reals.
pub struct Tree {
    value: Value,
}

impl Model for Tree {
    ghost use Rattle.std.specs.Prelude.{◌≡◌, false};
    ghost use Rattle.serde_json.specs.Data.{Data};
    ghost use Rattle.serde_json.specs.View.{view as data_of};
    ghost use Rattle.ov_specs.specs.wire.Tree.{has_real};
    ghost use Rattle.ov_specs.specs.codes.TreeCode.{tree_code};

    ghost Value = { Data };

    ghost coded = { tree_code };

    ghost view = { λ t. data_of t.value };

    ghost invariant = { λ t. has_real (data_of t.value) ≡ false };
}

impl Drop for Tree {
    // An explicit drop, so that crates above need not prove the drop of a JSON value again.
    fn drop(self) {
        let Tree { value: held } = self;
        drop(held);
    }
}

impl Tree {
    /// Takes this tree without copying it. Check it with `has_real` first.
    pub fn new(value: Value) -> Tree
        requires { has_real (view value) ≡ false }
        ensures { result ≡ view value }
    {
        Tree { value }
    }

    /// The text that is sent: compact, with the members of each object in ascending order of their names' bytes. If the tree
    /// nests at most 127 deep, the text reads back as the tree.
    pub fn to_bytes(&self, alloc: Global) -> Result<Bytes, AllocError>
        ensures text { IfOk result (λ b. b ≡ compact_text self.now) }
        ensures reads_back { depth self.now ≤ max_depth
            → IfOk result (λ b. tree_of b ≡ Some self.now) }
    {
        Ok(Bytes::from_vec(self.value.to_vec(alloc)?))
    }

    /// A copy of the whole tree.
    pub fn copy(&self) -> Result<Tree, AllocError>
        ensures { IfOk result (λ t. t ≡ self.now) }
    {
        Ok(Tree::new(self.value.clone()?))
    }

    /// The tree, borrowed.
    pub fn as_value(&self) -> &Value
        ensures same { view result.now ≡ self.now }
        ensures plain { has_real self.now ≡ false }
    {
        &self.value
    }

    /// The tree, not copied.
    pub fn into_value(self) -> Value
        ensures same { view result ≡ self }
        ensures plain { has_real (view result) ≡ false }
    {
        let Tree { value } = self;
        value
    }
}
