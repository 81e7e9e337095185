ghost use Rattle.std.specs.Prelude.{◌≡◌, IfOk, false};
ghost use Rattle.serde_json.specs.Data.{array};
ghost use Rattle.serde_json.specs.View.{items_view};
ghost use Rattle.ov_specs.specs.wire.Tree.{items_have_real};

use crate::tree::Tree;
use serde_json::Value;
use std::alloc::{AllocError, Global};
use std::marker::Model;

/// JSON trees without reals, in order.
pub struct Trees {
    items: Vec<Value>,
}

impl Model for Trees {
    ghost use Rattle.std.specs.Prelude.{◌≡◌, false};
    ghost use Rattle.serde_json.specs.Data.{Items};
    ghost use Rattle.serde_json.specs.View.{items_view};
    ghost use Rattle.ov_specs.specs.wire.Tree.{items_have_real};
    ghost use Rattle.ov_specs.specs.codes.TreeCode.{items_code};

    ghost Value = { Items };

    ghost coded = { items_code };

    ghost view = { λ t. items_view t.items.items };

    ghost invariant = { λ t. items_have_real (items_view t.items.items) ≡ false };
}

impl Drop for Trees {
    // An explicit drop, so that crates above need not prove the drop of a JSON value again.
    fn drop(self) {
        let Trees { items: held } = self;
        drop(held);
    }
}

impl Trees {
    /// Takes these trees without copying them. Check each with `has_real` first.
    pub fn new(items: Vec<Value>) -> Trees
        requires { items_have_real (items_view items.items) ≡ false }
        ensures { result ≡ items_view items.items }
    {
        Trees { items }
    }

    /// The trees as a slice.
    pub fn as_slice(&self) -> &[Value]
        ensures same { items_view result.now ≡ self.now }
        ensures plain { items_have_real self.now ≡ false }
    {
        self.items.as_slice()
    }

    /// A copy of trees that have no reals.
    pub fn from_slice(alloc: Global, trees: &[Value]) -> Result<Trees, AllocError>
        requires { items_have_real (items_view trees.now) ≡ false }
        ensures { IfOk result (λ t. t ≡ items_view trees.now) }
    {
        let mut items = Vec::new(alloc);
        for tree in trees {
            items.push(tree.clone()?)?;
        }
        Ok(Trees::new(items))
    }

    /// The array of these trees, copied.
    pub fn copy_as_tree(&self, alloc: Global) -> Result<Tree, AllocError>
        ensures { IfOk result (λ t. t ≡ array self.now) }
    {
        let mut items = Vec::new(alloc);
        for item in &self.items {
            items.push(item.clone()?)?;
        }
        Ok(Tree::new(Value::Array(items)))
    }

    /// The array of these trees, not copied.
    pub fn into_tree(self) -> Tree
        ensures { result ≡ array self }
    {
        let Trees { items } = self;
        Tree::new(Value::Array(items))
    }
}
