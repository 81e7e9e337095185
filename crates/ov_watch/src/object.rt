ghost use Rattle.std.specs.Prelude.{◌≡◌, OnOk};
ghost use Rattle.serde_json.specs.Data.{object, no_members, put};
ghost use Rattle.ov_watch.specs.Views.{has_no_members};

use ov_base::Tree;
use serde_json::{Map, Value};
use std::alloc::{AllocError, Global};
use std::marker::Model;

/// The members of an object without reals.
#[derive(Drop)]
pub(crate) struct Object {
    members: Map<String, Value>,
}

impl Model for Object {
    ghost use Rattle.std.specs.Prelude.{◌≡◌, false};
    ghost use Rattle.serde_json.specs.Data.{Members};
    ghost use Rattle.serde_json.specs.View.{members_view};
    ghost use Rattle.ov_specs.specs.wire.Tree.{members_have_real};
    ghost use Rattle.ov_watch.specs.Views.{members_code};

    ghost Value = { Members };

    ghost coded = { members_code };

    ghost view = { λ o. members_view o.members.entries };

    ghost invariant = { λ o. members_have_real (members_view o.members.entries) ≡ false };
}

impl Object {
    /// Creates an object without members.
    pub(crate) fn new(alloc: Global) -> Object
        ensures { result ≡ no_members }
    {
        Object {
            members: Map::new(alloc),
        }
    }

    /// Whether it has no members.
    pub(crate) fn is_empty(&self) -> bool
        ensures { result ≡ has_no_members self.now }
    {
        self.members.is_empty()
    }

    /// Puts the tree under this name.
    pub(crate) fn put(&mut self, alloc: Global, name: &str, tree: Tree) -> Result<(), AllocError>
        ensures { OnOk result (self.new ≡ put name.now tree self.old) }
    {
        self.members
            .insert(String::from_str(alloc, name)?, tree.into_value())?;
        Ok(())
    }

    /// The object as a tree.
    pub(crate) fn into_tree(self) -> Tree
        ensures { result ≡ object self }
    {
        let Object { members } = self;
        Tree::new(Value::Object(members))
    }
}
