ghost use Rattle.std.specs.Prelude.{◌≡◌, option_map};
ghost use Rattle.serde_json.specs.View.{view};
ghost use Rattle.ov_specs.specs.operations.Conditions.{triple_read};
ghost use Rattle.ov_conds.specs.Views.{triple_view};

use serde_json::Value;

/// The parts of a condition or a mutation, borrowed from its tree and not yet checked (RFC 7047, 5.1, `<condition>` and
/// `<mutation>`).
#[derive(Clone, Copy)]
pub struct Triple<'a> {
    /// The name of a column.
    pub column: &'a str,
    /// The word for a function or a mutator.
    pub word: &'a str,
    /// What stands for a value.
    pub value: &'a Value,
}

impl<'a> Triple<'a> {
    /// The parts of an array of a text, a text and any value; `None` if the tree is built otherwise.
    pub fn read(tree: &'a Value) -> Option<Triple<'a>>
        ensures { option_map triple_view result ≡ triple_read (view tree.now) }
    {
        let items = tree.as_array()?.as_slice();
        if items.len() != 3 {
            return None;
        }
        Some(Triple {
            column: items[0].as_str()?,
            word: items[1].as_str()?,
            value: &items[2],
        })
    }
}
