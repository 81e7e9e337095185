//! Members of an operation.

ghost use Rattle.std.specs.Prelude.{◌≡◌, option_copied};
ghost use Rattle.serde_json.specs.View.{view};
ghost use Rattle.ov_specs.specs.operations.Draws.{is_insert};
ghost use Rattle.ov_specs.specs.operations.Members.{text_at};

use serde_json::Value;

/// The text at a member.
pub fn text_at<'a>(tree: &'a Value, name: &str) -> Option<&'a str>
    ensures { option_copied result ≡ text_at name.now (view tree.now) }
{
    tree.get(name).and_then(Value::as_str)
}

/// Whether an operation is an object whose `op` is `insert`, whatever else it has (RFC 7047, 5.2.1).
pub fn is_insert(operation: &Value) -> bool
    ensures { result ≡ is_insert (view operation.now) }
{
    match text_at(operation, "op") {
        Some(op) => op == "insert",
        None => false,
    }
}
