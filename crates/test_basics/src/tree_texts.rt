ghost use Rattle.std.specs.Prelude.{◌≡◌, IfOk, false};
ghost use Rattle.serde_json.specs.View.{view};
ghost use Rattle.ov_specs.specs.wire.Tree.{has_real};

use ov_base::{Tree, Trees, has_real};
use ov_results::ArrayText;
use serde_json::Value;
use std::alloc::Global;
use std::test::Fail;

/// The value of a text without reals.
pub fn value(alloc: Global, text: &str) -> Result<Value, Fail>
    ensures { IfOk result (λ v. has_real (view v) ≡ false) }
{
    let value = Value::from_str(alloc, text)?;
    if has_real(&value) {
        return Err(Fail::new("a real"));
    }
    Ok(value)
}

/// The tree of a text without reals.
pub fn tree(alloc: Global, text: &str) -> Result<Tree, Fail> {
    Ok(Tree::new(value(alloc, text)?))
}

/// The items of a value that is an array without reals.
pub fn trees_of(value: Value) -> Option<Trees>
    requires { has_real (view value) ≡ false }
{
    let Value::Array(items) = value else {
        return None;
    };
    Some(Trees::new(items))
}

/// The items of a text that is an array without reals.
pub fn trees(alloc: Global, text: &str) -> Result<Trees, Fail> {
    match trees_of(value(alloc, text)?) {
        Some(trees) => Ok(trees),
        None => Err(Fail::new("no array")),
    }
}

/// The compact text of a tree.
pub fn compact(alloc: Global, tree: &Tree) -> Result<String, Fail> {
    let bytes = tree.to_bytes(alloc)?;
    Ok(String::from_utf8(bytes.into_vec())?)
}

/// The compact text of an array.
pub fn array_text(alloc: Global, items: &ArrayText) -> Result<String, Fail> {
    let items = String::from_utf8(Vec::from_slice(alloc, items.as_slice())?)?;
    Ok(format!(in alloc; "[{items}]")?)
}
