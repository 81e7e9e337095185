ghost use Rattle.std.specs.Prelude.{◌≡◌, option_map};
ghost use Rattle.serde_json.specs.View.{view};
ghost use Rattle.ov_specs.specs.values.Reading.{as_two, tagged};

use serde_json::Value;

/// The items of an array of two.
pub(crate) fn as_two(tree: &Value) -> Option<(&Value, &Value)>
    ensures { option_map (λ p. (view p.0.now, view p.1.now)) result ≡ as_two (view tree.now) }
{
    let items = tree.as_array()?.as_slice();
    if items.len() != 2 {
        return None;
    }
    Some((&items[0], &items[1]))
}

/// The item after this word in an array of two, as in `["set",[..]]`.
pub(crate) fn tagged<'a>(word: &str, tree: &'a Value) -> Option<&'a Value>
    ensures { option_map (λ v. view v.now) result ≡ tagged word.now (view tree.now) }
{
    let (first, second) = as_two(tree)?;
    if first.as_str()? == word {
        Some(second)
    } else {
        None
    }
}
