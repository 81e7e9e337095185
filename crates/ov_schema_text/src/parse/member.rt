ghost use Rattle.std.specs.Prelude.{◌≡◌, option_map, option_and_then};
ghost use Rattle.serde_json.specs.Find.{get, as_str, as_bool, as_object};
ghost use Rattle.serde_json.specs.View.{view, members_view};
ghost use Rattle.ov_specs.specs.schema.SchemaShape.{optional, whole_number};

use serde_json::{Map, Value};

/// The text at a name.
pub(crate) fn text_at<'a>(tree: &'a Value, name: &str) -> Option<&'a str>
    ensures { option_map (λ text. text.now) result
        ≡ option_and_then as_str (get name.now (view tree.now)) }
{
    tree.get(name)?.as_str()
}

/// The members of the object at a name.
pub(crate) fn members_at<'a>(tree: &'a Value, name: &str) -> Option<&'a Map<String, Value>>
    ensures { option_map (λ members. members_view members.now.entries) result
        ≡ option_and_then as_object (get name.now (view tree.now)) }
{
    tree.get(name)?.as_object()
}

/// The text at a name, if there is one. The outer `None`: something else is there.
pub(crate) fn optional_text<'a>(tree: &'a Value, name: &str) -> Option<Option<&'a str>>
    ensures { option_map (λ o. option_map (λ text. text.now) o) result
        ≡ optional as_str (get name.now (view tree.now)) }
{
    match tree.get(name) {
        Some(member) => Some(Some(member.as_str()?)),
        None => Some(None),
    }
}

/// The 64-bit number at a name, if there is one. The outer `None`: something else is there.
pub(crate) fn optional_number(tree: &Value, name: &str) -> Option<Option<i64>>
    ensures { result ≡ optional whole_number (get name.now (view tree.now)) }
{
    match tree.get(name) {
        Some(member) => Some(Some(member.as_i64()?)),
        None => Some(None),
    }
}

/// The truth value at a name, if there is one. The outer `None`: something else is there.
pub(crate) fn optional_bool(tree: &Value, name: &str) -> Option<Option<bool>>
    ensures { result ≡ optional as_bool (get name.now (view tree.now)) }
{
    match tree.get(name) {
        Some(member) => Some(Some(member.as_bool()?)),
        None => Some(None),
    }
}
