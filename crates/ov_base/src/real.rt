ghost use Rattle.std.specs.Prelude.{◌≡◌};
ghost use Rattle.serde_json.specs.View.{view, items_view, members_view};
ghost use Rattle.ov_specs.specs.wire.Tree.{has_real, items_have_real, members_have_real};

use serde_json::{Map, Value};

/// Whether a number in the value is not an integer from -2^63 to 2^63-1. A number that is written with a fraction or an
/// exponent is not one, and neither is `-0`.
///
/// RFC 7047, 3.1 has reals, which this server does not support.
#[cycle(has_real)]
pub fn has_real(value: &Value) -> bool
    ensures { result ≡ has_real (view value.now) }
{
    match value {
        Value::Null | Value::Bool(_) | Value::String(_) => false,
        Value::Number(number) => number.as_i64().is_none(),
        Value::Array(items) => items_have_real(items),
        Value::Object(members) => members_have_real(members),
    }
}

#[cycle(has_real)]
fn items_have_real(items: &Vec<Value>) -> bool
    ensures { result ≡ items_have_real (items_view items.now.items) }
{
    for item in items {
        if has_real(item) {
            return true;
        }
    }
    false
}

#[cycle(has_real)]
fn members_have_real(members: &Map<String, Value>) -> bool
    ensures { result ≡ members_have_real (members_view members.now.entries) }
{
    for (key, member) in members.iter() {
        let _ = key;
        if has_real(member) {
            return true;
        }
    }
    false
}
