// Whether a JSON value holds a number that is no whole number of 64 bits.

ghost use Rattle.std.specs.Prelude.{◌≡◌};
ghost use Rattle.serde_json.specs.View.{items_view, members_view, view};
ghost use Rattle.serde_json.specs.Written.{has_float, items_have_float, members_have_float};

use serde_json::{Map, Value};

/// Whether a JSON value holds, at any depth, a number that is not a whole number from -2^63 to 2^64-1, written
/// with digits alone (RFC 8259, section 6). An entry of a bundle with such a number is passed over.
#[cycle(float)]
pub fn has_float(value: &Value) -> bool
    ensures { result ≡ has_float (view value.now) }
{
    match value {
        Value::Number(number) => number.is_f64(),
        Value::Array(items) => items_have_float(items),
        Value::Object(members) => members_have_float(members),
        _ => false,
    }
}

#[cycle(float)]
fn items_have_float(items: &Vec<Value>) -> bool
    ensures { result ≡ items_have_float (items_view items.now.items) }
{
    for item in items {
        if has_float(item) {
            return true;
        }
    }
    false
}

#[cycle(float)]
fn members_have_float(members: &Map<String, Value>) -> bool
    ensures { result ≡ members_have_float (members_view members.now.entries) }
{
    for (_, value) in members {
        if has_float(value) {
            return true;
        }
    }
    false
}
