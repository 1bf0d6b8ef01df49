// How deep a JSON value nests.

ghost use Rattle.std.specs.Prelude.{◌≡◌, nat_le};
ghost use Rattle.serde_json.specs.Data.{depth, items_depth, members_depth};
ghost use Rattle.serde_json.specs.View.{items_view, members_view, view};

use serde_json::{Map, Value};

// Whether a value nests at most so deep.
#[cycle(depth)]
#[tactic(auto)]
pub(crate) fn fits(value: &Value, most: usize) -> bool
    ensures { result ≡ nat_le (depth (view value.now)) most }
{
    match value {
        Value::Array(items) => most > 0 && items_fit(items, most - 1),
        Value::Object(members) => most > 0 && members_fit(members, most - 1),
        _ => true,
    }
}

#[cycle(depth)]
fn items_fit(items: &Vec<Value>, most: usize) -> bool
    ensures { result ≡ nat_le (items_depth (items_view items.now.items)) most }
{
    for item in items {
        if !fits(item, most) {
            return false;
        }
    }
    true
}

#[cycle(depth)]
fn members_fit(members: &Map<String, Value>, most: usize) -> bool
    ensures { result ≡ nat_le (members_depth (members_view members.now.entries)) most }
{
    for (_, value) in members {
        if !fits(value, most) {
            return false;
        }
    }
    true
}
