//! Looking through all of a JSON value: whether a number in it is a float, and how deep it nests.
ghost use Rattle.std.specs.Prelude.{◌≡◌, nat_le};
ghost use Rattle.serde_json.specs.Data.{depth, items_depth, members_depth};
ghost use Rattle.serde_json.specs.View.{view, items_view, members_view};
ghost use Rattle.serde_json.specs.Written.{has_float, items_have_float, members_have_float};

use serde_json::{Map, Value};

/// Whether a number in the value is a float.
#[cycle(has_float)]
pub(crate) fn has_float(value: &Value) -> bool
    ensures { result ≡ has_float (view value.now) }
{
    match value {
        Value::Number(number) => number.is_f64(),
        Value::Array(items) => items_have_float(items),
        Value::Object(members) => members_have_float(members),
        _ => false,
    }
}

#[cycle(has_float)]
fn items_have_float(items: &Vec<Value>) -> bool
    ensures { result ≡ items_have_float (items_view items.now.items) }
{
    for item in items {
        if has_float(item) {
            return true;
        }
    }
    false
}

#[cycle(has_float)]
fn members_have_float(members: &Map<String, Value>) -> bool
    ensures { result ≡ members_have_float (members_view members.now.entries) }
{
    for (_key, member) in members.iter() {
        if has_float(member) {
            return true;
        }
    }
    false
}

/// Whether lists and objects nest at most so deep in the value, itself counted.
#[cycle(is_within)]
pub(crate) fn is_within(levels: usize, value: &Value) -> bool
    ensures { result ≡ nat_le (depth (view value.now)) levels }
{
    match value {
        Value::Array(items) => levels > 0 && items_within(levels - 1, items),
        Value::Object(members) => levels > 0 && members_within(levels - 1, members),
        _ => true,
    }
}

#[cycle(is_within)]
fn items_within(levels: usize, items: &Vec<Value>) -> bool
    ensures { result ≡ nat_le (items_depth (items_view items.now.items)) levels }
{
    for item in items {
        if !is_within(levels, item) {
            return false;
        }
    }
    true
}

#[cycle(is_within)]
fn members_within(levels: usize, members: &Map<String, Value>) -> bool
    ensures { result ≡ nat_le (members_depth (members_view members.now.entries)) levels }
{
    for (_key, member) in members.iter() {
        if !is_within(levels, member) {
            return false;
        }
    }
    true
}
