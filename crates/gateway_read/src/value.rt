//! A JSON value over the text that it was read from, looked into.
ghost use Rattle.std.specs.Prelude.{◌≡◌, [], option_map, option_and_then, is_some};
ghost use Rattle.json.specs.Value as tree;
ghost use Rattle.serde_json.specs.Find as find;
ghost use Rattle.gateway_read.specs.Values.{view, items_view, in_range, items_in_range, members_in_range};

use crate::number::Number;
use json::Value;

/// Whether the value is null.
pub(crate) fn is_null(value: &Value) -> bool
    ensures { result ≡ is_some (find.as_null (view value.now)) }
{
    value.is_null()
}

/// The text that the value is.
pub(crate) fn as_str<'a>(value: &Value<'a>) -> Option<&'a str>
    ensures { option_map (λ s. s.now) result ≡ find.as_str (view value.now) }
{
    value.as_str()
}

/// The truth value that the value is.
pub(crate) fn as_bool(value: &Value) -> Option<bool>
    ensures { result ≡ find.as_bool (view value.now) }
{
    value.as_bool()
}

/// The values of the list that the value is.
pub(crate) fn as_array<'v, 'a>(value: &'v Value<'a>) -> Option<&'v [Value<'a>]>
    ensures { option_map (λ items. items_view items.now) result ≡ find.as_array (view value.now) }
{
    if let Value::Array(items) = value {
        Some(items.as_slice())
    } else {
        None
    }
}

/// A list of no values.
pub(crate) fn no_items<'v, 'a>() -> &'v [Value<'a>]
    ensures { result.now ≡ [] }
{
    &[]
}

/// The integer of 64 signed bits that the value is, written without point and exponent.
pub(crate) fn as_i64(value: &Value) -> Option<i64>
    ensures { result ≡ option_and_then find.as_i64 (find.as_number (view value.now)) }
{
    Number::read(value.as_number()?)?.signed()
}

/// The integer of 64 bits, none below zero, that the value is.
pub(crate) fn as_u64(value: &Value) -> Option<u64>
    ensures { result ≡ option_and_then find.as_u64 (find.as_number (view value.now)) }
{
    Number::read(value.as_number()?)?.place()
}

/// Whether each number in the value is in range: an integer of 64 bits, or a float that is finite.
/// Linear in the text of the value; takes no memory.
#[cycle(ranging)]
pub(crate) fn is_in_range(value: &Value) -> bool
    ensures { result ≡ in_range (tree.value_view value.now) }
{
    match value {
        Value::Number(text) => Number::read(text).is_some(),
        Value::Array(items) => are_in_range(items.as_slice()),
        Value::Object(members) => are_members_in_range(members.as_slice()),
        Value::Null | Value::Bool(_) | Value::String(_) => true,
    }
}

#[cycle(ranging)]
fn are_in_range(items: &[Value]) -> bool
    ensures { result ≡ items_in_range (tree.items_view items.now) }
{
    for item in items {
        if !is_in_range(item) {
            return false;
        }
    }
    true
}

#[cycle(ranging)]
fn are_members_in_range(members: &[(&str, Value)]) -> bool
    ensures { result ≡ members_in_range (tree.members_view members.now) }
{
    for (_, value) in members {
        if !is_in_range(value) {
            return false;
        }
    }
    true
}
