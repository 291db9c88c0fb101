//! The kinds of value that a field may have.
ghost use Rattle.std.specs.Prelude.{◌≡◌, map, option_and_then};
ghost use Rattle.gateway_read.specs.Values.{view};
ghost use Rattle.kv_model.specs.Requests as requests;

use crate::value;
use json::Value;

/// What stands beside this name in a table.
pub(crate) fn named<T: Copy>(table: &[(&str, T)], name: &[u8]) -> Option<T>
    ensures { result ≡ requests.named_value (map (λ e. (e.0.now, e.1)) table.now) name.now }
{
    for (known, meant) in table {
        if known.as_bytes() == name {
            return Some(*meant);
        }
    }
    None
}

/// An enum's value by its name, or by its number, its place in the table.
pub(crate) fn enum_of<T: Copy>(table: &[(&str, T)], value: &Value) -> Option<T>
    ensures { result ≡ requests.enum_of (map (λ e. (e.0.now, e.1)) table.now) (view value.now) }
{
    match value::as_str(value) {
        Some(name) => named(table, name.as_bytes()),
        None => {
            let number = usize::try_from(value::as_u64(value)?).ok()?;
            table.get(number).map(|(_, meant)| *meant)
        }
    }
}

/// A decimal number of 64 signed bits: at least one digit, after a `-` or nothing.
fn signed_64(text: &str) -> Option<i64>
    ensures { result
        ≡ option_and_then requests.if_signed_64 (requests.signed_value text.now) }
{
    if text.starts_with('+') {
        None
    } else {
        text.parse().ok()
    }
}

/// A 64-bit integer: a JSON number without point and exponent, or its digits in a string.
pub(crate) fn integer_of(value: &Value) -> Option<i64>
    ensures { result ≡ requests.integer_of (view value.now) }
{
    match value::as_str(value) {
        Some(text) => signed_64(text),
        None => value::as_i64(value),
    }
}
