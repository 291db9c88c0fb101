//! The value that a body is.
ghost use Rattle.std.specs.Prelude.{◌≡◌, ◌≢◌, ◌<◌, length, if◌then◌else◌, Ok, Err, Some, None, IfOk, IfErr};
ghost use Rattle.std.specs.Str.{IsUtf8};
ghost use Rattle.serde_json.specs.Read.{read as read_text};
ghost use Rattle.json.specs.Value.{value_view};
ghost use Rattle.json.specs.declared.error.Error.TheVariants.{Invalid, OutOfMemory};
ghost use Rattle.kv_model.specs.Requests as requests;
ghost use Rattle.gateway_read.specs.Bodies.{tree_of, value_read, IsChecked};
ghost use Rattle.gateway_read.specs.Reading.{Gives, Tells};
ghost use Rattle.gateway_read.specs.Objects.{seen};
ghost use Rattle.gateway_read.specs.Values.{view};
ghost use Rattle.gateway_read.specs.declared.bad.Bad.TheVariants.{NotJson, TooLong};

use crate::bad::Bad;
use crate::object::Object;
use crate::value::is_in_range;
use json::{Error, Reader, Scratch, Value};
use std::alloc::Global;
use std::str;

/// The longest body, in bytes.
const LONGEST_BODY: usize = 1_572_864;

/// How deep arrays and objects may nest.
const DEEPEST: usize = 127;

/// The value of a body, over its text and what the scratch has of it. No body at all is an empty
/// object. `TooLong` and then `NotJson` for one that is no JSON text; a body that is too long takes
/// no memory. Linear in the body.
pub(crate) fn value_of<'a>(
    alloc: Global,
    scratch: &'a mut Scratch,
    body: &'a [u8],
) -> Result<Value<'a>, Bad>
    ensures gives { Gives view result (value_read body.now) }
    ensures too_long { requests.longest_body < length body.now → result ≡ Err TooLong }
{
    if body.len() > LONGEST_BODY {
        return Err(Bad::TooLong);
    }
    let body = if body.is_empty() { b"{}" } else { body };
    value_in(alloc, scratch, body)
}

/// The value of a JSON text (RFC 8259), which is UTF-8. Bytes that are not take no memory.
fn value_in<'a>(alloc: Global, scratch: &'a mut Scratch, text: &'a [u8]) -> Result<Value<'a>, Bad>
    ensures gives { Gives view result
        (requests.some_or requests.not_json (requests.json_of text.now)) }
    ensures not_text { (IsUtf8 text.now → ⊥) → result ≡ Err NotJson }
{
    match str::from_utf8(text) {
        Ok(text) => with_numbers(whole(alloc, scratch, text)),
        Err(_) => Err(Bad::NotJson),
    }
}

/// What a reading came to: the value where each of its numbers is in range, and `Memory` where the
/// reading found none.
fn with_numbers(made: Result<Value, Error>) -> Result<Value, Bad>
    ensures { IsChecked made.entry result }
{
    match made {
        Ok(value) => if is_in_range(&value) {
            Ok(value)
        } else {
            Err(Bad::NotJson)
        },
        Err(Error::OutOfMemory) => Err(Bad::Memory),
        Err(_) => Err(Bad::NotJson),
    }
}

/// The value of a text, with nothing left over.
fn whole<'a>(alloc: Global, scratch: &'a mut Scratch, text: &'a str) -> Result<Value<'a>, Error>
    ensures ok { IfOk result (λ value. tree_of text.now ≡ Some (value_view value)) }
    ensures err { IfErr result (λ e. e ≢ OutOfMemory → tree_of text.now ≡ None) }
{
    let mut reader = Reader::new(text, scratch)?;
    let value = Value::read(alloc, &mut reader, DEEPEST)?;
    let more = reader.next().is_some();
    alone(value, more)
}

/// The value, unless more than it stands in the text. Takes no memory.
fn alone<'a>(value: Value<'a>, more: bool) -> Result<Value<'a>, Error>
    ensures { result ≡ (if more then Err Invalid else Ok value.entry) }
{
    if more { Err(Error::Invalid) } else { Ok(value) }
}

/// The object that a value is, or `NotJson`. Takes no memory.
pub(crate) fn object_of<'v, 'a>(value: &'v Value<'a>) -> Result<Object<'v, 'a>, Bad>
    ensures { Tells seen result (requests.some_or requests.not_json
        (requests.members_of (view value.now))) }
{
    Object::of(value).ok_or(Bad::NotJson)
}
