//! The fields of an object, each by its kind. An absent field is at its kind's default, and so is
//! one that is null.
ghost use Rattle.std.specs.Prelude.{◌≡◌, [], false, length, take, drop, map, option_map, OnErr, OnOk};
ghost use Rattle.gateway_read.specs.Values.{view, items_view};
ghost use Rattle.kv_model.specs.Requests as requests;
ghost use Rattle.gateway_read.specs.Decoding as decoding;
ghost use Rattle.gateway_read.specs.Decoding.{is_text};
ghost use Rattle.gateway_read.specs.Fields.{snake_of};
ghost use Rattle.gateway_read.specs.Objects.{seen};
ghost use Rattle.gateway_read.specs.Reading.{Gives, Tells};
ghost use Rattle.gateway_read.specs.Transactions.{object_under};

use crate::bad::Bad;
use crate::field::Field;
use crate::object::Object;
use crate::{kinds, symbols, value};
use bytes::Bytes;
use json::Value;
use std::alloc::{AllocError, Global};

/// The value under a name of the field, the snake one first, unless it is null.
pub(crate) fn given<'v, 'a>(object: &Object<'v, 'a>, field: Field) -> Option<&'v Value<'a>>
    ensures { option_map (λ v. view v.now) result
        ≡ requests.given (snake_of field) (seen object.now) }
{
    let value = match object.get(field.snake()) {
        Some(value) => value,
        None => object.get(field.camel())?,
    };
    if value::is_null(value) {
        None
    } else {
        Some(value)
    }
}

/// Bytes in base64. The default is no bytes. Memory is taken only where the value is a text.
pub(crate) fn bytes_field(
    alloc: Global,
    object: &Object<'_, '_>,
    field: Field,
) -> Result<Bytes, Bad>
    ensures gives { Gives (λ bytes. bytes) result
        (requests.bytes_field (snake_of field) (seen object.now)) }
    ensures free { is_text (requests.given (snake_of field) (seen object.now)) ≡ false
        → Tells (λ bytes. bytes) result
        (requests.bytes_field (snake_of field) (seen object.now)) }
{
    let mut bytes = Vec::new(alloc);
    append_bytes(alloc, given(object, field), field, &mut bytes)?;
    Ok(Bytes::from_vec(bytes)?)
}

/// Appends the bytes in base64 that a field has to others. The default is no bytes. Memory is taken
/// only where the value is a text. The errors are a value that is no text, a text that is no base64,
/// and want of memory: nothing is appended then.
pub(crate) fn append_bytes(
    alloc: Global,
    given: Option<&Value>,
    field: Field,
    into: &mut Vec<u8>,
) -> Result<(), Bad>
    ensures gives { Gives (λ _. drop (length into.old.items) into.new.items) result
        (requests.or_default [] (requests.bytes_from (snake_of field))
        (option_map (λ v. view v.now) given.entry)) }
    ensures front { OnOk result (take (length into.old.items) into.new.items ≡ into.old.items) }
    ensures err { OnErr result (into.new.items ≡ into.old.items) }
    ensures free { is_text (option_map (λ v. view v.now) given.entry) ≡ false
        → Tells (λ _. drop (length into.old.items) into.new.items) result
        (requests.or_default [] (requests.bytes_from (snake_of field))
        (option_map (λ v. view v.now) given.entry)) }
{
    let Some(value) = given else {
        return Ok(());
    };
    let Some(text) = value::as_str(value) else {
        return Err(Bad::BadField(field));
    };
    told_as(field, symbols::append_decoded(alloc, text, into))
}

/// What a field's text was decoded to: a text that is no base64 is told as that, and want of memory
/// only where decoding wanted it. Takes no memory.
fn told_as(field: Field, made: Result<bool, AllocError>) -> Result<(), Bad>
    ensures { result ≡ decoding.told_as field made }
{
    match made {
        Ok(true) => Ok(()),
        Ok(false) => Err(Bad::BadBase64(field)),
        Err(_) => Err(Bad::Memory),
    }
}

/// A 64-bit integer. The default is 0. Takes no memory.
pub(crate) fn integer_field(object: &Object<'_, '_>, field: Field) -> Result<i64, Bad>
    ensures { Tells (λ number. number) result
        (requests.integer_field (snake_of field) (seen object.now)) }
{
    match given(object, field) {
        None => Ok(0),
        Some(value) => kinds::integer_of(value).ok_or(Bad::BadField(field)),
    }
}

/// A truth value. The default is false. Takes no memory.
pub(crate) fn truth_field(object: &Object<'_, '_>, field: Field) -> Result<bool, Bad>
    ensures { Tells (λ truth. truth) result
        (requests.truth_field (snake_of field) (seen object.now)) }
{
    match given(object, field) {
        None => Ok(false),
        Some(value) => value::as_bool(value).ok_or(Bad::BadField(field)),
    }
}

/// An enum's value, by its name or by its place in the table. Takes no memory.
pub(crate) fn enum_field<T: Copy>(
    object: &Object<'_, '_>,
    field: Field,
    default: T,
    table: &[(&str, T)],
) -> Result<T, Bad>
    ensures { Tells (λ meant. meant) result
        (requests.field default (requests.enum_of (map (λ e. (e.0.now, e.1)) table.now))
        (snake_of field) (seen object.now)) }
{
    match given(object, field) {
        None => Ok(default),
        Some(value) => kinds::enum_of(table, value).ok_or(Bad::BadField(field)),
    }
}

/// A list. The default is an empty one. Takes no memory.
pub(crate) fn list_field<'v, 'a>(
    object: &Object<'v, 'a>,
    field: Field,
) -> Result<&'v [Value<'a>], Bad>
    ensures { Tells (λ values. items_view values.now) result
        (requests.list_field (snake_of field) (seen object.now)) }
{
    let Some(value) = given(object, field) else {
        let none: &'v [Value<'a>] = value::no_items();
        return Ok(none);
    };
    match value::as_array(value) {
        Some(values) => Ok(values),
        None => Err(Bad::BadField(field)),
    }
}

/// The object that is the value of this field. Takes no memory.
pub(crate) fn object_under<'v, 'a>(
    value: &'v Value<'a>,
    field: Field,
) -> Result<Object<'v, 'a>, Bad>
    ensures { Tells seen result
        (object_under (snake_of field) (view value.now)) }
{
    Object::of(value).ok_or(Bad::BadField(field))
}
