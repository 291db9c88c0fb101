//! The key and the value of a Put, which share a block.
ghost use Rattle.std.specs.Prelude.{◌≡◌, ◌≤◌, length, take, drop, IfOk};
ghost use Rattle.kv_model.specs.Requests as requests;
ghost use Rattle.gateway_read.specs.Objects.{seen};
ghost use Rattle.gateway_read.specs.Parts.{key_and_value};
ghost use Rattle.gateway_read.specs.Reading.{Gives};

use crate::bad::Bad;
use crate::field::Field;
use crate::members::{append_bytes, given};
use crate::object::Object;
use crate::value;
use base64::decoded_len_estimate;
use bytes::Bytes;
use json::Value;
use std::alloc::{AllocError, Global};

/// The most bytes that a value has which shares the block of its key: a key may outlive its value, and
/// keeps the whole of the block.
const SHARING: usize = 256;

/// The key and the value. They are parts of one block, which goes when the last of them does: a block
/// has 64 bytes beside what is in it. The errors are those of either field, the key's first, and want of
/// memory. Linear in their texts.
#[tactic(auto, unfolding(crate::specs::Parts::key_and_value, crate::specs::Fields::snake_of))]
pub(crate) fn key_and_value(alloc: Global, object: &Object<'_, '_>) -> Result<(Bytes, Bytes), Bad>
    ensures { Gives (λ pair. pair) result (key_and_value (seen object.now)) }
{
    let key = given(object, Field::Key);
    let value = given(object, Field::Value);
    let mut both = Vec::with_capacity(alloc, room(key).saturating_add(room(value)))?;
    append_bytes(alloc, key, Field::Key, &mut both)?;
    let at = both.len();
    append_bytes(alloc, value, Field::Value, &mut both)?;
    Ok(parted(alloc, both, at)?)
}

/// How many bytes a text in base64 has at most; none where the value is no text.
fn room(given: Option<&Value>) -> usize {
    let Some(value) = given else {
        return 0;
    };
    match value::as_str(value) {
        Some(text) => decoded_len_estimate(text.len()),
        None => 0,
    }
}

/// The first so many bytes of a block, and those behind them. Where these are many the first ones are
/// copied.
fn parted(alloc: Global, both: Vec<u8>, at: usize) -> Result<(Bytes, Bytes), AllocError>
    requires { at ≤ length both.items }
    ensures { IfOk result (λ pair. (pair.0 ≡ take at both.items) × (pair.1 ≡ drop at both.items)) }
{
    let mut value = Bytes::from_vec(both)?;
    let key = value.split_to(at)?;
    if value.len() <= SHARING {
        return Ok((key, value));
    }
    let own = Bytes::copy_from_slice(alloc, key.as_slice())?;
    Ok((own, value))
}
