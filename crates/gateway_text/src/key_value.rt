//! A key-value in an answer.
ghost use Rattle.std.specs.Prelude.{◌≤◌, ◌+◌, ◌*◌, length, codes, option_map};
ghost use Rattle.range_view.specs.Replies.{kv_view};
ghost use Rattle.kv_model.specs.Answers.{bytes_text, int_field};
ghost use Rattle.gateway_text.specs.Rooms.{Holds, held_len, kv_len, member_len};
ghost use Rattle.gateway_text.specs.Rooms.{most_of_lent, most_or, text_len};

use crate::header::digits;
use crate::json_text::{JsonText, WriteJson};
use range_view::reply::KvRef;
use std::alloc::AllocError;

/// The bytes of a key-value's text without its numbers, its key and its value: five names, and the
/// comma before it.
const KEY_VALUE_NAMES: usize = 74;

/// The bytes of a lease, at most: its name, nineteen digits and a sign.
const LEASE: usize = 31;

/// Room for bytes in base64, without the quotes: four symbols for three bytes.
pub(crate) fn room_of_base64(bytes: &[u8]) -> usize
    ensures most { result ≤ 2 * length bytes.now + 4 }
    ensures least { Holds (result + 2) (text_len (bytes_text bytes.now)) }
{
    (bytes.len() / 3 + 1).saturating_mul(4)
}

/// Room for the text of a key-value.
pub(crate) fn room_of_kv(kv: &KvRef<'_>) -> usize
    ensures most { result ≤ most_of_lent kv.now }
    ensures least { Holds result (kv_len kv.now) }
{
    let lease = room_of_lease(kv);
    let numbers = digits(kv.create) + digits(kv.modified) + digits(kv.version);
    room_of_base64(kv.key)
        .saturating_add(room_of_base64(kv.value))
        .saturating_add(KEY_VALUE_NAMES + numbers + lease)
}

/// Room for what was held before, if anything was.
pub(crate) fn room_of_previous(previous: Option<KvRef<'_>>) -> usize
    ensures most { result ≤ most_or 0 (option_map kv_view previous.entry) }
    ensures least { Holds result (held_len previous.entry) }
{
    match &previous {
        Some(kv) => room_of_kv(kv),
        None => 0,
    }
}

/// Room for a key-value's lease, which is left out where it names none.
fn room_of_lease(kv: &KvRef<'_>) -> usize
    ensures most { result ≤ 31 }
    ensures least { member_len (codes "lease") (int_field kv.now.lease) ≤ result }
{
    if kv.lease == 0 {
        return 0;
    }
    LEASE
}

/// A key-value (the etcd documentation's KeyValue).
impl<'a> WriteJson for KvRef<'a> {
    ghost use Rattle.kv_model.specs.Answers.{key_value_text};
    ghost use Rattle.range_view.specs.Replies.{kv_view};

    ghost value = { λ kv. key_value_text (kv_view kv) };

    fn write_json(&self, out: &mut JsonText) -> Result<(), AllocError> {
        out.begin_object()?;
        out.number_member("create_revision", self.create)?;
        out.bytes_member("key", self.key)?;
        out.signed_member("lease", self.lease)?;
        out.number_member("mod_revision", self.modified)?;
        out.bytes_member("value", self.value)?;
        out.number_member("version", self.version)?;
        out.end_object()
    }
}
