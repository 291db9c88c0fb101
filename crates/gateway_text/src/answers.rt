//! The bodies of answers.
//!
//! Each function here fails for want of memory alone. A body is reserved at once; the base64 of
//! each key and value is made in a second buffer, which grows to the longest of them, and is copied
//! into the body. So an answer costs two allocations and a few more as the second buffer grows, and
//! time for the bytes of its body.
ghost use Rattle.std.specs.Prelude.{◌≡◌, ◌≤◌, ◌+◌, ◌++◌, Some, length, map, decimal};
ghost use Rattle.std.specs.Prelude.{IfOk, OnOk, option_map};
ghost use Rattle.kv_model.specs.Told as told;
ghost use Rattle.kv_model.specs.Answers as texts;
ghost use Rattle.kv_model.specs.Answers.{success_response};
ghost use Rattle.range_view.specs.Replies.{kv_view, reply_view};
ghost use Rattle.gateway_text.specs.Rooms.{Holds, kv_len, most_of_kv, most_of_kvs, text_len, total};
ghost use Rattle.gateway_text.specs.Tokens.{data_tokens};
ghost use Rattle.gateway_text.specs.Views.{header_data};

use crate::header::{Header, bare_text, digits, room_of_header};
use crate::json_text::JsonText;
use crate::key_value::room_of_kv;
use kv_model::ids::Ids;
use range_view::reply::{KvRef, RangeReply};
use std::alloc::{AllocError, Global};

/// The bytes of a body without its lists, at most, where it is about a lease.
pub(crate) const FRAME: usize = 256;

/// The bytes of the names of a Range's answer, at most, without its header and its key-values, and
/// one more, which the writer asks for behind the last brace. Those of the answers to a DeleteRange
/// and a Txn are not more.
pub(crate) const ANSWER_NAMES: usize = 44;

/// The bytes that say that the limit cut some, which are among those names.
const MORE: usize = 12;

/// The same of a Put's answer that tells the key-value before it.
const PUT: usize = 23;

/// The body of a Range's answer. Its header has the reply's revision.
#[tactic(auto, using(crate::proofs::Objects::written), unfolding(kv_model::specs::Answers::reply_text))]
pub fn range_text(alloc: Global, reply: &RangeReply<'_>, ids: &Ids) -> Result<Vec<u8>, AllocError>
    ensures { IfOk result (λ v. v.items ≡ (success_response ids.now
        (record {
          reply = told.Reply.range (reply_view reply.now);
          revision = reply.now.revision;
        })).body) }
{
    let most = frame_of(ids, reply.revision, reply.count);
    let frame = if reply.more { most } else { most - MORE };
    let mut out = JsonText::with_capacity(alloc, room_for(frame, &reply.kvs))?;
    write_range(&mut out, &Header::Whole(*ids, reply.revision), reply)?;
    Ok(out.into_bytes())
}

/// The body of a Put's answer, with the revision after the Put and the key-value before it, where
/// that was asked for.
#[tactic(auto, using(crate::proofs::Objects::written), unfolding(kv_model::specs::Answers::reply_text))]
pub fn put_text(
    alloc: Global,
    revision: u64,
    previous: Option<KvRef<'_>>,
    ids: &Ids,
) -> Result<Vec<u8>, AllocError>
    ensures { IfOk result (λ v. v.items ≡ (success_response ids.now
        (record {
          reply = told.Reply.put (option_map kv_view previous.entry);
          revision = revision;
        })).body) }
{
    match previous {
        None => bare_text(alloc, ids, revision),
        Some(held) => {
            let room = room_of_put(ids, revision, &held);
            let mut out = JsonText::with_capacity(alloc, room)?;
            write_put(&mut out, &Header::Whole(*ids, revision), Some(held))?;
            Ok(out.into_bytes())
        }
    }
}

/// The body of a DeleteRange's answer, with the revision after it, the number of keys that it
/// deleted, and their key-values, where those were asked for.
#[tactic(auto, using(crate::proofs::Objects::written), unfolding(kv_model::specs::Answers::reply_text))]
pub fn delete_text(
    alloc: Global,
    revision: u64,
    deleted: u64,
    previous: &[KvRef<'_>],
    ids: &Ids,
) -> Result<Vec<u8>, AllocError>
    ensures { IfOk result (λ v. v.items ≡ (success_response ids.now
        (record {
          reply = told.Reply.delete deleted (map kv_view previous.now);
          revision = revision;
        })).body) }
{
    let frame = frame_of(ids, revision, deleted);
    let mut out = JsonText::with_capacity(alloc, room_for(frame, previous))?;
    write_delete(&mut out, &Header::Whole(*ids, revision), deleted, previous)?;
    Ok(out.into_bytes())
}

pub(crate) fn write_range(
    out: &mut JsonText,
    header: &Header,
    reply: &RangeReply<'_>,
) -> Result<(), AllocError>
    ensures { OnOk result (out.new
        ≡ out.old ++ data_tokens (texts.range_text (header_data header.now)
        (reply_view reply.now))) }
{
    out.begin_object()?;
    out.number_member("count", reply.count)?;
    out.member("header", header)?;
    out.list_member("kvs", &reply.kvs)?;
    out.truth_member("more", reply.more)?;
    out.end_object()
}

pub(crate) fn write_put(
    out: &mut JsonText,
    header: &Header,
    previous: Option<KvRef<'_>>,
) -> Result<(), AllocError>
    ensures { OnOk result (out.new
        ≡ out.old ++ data_tokens (texts.put_text (header_data header.now)
        (option_map kv_view previous.entry))) }
{
    out.begin_object()?;
    out.member("header", header)?;
    out.optional_member("prev_kv", previous)?;
    out.end_object()
}

pub(crate) fn write_delete(
    out: &mut JsonText,
    header: &Header,
    deleted: u64,
    previous: &[KvRef<'_>],
) -> Result<(), AllocError>
    ensures { OnOk result (out.new
        ≡ out.old ++ data_tokens (texts.delete_text (header_data header.now) deleted
        (map kv_view previous.now))) }
{
    out.begin_object()?;
    out.number_member("deleted", deleted)?;
    out.member("header", header)?;
    out.list_member("prev_kvs", previous)?;
    out.end_object()
}

/// Room for the text of an answer without its lists, which tells this count.
pub(crate) fn frame_of(ids: &Ids, revision: u64, count: u64) -> usize
    ensures least { 44 ≤ result }
    ensures most { result ≤ 256 }
    ensures text { text_len (texts.header ids.now revision) + 44 + length (decimal count) ≤ result }
{
    room_of_header(ids, revision) + ANSWER_NAMES + digits(count)
}

/// Room for the text of a Put's answer that tells what was held before.
fn room_of_put(ids: &Ids, revision: u64, held: &KvRef<'_>) -> usize
    ensures most { result ≤ 148 + most_of_kv (kv_view held.now) }
    ensures least { Holds result (text_len (texts.put_text (texts.header ids.now revision)
        (Some (kv_view held.now)))) }
{
    room_of_kv(held).saturating_add(room_of_header(ids, revision) + PUT)
}

/// So much room, and room for these key-values.
pub(crate) fn room_for(frame: usize, kvs: &[KvRef<'_>]) -> usize
    ensures most { result ≤ frame + most_of_kvs kvs.now }
    ensures least { Holds result (frame + total (map kv_len kvs.now)) }
{
    let mut room = frame;
    for kv in kvs {
        room = room.saturating_add(room_of_kv(kv));
    }
    room
}
