//! The bodies of the answers to transactions (the etcd documentation's TxnResponse and ResponseOp).
ghost use Rattle.std.specs.Prelude.{◌≡◌, ◌<◌, ◌≤◌, ◌+◌, ◌^◌, ◌++◌, length, map, codes, decimal};
ghost use Rattle.std.specs.Prelude.{IfOk, OnOk, option_map};
ghost use Rattle.std.specs.List.{flat_map};
ghost use Rattle.kv_model.specs.Told as told;
ghost use Rattle.kv_model.specs.Answers as texts;
ghost use Rattle.kv_model.specs.Answers.{success_response, list_field};
ghost use Rattle.range_view.specs.Replies.{kv_view, reply_view, replies_view};
ghost use Rattle.gateway_text.specs.Lengths.{response_len};
ghost use Rattle.gateway_text.specs.Rooms.{Holds, most_of_kvs, most_of_reply, most_or, text_len, total};
ghost use Rattle.gateway_text.specs.Tokens.{data_tokens, field_tokens};
ghost use Rattle.gateway_text.specs.Views.{header_data, response_of};

use crate::answers::{ANSWER_NAMES, frame_of, room_for, write_delete, write_put, write_range};
use crate::header::{Header, digits};
use crate::json_text::JsonText;
use crate::key_value::room_of_previous;
use kv_model::ids::Ids;
use range_view::reply::{KvRef, OpReply, RangeReply};
use std::alloc::{AllocError, Global};

/// The bytes of the names of a response, at most: those of its kind and of its header.
const RESPONSE: usize = 56;

/// The body of a Txn's answer, with the revision after it, whether its compares held, and the
/// answers to the operations that ran, in order.
///
/// Fails for want of memory alone, and costs as the other answers do, with a stack as deep as
/// transactions lie in one another.
#[tactic(auto, using(crate::proofs::Objects::written), unfolding(kv_model::specs::Answers::reply_text))]
pub fn txn_text(
    alloc: Global,
    revision: u64,
    succeeded: bool,
    replies: &[OpReply<'_>],
    ids: &Ids,
) -> Result<Vec<u8>, AllocError>
    ensures { IfOk result (λ v. v.items ≡ (success_response ids.now
        (record {
          reply = told.Reply.txn succeeded (replies_view replies.now);
          revision = revision;
        })).body) }
{
    let frame = frame_of(ids, revision, 0);
    let mut out = JsonText::with_capacity(alloc, room_of_all(replies, revision, frame))?;
    let header = Header::Whole(*ids, revision);
    write_txn(&mut out, &header, revision, succeeded, replies)?;
    Ok(out.into_bytes())
}

#[cycle(responses)]
fn write_txn(
    out: &mut JsonText,
    header: &Header,
    revision: u64,
    succeeded: bool,
    replies: &[OpReply<'_>],
) -> Result<(), AllocError>
    ensures { OnOk result (out.new
        ≡ out.old ++ data_tokens (texts.txn_text (header_data header.now) succeeded
        (texts.responses revision (replies_view replies.now)))) }
{
    out.begin_object()?;
    out.member("header", header)?;
    write_responses(out, revision, replies)?;
    out.truth_member("succeeded", succeeded)?;
    out.end_object()
}

/// The member of the responses; none where there are none.
#[cycle(responses)]
fn write_responses(
    out: &mut JsonText,
    revision: u64,
    replies: &[OpReply<'_>],
) -> Result<(), AllocError>
    ensures { OnOk result (out.new
        ≡ out.old ++ field_tokens (codes "responses")
        (list_field (map (response_of revision) replies.now))) }
{
    if replies.is_empty() {
        return Ok(());
    }
    out.name("responses")?;
    out.begin_array()?;
    write_items(out, revision, replies)?;
    out.end_array()
}

#[cycle(responses)]
fn write_items(out: &mut JsonText, revision: u64, replies: &[OpReply<'_>]) -> Result<(), AllocError>
    ensures { OnOk result (out.new
        ≡ out.old ++ flat_map (λ o. data_tokens (response_of revision o)) replies.now) }
{
    for reply in replies {
        write_response(out, revision, reply)?;
    }
    Ok(())
}

/// What an operation is answered, under the name of its kind. The header is that of the whole
/// transaction, cut short.
#[cycle(responses)]
fn write_response(out: &mut JsonText, revision: u64, reply: &OpReply<'_>) -> Result<(), AllocError>
    ensures { OnOk result (out.new ≡ out.old ++ data_tokens (response_of revision reply.now)) }
{
    let header = Header::Short(revision);
    match reply {
        OpReply::Range(reply) => write_range_response(out, &header, reply),
        OpReply::Put(previous) => write_put_response(out, &header, *previous),
        OpReply::Delete { deleted, previous } => {
            write_delete_response(out, &header, *deleted, previous)
        }
        OpReply::Inner { succeeded, replies } => {
            write_txn_response(out, revision, *succeeded, replies)
        }
    }
}

#[cycle(responses)]
fn write_txn_response(
    out: &mut JsonText,
    revision: u64,
    succeeded: bool,
    replies: &[OpReply<'_>],
) -> Result<(), AllocError>
    ensures { OnOk result (out.new
        ≡ out.old ++ data_tokens (texts.response (codes "response_txn")
        (texts.txn_text (texts.short_header revision) succeeded
        (texts.responses revision (replies_view replies.now))))) }
{
    out.begin_object()?;
    out.name("response_txn")?;
    write_txn(out, &Header::Short(revision), revision, succeeded, replies)?;
    out.end_object()
}

fn write_range_response(
    out: &mut JsonText,
    header: &Header,
    reply: &RangeReply<'_>,
) -> Result<(), AllocError>
    ensures { OnOk result (out.new
        ≡ out.old ++ data_tokens (texts.response (codes "response_range")
        (texts.range_text (header_data header.now) (reply_view reply.now)))) }
{
    out.begin_object()?;
    out.name("response_range")?;
    write_range(out, header, reply)?;
    out.end_object()
}

fn write_put_response(
    out: &mut JsonText,
    header: &Header,
    previous: Option<KvRef<'_>>,
) -> Result<(), AllocError>
    ensures { OnOk result (out.new
        ≡ out.old ++ data_tokens (texts.response (codes "response_put")
        (texts.put_text (header_data header.now) (option_map kv_view previous.entry)))) }
{
    out.begin_object()?;
    out.name("response_put")?;
    write_put(out, header, previous)?;
    out.end_object()
}

fn write_delete_response(
    out: &mut JsonText,
    header: &Header,
    deleted: u64,
    previous: &[KvRef<'_>],
) -> Result<(), AllocError>
    ensures { OnOk result (out.new
        ≡ out.old ++ data_tokens (texts.response (codes "response_delete_range")
        (texts.delete_text (header_data header.now) deleted (map kv_view previous.now)))) }
{
    out.begin_object()?;
    out.name("response_delete_range")?;
    write_delete(out, header, deleted, previous)?;
    out.end_object()
}

/// So much room, and room for these responses at a revision.
#[cycle(room)]
fn room_of_all(replies: &[OpReply<'_>], revision: u64, frame: usize) -> usize
    ensures most { result ≤ frame + total (map most_of_reply replies.now) }
    ensures least { Holds result (frame + total (map (response_len revision) replies.now)) }
{
    let mut room = frame;
    for reply in replies {
        room = room.saturating_add(room_of_one(reply, revision));
    }
    room
}

#[cycle(room)]
fn room_of_one(reply: &OpReply<'_>, revision: u64) -> usize
    ensures most { result ≤ most_of_reply reply.now }
    ensures least { Holds result (response_len revision reply.now) }
{
    match reply {
        OpReply::Range(reply) => room_of_range(reply, revision),
        OpReply::Put(previous) => room_of_put(*previous, revision),
        OpReply::Delete { deleted, previous } => room_of_delete(*deleted, previous, revision),
        OpReply::Inner { succeeded, replies } => room_of_inner(*succeeded, replies, revision),
    }
}

/// Room for the answer to a transaction within another.
#[cycle(room)]
fn room_of_inner(succeeded: bool, replies: &[OpReply<'_>], revision: u64) -> usize
    ensures most { result ≤ 142 + total (map most_of_reply replies.now) }
    ensures least { Holds result (1 + text_len (texts.response (codes "response_txn")
        (texts.txn_text (texts.short_header revision) succeeded
        (texts.responses revision (replies_view replies.now))))) }
{
    room_of_all(replies, revision, frame_of_inner(revision))
}

/// Room for the answer to a Range within a transaction.
fn room_of_range(reply: &RangeReply<'_>, revision: u64) -> usize
    ensures most { result ≤ 142 + most_of_kvs reply.now.kvs.items }
    ensures least { Holds result (1 + text_len (texts.response (codes "response_range")
        (texts.range_text (texts.short_header revision) (reply_view reply.now)))) }
{
    let frame = RESPONSE + ANSWER_NAMES + digits(revision) + digits(reply.count);
    room_for(frame, &reply.kvs)
}

/// Room for the answer to a Put within a transaction.
fn room_of_put(previous: Option<KvRef<'_>>, revision: u64) -> usize
    ensures most { result ≤ 142 + most_or 0 (option_map kv_view previous.entry) }
    ensures least { Holds result (1 + text_len (texts.response (codes "response_put")
        (texts.put_text (texts.short_header revision) (option_map kv_view previous.entry)))) }
{
    room_of_previous(previous).saturating_add(RESPONSE + digits(revision))
}

/// Room for the answer to a DeleteRange within a transaction.
fn room_of_delete(deleted: u64, previous: &[KvRef<'_>], revision: u64) -> usize
    ensures most { result ≤ 142 + most_of_kvs previous.now }
    ensures least { Holds result (1 + text_len (texts.response (codes "response_delete_range")
        (texts.delete_text (texts.short_header revision) deleted (map kv_view previous.now)))) }
{
    let frame = RESPONSE + ANSWER_NAMES + digits(revision) + digits(deleted);
    room_for(frame, previous)
}

/// Room for the answer to a transaction within another, without its responses.
fn frame_of_inner(revision: u64) -> usize
    ensures most { result ≤ 142 }
    ensures least { 75 + length (decimal revision) ≤ result }
    ensures fits { revision < 2 ^ 64 }
{
    RESPONSE + ANSWER_NAMES + digits(revision)
}
