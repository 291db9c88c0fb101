//! The bodies of what watches are told (the etcd documentation's WatchResponse and Event).
//!
//! Each function here fails for want of memory alone, and costs as those of the other answers do.
ghost use Rattle.std.specs.Prelude.{◌≡◌, ◌≤◌, ◌+◌, ℕ, ◌++◌, Some, codes, map, IfOk, OnOk};
ghost use Rattle.kv_model.specs.Told as told;
ghost use Rattle.kv_model.specs.Answers as texts;
ghost use Rattle.kv_model.specs.Answers.{success_response, message_text};
ghost use Rattle.kv_model.specs.Watches as watches;
ghost use Rattle.watch_hub.specs.Messages.{event_view};
ghost use Rattle.gateway_text.specs.Rooms.{Holds, event_len, version_len};
ghost use Rattle.gateway_text.specs.Rooms.{most_of_event, most_of_version, total};
ghost use Rattle.gateway_text.specs.Tokens.{data_tokens, field_tokens};
ghost use Rattle.gateway_text.specs.Views.{cancelled_data, created_data, events_data};
ghost use Rattle.gateway_text.specs.Views.{header_data, message_data};

use crate::answers::FRAME;
use crate::header::{Header, digits};
use crate::json_text::{JsonText, WriteJson};
use crate::key_value::{room_of_base64, room_of_kv, room_of_previous};
use kv_model::ids::Ids;
use kv_model::version::{Body, Version};
use range_view::reply::key_value_of;
use std::alloc::{AllocError, Global};
use watch_hub::Event;

/// The bytes of an event's text without its key-values, at most.
const EVENT_NAMES: usize = 64;

/// The body of the answer to a Watch, with the revision of the store, to the client's number for
/// the watch.
pub fn created_text(alloc: Global, revision: u64, id: i64, ids: &Ids) -> Result<Vec<u8>, AllocError>
    ensures { IfOk result (λ v. (number : ℕ) → v.items ≡ (success_response ids.now
        (record { reply = told.Reply.watch id number; revision = revision })).body) }
{
    let mut out = JsonText::with_capacity(alloc, FRAME)?;
    let header = Header::Whole(*ids, revision);
    write_message(
        &mut out,
        &Message {
            header,
            id,
            told: Told::Created,
        },
    )?;
    Ok(out.into_bytes())
}

/// The text of a message of events, with the revision of the store at the delivery, to the client's
/// number for the watch.
pub fn events_text(
    alloc: Global,
    revision: u64,
    id: i64,
    events: &[Event<'_>],
    ids: &Ids,
) -> Result<Vec<u8>, AllocError>
    ensures { IfOk result (λ v. Some v.items ≡ message_text ids.now revision id
        (watches.Delivery.events (map event_view events.now))) }
{
    let mut out = JsonText::with_capacity(alloc, room_of_events(events))?;
    let header = Header::Whole(*ids, revision);
    write_message(
        &mut out,
        &Message {
            header,
            id,
            told: Told::Events(events),
        },
    )?;
    Ok(out.into_bytes())
}

/// The text of the message that a watch is cancelled, with the revision of the store at the
/// delivery and that of the last compaction, to the client's number for the watch.
pub fn cancelled_text(
    alloc: Global,
    revision: u64,
    id: i64,
    compacted: u64,
    ids: &Ids,
) -> Result<Vec<u8>, AllocError>
    ensures { IfOk result (λ v. Some v.items ≡ message_text ids.now revision id
        (watches.Delivery.cancelled compacted)) }
{
    let mut out = JsonText::with_capacity(alloc, FRAME)?;
    let header = Header::Whole(*ids, revision);
    write_message(
        &mut out,
        &Message {
            header,
            id,
            told: Told::Cancelled(compacted),
        },
    )?;
    Ok(out.into_bytes())
}

/// What a watch is told.
#[derive(Drop)]
enum Told<'a> {
    Created,
    Events(&'a [Event<'a>]),
    /// The revision of the last compaction.
    Cancelled(u64),
}

/// A message to the client's number for a watch.
#[derive(Drop)]
struct Message<'a> {
    header: Header,
    id: i64,
    told: Told<'a>,
}

impl<'a> WriteJson for Message<'a> {
    ghost use Rattle.gateway_text.specs.Views.{header_data, message_data};

    ghost value = { λ m. message_data (header_data m.header) m.id m.told };

    fn write_json(&self, out: &mut JsonText) -> Result<(), AllocError> {
        match &self.told {
            Told::Created => write_created(out, &self.header, self.id),
            Told::Events(events) => write_events(out, &self.header, self.id, events),
            Told::Cancelled(compacted) => write_cancelled(out, &self.header, self.id, *compacted),
        }
    }
}

fn write_message(out: &mut JsonText, message: &Message<'_>) -> Result<(), AllocError>
    ensures { OnOk result (out.new ≡ out.old ++ data_tokens (texts.result_text
        (message_data (header_data message.now.header) message.now.id message.now.told))) }
{
    out.begin_object()?;
    out.member("result", message)?;
    out.end_object()
}

fn write_created(out: &mut JsonText, header: &Header, id: i64) -> Result<(), AllocError>
    ensures { OnOk result (out.new ≡ out.old ++ data_tokens
        (created_data (header_data header.now) id)) }
{
    out.begin_object()?;
    out.truth_member("created", true)?;
    out.member("header", header)?;
    out.signed_member("watch_id", id)?;
    out.end_object()
}

fn write_events(
    out: &mut JsonText,
    header: &Header,
    id: i64,
    events: &[Event<'_>],
) -> Result<(), AllocError>
    ensures { OnOk result (out.new ≡ out.old ++ data_tokens
        (events_data (header_data header.now) id (map event_view events.now))) }
{
    out.begin_object()?;
    out.list_member("events", events)?;
    out.member("header", header)?;
    out.signed_member("watch_id", id)?;
    out.end_object()
}

fn write_cancelled(
    out: &mut JsonText,
    header: &Header,
    id: i64,
    compacted: u64,
) -> Result<(), AllocError>
    ensures { OnOk result (out.new ≡ out.old ++ data_tokens
        (cancelled_data (header_data header.now) id compacted)) }
{
    out.begin_object()?;
    out.truth_member("canceled", true)?;
    out.number_member("compact_revision", compacted)?;
    out.member("header", header)?;
    out.signed_member("watch_id", id)?;
    out.end_object()
}

/// An event: the key-value that was put, or the key that was deleted, with what it held before.
impl<'a> WriteJson for Event<'a> {
    ghost use Rattle.kv_model.specs.Answers.{event_text};
    ghost use Rattle.watch_hub.specs.Messages.{event_view};

    ghost value = { λ e. event_text (event_view e) };

    fn write_json(&self, out: &mut JsonText) -> Result<(), AllocError> {
        out.begin_object()?;
        out.member("kv", self.version)?;
        out.optional_member("prev_kv", self.previous)?;
        write_type(out, &self.version.body)?;
        out.end_object()
    }
}

/// The kind of an event; none for a put.
fn write_type(out: &mut JsonText, body: &Body) -> Result<(), AllocError>
    ensures { OnOk result (out.new ≡ out.old ++ field_tokens (codes "type")
        (texts.event_type body.now)) }
{
    match body {
        Body::Put { .. } => Ok(()),
        Body::Gone => out.string_member("type", "DELETE"),
    }
}

/// A put as its key-value, and a tombstone as its key and revision.
impl WriteJson for Version {
    ghost use Rattle.kv_model.specs.Answers.{version_text};
    ghost use Rattle.kv_model.specs.History.{key_value};

    ghost value = { λ v. version_text v (key_value v) };

    fn write_json(&self, out: &mut JsonText) -> Result<(), AllocError> {
        match key_value_of(self) {
            Some(kv) => kv.write_json(out),
            None => write_tombstone(out, self),
        }
    }
}

fn write_tombstone(out: &mut JsonText, version: &Version) -> Result<(), AllocError>
    ensures { OnOk result (out.new ≡ out.old ++ data_tokens
        (texts.tombstone_text version.now.key version.now.rev.main)) }
{
    out.begin_object()?;
    out.bytes_member("key", version.key.as_slice())?;
    out.number_member("mod_revision", version.rev.main)?;
    out.end_object()
}

/// Room for the text of a message of events.
fn room_of_events(events: &[Event<'_>]) -> usize
    ensures most { result ≤ 256 + total (map most_of_event events.now) }
    ensures least { Holds result (256 + total (map event_len events.now)) }
{
    let mut room = FRAME;
    for event in events {
        room = room.saturating_add(room_of_event(event));
    }
    room
}

fn room_of_event(event: &Event<'_>) -> usize
    ensures most { result ≤ most_of_event event.now }
    ensures least { Holds result (event_len event.now) }
{
    let version = room_of_version(event.version);
    let previous = room_of_previous(event.previous);
    version.saturating_add(previous).saturating_add(EVENT_NAMES)
}

/// Room for a put's key-value, or for the key and the revision of a tombstone without their names.
fn room_of_version(version: &Version) -> usize
    ensures most { result ≤ most_of_version version.now }
    ensures least { Holds (result + 28) (version_len version.now) }
{
    match key_value_of(version) {
        Some(kv) => room_of_kv(&kv),
        None => room_of_base64(version.key.as_slice()).saturating_add(digits(version.rev.main)),
    }
}
