//! The bodies of the answers about leases (the etcd documentation's API reference:
//! LeaseGrantResponse and the like).
//!
//! Each function here fails for want of memory alone, and costs as those of the other answers do.
ghost use Rattle.std.specs.Prelude.{◌≡◌, ◌≤◌, ◌+◌, ◌*◌, ◌++◌, length, map, codes, IfOk, OnOk};
ghost use Rattle.std.specs.Prelude.{FitsSigned};
ghost use Rattle.std.specs.Int.{w64};
ghost use Rattle.kv_model.specs.Told as told;
ghost use Rattle.kv_model.specs.Answers as texts;
ghost use Rattle.kv_model.specs.Answers.{success_response, int_field};
ghost use Rattle.gateway_text.specs.Rooms.{Holds, key_len, lease_len, most_of_key, total};
ghost use Rattle.gateway_text.specs.Tokens.{data_tokens, field_tokens};
ghost use Rattle.gateway_text.specs.Views.{header_data, lease_data, leases_data};
ghost use Rattle.gateway_text.specs.Views.{seconds_view, time_left_data};

use crate::answers::FRAME;
use crate::header::{Header, bare_text};
use crate::json_text::{JsonText, WriteJson};
use kv_model::ids::Ids;
use std::alloc::{AllocError, Global};

/// The bytes of a lease in a list, at most.
const ITEM: usize = 32;

/// The body of a LeaseGrant's answer, with the revision after it, and the lease's ID and its time
/// to live in seconds.
#[tactic(auto, using(crate::proofs::Objects::written), unfolding(kv_model::specs::Answers::reply_text, crate::specs::Views::lease_data))]
pub fn granted_text(
    alloc: Global,
    revision: u64,
    id: i64,
    ttl: u64,
    ids: &Ids,
) -> Result<Vec<u8>, AllocError>
    ensures { IfOk result (λ v. v.items ≡ (success_response ids.now
        (record { reply = told.Reply.grant id ttl; revision = revision })).body) }
{
    let mut out = JsonText::with_capacity(alloc, FRAME)?;
    write_lease(&mut out, &Header::Whole(*ids, revision), id, ttl)?;
    Ok(out.into_bytes())
}

/// The body of a LeaseRevoke's answer, with the revision after it.
#[tactic(auto, using(crate::proofs::Objects::written), unfolding(kv_model::specs::Answers::reply_text))]
pub fn revoked_text(alloc: Global, revision: u64, ids: &Ids) -> Result<Vec<u8>, AllocError>
    ensures { IfOk result (λ v. v.items ≡ (success_response ids.now
        (record { reply = told.Reply.revoke; revision = revision })).body) }
{
    bare_text(alloc, ids, revision)
}

/// The body of a LeaseKeepAlive's answer, with the revision of the store, and the lease's ID and
/// its time to live in seconds, which is 0 where no lease has the ID.
#[tactic(auto, using(crate::proofs::Objects::written), unfolding(kv_model::specs::Answers::reply_text, crate::specs::Views::lease_data))]
pub fn renewed_text(
    alloc: Global,
    revision: u64,
    id: i64,
    ttl: u64,
    ids: &Ids,
) -> Result<Vec<u8>, AllocError>
    ensures { IfOk result (λ v. v.items ≡ (success_response ids.now
        (record { reply = told.Reply.keep_alive id ttl; revision = revision })).body) }
{
    let header = Header::Whole(*ids, revision);
    let mut out = JsonText::with_capacity(alloc, FRAME)?;
    write_renewed(&mut out, &Renewed { header, id, ttl })?;
    Ok(out.into_bytes())
}

/// The body of a LeaseTimeToLive's answer, with the revision of the store and the lease's ID.
///
/// `seconds` are those that the lease still has, and `None` where no lease has the ID, which is
/// told as -1. `granted` is
/// the time to live that was granted, in seconds, and 0 where there is no lease. `keys` are the
/// lease's keys, where they were asked for.
#[tactic(auto, using(crate::proofs::Objects::written), unfolding(kv_model::specs::Answers::reply_text, crate::specs::Views::time_left_data))]
pub fn time_left_text(
    alloc: Global,
    revision: u64,
    id: i64,
    seconds: Option<u64>,
    granted: u64,
    keys: &[&[u8]],
    ids: &Ids,
) -> Result<Vec<u8>, AllocError>
    ensures { IfOk result (λ v. v.items ≡ (success_response ids.now
        (record {
          reply = told.Reply.time_to_live id (seconds_view seconds) granted
              (map (λ k. k.now) keys.now);
          revision = revision;
        })).body) }
{
    let mut out = JsonText::with_capacity(alloc, room_for_keys(keys))?;
    let header = Header::Whole(*ids, revision);
    write_time_left(&mut out, &header, id, seconds, granted, keys)?;
    Ok(out.into_bytes())
}

/// The body of a LeaseLeases' answer, with the revision of the store and the IDs of the leases.
#[tactic(auto, using(crate::proofs::Objects::written), unfolding(kv_model::specs::Answers::reply_text, crate::specs::Views::leases_data))]
pub fn leases_text(
    alloc: Global,
    revision: u64,
    leases: &[i64],
    ids: &Ids,
) -> Result<Vec<u8>, AllocError>
    ensures { IfOk result (λ v. v.items ≡ (success_response ids.now
        (record { reply = told.Reply.leases leases.now; revision = revision })).body) }
{
    let mut out = JsonText::with_capacity(alloc, room_for_leases(leases))?;
    write_leases(&mut out, &Header::Whole(*ids, revision), leases)?;
    Ok(out.into_bytes())
}

fn write_lease(out: &mut JsonText, header: &Header, id: i64, ttl: u64) -> Result<(), AllocError>
    ensures { OnOk result (out.new ≡ out.old ++ data_tokens
        (lease_data (header_data header.now) id ttl)) }
{
    out.begin_object()?;
    out.signed_member("ID", id)?;
    out.number_member("TTL", ttl)?;
    out.member("header", header)?;
    out.end_object()
}

/// What a LeaseKeepAlive says of a lease.
#[derive(Clone, Copy)]
struct Renewed {
    header: Header,
    id: i64,
    ttl: u64,
}

impl WriteJson for Renewed {
    ghost use Rattle.gateway_text.specs.Views.{header_data, lease_data};

    ghost value = { λ r. lease_data (header_data r.header) r.id r.ttl };

    fn write_json(&self, out: &mut JsonText) -> Result<(), AllocError> {
        write_lease(out, &self.header, self.id, self.ttl)
    }
}

fn write_renewed(out: &mut JsonText, renewed: &Renewed) -> Result<(), AllocError>
    ensures { OnOk result (out.new ≡ out.old ++ data_tokens (texts.result_text
        (lease_data (header_data renewed.now.header) renewed.now.id renewed.now.ttl))) }
{
    out.begin_object()?;
    out.member("result", renewed)?;
    out.end_object()
}

fn write_time_left(
    out: &mut JsonText,
    header: &Header,
    id: i64,
    seconds: Option<u64>,
    granted: u64,
    keys: &[&[u8]],
) -> Result<(), AllocError>
    ensures { OnOk result (out.new
        ≡ out.old ++ data_tokens (time_left_data (header_data header.now) id
        (seconds_view seconds) granted (map (λ k. k.now) keys.now))) }
{
    out.begin_object()?;
    out.signed_member("ID", id)?;
    write_seconds(out, seconds)?;
    out.number_member("grantedTTL", granted)?;
    out.member("header", header)?;
    out.list_member("keys", keys)?;
    out.end_object()
}

/// The seconds that a lease still has, and -1 where there is no lease.
fn write_seconds(out: &mut JsonText, seconds: Option<u64>) -> Result<(), AllocError>
    ensures { OnOk result (out.new ≡ out.old ++ field_tokens (codes "TTL")
        (int_field (seconds_view seconds))) }
{
    match seconds {
        Some(seconds) => out.number_member("TTL", seconds),
        None => out.signed_member("TTL", -1),
    }
}

fn write_leases(out: &mut JsonText, header: &Header, leases: &[i64]) -> Result<(), AllocError>
    ensures { OnOk result (out.new ≡ out.old ++ data_tokens
        (leases_data (header_data header.now) leases.now)) }
{
    out.begin_object()?;
    out.member("header", header)?;
    out.list_member("leases", leases)?;
    out.end_object()
}

/// A lease in a list, by its ID.
impl WriteJson for i64 {
    ghost use Rattle.kv_model.specs.Answers.{lease_text};

    ghost value = { lease_text };

    fn write_json(&self, out: &mut JsonText) -> Result<(), AllocError> {
        out.begin_object()?;
        out.signed_member("ID", *self)?;
        out.end_object()
    }
}

/// Room for a body with these leases.
fn room_for_leases(leases: &[i64]) -> usize
    ensures most { result ≤ 256 + 32 * length leases.now }
    ensures least { Holds result (256 + total (map lease_len leases.now)) }
{
    let mut room = FRAME;
    for lease in leases {
        room = room.saturating_add(room_of_item(lease));
    }
    room
}

/// Room for a lease in a list, whatever its ID is.
fn room_of_item(id: &i64) -> usize
    ensures most { result ≤ 32 }
    ensures least { Holds result (lease_len id.now) }
{
    number_of(id);
    ITEM
}

/// The number that an ID is, which fits 64 signed bits.
fn number_of(id: &i64) -> i64
    ensures { FitsSigned w64 id.now }
{
    *id
}

/// Room for a body with these keys: base64 has four symbols for three bytes.
fn room_for_keys(keys: &[&[u8]]) -> usize
    ensures most { result ≤ 256 + total (map (λ k. most_of_key k.now) keys.now) }
    ensures least { Holds result (256 + total (map (λ k. key_len k.now) keys.now)) }
{
    let mut room = FRAME;
    for key in keys {
        room = room.saturating_add(room_of_key(key));
    }
    room
}

fn room_of_key(key: &[u8]) -> usize
    ensures most { result ≤ most_of_key key.now }
    ensures least { Holds result (key_len key.now) }
{
    (key.len() / 3).saturating_mul(4).saturating_add(ITEM)
}
