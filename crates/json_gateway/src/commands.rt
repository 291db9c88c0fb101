//! One command or one request on a core, from bytes to bytes.
ghost use Rattle.std.specs.Prelude.{◌≡◌, ◌&&◌, true, false, None, Some, Ok, map, IfOk};
ghost use Rattle.kv_model.specs.Answers.{success_response, fault_of, refused, response_to};
ghost use Rattle.kv_model.specs.declared.refusal.Refusal.{Refusal as RefusalOf};
ghost use Rattle.kv_model.specs.Commands.{call_of};
ghost use Rattle.kv_model.specs.Requests.{request_of};
ghost use Rattle.store_laws.specs.Stands.{StandsFor};
ghost use Rattle.kv_model.specs.Step.{made_in, perform as perform_in};
ghost use Rattle.kv_model.specs.Wire.{IsChange, IsChangeBy, is_physical_call, reply_to};
ghost use Rattle.kv_model.specs.Told.{compact as CompactReply};
ghost use Rattle.kv_model.specs.World.{World};
ghost use Rattle.gateway_text.specs.Views.{wording_view};
ghost use Rattle.request_core.specs.Answers.{IsReadable, answer_of, answer_view, has_changed};
ghost use Rattle.request_core.specs.Answers.{is_memory, time_left_view};
ghost use Rattle.request_core.specs.Commands.{IsToldChange, StoresChange};
ghost use Rattle.request_core.specs.Refusing.{fault_without_memory};
ghost use Rattle.json_gateway.specs.Endings.{Declines, Ends, IsCounted, KeepsAs, Refuses, Settles};
ghost use Rattle.json_gateway.specs.Endings.{fault_of_reading, is_change, is_change_by};
ghost use Rattle.json_gateway.specs.Endings.{answered, is_physical, is_want, unanswered, worded};
ghost use Rattle.json_gateway.specs.Outcomes.{IsBare, is_accepted, wire_response};

use crate::outcome::{Outcome, Reply, ReplyBody, Settled};
use gateway_read::Reading;
use gateway_read::bad::Bad;
use gateway_text::{
    Wording, created_text, delete_text, granted_text, leases_text, put_text, range_text,
    refusal_text, refusal_wording, renewed_text, revoked_text, time_left_text, txn_text,
};
use kv_model::call::Command;
use kv_model::feed::{NoSink, Sink};
use kv_model::ids::Ids;
use kv_model::refusal::Refusal;
use lease_book::TimeLeft;
use request_core::answer::{Answer, Receipt};
use request_core::store::Core;
use std::alloc::{AllocError, Global};

/// Does one command on a core, and gives its outcome.
///
/// The answer is written after the command is done: where no memory is found for it and the command
/// changed the store, the outcome is `Lost`, and where it changed nothing, `Memory`. A refusal that
/// comes before memory is asked for is always told in its own words (`first`). At `Memory`
/// and at each refusal, whose status is not 200, the core is as it was, and neither a revision nor
/// a watch is told; so it is where an accepted command changes nothing. A change adds one to the
/// core's stamp.
pub fn perform(alloc: Global, core: &mut Core, command: &Command, ids: &Ids) -> Outcome
    ensures ends { (w : World) → StandsFor core.old.store w → Ends result core.old core.new w
        (response_to ids.now (perform_in w (call_of command.now)).0)
        (perform_in w (call_of command.now)).1
        (λ l. IsChange w (call_of command.now) l (made_in w (call_of command.now))) }
    ensures unchanged { is_accepted result.settled ≡ false → core.new ≡ core.old }
    ensures bare { IsBare result }
    ensures counted { (w : World) → StandsFor core.old.store w → is_accepted result.settled ≡ true
        → IsCounted (is_change w (call_of command.now) (made_in w (call_of command.now)))
        core.old core.new }
    ensures keeps { (w : World) → StandsFor core.old.store w → KeepsAs result.settled
        core.old core.new w (perform_in w (call_of command.now)).1 }
    ensures ready { is_accepted result.settled ≡ false → result.waits ≡ false }
    ensures waits { (w : World) → StandsFor core.old.store w → is_accepted result.settled ≡ true
        → result.waits ≡ is_physical_call w (Ok (call_of command.now)) }
    ensures first { (w : World) → StandsFor core.old.store w → (e : RefusalOf)
        → fault_without_memory w (call_of command.now) ≡ Some e
        → wire_response result.settled ≡ refused (fault_of e) }
{
    perform_to(alloc, core, command, ids, &mut NoSink)
}

/// The same, with a sink that is told what changes before it stands: in each world that the core
/// stood for it is told the change that the model's step makes, one operation or none (`told`), and
/// what is kept is what was kept with just that change (`stored`). Where the command is not
/// accepted, or changes nothing, it is told nothing (`untold`).
///
/// A sink that finds no memory makes the outcome `Memory`.
pub fn perform_to<S: Sink>(
    alloc: Global,
    core: &mut Core,
    command: &Command,
    ids: &Ids,
    sink: &mut S,
) -> Outcome
    ensures ends { (w : World) → StandsFor core.old.store w → Ends result core.old core.new w
        (response_to ids.now (perform_in w (call_of command.now)).0)
        (perform_in w (call_of command.now)).1
        (λ l. IsChange w (call_of command.now) l (made_in w (call_of command.now))) }
    ensures unchanged { is_accepted result.settled ≡ false → core.new ≡ core.old }
    ensures bare { IsBare result }
    ensures counted { (w : World) → StandsFor core.old.store w → is_accepted result.settled ≡ true
        → IsCounted (is_change w (call_of command.now) (made_in w (call_of command.now)))
        core.old core.new }
    ensures keeps { (w : World) → StandsFor core.old.store w → KeepsAs result.settled
        core.old core.new w (perform_in w (call_of command.now)).1 }
    ensures ready { is_accepted result.settled ≡ false → result.waits ≡ false }
    ensures waits { (w : World) → StandsFor core.old.store w → is_accepted result.settled ≡ true
        → result.waits ≡ is_physical_call w (Ok (call_of command.now)) }
    ensures told { is_accepted result.settled ≡ true
        → IsToldChange S.takes core.old.store (call_of command.now) sink.old sink.new }
    ensures stored { is_accepted result.settled ≡ true
        → StoresChange core.old core.new (call_of command.now) }
    ensures untold { (w : World) → StandsFor core.old.store w
        → is_accepted result.settled ≡ false → sink.new ≡ sink.old }
    ensures first { (w : World) → StandsFor core.old.store w → (e : RefusalOf)
        → fault_without_memory w (call_of command.now) ≡ Some e
        → wire_response result.settled ≡ refused (fault_of e) }
{
    match core.apply_to(command, sink) {
        Ok(receipt) => Outcome {
            settled: settled(alloc, core, &receipt, ids),
            raised: receipt.raised,
            watch: receipt.watch,
            waits: waits(command, &receipt),
        },
        Err(refusal) => Outcome {
            settled: declined(refusal),
            raised: None,
            watch: None,
            waits: false,
        },
    }
}

/// Does what a request asks on a core, and gives its outcome. A request that is not read is
/// refused, and all that `perform` says of a refusal holds of it.
pub fn post(alloc: Global, core: &mut Core, path: &[u8], body: &[u8], ids: &Ids) -> Outcome
    ensures ends { (w : World) → StandsFor core.old.store w → Ends result core.old core.new w
        (reply_to ids.now w path.now body.now).0 (reply_to ids.now w path.now body.now).1
        (λ l. IsChangeBy w l (request_of path.now body.now)) }
    ensures unchanged { is_accepted result.settled ≡ false → core.new ≡ core.old }
    ensures bare { IsBare result }
    ensures counted { (w : World) → StandsFor core.old.store w → is_accepted result.settled ≡ true
        → IsCounted (is_change_by w (request_of path.now body.now)) core.old core.new }
    ensures keeps { (w : World) → StandsFor core.old.store w → KeepsAs result.settled
        core.old core.new w (reply_to ids.now w path.now body.now).1 }
    ensures ready { is_accepted result.settled ≡ false → result.waits ≡ false }
    ensures waits { (w : World) → StandsFor core.old.store w → is_accepted result.settled ≡ true
        → result.waits ≡ is_physical_call w (request_of path.now body.now) }
{
    post_by(alloc, &mut Reading::new(alloc), core, path, body, ids)
}

/// The same, by what is kept from one body to the next.
pub(crate) fn post_by(
    alloc: Global,
    reading: &mut Reading,
    core: &mut Core,
    path: &[u8],
    body: &[u8],
    ids: &Ids,
) -> Outcome
    ensures ends { (w : World) → StandsFor core.old.store w → Ends result core.old core.new w
        (reply_to ids.now w path.now body.now).0 (reply_to ids.now w path.now body.now).1
        (λ l. IsChangeBy w l (request_of path.now body.now)) }
    ensures unchanged { is_accepted result.settled ≡ false → core.new ≡ core.old }
    ensures bare { IsBare result }
    ensures counted { (w : World) → StandsFor core.old.store w → is_accepted result.settled ≡ true
        → IsCounted (is_change_by w (request_of path.now body.now)) core.old core.new }
    ensures keeps { (w : World) → StandsFor core.old.store w → KeepsAs result.settled
        core.old core.new w (reply_to ids.now w path.now body.now).1 }
    ensures ready { is_accepted result.settled ≡ false → result.waits ≡ false }
    ensures waits { (w : World) → StandsFor core.old.store w → is_accepted result.settled ≡ true
        → result.waits ≡ is_physical_call w (request_of path.now body.now) }
{
    match reading.read(alloc, path, body) {
        Ok(command) => perform(alloc, core, &command, ids),
        Err(bad) => Outcome {
            settled: dismissed(alloc, bad),
            raised: None,
            watch: None,
            waits: false,
        },
    }
}

/// Whether a command, where it is accepted, is answered once trimming is done.
fn is_physical(command: &Command) -> bool
    ensures { result ≡ is_physical (call_of command.now) }
{
    match command {
        Command::Compact { physical, .. } => *physical,
        _ => false,
    }
}

/// Whether the answer to an accepted command waits until trimming is done: it is a physical
/// Compact.
fn waits(command: &Command, receipt: &Receipt<'_>) -> bool
    ensures { result ≡ (is_physical (call_of command.now) && has_changed receipt.now) }
{
    is_physical(command) && receipt.has_changed()
}

/// How an accepted command ends.
fn settled(alloc: Global, core: &Core, receipt: &Receipt<'_>, ids: &Ids) -> Settled
    requires { IsReadable receipt.now core.now }
    ensures { Settles result (success_response ids.now (answer_of receipt.now core.now))
        (has_changed receipt.now) receipt.now.revision }
{
    answered(answer_text(alloc, core, receipt, ids), receipt)
}

/// How an accepted command ends, by the body of its answer, if memory was found for it. Takes no
/// memory.
fn answered(made: Result<Vec<u8>, AllocError>, receipt: &Receipt<'_>) -> Settled
    ensures { result ≡ answered made (has_changed receipt.now) receipt.now.revision }
{
    match made {
        Ok(bytes) => Settled::Reply(Reply {
            status: 200,
            body: ReplyBody::Made(bytes),
        }),
        Err(_) => unanswered(receipt),
    }
}

/// How an accepted command ends whose answer found no memory.
fn unanswered(receipt: &Receipt<'_>) -> Settled
    ensures { result ≡ unanswered (has_changed receipt.now) receipt.now.revision }
{
    if receipt.has_changed() {
        Settled::Lost(receipt.revision)
    } else {
        Settled::Memory
    }
}

/// The body of the answer to an accepted command.
fn answer_text(
    alloc: Global,
    core: &Core,
    receipt: &Receipt<'_>,
    ids: &Ids,
) -> Result<Vec<u8>, AllocError>
    requires { IsReadable receipt.now core.now }
    ensures { IfOk result (λ v.
        v.items ≡ (success_response ids.now (answer_of receipt.now core.now)).body) }
{
    let answer = core.answer(receipt)?;
    text(alloc, &answer, ids)
}

/// The JSON text of an answer (the etcd documentation, "gRPC gateway"), written once into one
/// buffer.
///
/// `AllocError` comes where that buffer finds no memory.
pub fn text(alloc: Global, answer: &Answer<'_>, ids: &Ids) -> Result<Vec<u8>, AllocError>
    ensures { IfOk result (λ v. v.items ≡ (success_response ids.now (answer_view answer.now)).body) }
{
    match answer {
        Answer::Range(reply) => range_text(alloc, reply, ids),
        Answer::Put { revision, previous } => put_text(alloc, *revision, *previous, ids),
        Answer::Delete {
            revision,
            deleted,
            previous,
        } => delete_text(alloc, *revision, *deleted, previous, ids),
        Answer::Txn {
            revision,
            succeeded,
            replies,
        } => txn_text(alloc, *revision, *succeeded, replies, ids),
        Answer::Grant { revision, id, ttl } => granted_text(alloc, *revision, *id, *ttl, ids),
        Answer::Revoke { revision } => revoked_text(alloc, *revision, ids),
        Answer::KeepAlive { revision, id, ttl } => {
            renewed_text(alloc, *revision, *id, *ttl, ids)
        }
        Answer::TimeToLive {
            revision,
            id,
            left,
            keys,
        } => left_text(alloc, *revision, *id, *left, keys, ids),
        Answer::Leases {
            revision,
            ids: leases,
        } => leases_text(alloc, *revision, leases, ids),
        Answer::Compact { revision } => compacted_text(alloc, *revision, ids),
        Answer::Watch { revision, id, .. } => created_text(alloc, *revision, *id, ids),
    }
}

/// The text of a Compact's answer, with the revision after it: the header alone, as of a revoke.
#[tactic(auto, unfolding(kv_model::specs::Answers::reply_text))]
fn compacted_text(alloc: Global, revision: u64, ids: &Ids) -> Result<Vec<u8>, AllocError>
    ensures { IfOk result (λ v. v.items ≡ (success_response ids.now
        (record { reply = CompactReply; revision = revision })).body) }
{
    revoked_text(alloc, revision, ids)
}

/// The text of a time to live: whether the lease is granted, and what it still has.
fn left_text(
    alloc: Global,
    revision: u64,
    id: i64,
    left: Option<TimeLeft>,
    keys: &[&[u8]],
    ids: &Ids,
) -> Result<Vec<u8>, AllocError>
    ensures { IfOk result (λ v. v.items ≡ (success_response ids.now
        (record {
          reply = time_left_view id left (map (λ k. k.now) keys.now);
          revision = revision;
        })).body) }
{
    match left {
        Some(left) => time_left_text(
            alloc,
            revision,
            id,
            Some(left.seconds),
            left.granted,
            keys,
            ids,
        ),
        None => time_left_text(alloc, revision, id, None, 0, keys, ids),
    }
}

/// How a refused command ends: in exactly the words of the refusal, and as `Memory` only where memory
/// was wanting for the command itself (`declines`). Takes no memory.
pub fn declined(refusal: Refusal) -> Settled
    ensures declines { Declines result refusal }
    ensures refuses { Refuses result (is_memory refusal) (fault_of refusal) }
    ensures told { wire_response result ≡ refused (fault_of refusal) }
{
    if refusal == Refusal::Memory {
        return Settled::Memory;
    }
    Settled::Reply(Reply {
        status: refusal_wording(refusal).status,
        body: ReplyBody::Of(refusal),
    })
}

/// How a request ends that [`read`](crate::read) gives no command for: refused in the words of that
/// fault, or `Memory`, where memory was wanting to read it or for the text of its refusal.
pub fn dismissed(alloc: Global, bad: Bad) -> Settled
    ensures { Refuses result (is_want bad) (fault_of_reading bad) }
{
    if bad == Bad::Memory {
        return Settled::Memory;
    }
    refused(alloc, &bad_wording(bad))
}

/// How a request ends that is refused in these words, where its text may find no memory.
fn refused(alloc: Global, wording: &Wording<'_>) -> Settled
    ensures { Refuses result false (wording_view wording.now) }
{
    worded(wording.status, refusal_text(alloc, wording))
}

/// How a request ends that is refused with this status, by the body of the refusal, if memory was
/// found for it. Takes no memory.
fn worded(status: u16, made: Result<Vec<u8>, AllocError>) -> Settled
    ensures { result ≡ worded status made }
{
    match made {
        Ok(bytes) => Settled::Reply(Reply {
            status,
            body: ReplyBody::Made(bytes),
        }),
        Err(_) => Settled::Memory,
    }
}

/// What a request that is not read is told. Takes no memory.
fn bad_wording(bad: Bad) -> Wording<'static>
    ensures { wording_view result ≡ fault_of_reading bad }
{
    match bad {
        Bad::NotJson => Wording::not_json(),
        Bad::BadField(field) => Wording::bad_field(field.snake()),
        Bad::BadBase64(field) => Wording::bad_base64(field.snake()),
        Bad::NoPath => Wording::no_path(),
        Bad::TooLong => Wording::too_long(),
        Bad::Memory => refusal_wording(Refusal::Memory),
    }
}
