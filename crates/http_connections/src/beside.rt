//! Ranges, which a client reads beside the engine.
ghost use Rattle.std.specs.Prelude.{◌≡◌, true, false, None, Ok, Result, IfSome, IfNone, MatchBool};
ghost use Rattle.range_view.specs.Replies.{reply_view};
ghost use Rattle.kv_model.specs.declared.refusal.Refusal.{Refusal as RefusalOf};
ghost use Rattle.kv_model.specs.declared.call.Command.TheVariants as commands;
ghost use Rattle.kv_model.specs.Ranges as ranges;
ghost use Rattle.engine_lock.specs.Locked.{left};
ghost use Rattle.http_connections.specs.Engines.{Begins, CatchesUp, IsAnswer, Looks, LooksUp, Reads, ReadsOn, SettlesAs};
ghost use Rattle.http_connections.specs.Engines.{Starts, Stays, answer_over, response_over};
ghost use Rattle.store_laws.specs.Changes.{untrimmed};
ghost use Rattle.event_book.specs.Events.{led_to};
ghost use Rattle.json_gateway.specs.declared.outcome.Settled.TheVariants as replies;
ghost use Rattle.json_gateway.specs.declared.outcome.ReplyBody.TheVariants as bodies;

use engine_lock::{Client, EngineName};
use http_peer::{Clock, Gate};
use json_gateway::{Ids, Outcome, Refusal, Reply, ReplyBody, Settled, declined, range_text};
use kv_model::call::{Command, RangeQuery};
use long_ranges::{Unparted, is_long, may_be_parted, read_in_parts};
use range_view::RangeReply;
use recorded_engine::GatedEngine;
use std::alloc::Global;
use std::sync::Wait;

/// Answers a command beside the engine, where it is a Range (the etcd documentation's RangeRequest)
/// and the client has an entry to what is published; `None` where it has to be submitted. The
/// reading is left as soon as the answer's text is made.
///
/// A serializable Range begins with what the client has read and was told of. Any other is answered
/// once the client was told of all that the engine has done at the moment `now`; where events are
/// written down it is submitted, so that its line stands where it was answered.
///
/// The cost is that of [`Engine::catch_up`] for a Range that is not serializable, that of
/// `View::range`, twice where it is read in parts, and linear in the text. A serializable one waits for
/// nobody; and no writer waits for longer than a part takes, but where a Range has to be read whole.
pub(crate) fn looked<L: EngineName, G: Gate, C: Clock, R: Wait>(
    events: &GatedEngine<'_, L, G, R>,
    clock: &C,
    alloc: Global,
    client: &mut Client<L>,
    now: u64,
    command: &Command,
) -> Option<Outcome>
    requires { C.Tells clock.now now }
    ensures looks { IfSome result (λ o. Looks events.now.engine.now.ids L.recorded (C.Tells clock.now)
        client.old command.now o client.new) }
    ensures none { IfNone result (Starts events.now.engine.now.ids (C.Tells clock.now) command.now
        client.old client.new) }
{
    match range_of(command) {
        Some(query) => looked_up(events, clock, alloc, client, now, query),
        None => None,
    }
}

/// The Range that a command is.
fn range_of(command: &Command) -> Option<&RangeQuery>
    ensures { IfSome result (λ q. command.now ≡ commands.Range q.now) }
{
    match command {
        Command::Range(query) => Some(query),
        _ => None,
    }
}

/// Answers a Range beside the engine; `None` where it has to be submitted.
fn looked_up<L: EngineName, G: Gate, C: Clock, R: Wait>(
    events: &GatedEngine<'_, L, G, R>,
    clock: &C,
    alloc: Global,
    client: &mut Client<L>,
    now: u64,
    query: &RangeQuery,
) -> Option<Outcome>
    requires { C.Tells clock.now now }
    ensures looks { IfSome result (λ o. LooksUp events.now.engine.now.ids L.recorded (C.Tells clock.now)
        client.old query.now o client.new) }
    ensures none { IfNone result
        (Stays events.now.engine.now.ids (C.Tells clock.now) client.old client.new) }
{
    if !may_begin(events, clock, client, now, query) {
        return None;
    }
    read_beside(alloc, client, query, events.engine.ids())
}

/// Whether a Range may be answered by what is published from now on, once the client was told of
/// all that the engine has done where the Range asks for that.
fn may_begin<L: EngineName, G: Gate, C: Clock, R: Wait>(
    events: &GatedEngine<'_, L, G, R>,
    clock: &C,
    client: &mut Client<L>,
    now: u64,
    query: &RangeQuery,
) -> bool
    requires { C.Tells clock.now now }
    ensures { MatchBool result (Begins events.now.engine.now.ids L.recorded (C.Tells clock.now)
        query.now.serializable client.old client.new)
        (Stays events.now.engine.now.ids (C.Tells clock.now) client.old client.new) }
{
    query.serializable || is_caught_up(events, clock, client, now)
}

/// Whether the client was told of all that the engine has done, by an event at the moment `now`. It is
/// not where events are written down: the Range is to be one of them.
fn is_caught_up<L: EngineName, G: Gate, C: Clock, R: Wait>(
    events: &GatedEngine<'_, L, G, R>,
    clock: &C,
    client: &mut Client<L>,
    now: u64,
) -> bool
    requires { C.Tells clock.now now }
    ensures { MatchBool result ((L.recorded ≡ false)
        × CatchesUp events.now.engine.now.ids (C.Tells clock.now) true client.old client.new)
        (Stays events.now.engine.now.ids (C.Tells clock.now) client.old client.new) }
{
    let _ = clock;
    if events.is_recorded() {
        client.leave();
        return false;
    }
    events.engine.catch_up(events.rt, client, now)
}

/// Answers a Range from what is published, in parts where it has many keys; `None` where the client has no
/// entry to it.
fn read_beside<L: EngineName>(
    alloc: Global,
    client: &mut Client<L>,
    query: &RangeQuery,
    ids: &Ids,
) -> Option<Outcome>
    ensures reads { IfSome result (λ o. Reads ids.now client.old query.now o client.new) }
    ensures none { IfNone result (ReadsOn client.old client.old.reader.known client.new) }
{
    if client.enter().is_err() {
        return None;
    }
    if !may_be_parted(query) || !is_long(client, query) {
        return Some(read_whole(alloc, client, query, ids));
    }
    match read_in_parts(alloc, client, query, ids) {
        Ok(text) => Some(read_as(answered(text))),
        Err(Unparted::Memory) => Some(read_as(Settled::Memory)),
        Err(Unparted::Whole) => read_again(alloc, client, query, ids),
    }
}

/// Answers a Range whole, where it was not read in parts to its end.
fn read_again<L: EngineName>(
    alloc: Global,
    client: &mut Client<L>,
    query: &RangeQuery,
    ids: &Ids,
) -> Option<Outcome>
    ensures reads { IfSome result (λ o. Reads ids.now client.old query.now o client.new) }
    ensures none { IfNone result (ReadsOn client.old client.old.reader.known client.new) }
{
    if client.enter().is_err() {
        return None;
    }
    Some(read_whole(alloc, client, query, ids))
}

/// Answers a Range from what the client's reading shows, which is then left.
fn read_whole<L: EngineName>(
    alloc: Global,
    client: &mut Client<L>,
    query: &RangeQuery,
    ids: &Ids,
) -> Outcome
    requires { client.old.reader.inside ≡ true }
    ensures settles { SettlesAs (response_over ids.now
        (answer_over (untrimmed (led_to client.old.reader.known)) query.now)) result.settled }
    ensures bare { (result.raised ≡ None) × (result.watch ≡ None) × (result.waits ≡ false) }
    ensures client { client.new ≡ left client.old }
{
    let settled = settled(alloc, client.range(alloc, query), ids);
    client.leave();
    read_as(settled)
}

/// What a Range came to that ended so.
fn read_as(settled: Settled) -> Outcome
    ensures { result ≡ record { settled = settled; raised = None; watch = None; waits = false } }
{
    Outcome {
        settled,
        raised: None,
        watch: None,
        waits: false,
    }
}

/// How a Range ends that has this text.
fn answered(text: Vec<u8>) -> Settled
    ensures { result ≡ replies.Reply (record { status = 200; body = bodies.Made text }) }
{
    Settled::Reply(Reply {
        status: 200,
        body: ReplyBody::Made(text),
    })
}

/// How a Range ends that was answered so.
fn settled(alloc: Global, answer: Result<RangeReply<'_>, Refusal>, ids: &Ids) -> Settled
    ensures { (told : Result ranges.RangeReply RefusalOf) → IsAnswer told answer.entry
        → SettlesAs (response_over ids.now told) result }
{
    match answer {
        Ok(reply) => replied(alloc, &reply, ids),
        Err(refusal) => declined(refusal),
    }
}

/// How a Range ends that has this reply.
fn replied(alloc: Global, reply: &RangeReply<'_>, ids: &Ids) -> Settled
    ensures { (told : Result ranges.RangeReply RefusalOf) → told ≡ Ok (reply_view reply.now)
        → SettlesAs (response_over ids.now told) result }
{
    match range_text(alloc, reply, ids) {
        Ok(bytes) => answered(bytes),
        Err(_) => Settled::Memory,
    }
}
