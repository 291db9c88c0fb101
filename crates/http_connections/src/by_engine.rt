//! An engine answers a connection, on behalf of one of its clients.
ghost use Rattle.std.specs.Prelude.{◌≡◌, ◌⊎◌, None, false, MatchOption};
ghost use Rattle.json_gateway.specs.Endings.{Refuses, fault_of_reading, is_want};
ghost use Rattle.http_connections.specs.Engines as engines;
ghost use Rattle.http_input.specs.Inputs.{request_view};
ghost use Rattle.engine_lock.specs.Locked.{Caller};
ghost use Rattle.http_connections.specs.Engines.{AnswersFirst, AreTrimmed, Awaits, IsQuiet, Looks, Posts, Says};
ghost use Rattle.http_connections.specs.Engines.{SubmitsAlone, SubmitsFirst, lost_answer};

use crate::beside::looked;
use engine_lock::{Asked, Client, EngineName, Submitted};
use gateway_read::Reading;
use http_input::Request;
use http_loop::{Answering, Told, command_path};
use http_peer::{Clock, Gate};
use json_gateway::{Bad, Message, Outcome, Settled, Trim, dismissed, read};
use recorded_engine::GatedEngine;
use std::alloc::Global;
use std::sync::Wait;
use std::time::Duration;
use std::{thread, time};

/// How long a watch rests once it is told nothing, in milliseconds.
const WATCH_REST: u64 = 20;

/// After so many refusals of a trimming step in a row the answer that waits for it is lost.
pub(crate) const MOST_REFUSALS: u64 = 1000;

/// What answers a connection: an engine, which others change too, for one of its clients.
#[derive(Drop)]
pub struct ByEngine<'e, L: EngineName, G, C, R> {
    pub events: GatedEngine<'e, L, G, R>,
    pub clock: &'e C,
    /// The number of the connection.
    pub call: u64,
}

impl<'e, L, G, C, R> Answering<Client<L>> for ByEngine<'e, L, G, C, R>
where
    L: EngineName,
    G: Gate,
    C: Clock,
    R: Wait + time::Clock,
{
    ghost Answers = { λ by. engines.Answers by.events.engine.now.ids L.recorded (C.Tells by.clock.now) };

    ghost Tells = { λ by. engines.Tells by.events.engine.now.ids (G.Left by.events.gate.now by.call) };

    ghost Finishes = { λ by. engines.Finishes by.events.engine.now.ids };

    fn awaits(&self) {
        self.events.gate.awaits(self.call);
    }

    /// Does the command that a request asks for, once the gate lets it, at the clock's moment.
    fn answer(&self, alloc: Global, state: &mut Client<L>, request: &Request<'_>) -> Outcome {
        let mut reading = Reading::new(alloc);
        let submitted = self.begin(alloc, state, &mut reading, request);
        awaited(&self.events, state, submitted)
    }

    /// The next message of a watch. It rests where there is none, or where no memory was found for
    /// it, each of which is a delivery of its own, and then the stream ends where the client has left.
    fn tell(&self, _alloc: Global, state: &mut Client<L>, number: u64) -> Told {
        for _ in self.events.rt.forever() {
            if let Some(told) = told_next(&self.events, state, number) {
                return told;
            }
            thread::sleep(self.events.rt, Duration::from_millis(WATCH_REST));
            if self.events.gate.has_left(self.call) {
                return Told::End;
            }
        }
        unreachable!()
    }

    fn finish(&self, state: &mut Client<L>, watch: Option<u64>) {
        if let Some(number) = watch {
            let _ = self.events.drop_watch(state, number);
        }
        self.events.gate.after(self.call);
    }
}

impl<'e, L, G, C, R> ByEngine<'e, L, G, C, R>
where
    L: EngineName,
    G: Gate,
    C: Clock,
    R: Wait + time::Clock,
{
    /// Does the command that a request asks for, as [`Answering::answer`] does, but for the trimming
    /// that its answer waits for, where its outcome says that it waits. What is kept from one body to the
    /// next spares each its clearing.
    pub(crate) fn begin(
        &self,
        alloc: Global,
        client: &mut Client<L>,
        reading: &mut Reading,
        request: &Request<'_>,
    ) -> Submitted
        ensures { AnswersFirst self.now.events.engine.now.ids L.recorded (C.Tells self.now.clock.now)
            client.old (request_view request.now) result client.new }
    {
        self.events.gate.before(self.call);
        let path = command_path(request);
        match reading.read(alloc, path, request.body) {
            Ok(command) => {
                let now = self.clock.now();
                let asked = Asked::by(&command, path, request.body);
                begun(&self.events, self.clock, alloc, client, now, &asked)
            }
            Err(bad) => at_once(refused(alloc, bad)),
        }
    }
}

/// Does the command that a request asks for, at the moment `now`, which the clock told: reads a Range
/// beside the engine where it can be, and else submits it. The trimming that its answer waits for is not
/// done.
fn begun<L: EngineName, G: Gate, C: Clock, R: Wait>(
    events: &GatedEngine<'_, L, G, R>,
    clock: &C,
    alloc: Global,
    client: &mut Client<L>,
    now: u64,
    asked: &Asked<'_>,
) -> Submitted
    requires { C.Tells clock.now now }
    ensures { SubmitsFirst events.now.engine.now.ids (C.Tells clock.now) client.old asked.now result client.new
        ⊎ Looks events.now.engine.now.ids L.recorded (C.Tells clock.now) client.old asked.now.command
        result.outcome client.new }
{
    match looked(events, clock, alloc, client, now, asked.command()) {
        Some(outcome) => at_once(outcome),
        None => events.submit_request(client, now, asked),
    }
}

/// What a request came to that made no change.
fn at_once(outcome: Outcome) -> Submitted
    ensures { result.outcome ≡ outcome }
{
    Submitted {
        outcome,
        published: true,
        revision: 0,
    }
}

/// What the stream of a watch is told next; `None` where it is told nothing, or no memory was found.
fn told_next<L: EngineName, G: Gate, R: Wait>(
    events: &GatedEngine<'_, L, G, R>,
    client: &mut Client<L>,
    number: u64,
) -> Option<Told>
    ensures { MatchOption result (IsQuiet events.now.engine.now.ids number client.old client.new)
        (λ t. Says events.now.engine.now.ids number client.old t client.new) }
{
    match events.deliver(client, number) {
        Ok(Message::Text(text)) => Some(Told::Text(text)),
        Ok(Message::NoWatch) => Some(Told::End),
        Ok(Message::Nothing) => None,
        Err(_) => None,
    }
}

/// The outcome of a request that asks for no command.
fn refused(alloc: Global, bad: Bad) -> Outcome
    ensures refuses { Refuses result.settled (is_want bad) (fault_of_reading bad) }
    ensures bare { (result.raised ≡ None) × (result.watch ≡ None) × (result.waits ≡ false) }
{
    Outcome {
        settled: dismissed(alloc, bad),
        raised: None,
        watch: None,
        waits: false,
    }
}

/// Does what a POST of this body to this path asks for on behalf of a client, as an event of a script
/// is done: its command is submitted, a Range too, at the engine's clock, and the trimming that its
/// answer waits for is done. Where it asks for no command it is refused, and no event is made.
pub fn post<L: EngineName, G: Gate, R: Wait>(
    events: &GatedEngine<'_, L, G, R>,
    alloc: Global,
    client: &mut Client<L>,
    path: &[u8],
    body: &[u8],
) -> Outcome
    ensures { Posts events.now.engine.now.ids client.old path.now body.now result client.new }
{
    match read(alloc, path, body) {
        Ok(command) => {
            let asked = Asked::by(&command, path, body);
            submit_alone(events, client, &asked)
        }
        Err(bad) => refused(alloc, bad),
    }
}

/// Submits a command at the engine's clock, as the moment 0 leaves that, and does the trimming that its
/// answer waits for.
fn submit_alone<L: EngineName, G: Gate, R: Wait>(
    events: &GatedEngine<'_, L, G, R>,
    client: &mut Client<L>,
    asked: &Asked<'_>,
) -> Outcome
    ensures { SubmitsAlone events.now.engine.now.ids client.old asked.now result client.new }
{
    let submitted = events.submit_request(client, 0, asked);
    awaited(events, client, submitted)
}

/// The outcome of a command, once the trimming is done that its answer waits for.
fn awaited<L: EngineName, G: Gate, R: Wait>(
    events: &GatedEngine<'_, L, G, R>,
    client: &mut Client<L>,
    submitted: Submitted,
) -> Outcome
    ensures { Awaits Caller (AreTrimmed events.now.engine.now.ids 0) submitted result client.old client.new }
{
    if submitted.outcome.waits {
        if trim_all(events, client) {
            return submitted.outcome;
        }
        return lost(submitted);
    }
    submitted.outcome
}

/// The outcome of a command that changed the store, and whose answer is lost.
fn lost(submitted: Submitted) -> Outcome
    ensures { result ≡ lost_answer submitted }
{
    Outcome {
        settled: Settled::Lost(submitted.revision),
        raised: submitted.outcome.raised,
        watch: submitted.outcome.watch,
        waits: false,
    }
}

/// Makes trimming steps until one says that trimming is done, and says that it is. One that is
/// refused for memory is tried again; after 1,000 refusals in a row it is given up. Each step that is
/// not refused is an event of the client.
fn trim_all<L: EngineName, G: Gate, R: Wait>(
    events: &GatedEngine<'_, L, G, R>,
    client: &mut Client<L>,
) -> bool
    ensures { AreTrimmed events.now.engine.now.ids 0 result client.old client.new }
{
    let mut refusals = 0;
    for _ in events.rt.forever() {
        match events.trim_once(client) {
            Ok(Trim::Done(_)) => return true,
            Ok(_) => refusals = 0,
            Err(_) => {
                refusals += 1;
                if refusals == MOST_REFUSALS {
                    return false;
                }
            }
        }
    }
    unreachable!()
}
