//! `serve --from`: a server that goes on from a script, whose events are made before it lets a
//! connection in.
ghost use Rattle.std.specs.Prelude.{◌≡◌, [], IfOk, IfErr, OnOk};
ghost use Rattle.engine_lock.specs.Locked.{IsNew};
ghost use Rattle.commands.specs.Playing.{PlaysLines, StopsPlaying};
ghost use Rattle.commands.specs.Script.{line_events};
ghost use Rattle.command_line.specs.From.{IsBegun, IsPlayed, StopsBeginning};

use crate::control::Orders;
use commands::{Controlling, Fault, Order, Playing, play};
use engine_lock::{Client, Engine, EngineName};
use http_front::{Begun, Gate, GatedEngine, post};
use json_gateway::{WireEvent, WireOutcome};
use std::alloc::{AllocError, Global};
use std::net::TcpListener;
use std::sync::Wait;

/// Is told where a server begins.
pub trait Starts {
    /// The events that a server goes on from were made, and connections are let in from now on.
    fn starts(&self, listener: &TcpListener);
}

/// Nobody is told.
#[derive(Clone, Copy)]
pub struct Unheard;

impl Starts for Unheard {
    fn starts(&self, _listener: &TcpListener) {}
}

/// Where a server listens, and what it goes on from.
#[derive(Drop)]
pub struct Start<'s, T> {
    /// It listens there already.
    pub listener: &'s TcpListener,
    /// The script that it goes on from; an empty one where it begins with an empty store.
    pub script: Vec<u8>,
    /// Is told once the script was played.
    pub hears: &'s T,
}

impl<'s, T: Starts> Start<'s, T> {
    /// A server that begins with an empty store. Takes no memory.
    pub fn empty(alloc: Global, listener: &'s TcpListener, hears: &'s T) -> Self
        ensures { result.script.items ≡ [] }
    {
        Start {
            listener,
            script: Vec::new(alloc),
            hears,
        }
    }
}

/// Makes the events of a script on an engine, for one of its clients.
#[derive(Drop)]
struct Script<'e, L: EngineName, G, R> {
    alloc: Global,
    orders: Orders<'e, L, G, R>,
}

impl<'e, L: EngineName, G: Gate, R: Wait> Playing<Client<L>> for Script<'e, L, G, R> {
    ghost Makes = { λ by. IsPlayed by.orders.events.engine.now.ids };

    fn make(&self, state: &mut Client<L>, event: WireEvent<'_>) -> Result<WireOutcome, AllocError> {
        let events = &self.orders.events;
        match event {
            WireEvent::Post { path, body } => {
                Ok(WireOutcome::Posted(post(events, self.alloc, state, path, body)))
            }
            WireEvent::Deliver(number) => Ok(WireOutcome::Delivered(events.deliver(state, number))),
            WireEvent::Close(number) => {
                Ok(WireOutcome::Closed(events.drop_watch(state, number).is_ok()))
            }
            WireEvent::Moment(now) => self.orders.make(state, Order::Moment(now)),
            WireEvent::Expire => self.orders.make(state, Order::Expire),
            WireEvent::Trim => self.orders.make(state, Order::Trim),
            WireEvent::Certify => self.orders.make(state, Order::Certify),
        }
    }
}

/// The engine of a server once the events of its script were made on it, line by line, on behalf of
/// one client, with which the server goes on: each is an event of the list of all events, as an event
/// of a running server is, and has its line where those are written down. The script is let go then.
///
/// Fails with `Fault::Server` where the engine has no place for the client, and as [`play`] does.
pub(crate) fn begin<L: EngineName, G: Gate, R: Wait>(
    rt: &R,
    alloc: Global,
    engine: Engine<L>,
    gate: &G,
    script: Vec<u8>,
) -> Result<Begun<L>, Fault>
    ensures ids { IfOk result (λ begun. begun.engine.ids ≡ engine.ids) }
    ensures begins { OnOk result (IsBegun engine.ids (line_events script.items)) }
    ensures fault { IfErr result (StopsBeginning engine.ids (line_events script.items)) }
{
    match Begun::new(rt, engine) {
        Ok(begun) => went_on(rt, alloc, begun, gate, script.as_slice()),
        Err(front) => Err(Fault::Server(front)),
    }
}

/// The same, of an engine whose client has made no event yet.
fn went_on<L: EngineName, G: Gate, R: Wait>(
    rt: &R,
    alloc: Global,
    begun: Begun<L>,
    gate: &G,
    script: &[u8],
) -> Result<Begun<L>, Fault>
    requires { IsNew begun.client }
    ensures ids { IfOk result (λ b. b.engine ≡ begun.engine) }
    ensures begins { OnOk result (IsBegun begun.engine.ids (line_events script.now)) }
    ensures fault { IfErr result (StopsBeginning begun.engine.ids (line_events script.now)) }
{
    let Begun { engine, client } = begun;
    let mut client = client;
    match play_on(rt, alloc, &engine, &mut client, gate, script) {
        Ok(()) => Ok(Begun { engine, client }),
        Err(fault) => Err(fault),
    }
}

/// Plays a script on an engine, for one of its clients.
fn play_on<L: EngineName, G: Gate, R: Wait>(
    rt: &R,
    alloc: Global,
    engine: &Engine<L>,
    client: &mut Client<L>,
    gate: &G,
    script: &[u8],
) -> Result<(), Fault>
    ensures ok { OnOk result
        (PlaysLines (IsPlayed engine.now.ids) (line_events script.now) client.old client.new) }
    ensures fault { IfErr result (λ fault. StopsPlaying (IsPlayed engine.now.ids)
        (line_events script.now) client.old fault client.new) }
{
    let events = GatedEngine { rt, engine, gate };
    let script_of = Script {
        alloc,
        orders: Orders { events },
    };
    play(&script_of, client, script)
}
