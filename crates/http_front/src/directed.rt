//! A server that somebody ends by hand: no clock, no expiry and no trimming of its own.
ghost use Rattle.std.specs.Prelude.{IfOk, IfErr};
ghost use Rattle.http_front.specs.Closed.{IsClosed};
ghost use Rattle.http_front.specs.Ends.{IsOfServer};

use crate::begun::{Begun, Limits};
use crate::duties::Duty;
use crate::threads::{
    Keeping, Made, Served, closed, join_all, join_streaming, made_of, start, start_all, with_client,
};
use engine_lock::{Client, Engine, EngineName};
use http_connections::StoppedClock;
use http_peer::Gate;
use http_reply::Front;
use http_streams::Waking;
use http_workers::Shared;
use request_core::store::Core;
use std::alloc::Global;
use std::net::{Net, TcpListener};
use std::sync::Wait;
use std::sync::atomic::Ordering;
use std::thread::{Scope, Threads};
use std::time::Duration;
use std::{thread, time};

/// How long a look at the connections is before the next one where the server ends, in milliseconds.
const LAST_REST: u64 = 20;

/// Who runs a server by hand.
pub trait Directing<L: EngineName> {
    /// Comes once the workers have started, on the thread that started them, with the client that the
    /// engine came with, and the gate that is to be told of its events. The server ends when this
    /// returns.
    fn direct<G: Gate>(&mut self, engine: &Engine<L>, client: &mut Client<L>, gate: &G);
}

/// Serves the connections that come in at a listener, as [`pool`](crate::pool) does, until a director
/// returns. Nothing goes on but what its requests and the director ask for: the moment that is
/// handed in with each request is 0, which leaves the engine's clock, no lease ends by itself, and no
/// trimming step is made but those that a physical Compact waits for.
///
/// When the director has returned, no further connection is let in; a connection on which no byte of
/// a next request has come is closed within some 100 ms, the stream of a watch ends at once, as far as
/// its client takes what is under way within two seconds, and a request that has begun to come is answered, if no second passes without a byte of it. Then
/// the engine is closed. The director may return after `connections` have come and gone, too: no
/// further one is let in, and the server still ends when it returns.
///
/// What the gate asks for is as by `pool`; it is for the director to tell the gate of its own events,
/// as [`GatedEngine`](crate::GatedEngine) does.
///
/// Fails as [`pool`](crate::pool) does, but has to have a client fewer; where a list or a thread is
/// wanting at the start, the director is not called.
pub fn pool_directed<L, G, D, R>(
    rt: &R,
    alloc: Global,
    begun: Begun<L>,
    gate: &G,
    director: &mut D,
    listener: &TcpListener,
    limits: Limits,
) -> Result<Core, Front>
where
    L: EngineName + Send + Sync,
    G: Gate + Sync,
    D: Directing<L>,
    R: Wait + Threads + time::Clock + Net + Sync,
    ensures closed { IfOk result (λ core. IsClosed begun.engine.ids core) }
    ensures fault { IfErr result IsOfServer }
{
    let Begun { engine, client } = begun;
    let mut engine = engine;
    let made = made_of(rt, alloc, &mut engine, listener, limits.workers)?;
    let Made {
        clients,
        keeping,
        handing,
        lines,
    } = made;
    let connections = limits.connections;
    let clock = &StoppedClock;
    let shared = Shared::new(&engine, gate, clock, listener, connections, lines, handing);
    let beside = Directed { client, keeping };
    let Served { clients, trouble } = run_directed(rt, alloc, &shared, clients, beside, director);
    drop(shared);
    closed(rt, engine, clients, trouble)
}

/// What those beside the workers of such a server begin with.
#[derive(Drop)]
struct Directed<L: EngineName> {
    /// The director's.
    client: Client<L>,
    keeping: Keeping<L>,
}

/// Starts the workers, lets the director run, and joins them.
fn run_directed<L, G, D, R>(
    rt: &R,
    alloc: Global,
    shared: &Shared<'_, L, G, StoppedClock>,
    clients: Vec<Client<L>>,
    beside: Directed<L>,
    director: &mut D,
) -> Served<L>
where
    L: EngineName + Send + Sync,
    G: Gate + Sync,
    D: Directing<L>,
    R: Wait + Threads + time::Clock + Net + Sync,
{
    thread::scope(thread::scope_env(), rt, move |scope| {
        serve_directed(scope, rt, alloc, shared, clients, beside, director)
    })
}

/// Serves until the director has returned, and hands all clients back.
fn serve_directed<'s, E, L, G, D, R>(
    scope: &Scope<'s, E>,
    rt: &'s R,
    alloc: Global,
    shared: &'s Shared<'s, L, G, StoppedClock>,
    clients: Vec<Client<L>>,
    beside: Directed<L>,
    director: &mut D,
) -> Served<L>
where
    L: EngineName + Send + Sync + 's,
    G: Gate + Sync + 's,
    D: Directing<L>,
    R: Wait + Threads + time::Clock + Net + Sync + 's,
{
    let Directed { client, keeping } = beside;
    let mut client = client;
    let Keeping {
        client: keeper,
        watching,
    } = keeping;
    let keeper = start(scope, rt, alloc, shared, keeper, Duty::Stream(watching));
    let (working, trouble) = start_all(scope, rt, alloc, shared, clients, keeper.is_some());
    if trouble.is_none() {
        let gate = Waking::new(shared.gate, &shared.handing, true);
        director.direct(shared.engine, &mut client, &gate);
    }
    shared.ended.store(true, Ordering::SeqCst);
    shared.handing.wake();
    end_lines(rt, shared);
    let served = join_all(rt, alloc, working, trouble);
    let served = join_streaming(rt, shared, served, keeper);
    with_client(served, client)
}

/// Lets no further connection in, and waits until all have ended: each ends after the request that it is
/// in, and those of which no byte of a next request has come at once.
fn end_lines<L: EngineName, G, C, R: Wait + time::Clock>(rt: &R, shared: &Shared<'_, L, G, C>) {
    let mut door = shared.door.lock(rt);
    door.shut();
    drop(door);
    shared.lines.shut();
    for _ in rt.forever() {
        shared.lines.look_at_end(rt);
        if shared.lines.is_empty() {
            break;
        }
        thread::sleep(rt, Duration::from_millis(LAST_REST));
    }
}
