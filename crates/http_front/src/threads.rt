//! The threads of a server.
ghost use Rattle.std.specs.Prelude.{◌≡◌, ◌+◌, length, None, Err, IfOk, IfErr, IfSome, OnOk, OnErr};
ghost use Rattle.engine_lock.specs.Entering.{Closes};
ghost use Rattle.engine_lock.specs.Locked.{IsNew};
ghost use Rattle.http_front.specs.Closed.{IsClosed};
ghost use Rattle.http_front.specs.Ends.{IsOfServer, fault_of};

use crate::begun::{Begun, Limits};
use crate::duties::{Duty, keep};
use engine_lock::{Client, Engine, EngineName};
use http_peer::{Clock, Gate};
use http_reply::Front;
use http_streams::{Handing, Watching};
use http_workers::{Lines, Shared};
use request_core::store::Core;
use std::alloc::Global;
use std::net::{Net, TcpListener};
use std::sync::Wait;
use std::sync::atomic::Ordering;
use std::thread::{JoinHandle, Scope, Threads};
use std::{thread, time};

/// Serves the connections that come in at a listener, and then closes the engine, and gives its
/// core: there is one history of events, each of one of some clients; the core stands for the world that
/// it leads to, and its revision is 1 plus all changes that these clients made (`IsClosed`).
///
/// It runs `workers` threads, of which any gives any connection its turns that is ready, until the
/// connection's end or until the stream of a watch has begun on it; one thread that looks after all such
/// streams; one that trims; and one that ends leases. Once `connections` of them were accepted, at most
/// 2^63 - 1, no further one is; the server ends when all of them have. As many wait at the listener as
/// the system allows; where it has no file for one, they wait until a connection ends.
///
/// No client keeps a worker: a request is answered once all of it is there, and what a client does not
/// take waits for it, while none of its further requests is read. A connection is never closed for being idle;
/// it ends where its client takes no byte of what waits for it for 10 s. An answer that waits for trimming
/// keeps no worker either. The stream of a watch keeps none: what its client sends after the request is
/// thrown away, it ends once that has ended its sending side, and a message is made only once the one
/// before has gone out. Want of memory for a connection ends that connection alone.
///
/// Fails, when all threads have ended, with
///
/// - `Front::Memory`, where the lists of clients and of threads find no memory: no connection is
///   accepted then, unless it was the list of the clients that came back at the end;
/// - `Front::Spawn`, where a thread could not be started, or the system has no file for the sets of
///   connections and streams: none is accepted then, either;
/// - `Front::Unclosed`, where the engine has no place for a client of each worker and three more, or
///   where it made clients beside these, which cannot come back.
pub fn pool<L, G, C, R>(
    rt: &R,
    alloc: Global,
    engine: Engine<L>,
    gate: &G,
    clock: &C,
    listener: &TcpListener,
    workers: u64,
    connections: u64,
) -> Result<Core, Front>
where
    L: EngineName + Send + Sync,
    G: Gate + Sync,
    C: Clock + Sync,
    R: Wait + Threads + time::Clock + Net + Sync,
    ensures closed { IfOk result (λ core. IsClosed engine.ids core) }
    ensures fault { IfErr result IsOfServer }
{
    let limits = Limits {
        workers,
        connections,
    };
    let begun = Begun::new(rt, engine)?;
    pool_begun(rt, alloc, begun, gate, clock, listener, limits)
}

/// As [`pool`], of an engine that has begun, with so many workers and connections as these limits say.
pub fn pool_begun<L, G, C, R>(
    rt: &R,
    alloc: Global,
    begun: Begun<L>,
    gate: &G,
    clock: &C,
    listener: &TcpListener,
    limits: Limits,
) -> Result<Core, Front>
where
    L: EngineName + Send + Sync,
    G: Gate + Sync,
    C: Clock + Sync,
    R: Wait + Threads + time::Clock + Net + Sync,
    ensures closed { IfOk result (λ core. IsClosed begun.engine.ids core) }
    ensures fault { IfErr result IsOfServer }
{
    let Begun {
        engine,
        client: expirer,
    } = begun;
    let mut engine = engine;
    let trimmer = client_of(rt, &mut engine)?;
    let made = made_of(rt, alloc, &mut engine, listener, limits.workers)?;
    let Made {
        clients,
        keeping,
        handing,
        lines,
    } = made;
    let connections = limits.connections;
    let shared = Shared::new(&engine, gate, clock, listener, connections, lines, handing);
    let beside = Beside {
        trimmer,
        expirer,
        keeping,
    };
    let Served { clients, trouble } = run_threads(rt, alloc, &shared, clients, beside);
    drop(shared);
    closed(rt, engine, clients, trouble)
}

/// What the workers and the thread that looks after streams begin with.
#[derive(Drop)]
pub(crate) struct Made<L: EngineName> {
    /// A client for each worker.
    pub(crate) clients: Vec<Client<L>>,
    pub(crate) keeping: Keeping<L>,
    pub(crate) handing: Handing,
    pub(crate) lines: Lines<L>,
}

/// What so many workers and the thread that looks after streams begin with.
pub(crate) fn made_of<L: EngineName, R: Wait + Threads + Net>(
    rt: &R,
    alloc: Global,
    engine: &mut Engine<L>,
    listener: &TcpListener,
    workers: u64,
) -> Result<Made<L>, Front>
    ensures fault { IfErr result IsOfServer }
    ensures ids { engine.new.ids ≡ engine.old.ids }
{
    let clients = clients_of(rt, alloc, engine, workers)?;
    made_by(rt, alloc, engine, listener, clients)
}

/// The same, where each worker has its client.
fn made_by<L: EngineName, R: Wait + Threads + Net>(
    rt: &R,
    alloc: Global,
    engine: &mut Engine<L>,
    listener: &TcpListener,
    clients: Vec<Client<L>>,
) -> Result<Made<L>, Front>
    ensures fault { IfErr result IsOfServer }
    ensures ids { engine.new.ids ≡ engine.old.ids }
{
    let lines = lines_of(rt, alloc, listener, clients.len() as u64)?;
    let (keeping, handing) = keeping_of(rt, alloc, engine)?;
    Ok(Made {
        clients,
        keeping,
        handing,
        lines,
    })
}

/// What the thread that looks after streams begins with.
#[derive(Drop)]
pub(crate) struct Keeping<L: EngineName> {
    pub(crate) client: Client<L>,
    pub(crate) watching: Watching,
}

/// What the threads beside the workers begin with.
#[derive(Drop)]
struct Beside<L: EngineName> {
    trimmer: Client<L>,
    expirer: Client<L>,
    keeping: Keeping<L>,
}

/// What the thread that looks after streams begins with, and by what streams are handed to it.
fn keeping_of<L: EngineName, R: Wait + Net>(
    rt: &R,
    alloc: Global,
    engine: &mut Engine<L>,
) -> Result<(Keeping<L>, Handing), Front>
    ensures made { OnOk result (engine.new ≡ record engine.old { clients = engine.old.clients + 1 }) }
    ensures fault { IfErr result IsOfServer }
    ensures ids { engine.new.ids ≡ engine.old.ids }
{
    let client = client_of(rt, engine)?;
    match Watching::new(rt, alloc) {
        Ok((watching, handing)) => Ok((Keeping { client, watching }, handing)),
        Err(_) => Err(Front::Spawn),
    }
}

/// What the workers wait with.
fn lines_of<L: EngineName, R: Net + Threads>(
    rt: &R,
    alloc: Global,
    listener: &TcpListener,
    workers: u64,
) -> Result<Lines<L>, Front>
    ensures fault { IfErr result IsOfServer }
{
    match Lines::new(rt, alloc, listener, workers, at_once(rt, workers)) {
        Ok(lines) => Ok(lines),
        Err(_) => Err(Front::Spawn),
    }
}

/// How many of so many threads look out for connections at once: one for each core, and two at least.
fn at_once<R: Threads>(rt: &R, workers: u64) -> u64 {
    let cores = match thread::available_parallelism(rt) {
        Ok(cores) => cores.get() as u64,
        Err(_) => 2,
    };
    workers.min(cores.max(2))
}

/// Why a server ends before its connections do.
#[derive(Clone, Copy, PartialEq, Eq)]
pub(crate) enum Trouble {
    /// A thread could not be started.
    Spawn,
    /// A list found no memory.
    Memory,
}

/// The same, as a fault.
fn front_of(trouble: Trouble) -> Front
    ensures of_server { IsOfServer result }
    ensures same { result ≡ fault_of trouble }
{
    match trouble {
        Trouble::Spawn => Front::Spawn,
        Trouble::Memory => Front::Memory,
    }
}

/// A client.
fn client_of<L: EngineName, R: Wait>(rt: &R, engine: &mut Engine<L>) -> Result<Client<L>, Front>
    ensures new { IfOk result IsNew }
    ensures made { OnOk result (engine.new ≡ record engine.old { clients = engine.old.clients + 1 }) }
    ensures unmade { OnErr result (engine.new ≡ engine.old) }
    ensures fault { IfErr result IsOfServer }
{
    match engine.client(rt) {
        Ok(client) => Ok(client),
        Err(_) => Err(Front::Unclosed),
    }
}

/// So many clients, and no others.
fn clients_of<L: EngineName, R: Wait>(
    rt: &R,
    alloc: Global,
    engine: &mut Engine<L>,
    count: u64,
) -> Result<Vec<Client<L>>, Front>
    ensures count { IfOk result (λ clients. length clients.items ≡ count) }
    ensures made { OnOk result
        (engine.new ≡ record engine.old { clients = engine.old.clients + count }) }
    ensures fault { IfErr result IsOfServer }
    ensures ids { engine.new.ids ≡ engine.old.ids }
{
    let mut clients = Vec::new(alloc);
    for _ in 0..count {
        let client = client_of(rt, engine)?;
        if clients.push(client).is_err() {
            return Err(Front::Memory);
        }
    }
    Ok(clients)
}

/// Closes an engine whose threads have ended, and gives its core: the world that it stands for is
/// that of the history of all that was done, each event of which is of one of these clients.
pub(crate) fn closed<L: EngineName, R: Wait>(
    rt: &R,
    engine: Engine<L>,
    clients: Vec<Client<L>>,
    trouble: Option<Trouble>,
) -> Result<Core, Front>
    ensures closed { IfOk result (λ core. IsClosed engine.ids core) }
    ensures closes { IfOk result (λ core. Closes engine.ids core clients.items) }
    ensures told { IfSome trouble (λ t. result ≡ Err (fault_of t)) }
    ensures fault { IfErr result IsOfServer }
{
    match (engine.close(rt, clients), trouble) {
        (_, Some(trouble)) => Err(front_of(trouble)),
        (Ok(core), None) => Ok(core),
        (Err(_), None) => Err(Front::Unclosed),
    }
}

/// What is left when the threads have ended: the clients that came back, and what went wrong.
#[derive(Drop)]
pub(crate) struct Served<L: EngineName> {
    pub(crate) clients: Vec<Client<L>>,
    pub(crate) trouble: Option<Trouble>,
}

/// Starts the threads, and joins them.
fn run_threads<L, G, C, R>(
    rt: &R,
    alloc: Global,
    shared: &Shared<'_, L, G, C>,
    clients: Vec<Client<L>>,
    beside: Beside<L>,
) -> Served<L>
where
    L: EngineName + Send + Sync,
    G: Gate + Sync,
    C: Clock + Sync,
    R: Wait + Threads + time::Clock + Sync,
{
    thread::scope(thread::scope_env(), rt, move |scope| {
        serve_beside(scope, rt, alloc, shared, clients, beside)
    })
}

/// Serves, with the threads beside the workers, which end behind them.
fn serve_beside<'s, E, L, G, C, R>(
    scope: &Scope<'s, E>,
    rt: &'s R,
    alloc: Global,
    shared: &'s Shared<'s, L, G, C>,
    clients: Vec<Client<L>>,
    beside: Beside<L>,
) -> Served<L>
where
    L: EngineName + Send + Sync + 's,
    G: Gate + Sync + 's,
    C: Clock + Sync + 's,
    R: Wait + Threads + time::Clock + Sync + 's,
{
    let Beside {
        trimmer,
        expirer,
        keeping,
    } = beside;
    let Keeping { client, watching } = keeping;
    let trimmer = start(scope, rt, alloc, shared, trimmer, Duty::Trim);
    let expirer = start(scope, rt, alloc, shared, expirer, Duty::Expire);
    let keeper = start(scope, rt, alloc, shared, client, Duty::Stream(watching));
    let all = trimmer.is_some() && expirer.is_some() && keeper.is_some();
    let (working, trouble) = start_all(scope, rt, alloc, shared, clients, all);
    let served = join_all(rt, alloc, working, trouble);
    let served = join_streaming(rt, shared, served, keeper);
    shared.ended.store(true, Ordering::SeqCst);
    let served = join_one(rt, served, expirer);
    join_one(rt, served, trimmer)
}

/// Joins the thread that looks after streams, once no further one is handed to it.
pub(crate) fn join_streaming<L: EngineName, G, C, R: Threads>(
    rt: &R,
    shared: &Shared<'_, L, G, C>,
    served: Served<L>,
    keeper: Option<JoinHandle<Client<L>>>,
) -> Served<L> {
    shared.handing.close();
    join_one(rt, served, keeper)
}

/// Joins a thread, if it was started.
fn join_one<L: EngineName, R: Threads>(
    rt: &R,
    served: Served<L>,
    thread: Option<JoinHandle<Client<L>>>,
) -> Served<L> {
    match thread {
        Some(handle) => with_client(served, handle.join(rt)),
        None => served,
    }
}

/// Starts a worker for each client, and tells why one has none. No connection comes in before all
/// are started, and none where one is not, or where those beside them were not all started.
pub(crate) fn start_all<'s, E, L, G, C, R>(
    scope: &Scope<'s, E>,
    rt: &'s R,
    alloc: Global,
    shared: &'s Shared<'s, L, G, C>,
    clients: Vec<Client<L>>,
    all: bool,
) -> (Vec<JoinHandle<Client<L>>>, Option<Trouble>)
where
    L: EngineName + Send + Sync + 's,
    G: Gate + Sync + 's,
    C: Clock + Sync + 's,
    R: Wait + Threads + time::Clock + Sync + 's,
{
    let mut guard = shared.door.lock(rt);
    let (working, trouble) = start_workers(scope, rt, alloc, shared, clients);
    let trouble = if all { trouble } else { Some(Trouble::Spawn) };
    if trouble.is_some() {
        guard.shut();
    }
    if guard.is_shut() {
        shared.lines.shut();
    }
    drop(guard);
    (working, trouble)
}

/// Starts a worker for each client, and tells why one has none.
fn start_workers<'s, E, L, G, C, R>(
    scope: &Scope<'s, E>,
    rt: &'s R,
    alloc: Global,
    shared: &'s Shared<'s, L, G, C>,
    clients: Vec<Client<L>>,
) -> (Vec<JoinHandle<Client<L>>>, Option<Trouble>)
where
    L: EngineName + Send + Sync + 's,
    G: Gate + Sync + 's,
    C: Clock + Sync + 's,
    R: Wait + time::Clock + Sync + 's,
    ensures all { result.1 ≡ None → length result.0.items ≡ length clients.items }
{
    let mut working = Vec::new(alloc);
    let mut trouble = None;
    for client in clients {
        match start(scope, rt, alloc, shared, client, Duty::Work) {
            Some(handle) => {
                if working.push(handle).is_err() {
                    trouble = Some(Trouble::Memory);
                }
            }
            None => trouble = Some(Trouble::Spawn),
        }
    }
    (working, trouble)
}

/// Starts a thread that does this by a client; `None` where no thread could be started.
pub(crate) fn start<'s, E, L, G, C, R>(
    scope: &Scope<'s, E>,
    rt: &'s R,
    alloc: Global,
    shared: &'s Shared<'s, L, G, C>,
    client: Client<L>,
    duty: Duty,
) -> Option<JoinHandle<Client<L>>>
where
    L: EngineName + Send + Sync + 's,
    G: Gate + Sync + 's,
    C: Clock + Sync + 's,
    R: Wait + time::Clock + Sync + 's,
{
    match scope.spawn(move || keep(rt, alloc, shared, client, duty)) {
        Ok(handle) => Some(handle),
        Err(_) => None,
    }
}

/// Joins the workers.
pub(crate) fn join_all<L: EngineName, R: Threads>(
    rt: &R,
    alloc: Global,
    working: Vec<JoinHandle<Client<L>>>,
    trouble: Option<Trouble>,
) -> Served<L> {
    let mut served = Served {
        clients: Vec::new(alloc),
        trouble,
    };
    for handle in working {
        served = with_client(served, handle.join(rt));
    }
    served
}

/// One more client came back.
pub(crate) fn with_client<L: EngineName>(served: Served<L>, client: Client<L>) -> Served<L> {
    let Served { clients, trouble } = served;
    let mut clients = clients;
    let trouble = match clients.push(client) {
        Ok(()) => trouble,
        Err(_) => Some(Trouble::Memory),
    };
    Served { clients, trouble }
}
