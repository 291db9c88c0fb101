//! The calls of an engine, each by itself.
ghost use Rattle.std.specs.Prelude.{◌≡◌, false};

use crate::lock_replies::ONES;
use crate::texts::{GRANT, PUT, WATCH};
use engine_lock::{Client, CloseFault, Engine, EngineName, MOST_CLIENTS, Opening};
use json_gateway::{Expiry, Message, Refusal, Trim, Trimmed, read};
use std::alloc::Global;
use std::marker::Brand;
use std::sync::Wait;

/// So many clients are made, where all of them stay, why there is no other, and whether these give
/// the core back.
fn made<L: EngineName, R: Wait>(
    rt: &R,
    alloc: Global,
    opening: Opening,
) -> (usize, Option<Refusal>, bool)
    requires name { opening.name ≡ L.Ledger.name }
    requires parts { opening.parts ≡ L.Ledger.parts }
    requires book { opening.book ≡ L.ListName.book }
    requires recorded { L.recorded ≡ false }
    requires ids { L.ListName.ids ≡ record { cluster = 1; member = 1 } }
{
    let mut engine = Engine::<L>::new(alloc, opening, ONES);
    let mut clients = Vec::new(alloc);
    let mut refused = None;
    for _ in 0..=MOST_CLIENTS {
        match engine.client(rt) {
            Ok(client) => drop(clients.push(client)),
            Err(refusal) => refused = Some(refusal),
        }
    }
    let count = clients.len();
    (count, refused, closed(rt, engine, clients).is_some())
}

/// The revision of the core that an engine gives back for these clients.
fn closed<L: EngineName, R: Wait>(
    rt: &R,
    engine: Engine<L>,
    clients: Vec<Client<L>>,
) -> Option<u64> {
    match engine.close(rt, clients) {
        Ok(core) => {
            let revision = core.status().revision;
            drop(core);
            Some(revision)
        }
        Err(fault) => {
            drop(fault);
            None
        }
    }
}

fn run_made<R: Wait>(rt: &R, alloc: Global) -> (usize, Option<Refusal>, bool) {
    match Opening::new(alloc, rt) {
        Ok(opening) => made::<Brand, R>(rt, alloc, opening),
        Err(_) => (0, None, false),
    }
}

#[test]
fn the_client_after_64_has_no_place(rt: HostRuntime) {
    assert_eq!(rt;
        run_made(&rt, rt.alloc()),
        (64, Some(Refusal::NoPlace), true)
    );
}

/// A request's status, on an engine.
fn posted<L: EngineName, R: Wait>(
    rt: &R,
    alloc: Global,
    engine: &Engine<L>,
    client: &mut Client<L>,
    path: &str,
    body: &str,
) -> u16 {
    match read(alloc, path.as_bytes(), body.as_bytes()) {
        Ok(command) => {
            let submitted = engine.submit(rt, client, 1000, &command);
            let status = submitted.outcome.settled.wire().0;
            drop(submitted);
            drop(command);
            status
        }
        Err(_) => 0,
    }
}

/// What each call says, where a watch is told of one put, and ended; a lease of the second key
/// expires.
#[derive(Debug, Drop, PartialEq, Eq)]
struct Said {
    is_told: bool,
    is_quiet: bool,
    ends: (Result<(), Refusal>, Result<(), Refusal>),
    trims: Result<Trim, Refusal>,
    expires: Result<Expiry, Refusal>,
    share: u64,
}

/// A watch of one key, a put of it, and a put of a second key under a lease of one second.
const BEGINNING: [(&str, &str); 4] = [
    (WATCH, "{\"create_request\":{\"key\":\"YQ==\"}}"),
    (PUT, "{\"key\":\"YQ==\"}"),
    (GRANT, "{\"TTL\":\"1\",\"ID\":\"7\"}"),
    (PUT, "{\"key\":\"Yg==\",\"lease\":\"7\"}"),
];

/// Posts the beginning.
fn begin<L: EngineName, R: Wait>(
    rt: &R,
    alloc: Global,
    engine: &Engine<L>,
    client: &mut Client<L>,
) {
    for (path, body) in BEGINNING.iter() {
        let _status = posted(rt, alloc, engine, client, path, body);
    }
}

fn call_each<L: EngineName, R: Wait>(rt: &R, engine: &Engine<L>, client: &mut Client<L>) -> Said {
    Said {
        is_told: matches!(&engine.deliver(rt, client, 1), Ok(Message::Text(_))),
        is_quiet: matches!(&engine.deliver(rt, client, 1), Ok(Message::Nothing)),
        ends: (
            engine.drop_watch(rt, client, 1),
            engine.drop_watch(rt, client, 1),
        ),
        trims: engine.trim_once(rt, client),
        expires: engine.expire_once(rt, client, 2000),
        share: client.share(),
    }
}

/// What each call says on a new engine to the client that posted the beginning, or to another one,
/// which goes on with what that one began.
fn each_call<L: EngineName, R: Wait>(
    rt: &R,
    alloc: Global,
    opening: Opening,
    by_another: bool,
) -> Option<Said>
    requires name { opening.name ≡ L.Ledger.name }
    requires parts { opening.parts ≡ L.Ledger.parts }
    requires book { opening.book ≡ L.ListName.book }
    requires recorded { L.recorded ≡ false }
    requires ids { L.ListName.ids ≡ record { cluster = 1; member = 1 } }
{
    let mut engine = Engine::<L>::new(alloc, opening, ONES);
    let said = match engine.client(rt) {
        Ok(client) => each_call_beside(rt, alloc, &mut engine, client, by_another),
        Err(_) => None,
    };
    drop(engine);
    said
}

/// The same, where the second client is made.
fn each_call_beside<L: EngineName, R: Wait>(
    rt: &R,
    alloc: Global,
    engine: &mut Engine<L>,
    client: Client<L>,
    by_another: bool,
) -> Option<Said> {
    let mut client = client;
    let said = match engine.client(rt) {
        Ok(other) if by_another => {
            begin(rt, alloc, engine, &mut client);
            Some(call_each_by(rt, engine, other))
        }
        Ok(other) => {
            drop(other);
            begin(rt, alloc, engine, &mut client);
            Some(call_each(rt, engine, &mut client))
        }
        Err(_) => None,
    };
    drop(client);
    said
}

/// What each call says to a client, which is let go.
fn call_each_by<L: EngineName, R: Wait>(rt: &R, engine: &Engine<L>, client: Client<L>) -> Said {
    let mut client = client;
    let said = call_each(rt, engine, &mut client);
    drop(client);
    said
}

fn run_each_call<R: Wait>(rt: &R, alloc: Global, by_another: bool) -> Option<Said> {
    let opening = Opening::new(alloc, rt).ok()?;
    each_call::<Brand, R>(rt, alloc, opening, by_another)
}

/// What each call says, to a client with this share behind them.
fn said_of_each_call(share: u64) -> Said {
    Said {
        is_told: true,
        is_quiet: true,
        ends: (Ok(()), Err(Refusal::NoWatch)),
        trims: Ok(Trim::Done(2)),
        expires: Ok(Expiry::Expired {
            id: 7,
            revision: 4,
            raised: true,
        }),
        share,
    }
}

#[test]
fn each_call_of_an_engine(rt: HostRuntime) {
    assert_eq!(rt;
        run_each_call(&rt, rt.alloc(), false),
        Some(said_of_each_call(3))
    );
}

#[test]
fn each_call_by_another_client(rt: HostRuntime) {
    assert_eq!(rt;
        run_each_call(&rt, rt.alloc(), true),
        Some(said_of_each_call(1))
    );
}

/// What the orders of whoever runs an engine come to: two moments and the clock, a client that
/// catches up with another's put, a checked trimming step, and what is kept, with its claims.
#[derive(Debug, Drop, PartialEq, Eq)]
struct Ordered {
    clocks: (u64, u64),
    is_caught_up: bool,
    done: Option<(u64, bool)>,
    kept: Option<(u64, u64, usize, usize)>,
}

fn order_each<L: EngineName, R: Wait>(
    rt: &R,
    engine: &Engine<L>,
    reader: &mut Client<L>,
) -> Ordered {
    Ordered {
        clocks: (
            engine.moment(rt, reader, 5000),
            engine.moment(rt, reader, 4000),
        ),
        is_caught_up: engine.catch_up(rt, reader, 6000),
        done: done_of(engine.trim_checked(rt, reader)),
        kept: kept_of(rt, engine, reader),
    }
}

/// How many versions a step says are kept, and whether they are checked, where it is done.
fn done_of(step: Result<Trimmed, Refusal>) -> Option<(u64, bool)> {
    match step {
        Ok(Trimmed::Done { count, certificate }) => Some((count, certificate.is_some())),
        _ => None,
    }
}

/// Of what is kept: the compaction, the revision, how many versions and how many needs.
fn kept_of<L: EngineName, R: Wait>(
    rt: &R,
    engine: &Engine<L>,
    client: &mut Client<L>,
) -> Option<(u64, u64, usize, usize)> {
    let shown = engine.certificate(rt, client).ok()?;
    let dump = &shown.dump;
    let needs = shown.certificate.claims.len();
    Some((dump.floor, dump.revision, dump.versions.len(), needs))
}

/// What the orders come to on an engine, by a client that writes and one that reads.
fn order_by_two<L: EngineName, R: Wait>(
    rt: &R,
    alloc: Global,
    engine: &mut Engine<L>,
) -> Option<Ordered> {
    match engine.client(rt) {
        Ok(writer) => order_beside(rt, alloc, engine, writer),
        Err(_) => None,
    }
}

/// The same, where the one that reads is made.
fn order_beside<L: EngineName, R: Wait>(
    rt: &R,
    alloc: Global,
    engine: &mut Engine<L>,
    writer: Client<L>,
) -> Option<Ordered> {
    let mut writer = writer;
    begin(rt, alloc, engine, &mut writer);
    let ordered = match engine.client(rt) {
        Ok(reader) => Some(order_each_by(rt, engine, reader)),
        Err(_) => None,
    };
    drop(writer);
    ordered
}

/// What the orders come to by a client, which is let go.
fn order_each_by<L: EngineName, R: Wait>(rt: &R, engine: &Engine<L>, reader: Client<L>) -> Ordered {
    let mut reader = reader;
    let ordered = order_each(rt, engine, &mut reader);
    drop(reader);
    ordered
}

fn each_order<L: EngineName, R: Wait>(rt: &R, alloc: Global, opening: Opening) -> Option<Ordered>
    requires name { opening.name ≡ L.Ledger.name }
    requires parts { opening.parts ≡ L.Ledger.parts }
    requires book { opening.book ≡ L.ListName.book }
    requires recorded { L.recorded ≡ false }
    requires ids { L.ListName.ids ≡ record { cluster = 1; member = 1 } }
{
    let mut engine = Engine::<L>::new(alloc, opening, ONES);
    let ordered = order_by_two(rt, alloc, &mut engine);
    drop(engine);
    ordered
}

fn run_each_order<R: Wait>(rt: &R, alloc: Global) -> Option<Ordered> {
    let opening = Opening::new(alloc, rt).ok()?;
    each_order::<Brand, R>(rt, alloc, opening)
}

#[test]
fn each_order_of_an_engine(rt: HostRuntime) {
    assert_eq!(rt;
        run_each_order(&rt, rt.alloc()),
        Some(Ordered {
            clocks: (5000, 5000),
            is_caught_up: true,
            done: Some((2, true)),
            kept: Some((0, 3, 2, 2)),
        })
    );
}

/// An engine closes with one of its two clients, and then with both: the number of the fault and
/// how many clients it hands back, and the revision in the end.
fn closed_twice<L: EngineName, R: Wait>(
    rt: &R,
    alloc: Global,
    opening: Opening,
) -> Option<(u8, usize, u64)>
    requires name { opening.name ≡ L.Ledger.name }
    requires parts { opening.parts ≡ L.Ledger.parts }
    requires book { opening.book ≡ L.ListName.book }
    requires recorded { L.recorded ≡ false }
    requires ids { L.ListName.ids ≡ record { cluster = 1; member = 1 } }
{
    let mut engine = Engine::<L>::new(alloc, opening, ONES);
    match engine.client(rt) {
        Ok(first) => closed_after_a_put(rt, alloc, engine, first),
        Err(_) => {
            drop(engine);
            None
        }
    }
}

/// A second client puts, and the engine is closed with the first one, and then with both.
fn closed_after_a_put<L: EngineName, R: Wait>(
    rt: &R,
    alloc: Global,
    engine: Engine<L>,
    first: Client<L>,
) -> Option<(u8, usize, u64)> {
    let mut engine = engine;
    match engine.client(rt) {
        Ok(second) => {
            let mut second = second;
            let put = "{\"key\":\"YQ==\"}";
            let _put = posted(rt, alloc, &engine, &mut second, PUT, put);
            closed_without(rt, alloc, engine, first, second)
        }
        Err(_) => {
            drop(engine);
            drop(first);
            None
        }
    }
}

/// An engine is closed with one of its clients, and then with the other one too.
fn closed_without<L: EngineName, R: Wait>(
    rt: &R,
    alloc: Global,
    engine: Engine<L>,
    one: Client<L>,
    other: Client<L>,
) -> Option<(u8, usize, u64)> {
    let mut clients = Vec::new(alloc);
    drop(clients.push(one));
    match engine.close(rt, clients) {
        Ok(core) => {
            drop(core);
            drop(other);
            None
        }
        Err(fault) => closed_with(rt, fault, other),
    }
}

/// An engine that was not closed is closed with one client more.
fn closed_with<L: EngineName, R: Wait>(
    rt: &R,
    fault: CloseFault<L>,
    client: Client<L>,
) -> Option<(u8, usize, u64)> {
    let number = fault.number();
    let CloseFault { engine, clients } = fault;
    let mut clients = clients;
    let count = clients.len();
    drop(clients.push(client));
    match closed(rt, engine, clients) {
        Some(revision) => Some((number, count, revision)),
        None => None,
    }
}

fn run_closed_twice<R: Wait>(rt: &R, alloc: Global) -> Option<(u8, usize, u64)> {
    let opening = Opening::new(alloc, rt).ok()?;
    closed_twice::<Brand, R>(rt, alloc, opening)
}

#[test]
fn an_engine_closes_with_all_clients_alone(rt: HostRuntime) {
    assert_eq!(rt; run_closed_twice(&rt, rt.alloc()), Some((1, 1, 2)));
}
