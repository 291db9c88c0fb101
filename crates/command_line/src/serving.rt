//! `serve`: the store over HTTP.
ghost use Rattle.std.specs.Prelude.{◌≡◌, ◌+◌, ◌-◌, ◌/◌, ◌^◌, min, false, true, Ok, Err, IfOk, IfErr, OnOk};
ghost use Rattle.std.specs.Prelude.{MatchResult};
ghost use Rattle.std.specs.Time.{instant_nanos};
ghost use Rattle.std.specs.Io.KnownBytes.{Appends};
ghost use Rattle.commands.specs.Faults.{is_write};
ghost use Rattle.command_line.specs.From.{IsBegun, StopsServing};
ghost use Rattle.command_line.specs.Serving.{IsOfRun, IsOfServerAlone, asks_to_serve};
ghost use Rattle.command_line.specs.Serving.{closing_line, connections_of, ids_in, ids_of};
ghost use Rattle.commands.specs.Script.{line_events};
ghost use Rattle.commands.specs.Writes.{AppendsFront, Writes};
ghost use Rattle.command_line.specs.Histories.{IsOfHistory};

use crate::from::{Start, Starts, Unheard, begin};
use command_words::{Args, Serve};
use commands::{Fault, Front, write_number};
use engine_lock::{Engine, EngineName, Opening};
use http_front::{Begun, Clock, Gate, Limits, MOST_CONNECTIONS, OpenGate, pool_begun};
use json_gateway::{Core, Ids};
use std::alloc::Global;
use std::io::Write;
use std::marker::Brand;
use std::net::{Net, TcpListener};
use std::sync::Wait;
use std::thread::Threads;
use std::time::Instant;
use std::{io, time};

/// The milliseconds since a server's start, from the moment on that its store was at.
#[derive(Drop)]
struct SinceStart<'x, R: time::Clock> {
    rt: &'x R,
    /// Where the store's clock was at the start: that of the script that the server goes on from, or 0.
    from: u64,
    start: Option<Instant>,
}

impl<'x, R: time::Clock> Clock for SinceStart<'x, R> {
    fn now(&self) -> u64 {
        match (Instant::now(self.rt), self.start) {
            (Ok(now), Some(start)) => moment_after(self.from, millis_between(start, now)),
            _ => self.from,
        }
    }
}

/// The moment so many milliseconds after another.
fn moment_after(moment: u64, millis: u64) -> u64
    ensures { result ≡ min (moment + millis) (2 ^ 64 - 1) }
{
    moment.saturating_add(millis)
}

/// The milliseconds from a moment to another; 0 where that is not later.
fn millis_between(start: Instant, now: Instant) -> u64
    ensures { result ≡ min ((instant_nanos now - instant_nanos start) / 1000000) (2 ^ 64 - 1) }
{
    u64::try_from(now.saturating_duration_since(start).as_millis()).unwrap_or(u64::MAX)
}

/// Serves the connections that come in at a listener, as the arguments ask, and writes the line
/// `closed at revision` and the revision of the store when it has ended. It begins with an empty store.
/// That revision is of the world which the one history of all that was done leads to (`IsOfHistory`).
///
/// The moments by which leases end are milliseconds since its start. Nothing is written before it
/// has ended.
///
/// Fails with `Fault::Arguments` where the arguments do not ask to serve, and else with
/// `Fault::Memory` where memory is wanting for the engine, and with `Fault::Server` as
/// `http_front::pool` fails; then nothing is written. Fails with `Fault::Write` where the line could
/// not be written; then a front of it was.
pub fn serve_on<R: Wait + Threads + time::Clock + Net + Sync, W: Write>(
    rt: &R,
    alloc: Global,
    listener: &TcpListener,
    args: &Args<'_>,
    w: &mut W,
) -> Result<(), Fault>
    ensures ok { OnOk result ((n : _) × IsOfHistory (ids_of args.now) n
        × Appends (W.contents w.old) (W.contents w.new) (closing_line n)) }
    ensures unwritten { IfErr result (λ fault. is_write fault ≡ false → w.new ≡ w.old) }
    ensures cut { IfErr result (λ fault. is_write fault ≡ true → (n : _) × IsOfHistory (ids_of args.now) n
        × AppendsFront (W.contents w.old) (W.contents w.new) (closing_line n)) }
    ensures fault { IfErr result (λ fault. asks_to_serve args.now ≡ true
        → is_write fault ≡ false → IsOfRun fault) }
    ensures unasked { asks_to_serve args.now ≡ false → result ≡ Err Fault.Arguments }
{
    let start = Start::empty(alloc, listener, &Unheard);
    serve_by(rt, alloc, start, args, &OpenGate, w)
}

/// The same, by a gate, of a server that goes on from a script. Where the gate says so, the events of
/// the server are written down.
///
/// First the script is played, line by line, each line's event made on the store as that of a running
/// server is: so the store begins as the one that the script leads to, with its watches, its leases
/// and its clock, and what is written down begins with those lines. Then who hears that it starts is
/// told, and connections are let in. The moments by which leases end are milliseconds since then, from
/// where the script's clock was. Nothing is written before the server has ended.
///
/// Fails as [`serve_on`] does, and with `Fault::NoEvent` where a line of the script asks for no event
/// and `Fault::Unplayed` where its event finds no memory, both with the line's number, counted from 1;
/// then no connection was let in.
pub fn serve_by<T: Starts, G, R, W: Write>(
    rt: &R,
    alloc: Global,
    start: Start<'_, T>,
    args: &Args<'_>,
    gate: &G,
    w: &mut W,
) -> Result<(), Fault>
where
    G: Gate + Sync,
    R: Wait + Threads + time::Clock + Net + Sync,
    ensures ok { OnOk result ((n : _) × IsOfHistory (ids_of args.now) n
        × Appends (W.contents w.old) (W.contents w.new) (closing_line n)) }
    ensures unwritten { IfErr result (λ fault. is_write fault ≡ false → w.new ≡ w.old) }
    ensures cut { IfErr result (λ fault. is_write fault ≡ true → (n : _) × IsOfHistory (ids_of args.now) n
        × AppendsFront (W.contents w.old) (W.contents w.new) (closing_line n)) }
    ensures begins { OnOk result (IsBegun (ids_of args.now) (line_events start.entry.script.items)) }
    ensures fault { IfErr result (λ fault. asks_to_serve args.now ≡ true → is_write fault ≡ false
        → StopsServing (ids_of args.now) (line_events start.entry.script.items) fault) }
    ensures unasked { asks_to_serve args.now ≡ false → result ≡ Err Fault.Arguments }
{
    let Args::Serve(serve) = args else {
        return Err(Fault::Arguments);
    };
    tell_end(w, run_server(rt, alloc, start, serve, gate))
}

/// Writes the last line of a server that has ended at a revision, or gives why it did not end so.
fn tell_end<W: Write>(w: &mut W, ended: Result<u64, Fault>) -> Result<(), Fault>
    requires { IfErr ended (λ fault. is_write fault ≡ false) }
    ensures ok { OnOk result (MatchResult ended
        (λ revision. Appends (W.contents w.old) (W.contents w.new) (closing_line revision))
        (λ fault. ⊥)) }
    ensures unwritten { IfErr result (λ fault. is_write fault ≡ false
        → (w.new ≡ w.old) × (ended ≡ Err fault)) }
    ensures cut { IfErr result (λ fault. is_write fault ≡ true → MatchResult ended
        (λ revision. AppendsFront (W.contents w.old) (W.contents w.new) (closing_line revision))
        (λ fault. ⊥)) }
{
    match ended {
        Ok(revision) => match write_closing(w, revision) {
            Ok(()) => Ok(()),
            Err(error) => Err(Fault::Write(error)),
        },
        Err(fault) => Err(fault),
    }
}

/// Writes the last line, and hands it on.
pub(crate) fn write_closing<W: Write>(w: &mut W, revision: u64) -> io::Result<()>
    ensures { Writes result (W.contents w.old) (W.contents w.new) (closing_line revision) }
{
    write_line(w, revision)?;
    w.flush()
}

/// Writes the last line.
fn write_line<W: Write>(w: &mut W, revision: u64) -> io::Result<()>
    ensures { Writes result (W.contents w.old) (W.contents w.new) (closing_line revision) }
{
    write_number(w, b"closed at revision ", revision)
}

/// Runs a server, and gives the revision of its core when it has ended.
fn run_server<T: Starts, G: Gate + Sync, R: Wait + Threads + time::Clock + Net + Sync>(
    rt: &R,
    alloc: Global,
    start: Start<'_, T>,
    serve: &Serve<'_>,
    gate: &G,
) -> Result<u64, Fault>
    ensures revision { IfOk result (IsOfHistory (ids_in serve.now)) }
    ensures begins { OnOk result (IsBegun (ids_in serve.now) (line_events start.entry.script.items)) }
    ensures fault { IfErr result (λ fault. is_write fault ≡ false) }
    ensures kind { IfErr result (StopsServing (ids_in serve.now) (line_events start.entry.script.items)) }
{
    match Opening::for_clients(alloc, rt, clients_of(serve)) {
        Ok(opening) => closed_revision::<Brand, T, G, R>(
            rt,
            alloc,
            opening,
            gate.is_recorded(),
            start,
            serve,
            gate,
        ),
        Err(_) => Err(Fault::Memory),
    }
}

/// How many clients a server has: one for each worker, one for the leases that end or for the lines
/// that control it, one for the streams of watches, and one for trimming.
pub(crate) fn clients_of(serve: &Serve<'_>) -> u64
    ensures { result ≡ min (serve.now.workers + 3) (2 ^ 64 - 1) }
{
    serve.workers.saturating_add(3)
}

fn closed_revision<L: EngineName + Send + Sync, T: Starts, G: Gate + Sync, R>(
    rt: &R,
    alloc: Global,
    opening: Opening,
    is_recorded: bool,
    start: Start<'_, T>,
    serve: &Serve<'_>,
    gate: &G,
) -> Result<u64, Fault>
where
    R: Wait + Threads + time::Clock + Net + Sync,
    requires name { opening.name ≡ L.Ledger.name }
    requires parts { opening.parts ≡ L.Ledger.parts }
    requires book { opening.book ≡ L.ListName.book }
    requires recorded { is_recorded ≡ L.recorded }
    requires ids { ids_in serve.now ≡ L.ListName.ids }
    ensures revision { IfOk result (IsOfHistory (ids_in serve.now)) }
    ensures begins { OnOk result (IsBegun (ids_in serve.now) (line_events start.entry.script.items)) }
    ensures fault { IfErr result (λ fault. is_write fault ≡ false) }
    ensures kind { IfErr result (StopsServing (ids_in serve.now) (line_events start.entry.script.items)) }
{
    let engine = engine_of::<L>(alloc, opening, serve, is_recorded);
    let Start {
        listener,
        script,
        hears,
    } = start;
    match begin(rt, alloc, engine, gate, script) {
        Ok(begun) => {
            hears.starts(listener);
            run_pool(rt, alloc, begun, listener, serve, gate)
        }
        Err(fault) => Err(fault),
    }
}

/// An engine that answers by the ids of a server, and writes its events down where `is_recorded`
/// says so.
pub(crate) fn engine_of<L: EngineName>(
    alloc: Global,
    opening: Opening,
    serve: &Serve<'_>,
    is_recorded: bool,
) -> Engine<L>
    requires name { opening.name ≡ L.Ledger.name }
    requires parts { opening.parts ≡ L.Ledger.parts }
    requires book { opening.book ≡ L.ListName.book }
    requires recorded { is_recorded ≡ L.recorded }
    requires ids { ids_in serve.now ≡ L.ListName.ids }
    ensures ids { result.ids ≡ ids_in serve.now }
    ensures recorded { result.recorded ≡ is_recorded }
{
    let ids = ids_of(serve);
    if is_recorded {
        Engine::recorded(alloc, opening, ids)
    } else {
        Engine::new(alloc, opening, ids)
    }
}

/// The cluster and the member that answer.
fn ids_of(serve: &Serve<'_>) -> Ids
    ensures { result ≡ ids_in serve.now }
{
    Ids {
        cluster: serve.cluster,
        member: serve.member,
    }
}

/// How much a server serves.
pub(crate) fn limits_of(serve: &Serve<'_>) -> Limits
    ensures workers { result.workers ≡ serve.now.workers }
    ensures connections { result.connections ≡ connections_of serve.now }
{
    Limits {
        workers: serve.workers,
        connections: connections_of(serve),
    }
}

/// After how many connections a server ends.
fn connections_of(serve: &Serve<'_>) -> u64
    ensures { result ≡ connections_of serve.now }
{
    match serve.connections {
        0 => MOST_CONNECTIONS,
        given => given,
    }
}

/// Runs a server over an engine that has begun, whose clock goes on from where the engine's is.
fn run_pool<L: EngineName + Send + Sync, G: Gate + Sync, R>(
    rt: &R,
    alloc: Global,
    begun: Begun<L>,
    listener: &TcpListener,
    serve: &Serve<'_>,
    gate: &G,
) -> Result<u64, Fault>
where
    R: Wait + Threads + time::Clock + Net + Sync,
    requires { begun.engine.ids ≡ ids_in serve.now }
    ensures revision { IfOk result (IsOfHistory (ids_in serve.now)) }
    ensures fault { IfErr result IsOfServerAlone }
{
    let Begun { engine, client } = begun;
    let mut client = client;
    let clock = SinceStart {
        rt,
        from: engine.moment(rt, &mut client, 0),
        start: Instant::now(rt).ok(),
    };
    let begun = Begun { engine, client };
    let limits = limits_of(serve);
    ended(pool_begun(rt, alloc, begun, gate, &clock, listener, limits))
}

/// The revision of the core that a server gave back, or why it gave none.
pub(crate) fn ended(made: Result<Core, Front>) -> Result<u64, Fault>
    ensures { MatchResult made (λ core. result ≡ Ok core.store.revision)
        (λ front. result ≡ Err (Fault.Server front)) }
{
    let told = match &made {
        Ok(core) => Ok(core.status().revision),
        Err(front) => Err(Fault::Server(*front)),
    };
    drop(made);
    told
}
