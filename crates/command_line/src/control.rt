//! `serve --control`: the store over HTTP, whose time, expiry and trimming somebody else decides.
ghost use Rattle.std.specs.Prelude.{◌≡◌, false, Ok, Err, IfOk, OnOk};
ghost use Rattle.std.specs.Io.KnownBytes.{Appends};
ghost use Rattle.kv_model.specs.Wire as wire;
ghost use Rattle.json_gateway.specs.Runs.{outcome_view};
ghost use Rattle.commands.specs.Controlling.{made_view};
ghost use Rattle.command_line.specs.Histories.{IsOfHistory};
ghost use Rattle.command_line.specs.Controls.{IsMade};
ghost use Rattle.command_line.specs.From.{IsBegun};
ghost use Rattle.command_line.specs.Serving.{asks_to_serve, closing_line, ids_in, ids_of};
ghost use Rattle.commands.specs.Script.{line_events};

use crate::from::{Start, Starts, begin};
use crate::serving::{clients_of, ended, engine_of, limits_of, write_closing};
use command_words::{Args, Serve};
use commands::{Controlling, Fault, Order, control};
use engine_lock::{Client, Engine, EngineName, Opening};
use http_front::{Directing, Gate, GatedEngine, pool_directed};
use json_gateway::WireOutcome;
use json_gateway::wire::why_unexpired;
use std::alloc::{AllocError, Global};
use std::io::{BufRead, Write};
use std::marker::Brand;
use std::net::Net;
use std::sync::Wait;
use std::thread::Threads;
use std::time;

/// Does what lines ask of an engine, for one of its clients.
#[derive(Drop)]
pub(crate) struct Orders<'e, L: EngineName, G, R> {
    pub(crate) events: GatedEngine<'e, L, G, R>,
}

impl<'e, L: EngineName, G: Gate, R: Wait> Controlling<Client<L>> for Orders<'e, L, G, R> {
    ghost Makes = { λ by. IsMade by.events.engine.now.ids };

    fn make(&self, state: &mut Client<L>, order: Order) -> Result<WireOutcome, AllocError> {
        match order {
            Order::Moment(now) => Ok(WireOutcome::Clock(self.events.moment(state, now))),
            Order::Expire => Ok(expired(&self.events, state)),
            Order::Trim => trimmed(&self.events, state),
            Order::Certify => Ok(WireOutcome::Certified(self.events.certificate(state))),
        }
    }
}

/// Makes a step of expiry, at the engine's clock.
fn expired<L: EngineName, G: Gate, R: Wait>(
    events: &GatedEngine<'_, L, G, R>,
    client: &mut Client<L>,
) -> WireOutcome
    ensures { IsMade events.now.engine.now.ids client.old wire.WireEvent.expire (outcome_view result)
        client.new }
{
    match events.expire_once(client, 0) {
        Ok(expiry) => WireOutcome::Expiry(Ok(expiry)),
        Err(refusal) => WireOutcome::Expiry(Err(why_unexpired(refusal))),
    }
}

/// Makes a trimming step. `AllocError` comes where readers could not be told of it for want of
/// memory, and then it was not made.
fn trimmed<L: EngineName, G: Gate, R: Wait>(
    events: &GatedEngine<'_, L, G, R>,
    client: &mut Client<L>,
) -> Result<WireOutcome, AllocError>
    ensures { IsMade events.now.engine.now.ids client.old wire.WireEvent.trim (made_view result)
        client.new }
{
    match events.trim_checked(client) {
        Ok(trimmed) => Ok(WireOutcome::Trimmed(trimmed)),
        Err(_) => Err(AllocError),
    }
}

/// Runs a server by the lines of a reader, which are answered to a writer.
#[derive(Drop)]
struct ByLines<'x, 'r, 'w, G, R, In, Out> {
    rt: &'x R,
    alloc: Global,
    gate: &'x G,
    r: &'r mut In,
    w: &'w mut Out,
    /// How the lines ended.
    told: Result<(), Fault>,
}

impl<'x, 'r, 'w, L, G, R, In, Out> Directing<L> for ByLines<'x, 'r, 'w, G, R, In, Out>
where
    L: EngineName,
    G: Gate,
    R: Wait,
    In: BufRead,
    Out: Write,
{
    fn direct<T: Gate>(&mut self, engine: &Engine<L>, client: &mut Client<L>, gate: &T) {
        let events = GatedEngine {
            rt: self.rt,
            engine,
            gate,
        };
        let orders = Orders { events };
        self.told = control(self.alloc, &orders, client, self.r, self.w);
    }
}

/// Goes on from a script and serves connections, as [`serve_by`](crate::serve_by) does, but for
/// time, expiry and trimming, which lines of a reader decide: each of them is answered, as soon as it
/// was read, by [`control`]. The moment of each request is what `AT` handed in last, in the script or
/// here, and 0 before the first. At the reader's end the server ends: no further connection is let
/// in, each worker ends after the request that it is in, a watch too, and the line `closed at
/// revision` and the revision of the store is written behind the replies.
///
/// Fails with `Fault::Arguments` where the arguments do not ask to serve, with `Fault::Memory` where
/// memory is wanting for the engine, with `Fault::NoEvent` and `Fault::Unplayed` where a line of the
/// script is not played, and then no connection was let in; with `Fault::Server` as
/// `http_front::pool_directed` fails, and as [`control`] does, when the server has ended; and with
/// `Fault::Write` where the last line could not be written; then a front of it was.
pub fn serve_controlled<T: Starts, G: Gate + Sync, R, In: BufRead, W: Write>(
    rt: &R,
    alloc: Global,
    start: Start<'_, T>,
    args: &Args<'_>,
    gate: &G,
    r: &mut In,
    w: &mut W,
) -> Result<(), Fault>
where
    R: Wait + Threads + time::Clock + Net + Sync,
    ensures ok { OnOk result ((between : W) × ((n : _) × IsOfHistory (ids_of args.now) n × Appends
        (W.contents between) (W.contents w.new) (closing_line n))) }
    ensures begins { OnOk result (IsBegun (ids_of args.now) (line_events start.entry.script.items)) }
    ensures unasked { asks_to_serve args.now ≡ false → (result ≡ Err Fault.Arguments) × (w.new ≡ w.old) }
{
    let Args::Serve(serve) = args else {
        return Err(Fault::Arguments);
    };
    let mut lines = ByLines {
        rt,
        alloc,
        gate,
        r,
        w,
        told: Ok(()),
    };
    let ended = run_controlled(rt, alloc, start, serve, &mut lines);
    let ByLines { told, .. } = lines;
    match both(ended, told) {
        Ok(revision) => close(w, revision),
        Err(fault) => Err(fault),
    }
}

/// Writes the last line of a server that has ended at a revision.
fn close<W: Write>(w: &mut W, revision: u64) -> Result<(), Fault>
    ensures { OnOk result
        (Appends (W.contents w.old) (W.contents w.new) (closing_line revision)) }
{
    match write_closing(w, revision) {
        Ok(()) => Ok(()),
        Err(error) => Err(Fault::Write(error)),
    }
}

/// Runs a server, and gives the revision of its core when it has ended.
fn run_controlled<T: Starts, G: Gate + Sync, R, In: BufRead, W: Write>(
    rt: &R,
    alloc: Global,
    start: Start<'_, T>,
    serve: &Serve<'_>,
    lines: &mut ByLines<'_, '_, '_, G, R, In, W>,
) -> Result<u64, Fault>
where
    R: Wait + Threads + time::Clock + Net + Sync,
    ensures revision { IfOk result (IsOfHistory (ids_in serve.now)) }
    ensures begins { OnOk result (IsBegun (ids_in serve.now) (line_events start.entry.script.items)) }
{
    let is_recorded = lines.gate.is_recorded();
    match Opening::for_clients(alloc, rt, clients_of(serve)) {
        Ok(opening) => controlled_revision::<Brand, T, G, R, In, W>(
            rt,
            alloc,
            opening,
            is_recorded,
            start,
            serve,
            lines,
        ),
        Err(_) => Err(Fault::Memory),
    }
}

/// The revision that a server ended at, where its lines ended in order, too.
fn both(ended: Result<u64, Fault>, told: Result<(), Fault>) -> Result<u64, Fault>
    ensures ended { IfOk result (λ revision. ended ≡ Ok revision) }
    ensures told { OnOk result (told ≡ Ok tt) }
{
    match (ended, told) {
        (Ok(revision), Ok(())) => Ok(revision),
        (Err(fault), _) => Err(fault),
        (Ok(_), Err(fault)) => Err(fault),
    }
}

fn controlled_revision<
    L: EngineName + Send + Sync,
    T: Starts,
    G: Gate + Sync,
    R,
    In: BufRead,
    W: Write,
>(
    rt: &R,
    alloc: Global,
    opening: Opening,
    is_recorded: bool,
    start: Start<'_, T>,
    serve: &Serve<'_>,
    lines: &mut ByLines<'_, '_, '_, G, R, In, W>,
) -> Result<u64, Fault>
where
    R: Wait + Threads + time::Clock + Net + Sync,
    requires name { opening.name ≡ L.Ledger.name }
    requires parts { opening.parts ≡ L.Ledger.parts }
    requires book { opening.book ≡ L.ListName.book }
    requires recorded { is_recorded ≡ L.recorded }
    requires ids { ids_in serve.now ≡ L.ListName.ids }
    ensures revision { IfOk result (IsOfHistory (ids_in serve.now)) }
    ensures begins { OnOk result (IsBegun (ids_in serve.now) (line_events start.entry.script.items)) }
{
    let gate = lines.gate;
    let engine = engine_of::<L>(alloc, opening, serve, is_recorded);
    let Start {
        listener,
        script,
        hears,
    } = start;
    match begin(rt, alloc, engine, gate, script) {
        Ok(begun) => {
            hears.starts(listener);
            let limits = limits_of(serve);
            ended(pool_directed(rt, alloc, begun, gate, lines, listener, limits))
        }
        Err(fault) => Err(fault),
    }
}
