//! What the threads of a server do, each by a client of its own.
use crate::background::{keep_expiring, keep_trimming};
use engine_lock::{Client, EngineName};
use http_peer::{Clock, Gate};
use http_streams::{Around, Watching, keep_streams};
use http_workers::{Shared, keep_working};
use std::alloc::Global;
use std::sync::Wait;
use std::time;

/// What a thread does.
#[derive(Drop)]
pub(crate) enum Duty {
    /// Gives connections their turns, whichever is ready.
    Work,
    /// Makes trimming steps.
    Trim,
    /// Ends leases.
    Expire,
    /// Looks after the streams that have begun.
    Stream(Watching),
}

/// Does this until it is over, and hands the client back, with the events that it made.
pub(crate) fn keep<L, G, C, R>(
    rt: &R,
    alloc: Global,
    shared: &Shared<'_, L, G, C>,
    client: Client<L>,
    duty: Duty,
) -> Client<L>
where
    L: EngineName,
    G: Gate,
    C: Clock,
    R: Wait + time::Clock,
{
    match duty {
        Duty::Work => keep_working(rt, alloc, shared, client),
        Duty::Trim => keep_trimming(rt, shared, client),
        Duty::Expire => keep_expiring(rt, shared, client),
        Duty::Stream(watching) => look_after(rt, alloc, shared, watching, client),
    }
}

/// Looks after the streams that have begun, until the server ends.
fn look_after<L, G, C, R>(
    rt: &R,
    alloc: Global,
    shared: &Shared<'_, L, G, C>,
    watching: Watching,
    client: Client<L>,
) -> Client<L>
where
    L: EngineName,
    G: Gate,
    R: Wait + time::Clock,
{
    let around = Around {
        engine: shared.engine,
        gate: shared.gate,
        handing: &shared.handing,
        ended: &shared.ended,
        others: &shared.lines,
    };
    keep_streams(rt, alloc, &around, watching, client)
}
