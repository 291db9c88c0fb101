//! Who answers a connection: a core by itself, or an engine on behalf of one of its clients.
ghost use Rattle.std.specs.Prelude.{◌≡◌, false};

use crate::peers::{Coming, Going, Then, short, willing};
use crate::texts::{CREATED, PUT, PUT_REPLY, REPLIES, REQUESTS};
use engine_lock::{Client, Engine, EngineName, Opening};
use http_front::{Clock, Gate, serve_alone, work};
use http_reply::{Counted, Front};
use json_gateway::{Ids, Message, message};
use request_core::store::Core;
use std::alloc::{AllocError, Global};
use std::marker::Brand;
use std::sync::Wait;
use std::time;

/// The member's numbers.
pub(crate) const ONES: Ids = Ids {
    cluster: 1,
    member: 1,
};

/// Who answers.
#[derive(Clone, Copy, Debug, PartialEq, Eq)]
pub(crate) enum Side {
    Core,
    Engine,
}

/// How a connection ends.
#[derive(Clone, Copy, Debug, PartialEq, Eq)]
pub(crate) struct End {
    pub(crate) ended: Result<u64, Front>,
    /// The store's revision then.
    pub(crate) revision: u64,
    /// Whether the first watch was made and still stands.
    pub(crate) is_watched: bool,
}

/// A clock that stands.
#[derive(Drop)]
pub(crate) struct Still;

impl Clock for Still {
    fn now(&self) -> u64 {
        1000
    }
}

/// Holds no request back. The client of a watch has left once the watch is told nothing.
#[derive(Drop)]
pub(crate) struct Impatient;

impl Gate for Impatient {
    fn before(&self, _call: u64) {}

    fn after(&self, _call: u64) {}

    fn has_left(&self, _call: u64) -> bool {
        true
    }
}

/// Answers a connection over a store of its own; `None` where there is no memory for that.
pub(crate) fn answered<R: Wait + time::Clock>(
    rt: &R,
    alloc: Global,
    side: Side,
    r: &mut Counted<Coming<'_>>,
    w: &mut Counted<Going>,
) -> Option<End> {
    match side {
        Side::Core => Some(by_core(alloc, r, w)),
        Side::Engine => by_engine(rt, alloc, r, w),
    }
}

fn by_core(alloc: Global, r: &mut Counted<Coming<'_>>, w: &mut Counted<Going>) -> End {
    let mut core = Core::new(alloc);
    let ended = serve_alone(alloc, &mut core, r, w, u64::MAX);
    let end = End {
        ended,
        revision: core.status().revision,
        is_watched: !is_nothing(&message(alloc, &mut core, 1, &ONES)),
    };
    drop(core);
    end
}

fn by_engine<R: Wait + time::Clock>(
    rt: &R,
    alloc: Global,
    r: &mut Counted<Coming<'_>>,
    w: &mut Counted<Going>,
) -> Option<End> {
    let opening = Opening::new(alloc, rt).ok()?;
    worked::<Brand, R>(rt, alloc, opening, r, w)
}

fn worked<L: EngineName, R: Wait + time::Clock>(
    rt: &R,
    alloc: Global,
    opening: Opening,
    r: &mut Counted<Coming<'_>>,
    w: &mut Counted<Going>,
) -> Option<End>
    requires name { opening.name ≡ L.Ledger.name }
    requires parts { opening.parts ≡ L.Ledger.parts }
    requires book { opening.book ≡ L.ListName.book }
    requires recorded { L.recorded ≡ false }
    requires ids { L.ListName.ids ≡ record { cluster = 1; member = 1 } }
{
    let mut engine = Engine::<L>::new(alloc, opening, ONES);
    let end = match engine.client(rt) {
        Ok(client) => Some(worked_by(rt, alloc, &engine, client, r, w)),
        Err(_) => None,
    };
    drop(engine);
    end
}

/// How it ends by this client.
fn worked_by<L: EngineName, R: Wait + time::Clock>(
    rt: &R,
    alloc: Global,
    engine: &Engine<L>,
    client: Client<L>,
    r: &mut Counted<Coming<'_>>,
    w: &mut Counted<Going>,
) -> End {
    let mut client = client;
    let ended = work(rt, alloc, engine, &mut client, &Impatient, &Still, 1, r, w);
    let end = End {
        ended,
        revision: client.share().saturating_add(1),
        is_watched: !is_nothing(&engine.deliver(rt, &mut client, 1)),
    };
    drop(client);
    end
}

/// Whether there is no such watch.
fn is_nothing(told: &Result<Message, AllocError>) -> bool {
    matches!(told, Ok(Message::NoWatch))
}

/// So many connections of one engine, one after the other, make a watch of a key that was put, and
/// their clients leave once they are told that it was made. The number of the first of which that
/// is not what came, or whose watch stands then; 0 where the key could not be put.
pub(crate) fn first_left<R: Wait + time::Clock>(rt: &R, alloc: Global, count: u64) -> Option<u64> {
    match Opening::new(alloc, rt) {
        Ok(opening) => left::<Brand, R>(rt, alloc, opening, count),
        Err(AllocError) => Some(0),
    }
}

fn left<L: EngineName, R: Wait + time::Clock>(
    rt: &R,
    alloc: Global,
    opening: Opening,
    count: u64,
) -> Option<u64>
    requires name { opening.name ≡ L.Ledger.name }
    requires parts { opening.parts ≡ L.Ledger.parts }
    requires book { opening.book ≡ L.ListName.book }
    requires recorded { L.recorded ≡ false }
    requires ids { L.ListName.ids ≡ record { cluster = 1; member = 1 } }
{
    let mut engine = Engine::<L>::new(alloc, opening, ONES);
    let first = match engine.client(rt) {
        Ok(client) => left_by(rt, alloc, &engine, client, count),
        Err(_) => Some(0),
    };
    drop(engine);
    first
}

/// The same by this client.
fn left_by<L: EngineName, R: Wait + time::Clock>(
    rt: &R,
    alloc: Global,
    engine: &Engine<L>,
    client: Client<L>,
    count: u64,
) -> Option<u64> {
    let mut client = client;
    let first = first_that_stays(rt, alloc, engine, &mut client, count);
    drop(client);
    first
}

fn first_that_stays<L: EngineName, R: Wait + time::Clock>(
    rt: &R,
    alloc: Global,
    engine: &Engine<L>,
    client: &mut Client<L>,
    count: u64,
) -> Option<u64> {
    if !puts(rt, alloc, engine, client) {
        return Some(0);
    }
    for number in 1..=count {
        if !leaves(rt, alloc, engine, client, number) {
            return Some(number);
        }
    }
    None
}

/// Whether a put is answered.
fn puts<L: EngineName, R: Wait + time::Clock>(
    rt: &R,
    alloc: Global,
    engine: &Engine<L>,
    client: &mut Client<L>,
) -> bool {
    let mut r = Counted::new(Coming {
        first: &REQUESTS[..PUT],
        second: b"",
        then: Then::Ends,
    });
    let mut w = Counted::new(willing(alloc));
    work(
        rt, alloc, engine, client, &Impatient, &Still, 0, &mut r, &mut w,
    ) == Ok(1)
}

/// Whether a watch of this number is made, its client leaves then, and it stands no more.
fn leaves<L: EngineName, R: Wait + time::Clock>(
    rt: &R,
    alloc: Global,
    engine: &Engine<L>,
    client: &mut Client<L>,
    number: u64,
) -> bool {
    let mut r = Counted::new(Coming {
        first: &REQUESTS[PUT..],
        second: b"",
        then: Then::Ends,
    });
    let mut w = Counted::new(short(alloc, CREATED, true));
    let ended = work(
        rt, alloc, engine, client, &Impatient, &Still, number, &mut r, &mut w,
    );
    let goes = w.into_inner();
    let is_made = goes.got.as_slice() == &REPLIES[PUT_REPLY..PUT_REPLY + CREATED];
    drop(goes);
    is_made && ended == Err(Front::Write(0)) && is_nothing(&engine.deliver(rt, client, number))
}
