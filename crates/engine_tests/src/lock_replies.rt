//! The worked rows through an engine: each reply, byte for byte, and what is left when it closes.
ghost use Rattle.std.specs.Prelude.{◌≡◌, false};

use crate::rows;
use crate::rows::{Row, Step};
use engine_lock::{Client, Engine, EngineName, Opening};
use json_gateway::{Expiry, Ids, Message, Trim, read};
use request_core::store::Core;
use std::alloc::Global;
use std::marker::Brand;
use std::sync::Wait;

pub(super) const ONES: Ids = Ids {
    cluster: 1,
    member: 1,
};

/// A command at a moment has this reply.
fn is_replied<L: EngineName, R: Wait>(
    rt: &R,
    alloc: Global,
    engine: &Engine<L>,
    client: &mut Client<L>,
    now: u64,
    asked: (&str, &str),
    reply: (u16, &str),
) -> bool {
    match read(alloc, asked.0.as_bytes(), asked.1.as_bytes()) {
        Ok(command) => {
            let submitted = engine.submit(rt, client, now, &command);
            let (status, body) = submitted.outcome.settled.wire();
            let is = status == reply.0 && body == reply.1.as_bytes();
            drop(submitted);
            drop(command);
            is
        }
        Err(_) => false,
    }
}

/// The watch of a number is told this text.
fn is_text<L: EngineName, R: Wait>(
    rt: &R,
    engine: &Engine<L>,
    client: &mut Client<L>,
    number: u64,
    text: &str,
) -> bool {
    match &engine.deliver(rt, client, number) {
        Ok(Message::Text(told)) => told.as_slice() == text.as_bytes(),
        _ => false,
    }
}

/// The watch of a number is told nothing.
fn is_quiet<L: EngineName, R: Wait>(
    rt: &R,
    engine: &Engine<L>,
    client: &mut Client<L>,
    number: u64,
) -> bool {
    matches!(&engine.deliver(rt, client, number), Ok(Message::Nothing))
}

/// There is no watch of a number.
fn is_gone<L: EngineName, R: Wait>(
    rt: &R,
    engine: &Engine<L>,
    client: &mut Client<L>,
    number: u64,
) -> bool {
    matches!(&engine.deliver(rt, client, number), Ok(Message::NoWatch))
}

/// What a trimming step says: `r` and a main revision where it takes one out, `k` where it leaves
/// it, `d` and the number of versions.
fn trimmed<L: EngineName, R: Wait>(
    rt: &R,
    engine: &Engine<L>,
    client: &mut Client<L>,
) -> (char, u64) {
    match engine.trim_once(rt, client) {
        Ok(Trim::Removed(rev)) => ('r', rev.main),
        Ok(Trim::Kept(rev)) => ('k', rev.main),
        Ok(Trim::Done(count)) => ('d', count),
        Err(_) => ('e', 0),
    }
}

/// Whether a step is answered as it has to be.
fn is_answered<L: EngineName, R: Wait>(
    rt: &R,
    alloc: Global,
    engine: &Engine<L>,
    client: &mut Client<L>,
    step: &Step,
) -> bool {
    match step {
        Step::Post(now, path, body, status, reply) => {
            is_replied(
                rt,
                alloc,
                engine,
                client,
                *now,
                (path, body),
                (*status, reply),
            )
        }
        Step::Tell(number, text) => is_text(rt, engine, client, *number, text),
        Step::Quiet(number) => is_quiet(rt, engine, client, *number),
        Step::NoWatch(number) => is_gone(rt, engine, client, *number),
        Step::Removed(main) => trimmed(rt, engine, client) == ('r', *main),
        Step::Kept(main) => trimmed(rt, engine, client) == ('k', *main),
        Step::Done(count) => trimmed(rt, engine, client) == ('d', *count),
        Step::NothingDue(now) => { engine.expire_once(rt, client, *now) == Ok(Expiry::Nothing) }
        Step::Expired(now, id, revision) => {
            engine.expire_once(rt, client, *now)
                == Ok(Expiry::Expired {
                    id: *id,
                    revision: *revision,
                    raised: true,
                })
        }
    }
}

/// The number of the first step that is answered otherwise.
fn first_otherwise<L: EngineName, R: Wait>(
    rt: &R,
    alloc: Global,
    engine: &Engine<L>,
    client: &mut Client<L>,
    steps: &[Step],
) -> Option<usize> {
    for (number, step) in steps.iter().enumerate() {
        if !is_answered(rt, alloc, engine, client, step) {
            return Some(number);
        }
    }
    None
}

/// How many versions the dump has of the core of an engine that closes with this one client.
fn versions_left<L: EngineName, R: Wait>(
    rt: &R,
    alloc: Global,
    engine: Engine<L>,
    client: Client<L>,
) -> Option<u64> {
    let mut clients = Vec::new(alloc);
    drop(clients.push(client));
    match engine.close(rt, clients) {
        Ok(core) => {
            let count = dumped(&core);
            drop(core);
            count
        }
        Err(fault) => {
            drop(fault);
            None
        }
    }
}

/// How many versions the dump of a core has, where its status says as many.
fn dumped(core: &Core) -> Option<u64> {
    let count = core.dump().ok()?.versions.len() as u64;
    if count == core.status().versions {
        Some(count)
    } else {
        None
    }
}

/// The steps of a row by the one client of an engine, which then closes.
fn by_one<L: EngineName, R: Wait>(
    rt: &R,
    alloc: Global,
    engine: Engine<L>,
    client: Client<L>,
    steps: &[Step],
) -> (Option<usize>, Option<u64>) {
    let mut client = client;
    let first = first_otherwise(rt, alloc, &engine, &mut client, steps);
    (first, versions_left(rt, alloc, engine, client))
}

/// The steps of a row on a new engine: the first that is answered otherwise, and how many versions
/// are left.
fn run<L: EngineName, R: Wait>(
    rt: &R,
    alloc: Global,
    opening: Opening,
    steps: &[Step],
) -> (Option<usize>, Option<u64>)
    requires name { opening.name ≡ L.Ledger.name }
    requires parts { opening.parts ≡ L.Ledger.parts }
    requires book { opening.book ≡ L.ListName.book }
    requires recorded { L.recorded ≡ false }
    requires ids { L.ListName.ids ≡ record { cluster = 1; member = 1 } }
{
    let mut engine = Engine::<L>::new(alloc, opening, ONES);
    match engine.client(rt) {
        Ok(client) => by_one(rt, alloc, engine, client, steps),
        Err(_) => {
            drop(engine);
            (None, None)
        }
    }
}

fn run_row<R: Wait>(rt: &R, alloc: Global, steps: &[Step]) -> (Option<usize>, Option<u64>) {
    match Opening::new(alloc, rt) {
        Ok(opening) => run::<Brand, R>(rt, alloc, opening, steps),
        Err(_) => (None, None),
    }
}

/// How many versions a row's last step says are kept, where that is a trimming step that is done.
fn done_at_last(steps: &[Step]) -> Option<u64> {
    match steps.last() {
        Some(Step::Done(count)) => Some(*count),
        _ => None,
    }
}

/// Whether a row goes as it has to, and as many versions are in the dump of what it leaves: where
/// its last step says that trimming is done, just those that this step says are kept.
fn is_right<R: Wait>(rt: &R, alloc: Global, row: Row) -> bool {
    let (first, left) = run_row(rt, alloc, row.0);
    let kept = done_at_last(row.0).unwrap_or(row.1);
    first.is_none() && left == Some(row.1) && left == Some(kept)
}

#[test]
fn lock_replies(rt: HostRuntime) {
    let alloc = rt.alloc();
    let right = [
        is_right(&rt, alloc, rows::a_put_and_a_range()),
        is_right(&rt, alloc, rows::a_range_of_nothing()),
        is_right(&rt, alloc, rows::a_put_without_a_key()),
        is_right(&rt, alloc, rows::ranges()),
        is_right(&rt, alloc, rows::ranges_of_the_past()),
        is_right(&rt, alloc, rows::trimmed_to_the_least()),
        is_right(&rt, alloc, rows::a_range_below_the_compaction()),
        is_right(&rt, alloc, rows::a_watch()),
        is_right(&rt, alloc, rows::watches_of_what_is_compacted()),
        is_right(&rt, alloc, rows::compactions()),
        is_right(&rt, alloc, rows::leases()),
    ];
    assert_eq!(rt; right, [true; 11]);
}
