//! What a client reads beside the engine: its own changes, and what others made before it was told.
ghost use Rattle.std.specs.Prelude.{◌≡◌, false};

use crate::lock_replies::ONES;
use crate::texts::{COMPACT, PUT, PUT_A_1, PUT_A_2, PUT_B_1, RANGE};
use engine_lock::{Client, Engine, EngineName, Opening};
use json_gateway::{Refusal, range_text, read};
use kv_model::call::Command;
use std::alloc::Global;
use std::marker::Brand;
use std::sync::Wait;

const RANGE_A: &str = "{\"key\":\"YQ==\",\"serializable\":true}";

const RANGE_A_AT_2: &str = "{\"key\":\"YQ==\",\"revision\":\"2\",\"serializable\":true}";

const COMPACT_3: &str = "{\"revision\":\"3\"}";

const A_IS_1_AT_2: &str =
    "{\"count\":\"1\",\"header\":{\"cluster_id\":\"1\",\"member_id\":\"1\",\"raft_term\":\"1\",\"revision\":\"2\"},\"kvs\":[{\"create_revision\":\"2\",\"key\":\"YQ==\",\"mod_revision\":\"2\",\"value\":\"MQ==\",\"version\":\"1\"}]}";

const A_IS_2_AT_3: &str =
    "{\"count\":\"1\",\"header\":{\"cluster_id\":\"1\",\"member_id\":\"1\",\"raft_term\":\"1\",\"revision\":\"3\"},\"kvs\":[{\"create_revision\":\"2\",\"key\":\"YQ==\",\"mod_revision\":\"3\",\"value\":\"Mg==\",\"version\":\"2\"}]}";

const A_IS_2_AT_4: &str =
    "{\"count\":\"1\",\"header\":{\"cluster_id\":\"1\",\"member_id\":\"1\",\"raft_term\":\"1\",\"revision\":\"4\"},\"kvs\":[{\"create_revision\":\"2\",\"key\":\"YQ==\",\"mod_revision\":\"3\",\"value\":\"Mg==\",\"version\":\"2\"}]}";

/// A command by a client is answered with status 200: whether readers were told of it, and the
/// revision behind it.
fn posted<L: EngineName, R: Wait>(
    rt: &R,
    alloc: Global,
    engine: &Engine<L>,
    client: &mut Client<L>,
    path: &str,
    body: &str,
) -> Option<(bool, u64)> {
    match read(alloc, path.as_bytes(), body.as_bytes()) {
        Ok(command) => {
            let submitted = engine.submit(rt, client, 0, &command);
            let told = match submitted.outcome.settled.wire().0 {
                200 => Some((submitted.published, submitted.revision)),
                _ => None,
            };
            drop(submitted);
            drop(command);
            told
        }
        Err(_) => None,
    }
}

/// A Range by the engine has this body.
fn is_answered<L: EngineName, R: Wait>(
    rt: &R,
    alloc: Global,
    engine: &Engine<L>,
    client: &mut Client<L>,
    body: &str,
) -> bool {
    match read(alloc, RANGE.as_bytes(), RANGE_A.as_bytes()) {
        Ok(command) => {
            let submitted = engine.submit(rt, client, 0, &command);
            let is = submitted.outcome.settled.wire() == (200, body.as_bytes());
            drop(submitted);
            drop(command);
            is
        }
        Err(_) => false,
    }
}

/// The body of a Range by a client's own reading, or its refusal.
fn read_beside<L: EngineName>(
    alloc: Global,
    client: &mut Client<L>,
    asked: &str,
) -> Option<Result<Vec<u8>, Refusal>> {
    let Ok(Command::Range(query)) = read(alloc, RANGE.as_bytes(), asked.as_bytes()) else {
        return None;
    };
    match client.range_serializable(alloc, &query) {
        Ok(reply) => Some(Ok(range_text(alloc, &reply, &ONES).ok()?)),
        Err(refusal) => Some(Err(refusal)),
    }
}

/// A client's own reading has one of these bodies.
fn shows<L: EngineName>(alloc: Global, client: &mut Client<L>, bodies: &[&str]) -> bool {
    let Some(Ok(text)) = read_beside(alloc, client, RANGE_A) else {
        return false;
    };
    bodies.iter().any(|body| text.as_slice() == body.as_bytes())
}

/// The first step that goes otherwise than it has to.
fn first_otherwise<L: EngineName, R: Wait>(
    rt: &R,
    alloc: Global,
    engine: &Engine<L>,
    clients: (&mut Client<L>, &mut Client<L>),
) -> usize {
    let (a, b) = clients;
    if posted(rt, alloc, engine, a, PUT, PUT_A_1) != Some((true, 2)) {
        return 1;
    }
    if !shows(alloc, a, &[A_IS_1_AT_2]) {
        return 2;
    }
    a.leave();
    if posted(rt, alloc, engine, b, PUT, PUT_A_2) != Some((true, 3)) {
        return 3;
    }
    if !shows(alloc, a, &[A_IS_1_AT_2, A_IS_2_AT_3]) {
        return 4;
    }
    if posted(rt, alloc, engine, a, PUT, PUT_B_1) != Some((true, 4)) {
        return 5;
    }
    if !shows(alloc, a, &[A_IS_2_AT_4]) {
        return 6;
    }
    if !is_answered(rt, alloc, engine, a, A_IS_2_AT_4) {
        return 7;
    }
    if posted(rt, alloc, engine, a, COMPACT, COMPACT_3) != Some((true, 4)) {
        return 8;
    }
    match read_beside(alloc, a, RANGE_A_AT_2) {
        Some(Err(Refusal::Compacted(3))) => 0,
        _ => 9,
    }
}

/// The first step that goes otherwise, where the second client is made.
fn beside<L: EngineName, R: Wait>(
    rt: &R,
    alloc: Global,
    engine: &mut Engine<L>,
    a: &mut Client<L>,
) -> Option<usize> {
    match engine.client(rt) {
        Ok(made) => {
            let mut b = made;
            let step = first_otherwise(rt, alloc, engine, (a, &mut b));
            drop(b);
            Some(step)
        }
        Err(_) => None,
    }
}

/// The first step that goes otherwise, of two clients of an engine.
fn by_two<L: EngineName, R: Wait>(rt: &R, alloc: Global, engine: &mut Engine<L>) -> Option<usize> {
    match engine.client(rt) {
        Ok(made) => {
            let mut a = made;
            let step = beside(rt, alloc, engine, &mut a);
            drop(a);
            step
        }
        Err(_) => None,
    }
}

/// The first step that goes otherwise, of two clients of a new engine.
fn run<L: EngineName, R: Wait>(rt: &R, alloc: Global, opening: Opening) -> Option<usize>
    requires name { opening.name ≡ L.Ledger.name }
    requires parts { opening.parts ≡ L.Ledger.parts }
    requires book { opening.book ≡ L.ListName.book }
    requires recorded { L.recorded ≡ false }
    requires ids { L.ListName.ids ≡ record { cluster = 1; member = 1 } }
{
    let mut engine = Engine::<L>::new(alloc, opening, ONES);
    let step = by_two(rt, alloc, &mut engine);
    drop(engine);
    step
}

fn run_read_back<R: Wait>(rt: &R, alloc: Global) -> Option<usize> {
    let opening = Opening::new(alloc, rt).ok()?;
    run::<Brand, R>(rt, alloc, opening)
}

#[test]
fn read_back(rt: HostRuntime) {
    assert_eq!(rt; run_read_back(&rt, rt.alloc()), Some(0));
}
