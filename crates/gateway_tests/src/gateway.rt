//! What no clause says: that calls succeed with ample memory, on the worked rows.
use gateway_read::read;
use json_gateway::commands::{perform, post, text};
use json_gateway::outcome::{Outcome, Settled};
use json_gateway::wire::{Unexpired, WireEvent, WireOutcome, WireRun, run_wire};
use kv_model::ids::Ids;
use request_core::answer::{Answer, Expiry};
use request_core::store::Core;
use std::alloc::Global;

const ONES: Ids = Ids {
    cluster: 1,
    member: 1,
};

const PUT: &[u8] = b"{\"key\":\"Zm9v\",\"value\":\"YmFy\"}";

const PUT_REPLY: &[u8] =
    b"{\"header\":{\"cluster_id\":\"1\",\"member_id\":\"1\",\"raft_term\":\"1\",\"revision\":\"2\"}}";

const DELETE_REPLY: &[u8] =
    b"{\"deleted\":\"1\",\"header\":{\"cluster_id\":\"1\",\"member_id\":\"1\",\"raft_term\":\"1\",\"revision\":\"3\"}}";

const RANGE_REPLY: &[u8] =
    b"{\"count\":\"1\",\"header\":{\"cluster_id\":\"1\",\"member_id\":\"1\",\"raft_term\":\"1\",\"revision\":\"2\"},\"kvs\":[{\"create_revision\":\"2\",\"key\":\"Zm9v\",\"mod_revision\":\"2\",\"value\":\"YmFy\",\"version\":\"1\"}]}";

const NO_KEY: &[u8] =
    b"{\"code\":3,\"error\":\"etcdserver: key is not provided\",\"message\":\"etcdserver: key is not provided\"}";

const BAD_KEY: &[u8] =
    b"{\"code\":3,\"error\":\"gateway: bad base64 in key\",\"message\":\"gateway: bad base64 in key\"}";

const MEMORY: &[u8] =
    b"{\"code\":13,\"error\":\"etcdserver: out of memory\",\"message\":\"etcdserver: out of memory\"}";

const LOST: &[u8] =
    b"{\"code\":13,\"error\":\"etcdserver: answer lost, the change stands\",\"message\":\"etcdserver: answer lost, the change stands\"}";

/// The status of an answer, whether its body is the one that is expected, and the new revision.
type Told = (u16, bool, Option<u64>);

fn compared(outcome: &Outcome, expected: &[u8]) -> Told {
    let (status, body) = outcome.settled.wire();
    (status, body == expected, outcome.raised)
}

/// How a request was answered, where the outcome at this place is that of one.
fn posted(run: &WireRun, place: usize, expected: &[u8]) -> Option<Told> {
    match run.outcomes.get(place) {
        Some(WireOutcome::Posted(outcome)) => Some(compared(outcome, expected)),
        _ => None,
    }
}

/// The answers to a put, a range and a delete, and the number of all outcomes.
fn three_posted(alloc: Global) -> Option<(usize, [Option<Told>; 3])> {
    let events = [
        WireEvent::Post {
            path: b"/v3/kv/put",
            body: PUT,
        },
        WireEvent::Post {
            path: b"/v3/kv/range",
            body: b"{\"key\":\"Zm9v\"}",
        },
        WireEvent::Post {
            path: b"/v3/kv/deleterange",
            body: b"{\"key\":\"Zm9v\"}",
        },
    ];
    let run = run_wire(alloc, events.as_slice(), &ONES);
    let found = match &run {
        Ok(run) => Some((
            run.outcomes.len(),
            [
                posted(run, 0, PUT_REPLY),
                posted(run, 1, RANGE_REPLY),
                posted(run, 2, DELETE_REPLY),
            ],
        )),
        Err(_) => None,
    };
    drop(run);
    found
}

#[test]
fn a_put_a_range_and_a_delete_as_bytes(rt: HostRuntime) {
    let answers = [
        Some((200, true, Some(2))),
        Some((200, true, None)),
        Some((200, true, Some(3))),
    ];
    assert_eq!(rt; three_posted(rt.alloc()), Some((3, answers)));
}

/// What a step of expiry did, where the outcome at this place is that of one.
fn expired(run: &WireRun, place: usize) -> Option<Result<Expiry, Unexpired>> {
    match run.outcomes.get(place) {
        Some(WireOutcome::Expiry(step)) => Some(*step),
        _ => None,
    }
}

/// The clock, where the outcome at this place is that of a moment.
fn clock(run: &WireRun, place: usize) -> Option<u64> {
    match run.outcomes.get(place) {
        Some(WireOutcome::Clock(clock)) => Some(*clock),
        _ => None,
    }
}

/// The number of outcomes, the answer to the put, the two steps of expiry, and the clock between
/// them.
type Ended = (
    usize,
    Option<Told>,
    [Option<Result<Expiry, Unexpired>>; 2],
    Option<u64>,
);

fn five_outcomes(alloc: Global) -> Option<Ended> {
    let events = [
        WireEvent::Post {
            path: b"/v3/lease/grant",
            body: b"{\"TTL\":\"10\",\"ID\":\"7\"}",
        },
        WireEvent::Post {
            path: b"/v3/kv/put",
            body: b"{\"key\":\"Zm9v\",\"value\":\"YmFy\",\"lease\":\"7\"}",
        },
        WireEvent::Expire,
        WireEvent::Moment(10_000),
        WireEvent::Expire,
    ];
    let run = run_wire(alloc, events.as_slice(), &ONES);
    let found = match &run {
        Ok(run) => Some((
            run.outcomes.len(),
            posted(run, 1, PUT_REPLY),
            [expired(run, 2), expired(run, 4)],
            clock(run, 3),
        )),
        Err(_) => None,
    };
    drop(run);
    found
}

/// A lease of ten seconds with one key.
#[test]
fn a_lease_and_its_end(rt: HostRuntime) {
    let expired = Expiry::Expired {
        id: 7,
        revision: 3,
        raised: true,
    };
    let expiries = [Some(Ok(Expiry::Nothing)), Some(Ok(expired))];
    let put = Some((200, true, Some(2)));
    assert_eq!(rt;
        five_outcomes(rt.alloc()),
        Some((5, put, expiries, Some(10_000)))
    );
}

/// How the put of a body is answered, where it is read.
fn performed(alloc: Global, core: &mut Core, body: &[u8], expected: &[u8]) -> Option<Told> {
    let command = read(alloc, b"/v3/kv/put", body);
    let found = match &command {
        Ok(command) => {
            let outcome = perform(alloc, core, command, &ONES);
            let found = compared(&outcome, expected);
            drop(outcome);
            Some(found)
        }
        Err(_) => None,
    };
    drop(command);
    found
}

fn post_one(alloc: Global, core: &mut Core, path: &[u8], body: &[u8], expected: &[u8]) -> Told {
    let outcome = post(alloc, core, path, body, &ONES);
    let found = compared(&outcome, expected);
    drop(outcome);
    found
}

/// The answers to a put that was read before, to a put without a key and to a range of a bad one,
/// and the last revision.
fn three_requests(alloc: Global) -> (Option<Told>, [Told; 2], u64) {
    let mut core = Core::new(alloc);
    let put = performed(alloc, &mut core, PUT, PUT_REPLY);
    let refused = [
        post_one(
            alloc,
            &mut core,
            b"/v3/kv/put",
            b"{\"value\":\"YmFy\"}",
            NO_KEY,
        ),
        post_one(
            alloc,
            &mut core,
            b"/v3/kv/range",
            b"{\"key\":\"Zm9\"}",
            BAD_KEY,
        ),
    ];
    let revision = core.status().revision;
    drop(core);
    (put, refused, revision)
}

#[test]
fn one_request(rt: HostRuntime) {
    let (put, refused, revision) = three_requests(rt.alloc());
    assert_eq!(rt; (put, revision), (Some((200, true, Some(2))), 2));
    assert_eq!(rt; refused, [(400, true, None), (400, true, None)]);
}

fn is_text_of(alloc: Global, answer: &Answer<'_>, expected: &[u8]) -> bool {
    match text(alloc, answer, &ONES) {
        Ok(body) => body.as_slice() == expected,
        Err(_) => false,
    }
}

#[test]
fn the_text_of_an_answer(rt: HostRuntime) {
    let put = Answer::Put {
        revision: 2,
        previous: None,
    };
    let delete = Answer::Delete {
        revision: 3,
        deleted: 1,
        previous: Vec::new(rt.alloc()),
    };
    let are = [
        is_text_of(rt.alloc(), &put, PUT_REPLY),
        is_text_of(rt.alloc(), &delete, DELETE_REPLY),
    ];
    drop(put);
    drop(delete);
    assert_eq!(rt; are, [true, true]);
}

fn is_settled_as(settled: Settled, expected: (u16, &[u8])) -> bool {
    let is = settled.wire() == expected;
    drop(settled);
    is
}

#[test]
fn the_fixed_texts(rt: HostRuntime) {
    let are = [
        is_settled_as(Settled::Memory, (500, MEMORY)),
        is_settled_as(Settled::Lost(2), (500, LOST)),
    ];
    assert_eq!(rt; are, [true, true]);
}
