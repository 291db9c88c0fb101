//! What watches are told, against the bodies of the worked rows.
use bytes::Bytes;
use gateway_text::{cancelled_text, created_text, events_text};
use json_gateway::messages::message;
use json_gateway::outcome::Message;
use json_gateway::wire::{WireEvent, WireOutcome, run_wire};
use kv_model::ids::Ids;
use kv_model::version::{Body, Rev, Version};
use range_view::reply::KvRef;
use request_core::store::Core;
use std::alloc::{AllocError, Global};
use watch_hub::Event;

const IDS: Ids = Ids {
    cluster: 1,
    member: 1,
};

fn says(text: Result<Vec<u8>, AllocError>, body: &str) -> bool {
    match text {
        Ok(text) => text.as_slice() == body.as_bytes(),
        Err(_) => false,
    }
}

/// Whether the text of one event, at a revision and to a client's number, is this one.
fn event_says(
    alloc: Global,
    version: &Version,
    previous: Option<KvRef<'_>>,
    told: (u64, i64),
    expected: &str,
) -> bool {
    let (revision, id) = told;
    let mut events = Vec::new(alloc);
    let _ = events.push(Event { version, previous });
    let says = says(events_text(alloc, revision, id, &events, &IDS), expected);
    drop(events);
    says
}

/// A version of the key a, in the first change of a revision.
fn version(main: u64, body: Body) -> Version {
    Version {
        rev: Rev { main, sub: 0 },
        key: Bytes::from_static(b"a"),
        body,
    }
}

#[test]
fn a_watch_is_made_and_cancelled(rt: HostRuntime) {
    let are = [
        says(
            created_text(rt.alloc(), 4, 5, &IDS),
            "{\"result\":{\"created\":true,\"header\":{\"cluster_id\":\"1\",\"member_id\":\"1\",\"raft_term\":\"1\",\"revision\":\"4\"},\"watch_id\":\"5\"}}",
        ),
        says(
            created_text(rt.alloc(), 4, 0, &IDS),
            "{\"result\":{\"created\":true,\"header\":{\"cluster_id\":\"1\",\"member_id\":\"1\",\"raft_term\":\"1\",\"revision\":\"4\"}}}",
        ),
        says(
            cancelled_text(rt.alloc(), 3, 0, 3, &IDS),
            "{\"result\":{\"canceled\":true,\"compact_revision\":\"3\",\"header\":{\"cluster_id\":\"1\",\"member_id\":\"1\",\"raft_term\":\"1\",\"revision\":\"3\"}}}",
        ),
    ];
    assert_eq!(rt; are, [true, true, true]);
}

/// A delete with what the key held before, and a put without.
#[test]
fn events_are_told(rt: HostRuntime) {
    let delete = version(3, Body::Gone);
    let put = version(
        6,
        Body::Put {
            create: 4,
            version: 3,
            lease: 0,
            value: Bytes::from_static(b"2"),
        },
    );
    let before = KvRef {
        key: b"a",
        value: b"1",
        create: 2,
        modified: 2,
        version: 1,
        lease: 0,
    };
    let are = [
        event_says(
            rt.alloc(),
            &delete,
            Some(before),
            (4, 5),
            "{\"result\":{\"events\":[{\"kv\":{\"key\":\"YQ==\",\"mod_revision\":\"3\"},\"prev_kv\":{\"create_revision\":\"2\",\"key\":\"YQ==\",\"mod_revision\":\"2\",\"value\":\"MQ==\",\"version\":\"1\"},\"type\":\"DELETE\"}],\"header\":{\"cluster_id\":\"1\",\"member_id\":\"1\",\"raft_term\":\"1\",\"revision\":\"4\"},\"watch_id\":\"5\"}}",
        ),
        event_says(
            rt.alloc(),
            &put,
            None,
            (6, 0),
            "{\"result\":{\"events\":[{\"kv\":{\"create_revision\":\"4\",\"key\":\"YQ==\",\"mod_revision\":\"6\",\"value\":\"Mg==\",\"version\":\"3\"}}],\"header\":{\"cluster_id\":\"1\",\"member_id\":\"1\",\"raft_term\":\"1\",\"revision\":\"6\"}}}",
        ),
    ];
    drop(delete);
    drop(put);
    assert_eq!(rt; are, [true, true]);
}

const PUT_1: &[u8] = b"{\"key\":\"YQ==\",\"value\":\"MQ==\"}";

const PUT_2: &[u8] = b"{\"key\":\"YQ==\",\"value\":\"Mg==\"}";

/// Two watches of a key that was put, deleted and put again: one of its deletes, and one of what
/// comes after the next revision.
const EVENTS: [WireEvent<'static>; 14] = [
    WireEvent::Post {
        path: b"/v3/kv/put",
        body: PUT_1,
    },
    WireEvent::Post {
        path: b"/v3/kv/deleterange",
        body: b"{\"key\":\"YQ==\"}",
    },
    WireEvent::Post {
        path: b"/v3/kv/put",
        body: PUT_2,
    },
    WireEvent::Post {
        path: b"/v3/watch",
        body: b"{\"create_request\":{\"key\":\"YQ==\",\"start_revision\":\"2\",\"filters\":[\"NOPUT\"],\"prev_kv\":true,\"watch_id\":\"5\"}}",
    },
    WireEvent::Deliver(1),
    WireEvent::Deliver(1),
    WireEvent::Close(1),
    WireEvent::Close(1),
    WireEvent::Deliver(1),
    WireEvent::Post {
        path: b"/v3/watch",
        body: b"{\"create_request\":{\"key\":\"YQ==\",\"start_revision\":\"6\"}}",
    },
    WireEvent::Post {
        path: b"/v3/kv/put",
        body: PUT_1,
    },
    WireEvent::Deliver(2),
    WireEvent::Post {
        path: b"/v3/kv/put",
        body: PUT_2,
    },
    WireEvent::Deliver(2),
];

/// What each event is answered: a body or another word, and the number of a watch that was made.
const ANSWERS: [(&str, Option<u64>); 14] = [
    (
        "{\"header\":{\"cluster_id\":\"1\",\"member_id\":\"1\",\"raft_term\":\"1\",\"revision\":\"2\"}}",
        None,
    ),
    (
        "{\"deleted\":\"1\",\"header\":{\"cluster_id\":\"1\",\"member_id\":\"1\",\"raft_term\":\"1\",\"revision\":\"3\"}}",
        None,
    ),
    (
        "{\"header\":{\"cluster_id\":\"1\",\"member_id\":\"1\",\"raft_term\":\"1\",\"revision\":\"4\"}}",
        None,
    ),
    (
        "{\"result\":{\"created\":true,\"header\":{\"cluster_id\":\"1\",\"member_id\":\"1\",\"raft_term\":\"1\",\"revision\":\"4\"},\"watch_id\":\"5\"}}",
        Some(1),
    ),
    (
        "{\"result\":{\"events\":[{\"kv\":{\"key\":\"YQ==\",\"mod_revision\":\"3\"},\"prev_kv\":{\"create_revision\":\"2\",\"key\":\"YQ==\",\"mod_revision\":\"2\",\"value\":\"MQ==\",\"version\":\"1\"},\"type\":\"DELETE\"}],\"header\":{\"cluster_id\":\"1\",\"member_id\":\"1\",\"raft_term\":\"1\",\"revision\":\"4\"},\"watch_id\":\"5\"}}",
        None,
    ),
    ("nothing", None),
    ("closed", None),
    ("no watch", None),
    ("no watch", None),
    (
        "{\"result\":{\"created\":true,\"header\":{\"cluster_id\":\"1\",\"member_id\":\"1\",\"raft_term\":\"1\",\"revision\":\"4\"}}}",
        Some(2),
    ),
    (
        "{\"header\":{\"cluster_id\":\"1\",\"member_id\":\"1\",\"raft_term\":\"1\",\"revision\":\"5\"}}",
        None,
    ),
    ("nothing", None),
    (
        "{\"header\":{\"cluster_id\":\"1\",\"member_id\":\"1\",\"raft_term\":\"1\",\"revision\":\"6\"}}",
        None,
    ),
    (
        "{\"result\":{\"events\":[{\"kv\":{\"create_revision\":\"4\",\"key\":\"YQ==\",\"mod_revision\":\"6\",\"value\":\"Mg==\",\"version\":\"3\"}}],\"header\":{\"cluster_id\":\"1\",\"member_id\":\"1\",\"raft_term\":\"1\",\"revision\":\"6\"}}}",
        None,
    ),
];

fn is_answered(outcome: &WireOutcome, text: &str, watch: Option<u64>) -> bool {
    match outcome {
        WireOutcome::Posted(outcome) => {
            outcome.settled.wire().1 == text.as_bytes() && outcome.watch == watch
        }
        WireOutcome::Delivered(Ok(Message::Text(told))) => told.as_slice() == text.as_bytes(),
        WireOutcome::Delivered(Ok(Message::Nothing)) => text == "nothing",
        WireOutcome::Delivered(Ok(Message::NoWatch)) => text == "no watch",
        WireOutcome::Closed(true) => text == "closed",
        WireOutcome::Closed(false) => text == "no watch",
        _ => false,
    }
}

/// The place of the first outcome that is not this answer.
fn first_wrong(outcomes: &[WireOutcome], answers: &[(&str, Option<u64>)]) -> Option<usize> {
    for (place, answer) in answers.iter().enumerate() {
        match outcomes.get(place) {
            Some(outcome) if is_answered(outcome, answer.0, answer.1) => {}
            _ => return Some(place),
        }
    }
    None
}

fn first_wrong_of_run(alloc: Global) -> Option<usize> {
    let run = run_wire(alloc, &EVENTS, &IDS);
    let wrong = match &run {
        Ok(run) => first_wrong(run.outcomes.as_slice(), &ANSWERS),
        Err(_) => Some(0),
    };
    drop(run);
    wrong
}

#[test]
fn watches_of_a_run(rt: HostRuntime) {
    assert_eq!(rt; first_wrong_of_run(rt.alloc()), None);
}

fn is_no_watch(alloc: Global, number: u64) -> bool {
    let mut core = Core::new(alloc);
    let told = message(alloc, &mut core, number, &IDS);
    drop(core);
    let is = match &told {
        Ok(Message::NoWatch) => true,
        _ => false,
    };
    drop(told);
    is
}

#[test]
fn a_message_without_a_watch(rt: HostRuntime) {
    assert!(rt; is_no_watch(rt.alloc(), 1));
}
