//! Watches of one key, made, told of and ended. A test is a table of what is done with a hub: no
//! function that owns one asserts, and one function does all rows.
use crate::fixtures::{Change, fill, version};
use bytes::Bytes;
use kv_model::call::Watched;
use kv_model::refusal::Refusal;
use kv_model::version::KeyRange;
use range_view::Tables;
use std::alloc::Global;
use watch_hub::{Delivery, Event, WatchHub};

/// Puts of the key a.
static PUTS: [Change; 3] = [
    (2, b"a", b"", 2, 1),
    (3, b"a", b"", 2, 1),
    (4, b"a", b"", 2, 1),
];

/// A watch of the key a, from a revision or where that is 0 from the next one.
fn watch(hub: &mut WatchHub, tables: &Tables, start: i64) -> Result<u64, Refusal> {
    if tables.revision() > 9 {
        return Err(Refusal::RevisionsSpent);
    }
    let watched = Watched {
        range: KeyRange {
            key: Bytes::from_static(b"a"),
            end: Bytes::new(),
        },
        no_put: false,
        no_delete: false,
        prev_kv: true,
    };
    let made = hub.create(tables, &watched, start, 7);
    drop(watched);
    made
}

/// Tells of one put more.
fn note(hub: &mut WatchHub) {
    let versions = [version((5, b"a", b"", 2, 1))];
    hub.note(versions.as_slice(), 5);
    drop(versions);
}

type Waiting = Result<Option<u64>, Refusal>;

fn first(hub: &WatchHub, number: u64) -> Waiting {
    match hub.pending(number) {
        Ok(pending) => Ok(pending.first),
        Err(refusal) => Err(refusal),
    }
}

/// Of the first two versions that a watch is told of next the main revisions, and those of the
/// key-values before them; 0 for no version.
type Told = Result<[(u64, Option<u64>); 2], Refusal>;

fn of_event(event: Option<&Event<'_>>) -> (u64, Option<u64>) {
    match event {
        Some(event) => match event.previous {
            Some(kv) => (event.version.rev.main, Some(kv.modified)),
            None => (event.version.rev.main, None),
        },
        None => (0, None),
    }
}

fn first_two(delivery: &Delivery<'_>) -> [(u64, Option<u64>); 2] {
    match delivery {
        Delivery::Events(events) => [of_event(events.first()), of_event(events.get(1))],
        _ => [(0, None); 2],
    }
}

fn next(alloc: Global, hub: &WatchHub, tables: &Tables, number: u64) -> Told {
    let delivery = hub.deliver(alloc, tables, number);
    let found = match &delivery {
        Ok(delivery) => Ok(first_two(delivery)),
        Err(refusal) => Err(*refusal),
    };
    drop(delivery);
    found
}

/// What a watch is told next; then it moves past that.
fn told(alloc: Global, hub: &mut WatchHub, tables: &Tables, number: u64) -> Told {
    if tables.revision() > 9 {
        return Err(Refusal::RevisionsSpent);
    }
    let found = next(alloc, hub, tables, number);
    if found.is_ok() {
        hub.go_on(tables, number);
    }
    found
}

/// What is done with a hub, and what it is to answer.
#[derive(Clone, Copy)]
enum Row {
    /// A watch from a revision on.
    Watch(i64, Result<u64, Refusal>),
    /// One put more.
    Note,
    /// What a watch waits for.
    First(u64, Waiting),
    /// Whether no watch stands.
    Empty(bool),
    /// The second watch was told of all up to revision 3.
    Advance,
    Cancel(u64, Result<(), Refusal>),
    /// What a watch is told next.
    Told(u64, Told),
}

fn is_so(alloc: Global, hub: &mut WatchHub, tables: &Tables, row: Row) -> bool {
    match row {
        Row::Watch(start, expected) => watch(hub, tables, start) == expected,
        Row::Note => {
            note(hub);
            true
        }
        Row::First(number, expected) => first(hub, number) == expected,
        Row::Empty(expected) => hub.is_empty() == expected,
        Row::Advance => {
            hub.advance(tables, 2, 3);
            true
        }
        Row::Cancel(number, expected) => hub.cancel(number) == expected,
        Row::Told(number, expected) => told(alloc, hub, tables, number) == expected,
    }
}

fn first_wrong(alloc: Global, hub: &mut WatchHub, tables: &Tables, rows: &[Row]) -> Option<usize> {
    for (place, row) in rows.iter().enumerate() {
        let row = *row;
        if !is_so(alloc, hub, tables, row) {
            return Some(place);
        }
    }
    None
}

/// The place of the first row that a fresh hub answers otherwise, beside the three puts.
fn first_wrong_of_fresh(alloc: Global, rows: &[Row]) -> Option<usize> {
    let mut tables = Tables::new(alloc);
    fill(alloc, &mut tables, PUTS.as_slice());
    let mut hub = WatchHub::new(alloc);
    let wrong = first_wrong(alloc, &mut hub, &tables, rows);
    drop(hub);
    drop(tables);
    wrong
}

const WAITING: [Row; 18] = [
    Row::Empty(true),
    Row::Watch(0, Ok(1)),
    Row::Empty(false),
    Row::Watch(3, Ok(2)),
    Row::Watch(6, Ok(3)),
    Row::Note,
    Row::First(1, Ok(Some(5))),
    Row::First(2, Ok(Some(3))),
    Row::First(3, Ok(None)),
    Row::Advance,
    Row::First(1, Ok(Some(5))),
    Row::First(2, Ok(Some(4))),
    Row::First(3, Ok(None)),
    Row::Cancel(1, Ok(())),
    Row::Cancel(1, Err(Refusal::NoWatch)),
    Row::First(1, Err(Refusal::NoWatch)),
    Row::First(2, Ok(Some(4))),
    Row::First(3, Ok(None)),
];

#[test]
fn watches_wait_for_what_they_match(rt: HostRuntime) {
    assert_eq!(rt; first_wrong_of_fresh(rt.alloc(), WAITING.as_slice()), None);
}

const TOLD: [Row; 4] = [
    Row::Watch(3, Ok(1)),
    Row::Told(1, Ok([(3, Some(2)), (4, Some(3))])),
    Row::Told(1, Ok([(0, None), (0, None)])),
    Row::Told(2, Err(Refusal::NoWatch)),
];

#[test]
fn a_watch_is_told_each_revision_once(rt: HostRuntime) {
    assert_eq!(rt; first_wrong_of_fresh(rt.alloc(), TOLD.as_slice()), None);
}
