//! The store before its first command, and what its watches are told. A test is a table of what is
//! done with a core: no function that owns one asserts, and one function does all rows.
use crate::fixtures::crosses;
use bytes::Bytes;
use kv_model::call::{Command, PutRequest, Watched};
use kv_model::refusal::Refusal;
use kv_model::version::{KeyRange, Rev};
use range_view::Tables;
use request_core::answer::{Answer, Status};
use request_core::store::{Core, LAST_MAIN};
use std::alloc::{AllocError, Global};
use trim_core::Trim;
use watch_hub::Delivery;

fn status_and_stamp(alloc: Global) -> (Status, u64) {
    let core = Core::new(alloc);
    let found = (core.status(), core.stamp());
    drop(core);
    found
}

#[test]
fn a_fresh_core(rt: HostRuntime) {
    let status = Status {
        revision: 1,
        compacted: 0,
        clock: 0,
        versions: 0,
    };
    assert_eq!(rt; status_and_stamp(rt.alloc()), (status, 0));
}

#[test]
fn a_core_crosses_threads(rt: HostRuntime) {
    crosses(Core::new(rt.alloc()));
}

fn put_a() -> Command {
    Command::Put(PutRequest {
        key: Bytes::from_static(b"a"),
        value: Bytes::from_static(b"1"),
        lease: 0,
        prev_kv: false,
        ignore_value: false,
        ignore_lease: false,
    })
}

/// The revision that a command raised the store to, or the number of its refusal.
type Raised = Result<Option<u64>, u8>;

fn raised(core: &mut Core, command: &Command) -> Raised {
    match core.apply(command) {
        Ok(receipt) => Ok(receipt.raised),
        Err(refusal) => Err(refusal.number()),
    }
}

/// A core that keeps nothing and has come to the last revision but two, as no script comes so far: one is
/// put together of a fresh core and of tables at that revision.
fn near_the_last(alloc: Global) -> Core {
    let late = Tables::at(alloc, LAST_MAIN - 2);
    let (tables, rest) = Core::new(alloc).part();
    let core = rest.join(late);
    drop(tables);
    core
}

/// What three puts raise such a core to: the first gives it one version, at the last revision but one.
fn three_puts(alloc: Global) -> (Raised, Raised, Raised) {
    let put = put_a();
    let mut core = near_the_last(alloc);
    let found = (
        raised(&mut core, &put),
        raised(&mut core, &put),
        raised(&mut core, &put),
    );
    drop(core);
    drop(put);
    found
}

#[test]
fn no_put_is_accepted_at_the_last_revision(rt: HostRuntime) {
    assert_eq!(rt;
        three_puts(rt.alloc()),
        (
            Ok(Some(9_223_372_036_854_775_806)),
            Ok(Some(9_223_372_036_854_775_807)),
            Err(17),
        )
    );
}

/// A watch of the key a from a revision on, and where that is 0 from the next one.
fn watch_a(start: i64) -> Command {
    Command::Watch {
        watched: Watched {
            range: KeyRange {
                key: Bytes::from_static(b"a"),
                end: Bytes::new(),
            },
            no_put: false,
            no_delete: false,
            prev_kv: true,
        },
        start,
        id: 5,
    }
}

/// The revision after a command, the number of a watch that it made, and whether its answer has
/// both.
type Done = Result<(u64, Option<u64>, bool), Refusal>;

/// The revision of a watch's answer, and its numbers by the client and by the store.
fn watch_of(answer: &Answer<'_>) -> Option<(u64, i64, u64)> {
    match answer {
        Answer::Watch {
            revision,
            id,
            number,
        } => Some((*revision, *id, *number)),
        _ => None,
    }
}

/// Whether an answer is made, and is that of the watch with a number, if there is one.
fn is_told(answer: &Result<Answer<'_>, AllocError>, revision: u64, watch: Option<u64>) -> bool {
    let expected = match watch {
        Some(number) => Some((revision, 5, number)),
        None => None,
    };
    match answer {
        Ok(answer) => watch_of(answer) == expected,
        Err(_) => false,
    }
}

fn done(core: &mut Core, command: Command) -> Done {
    let receipt = core.apply(&command);
    let found = match &receipt {
        Ok(receipt) => {
            let answer = core.answer(receipt);
            let is = is_told(&answer, receipt.revision, receipt.watch);
            drop(answer);
            Ok((receipt.revision, receipt.watch, is))
        }
        Err(refusal) => Err(*refusal),
    };
    drop(receipt);
    drop(command);
    found
}

/// The main revision of the first event that a watch is told of next, and that of the key-value
/// before it; 0 and the compaction where the watch is cancelled.
type Told = Result<Option<(u64, Option<u64>)>, Refusal>;

fn first_of(delivery: &Delivery<'_>) -> Option<(u64, Option<u64>)> {
    match delivery {
        Delivery::Events(events) => match events.first() {
            Some(event) => match event.previous {
                Some(kv) => Some((event.version.rev.main, Some(kv.modified))),
                None => Some((event.version.rev.main, None)),
            },
            None => None,
        },
        Delivery::Cancelled(compacted) => Some((0, Some(*compacted))),
        _ => None,
    }
}

/// What a watch is told next; then it moves past that.
fn told(core: &mut Core, number: u64) -> Told {
    let delivery = core.deliver(number);
    let found = match &delivery {
        Ok(delivery) => Ok(first_of(delivery)),
        Err(refusal) => Err(*refusal),
    };
    drop(delivery);
    core.advance(number);
    found
}

/// The history up to a revision is given up.
fn compact(revision: i64) -> Command {
    Command::Compact {
        revision,
        physical: false,
    }
}

/// A step of trimming, and by how much it raised the stamp.
fn stepped(core: &mut Core) -> (Trim, u64) {
    let before = core.stamp();
    let trim = core.trim_step();
    (trim, core.stamp().wrapping_sub(before))
}

/// What is done with a core, and what it is to answer.
#[derive(Clone, Copy)]
enum Row {
    /// A put of the key a.
    Put(Done),
    /// A watch of the key a from a revision on.
    Watch(i64, Done),
    Compact(i64, Done),
    /// What a watch is told next.
    Told(u64, Told),
    /// The number that its client gave a watch.
    Id(u64, Option<i64>),
    Cancel(u64, Result<(), Refusal>),
    /// A step of trimming.
    Step(Trim, u64),
    /// How many versions are kept.
    Kept(u64),
}

fn is_so(core: &mut Core, row: Row) -> bool {
    match row {
        Row::Put(expected) => done(core, put_a()) == expected,
        Row::Watch(start, expected) => done(core, watch_a(start)) == expected,
        Row::Compact(revision, expected) => done(core, compact(revision)) == expected,
        Row::Told(number, expected) => told(core, number) == expected,
        Row::Id(number, expected) => core.watch_id(number) == expected,
        Row::Cancel(number, expected) => core.cancel(number) == expected,
        Row::Step(trim, raised) => stepped(core) == (trim, raised),
        Row::Kept(count) => core.status().versions == count,
    }
}

fn first_wrong(core: &mut Core, rows: &[Row]) -> Option<usize> {
    for (place, row) in rows.iter().enumerate() {
        let row = *row;
        if !is_so(core, row) {
            return Some(place);
        }
    }
    None
}

/// The place of the first row that a fresh core answers otherwise.
fn first_wrong_of_fresh(alloc: Global, rows: &[Row]) -> Option<usize> {
    let mut core = Core::new(alloc);
    let wrong = first_wrong(&mut core, rows);
    drop(core);
    wrong
}

const NO_WATCH: Told = Err(Refusal::NoWatch);

static TOLD: [Row; 11] = [
    Row::Put(Ok((2, None, true))),
    Row::Watch(0, Ok((2, Some(1), true))),
    Row::Put(Ok((3, None, true))),
    Row::Told(1, Ok(Some((3, Some(2))))),
    Row::Told(1, Ok(None)),
    Row::Told(2, NO_WATCH),
    Row::Id(1, Some(5)),
    Row::Id(2, None),
    Row::Cancel(1, Ok(())),
    Row::Cancel(1, Err(Refusal::NoWatch)),
    Row::Id(1, None),
];

#[test]
fn a_core_tells_its_watches(rt: HostRuntime) {
    assert_eq!(rt; first_wrong_of_fresh(rt.alloc(), TOLD.as_slice()), None);
}

/// Watches of the puts 2 to 4: the first is behind the compaction, the second was told of all, and
/// the third begins at it.
static COMPACTED: [Row; 16] = [
    Row::Put(Ok((2, None, true))),
    Row::Watch(2, Ok((2, Some(1), true))),
    Row::Watch(0, Ok((2, Some(2), true))),
    Row::Put(Ok((3, None, true))),
    Row::Put(Ok((4, None, true))),
    Row::Watch(4, Ok((4, Some(3), true))),
    Row::Told(2, Ok(Some((3, Some(2))))),
    Row::Compact(4, Ok((4, None, true))),
    Row::Compact(4, Err(Refusal::Compacted(4))),
    Row::Told(1, Ok(Some((0, Some(4))))),
    Row::Told(2, Ok(None)),
    Row::Told(3, Ok(Some((4, Some(3))))),
    Row::Put(Ok((5, None, true))),
    Row::Told(1, NO_WATCH),
    Row::Told(2, Ok(Some((5, Some(4))))),
    Row::Told(3, Ok(Some((5, Some(4))))),
];

#[test]
fn a_core_is_compacted_between_deliveries(rt: HostRuntime) {
    assert_eq!(rt;
        first_wrong_of_fresh(rt.alloc(), COMPACTED.as_slice()),
        None
    );
}

static TRIMMED: [Row; 14] = [
    Row::Put(Ok((2, None, true))),
    Row::Put(Ok((3, None, true))),
    Row::Put(Ok((4, None, true))),
    Row::Step(Trim::Done(3), 0),
    Row::Compact(3, Ok((4, None, true))),
    Row::Step(Trim::Kept(Rev { main: 2, sub: 0 }), 0),
    Row::Step(Trim::Kept(Rev { main: 3, sub: 0 }), 0),
    Row::Step(Trim::Done(3), 0),
    Row::Compact(4, Ok((4, None, true))),
    Row::Step(Trim::Removed(Rev { main: 2, sub: 0 }), 1),
    Row::Step(Trim::Kept(Rev { main: 3, sub: 0 }), 0),
    Row::Step(Trim::Kept(Rev { main: 4, sub: 0 }), 0),
    Row::Step(Trim::Done(2), 0),
    Row::Kept(2),
];

#[test]
fn a_core_is_trimmed_step_by_step(rt: HostRuntime) {
    assert_eq!(rt; first_wrong_of_fresh(rt.alloc(), TRIMMED.as_slice()), None);
}
