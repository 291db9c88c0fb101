//! A core beside a sink that refuses one of its takings: whichever it is, the call that met it is
//! refused for memory and changes nothing, and the same call stands once the sink takes again. Two
//! rounds of events make 20 takings: each call that hands a change to a sink, each kind of change.
use crate::fixtures::{add, empty, put};
use bytes::Bytes;
use kv_model::call::{Command, DeleteRequest, Operation, PutRequest, Txn};
use kv_model::feed::{Op, Sink};
use kv_model::refusal::Refusal;
use kv_model::version::{Body, KeyRange, Version};
use request_core::answer::{Expiry, Status};
use request_core::store::Core;
use std::alloc::{AllocError, Global};

/// Takes so many operations, and then refuses each. It keeps none.
#[derive(Drop)]
struct Refusing {
    left: u64,
}

impl Sink for Refusing {
    ghost takes = { λ _ _ _. Unit {0} };

    fn take(&mut self, op: Op) -> Result<(), AllocError> {
        drop(op);
        if self.left == 0 {
            return Err(AllocError);
        }
        self.left -= 1;
        Ok(())
    }
}

/// What is done with a core.
#[derive(Clone, Copy)]
enum Event {
    /// A put of a key under a lease, where that is not 0.
    Put(&'static [u8], i64),
    /// A delete of all keys.
    Delete,
    /// A transaction that puts two keys.
    Txn,
    Grant(i64),
    Revoke(i64),
    /// A Compact at the present revision, as a command.
    Compact,
    /// The same, by the call of its own.
    CompactBeside,
    /// Ten seconds go by.
    Wait,
    /// A step of expiry, with which a lease ends.
    Expire,
}

/// The changes of one round: 10 of them are handed to a sink.
static ROUND: [Event; 13] = [
    Event::Put(b"a", 0),
    Event::Put(b"b", 0),
    Event::Txn,
    Event::Delete,
    Event::Grant(7),
    Event::Put(b"c", 7),
    Event::Revoke(7),
    Event::Compact,
    Event::Grant(8),
    Event::Put(b"d", 8),
    Event::Wait,
    Event::Expire,
    Event::CompactBeside,
];

/// How many changes of both rounds are handed to a sink.
const TAKINGS: u64 = 20;

fn put_under(key: &'static [u8], lease: i64) -> Command {
    Command::Put(PutRequest {
        key: Bytes::from_static(key),
        value: Bytes::from_static(b"1"),
        lease,
        prev_kv: false,
        ignore_value: false,
        ignore_lease: false,
    })
}

fn delete_all() -> Command {
    Command::Delete(DeleteRequest {
        range: KeyRange {
            key: Bytes::from_static(b"\0"),
            end: Bytes::from_static(b"\0"),
        },
        prev_kv: false,
    })
}

fn two_puts(alloc: Global) -> Txn {
    let mut txn = empty(alloc);
    add(&mut txn.success, put(b"x", b"1", false, 0));
    add(&mut txn.success, put(b"y", b"2", false, 0));
    txn
}

/// Does a command. Whether it was accepted, or why not.
fn applied(core: &mut Core, command: Command, sink: &mut Refusing) -> Result<(), Refusal> {
    let receipt = core.apply_to(&command, sink);
    let made = match &receipt {
        Ok(_) => Ok(()),
        Err(refusal) => Err(*refusal),
    };
    drop(receipt);
    drop(command);
    made
}

/// A Compact at the present revision, by the call of its own.
fn compacted(core: &mut Core, sink: &mut Refusing) -> Result<(), Refusal> {
    let revision = core.status().revision as i64;
    let receipt = core.compact_to(revision, false, sink);
    let made = match &receipt {
        Ok(_) => Ok(()),
        Err(refusal) => Err(*refusal),
    };
    drop(receipt);
    made
}

/// A step of expiry, which is to find a lease that is due.
fn expired(core: &mut Core, sink: &mut Refusing) -> Result<(), Refusal> {
    match core.expire_to(sink) {
        Ok(Expiry::Expired { .. }) => Ok(()),
        Ok(Expiry::Nothing) => Err(Refusal::LeaseMissing),
        Err(refusal) => Err(refusal),
    }
}

fn waited(core: &mut Core) -> Result<(), Refusal> {
    let now = core.status().clock.saturating_add(10_000);
    let _clock = core.moment(now);
    Ok(())
}

fn command_of(alloc: Global, event: Event, revision: i64) -> Command {
    match event {
        Event::Put(key, lease) => put_under(key, lease),
        Event::Txn => Command::Txn(two_puts(alloc)),
        Event::Grant(id) => Command::Grant { ttl: 10, id },
        Event::Revoke(id) => Command::Revoke { id },
        Event::Compact => Command::Compact {
            revision,
            physical: false,
        },
        _ => delete_all(),
    }
}

fn made(alloc: Global, core: &mut Core, event: Event, sink: &mut Refusing) -> Result<(), Refusal> {
    match event {
        Event::CompactBeside => compacted(core, sink),
        Event::Wait => waited(core),
        Event::Expire => expired(core, sink),
        _ => {
            let revision = core.status().revision as i64;
            applied(core, command_of(alloc, event, revision), sink)
        }
    }
}

/// What a put holds: the revision of its creation, its number in the key's life, its lease and its
/// value. All are 0 of a tombstone.
fn held(body: &Body) -> (u64, u64, i64, &[u8]) {
    match body {
        Body::Put {
            create,
            version,
            lease,
            value,
        } => (*create, *version, *lease, value.as_slice()),
        Body::Gone => (0, 0, 0, b""),
    }
}

fn is_same(left: &Version, right: &Version) -> bool {
    left.rev == right.rev
        && left.key.as_slice() == right.key.as_slice()
        && held(&left.body) == held(&right.body)
}

fn are_same(left: &[Version], right: &[Version]) -> bool {
    if left.len() != right.len() {
        return false;
    }
    for (place, version) in left.iter().enumerate() {
        if !is_same(version, &right[place]) {
            return false;
        }
    }
    true
}

/// Whether a core keeps these versions and has these numbers.
fn is_at(core: &Core, kept: &[Version], status: Status) -> bool {
    let dump = core.dump();
    let is = match &dump {
        Ok(dump) => {
            are_same(&dump.versions, kept)
                && core.status() == status
                && (dump.floor, dump.revision) == (status.compacted, status.revision)
        }
        Err(_) => false,
    };
    drop(dump);
    is
}

/// What an event came to at a sink that may refuse it.
#[derive(Clone, Copy, PartialEq, Eq)]
enum Met {
    /// It stands.
    Stood,
    /// It was refused for memory and left what is kept and the numbers as they were; then it was
    /// made again at the sink, which takes all from there on, and stands.
    Refused,
    /// Anything else.
    Wrong,
}

/// Makes an event, and where it is refused makes it again.
fn meet(alloc: Global, core: &mut Core, event: Event, sink: &mut Refusing) -> Met {
    let before = core.dump();
    let status = core.status();
    let first = made(alloc, core, event, sink);
    let found = match (&before, first) {
        (_, Ok(())) => Met::Stood,
        (Ok(before), Err(Refusal::Memory)) if is_at(core, &before.versions, status) => {
            Met::Refused
        }
        _ => Met::Wrong,
    };
    drop(before);
    if found != Met::Refused {
        return found;
    }
    sink.left = u64::MAX;
    match made(alloc, core, event, sink) {
        Ok(()) => Met::Refused,
        Err(_) => Met::Wrong,
    }
}

/// Whether an event hands a change to a sink.
fn is_told(event: Event) -> bool {
    !matches!(event, Event::Grant(_) | Event::Wait)
}

/// Makes both rounds at a sink that takes so many operations before it refuses one: whether that
/// refuses the event which hands over the next one, and each other event stands.
fn is_run(alloc: Global, core: &mut Core, left: u64) -> bool {
    let mut sink = Refusing { left };
    let mut told: u64 = 0;
    for event in ROUND.iter().chain(ROUND.iter()) {
        let expected = if is_told(*event) && told == left {
            Met::Refused
        } else {
            Met::Stood
        };
        if meet(alloc, core, *event, &mut sink) != expected {
            return false;
        }
        if is_told(*event) {
            told = told.saturating_add(1);
        }
    }
    told == TAKINGS
}

/// Whether both rounds go so, and the core comes to these numbers and keeps these versions.
fn is_whole(alloc: Global, left: u64, kept: &[Version], status: Status) -> bool {
    let mut core = Core::new(alloc);
    let is = is_run(alloc, &mut core, left) && is_at(&core, kept, status);
    drop(core);
    is
}

/// The first taking, counted from 1, whose refusal goes otherwise; the one after the last where
/// none does.
fn first_wrong_taking(alloc: Global, kept: &[Version], status: Status) -> u64 {
    for left in 0..TAKINGS {
        if !is_whole(alloc, left, kept, status) {
            return left + 1;
        }
    }
    TAKINGS + 1
}

/// The first taking whose refusal goes otherwise, judged by the core that is left where none is
/// refused.
fn first_wrong(alloc: Global) -> Option<u64> {
    let mut core = Core::new(alloc);
    let is = is_run(alloc, &mut core, TAKINGS);
    let dump = core.dump();
    let found = match &dump {
        Ok(dump) if is => Some(first_wrong_taking(alloc, &dump.versions, core.status())),
        _ => None,
    };
    drop(dump);
    drop(core);
    found
}

#[test]
fn a_refused_taking_changes_nothing(rt: HostRuntime) {
    assert_eq!(rt; first_wrong(rt.alloc()), Some(TAKINGS + 1));
}
