//! Each fault once, in the order that the walk finds them. A test is a table: no function that owns
//! a transaction asserts.
use crate::fixtures::{add, add_compare, empty, put};
use bytes::Bytes;
use kv_model::call::{DeleteRequest, Operand, Operation, Txn};
use kv_model::refusal::Refusal;
use kv_model::version::KeyRange;
use std::alloc::Global;
use txn_core::check;

/// A transaction as the only operation on success of another, so many times.
fn nested(alloc: Global, times: u8) -> Txn {
    let mut txn = empty(alloc);
    for _ in 0..times {
        let mut outer = empty(alloc);
        add(&mut outer.success, Operation::Inner(txn));
        txn = outer;
    }
    txn
}

/// A transaction with so many compares of an empty key.
fn compares(alloc: Global, count: u16) -> Txn {
    let mut txn = empty(alloc);
    for _ in 0..count {
        add_compare(&mut txn.compare, b"", Operand::OfVersion(0));
    }
    txn
}

/// A transaction that puts a value on failure, and is to keep the old one.
fn failing(alloc: Global, value: &'static [u8]) -> Txn {
    let mut txn = empty(alloc);
    add(&mut txn.failure, put(b"x", value, true, 0));
    txn
}

/// A transaction that is walked.
#[derive(Clone, Copy)]
enum Walked {
    Nested(u8),
    Compares(u16),
    Failing(&'static [u8]),
}

fn transaction(alloc: Global, walked: Walked) -> Txn {
    match walked {
        Walked::Nested(times) => nested(alloc, times),
        Walked::Compares(count) => compares(alloc, count),
        Walked::Failing(value) => failing(alloc, value),
    }
}

fn fault(alloc: Global, walked: Walked) -> Option<Refusal> {
    let txn = transaction(alloc, walked);
    let fault = check(alloc, &txn).err();
    drop(txn);
    fault
}

/// The place of the first transaction that has another fault than stands beside it.
fn first_wrong_walk(alloc: Global, rows: &[(Walked, Option<Refusal>)]) -> Option<usize> {
    for (place, row) in rows.iter().enumerate() {
        let (walked, expected) = *row;
        if fault(alloc, walked) != expected {
            return Some(place);
        }
    }
    None
}

static DEPTHS: [(Walked, Option<Refusal>); 2] = [
    (Walked::Nested(7), None),
    (Walked::Nested(8), Some(Refusal::TooDeep)),
];

#[test]
fn eight_lie_in_one_another(rt: HostRuntime) {
    assert_eq!(rt; first_wrong_walk(rt.alloc(), DEPTHS.as_slice()), None);
}

static SIZES: [(Walked, Option<Refusal>); 2] = [
    (Walked::Compares(1_024), Some(Refusal::NoKey)),
    (Walked::Compares(1_025), Some(Refusal::TooManyOps)),
];

#[test]
fn sizes_come_before_compares(rt: HostRuntime) {
    assert_eq!(rt; first_wrong_walk(rt.alloc(), SIZES.as_slice()), None);
}

static FAILURES: [(Walked, Option<Refusal>); 2] = [
    (Walked::Failing(b""), None),
    (Walked::Failing(b"1"), Some(Refusal::ValueGiven)),
];

#[test]
fn branches_that_do_not_run_count(rt: HostRuntime) {
    assert_eq!(rt; first_wrong_walk(rt.alloc(), FAILURES.as_slice()), None);
}

/// An operation of a transaction that is checked.
#[derive(Clone, Copy)]
enum Op {
    DeleteAll,
    Put(&'static [u8]),
    /// A transaction that puts a key on success, and one on failure.
    Branches(&'static [u8], &'static [u8]),
}

fn delete_all() -> Operation {
    let range = KeyRange {
        key: Bytes::from_static(b"\0"),
        end: Bytes::from_static(b"\0"),
    };
    Operation::Delete(DeleteRequest {
        range,
        prev_kv: false,
    })
}

fn branches(alloc: Global, success: &'static [u8], failure: &'static [u8]) -> Operation {
    let mut txn = empty(alloc);
    add(&mut txn.success, put(success, b"", false, 0));
    add(&mut txn.failure, put(failure, b"", false, 0));
    Operation::Inner(txn)
}

fn operation(alloc: Global, op: Op) -> Operation {
    match op {
        Op::DeleteAll => delete_all(),
        Op::Put(key) => put(key, b"", false, 0),
        Op::Branches(success, failure) => branches(alloc, success, failure),
    }
}

/// What a transaction with two operations on success is refused for.
fn checked(alloc: Global, first: Op, second: Op) -> Result<(), Refusal> {
    let mut txn = empty(alloc);
    add(&mut txn.success, operation(alloc, first));
    add(&mut txn.success, operation(alloc, second));
    let found = check(alloc, &txn);
    drop(txn);
    found
}

type Check = (Op, Op, Result<(), Refusal>);

/// The place of the first pair that is refused for something else than stands beside it.
fn first_wrong_check(alloc: Global, rows: &[Check]) -> Option<usize> {
    for (place, row) in rows.iter().enumerate() {
        let (first, second, expected) = *row;
        if checked(alloc, first, second) != expected {
            return Some(place);
        }
    }
    None
}

static OPPOSITE: [Check; 2] = [
    (Op::Put(b"x"), Op::Branches(b"y", b"y"), Ok(())),
    (
        Op::Put(b"x"),
        Op::Branches(b"y", b"x"),
        Err(Refusal::DuplicateKey),
    ),
];

#[test]
fn opposite_branches_may_put_one_key(rt: HostRuntime) {
    assert_eq!(rt; first_wrong_check(rt.alloc(), OPPOSITE.as_slice()), None);
}

static OVERLAPPING: [Check; 3] = [
    (Op::DeleteAll, Op::Put(b"a"), Err(Refusal::DuplicateKey)),
    (Op::Put(b"a"), Op::DeleteAll, Err(Refusal::DuplicateKey)),
    (Op::DeleteAll, Op::DeleteAll, Ok(())),
];

#[test]
fn deletes_may_overlap(rt: HostRuntime) {
    assert_eq!(rt; first_wrong_check(rt.alloc(), OVERLAPPING.as_slice()), None);
}
