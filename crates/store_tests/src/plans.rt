//! What a transaction does to nothing at all, and why it is refused there.
use crate::fixtures::{add, add_compare, empty, put};
use bytes::Bytes;
use kv_model::call::{Operand, Operation, Txn};
use kv_model::refusal::Refusal;
use lease_book::LeaseBook;
use range_view::Tables;
use std::alloc::Global;
use txn_core::plan;
use txn_core::step::Plan;

/// What the key "a" is compared with.
#[derive(Clone, Copy)]
enum Held {
    Version(i64),
    Mod(i64),
    Lease(i64),
    EmptyValue,
}

fn operand(held: Held) -> Operand {
    match held {
        Held::Version(version) => Operand::OfVersion(version),
        Held::Mod(revision) => Operand::OfMod(revision),
        Held::Lease(lease) => Operand::OfLease(lease),
        Held::EmptyValue => Operand::OfValue(Bytes::new()),
    }
}

/// The put of a key without a value: whether it is to keep the old value, and its lease.
type Put = (&'static [u8], bool, i64);

fn put_of(given: Put) -> Operation {
    put(given.0, b"", given.1, given.2)
}

/// A transaction that compares the key "a", and then does one of two operations.
fn compared(alloc: Global, held: Held, success: Operation, failure: Put) -> Txn {
    let mut txn = empty(alloc);
    add_compare(&mut txn.compare, b"a", operand(held));
    add(&mut txn.success, success);
    add(&mut txn.failure, put_of(failure));
    txn
}

/// What is done on success.
#[derive(Clone, Copy)]
enum Success {
    Put(Put),
    /// A transaction that compares, and then puts one of two.
    Within(Held, Put, Put),
}

fn success_of(alloc: Global, success: Success) -> Operation {
    match success {
        Success::Put(given) => put_of(given),
        Success::Within(held, first, second) => {
            Operation::Inner(compared(alloc, held, put_of(first), second))
        }
    }
}

/// Whether the compares of a transaction hold where nothing is kept and no lease is granted, and
/// how many versions it makes.
type Planned = Result<(bool, usize), Refusal>;

fn seen(plan: &Result<Plan<'_>, Refusal>) -> Planned {
    match plan {
        Ok(plan) => Ok((plan.succeeded, plan.versions.len())),
        Err(refusal) => Err(*refusal),
    }
}

fn planned(alloc: Global, txn: Txn) -> Planned {
    let tables = Tables::new(alloc);
    let book = LeaseBook::new(alloc);
    let plan = plan(alloc, &tables.view(), &txn, &book);
    let found = seen(&plan);
    drop(plan);
    drop(book);
    drop(tables);
    drop(txn);
    found
}

type Row = (Held, Success, Put, Planned);

/// The place of the first transaction that is planned otherwise.
fn first_wrong(alloc: Global, rows: &[Row]) -> Option<usize> {
    for (place, row) in rows.iter().enumerate() {
        let (held, success, failure, expected) = *row;
        let txn = compared(alloc, held, success_of(alloc, success), failure);
        if planned(alloc, txn) != expected {
            return Some(place);
        }
    }
    None
}

static NOTHING: [Row; 1] = [(
    Held::Mod(0),
    Success::Within(Held::Version(0), (b"a", false, 0), (b"b", true, 0)),
    (b"b", true, 0),
    Ok((true, 1)),
)];

#[test]
fn what_is_not_there_is_0(rt: HostRuntime) {
    assert_eq!(rt; first_wrong(rt.alloc(), NOTHING.as_slice()), None);
}

static NO_VALUE: [Row; 1] = [(
    Held::EmptyValue,
    Success::Put((b"a", true, 0)),
    (b"b", false, 0),
    Ok((false, 1)),
)];

#[test]
fn what_is_not_there_has_no_value(rt: HostRuntime) {
    assert_eq!(rt; first_wrong(rt.alloc(), NO_VALUE.as_slice()), None);
}

static MISSING: [Row; 2] = [
    (
        Held::Lease(0),
        Success::Put((b"a", true, 7)),
        (b"b", false, 0),
        Err(Refusal::KeyMissing),
    ),
    (
        Held::Lease(1),
        Success::Put((b"a", false, 0)),
        (b"b", false, 7),
        Err(Refusal::LeaseMissing),
    ),
];

#[test]
fn a_key_that_is_missing_comes_before_its_lease(rt: HostRuntime) {
    assert_eq!(rt; first_wrong(rt.alloc(), MISSING.as_slice()), None);
}
