//! What several tests are made on. None of these tells of a failure: what could not be added is not
//! seen by the test either.
use bytes::Bytes;
use kv_model::call::{Compare, Operand, Operation, PutRequest, Relation, Txn};
use kv_model::version::{Body, KeyRange, Rev, Version};
use range_view::Tables;
use std::alloc::Global;

/// The main revision and the key of a version; and of a put its value, the revision of its creation
/// and its number in the key's life, which is 0 for a tombstone.
pub(crate) type Change = (u64, &'static [u8], &'static [u8], u64, u64);

pub(crate) fn tombstone(main: u64, sub: u64, key: &'static [u8]) -> Version {
    Version {
        rev: Rev { main, sub },
        key: Bytes::from_static(key),
        body: Body::Gone,
    }
}

pub(crate) fn version(change: Change) -> Version {
    let (main, key, value, create, version) = change;
    if version == 0 {
        return tombstone(main, 0, key);
    }
    Version {
        rev: Rev { main, sub: 0 },
        key: Bytes::from_static(key),
        body: Body::Put {
            create,
            version,
            lease: 0,
            value: Bytes::from_static(value),
        },
    }
}

/// Appends a revision of one version, where it is the next one.
pub(crate) fn append(alloc: Global, tables: &mut Tables, version: Version) {
    let mut versions = Vec::new(alloc);
    let _ = versions.push(version);
    if tables.takes(&versions) {
        let _ = tables.append(&versions);
    }
}

/// Appends each of the changes as a revision.
pub(crate) fn fill(alloc: Global, tables: &mut Tables, changes: &[Change]) {
    for change in changes {
        let change = *change;
        append(alloc, tables, version(change));
    }
}

/// A transaction of nothing.
pub(crate) fn empty(alloc: Global) -> Txn {
    Txn {
        compare: Vec::new(alloc),
        success: Vec::new(alloc),
        failure: Vec::new(alloc),
    }
}

/// Adds a compare of one key.
pub(crate) fn add_compare(compares: &mut Vec<Compare>, key: &'static [u8], operand: Operand) {
    let _ = compares.push(Compare {
        range: KeyRange {
            key: Bytes::from_static(key),
            end: Bytes::new(),
        },
        relation: Relation::IsEqual,
        operand,
    });
}

pub(crate) fn add(operations: &mut Vec<Operation>, operation: Operation) {
    let _ = operations.push(operation);
}

pub(crate) fn put(
    key: &'static [u8],
    value: &'static [u8],
    ignore_value: bool,
    lease: i64,
) -> Operation {
    Operation::Put(PutRequest {
        key: Bytes::from_static(key),
        value: Bytes::from_static(value),
        lease,
        prev_kv: false,
        ignore_value,
        ignore_lease: false,
    })
}

/// What may go to another thread.
pub(crate) fn crosses<T: Send + Drop>(_: T) {}
