//! The index of the keys of each lease, beside the tables that it is of. A test is a table of what
//! is done with both: no function that owns one asserts, and one function does all rows.
use crate::fixtures::tombstone;
use bytes::Bytes;
use kv_model::version::{Body, Rev, Version};
use lease_keys::LeaseKeys;
use range_view::Tables;
use range_view::revision::end_of;
use std::alloc::{AllocError, Global};

/// How many keys a lease has, and the first byte of the first of them.
type Keys = Result<(usize, Option<u8>), AllocError>;

/// A put of a key under a lease, or its tombstone.
type Change = (&'static [u8], Option<i64>);

fn first(keys: &[&Bytes]) -> Option<u8> {
    match keys.first() {
        Some(key) => key.as_slice().first().copied(),
        None => None,
    }
}

fn seen(index: &LeaseKeys, lease: i64) -> Keys {
    let keys = index.keys_of(lease);
    let found = match &keys {
        Ok(keys) => Ok((keys.len(), first(keys.as_slice()))),
        Err(_) => Err(AllocError),
    };
    drop(keys);
    found
}

fn version(main: u64, sub: u64, change: Change) -> Version {
    let (key, named) = change;
    let Some(lease) = named else {
        return tombstone(main, sub, key);
    };
    Version {
        rev: Rev { main, sub },
        key: Bytes::from_static(key),
        body: Body::Put {
            create: main,
            version: 1,
            lease,
            value: Bytes::new(),
        },
    }
}

/// Appends the changes as the next revision of the tables, and gives their versions.
fn append(alloc: Global, tables: &mut Tables, changes: &[Change]) -> Vec<Version> {
    let main = tables.revision().saturating_add(1);
    let mut versions = Vec::new(alloc);
    for (sub, change) in changes.iter().enumerate() {
        let change = *change;
        let _ = versions.push(version(main, sub as u64, change));
    }
    if tables.takes(&versions) {
        let _ = tables.append(&versions);
    }
    versions
}

fn settle(index: &mut LeaseKeys, tables: &Tables) {
    let revision = tables.revision();
    let before = end_of(revision.saturating_sub(1));
    index.settle(
        &tables.view_at(before),
        &tables.view(),
        tables.versions_from(revision),
    );
}

fn take_back(index: &mut LeaseKeys, tables: &mut Tables) {
    let revision = tables.revision();
    let before = end_of(revision.saturating_sub(1));
    index.take_back(&tables.view_at(before), tables.versions_from(revision));
    tables.retract(revision);
}

/// What is done with an index and tables, and what the index is to answer.
#[derive(Clone, Copy)]
enum Row {
    /// A revision that stands.
    Stands(&'static [Change]),
    /// A revision that is taken back.
    Goes(&'static [Change]),
    Keys(i64, Keys),
    /// Whether the index has no pair.
    Empty(bool),
}

fn is_so(alloc: Global, index: &mut LeaseKeys, tables: &mut Tables, row: Row) -> bool {
    match row {
        Row::Stands(changes) => {
            let versions = append(alloc, tables, changes);
            let added = index.add_all(&versions).is_ok();
            settle(index, tables);
            added
        }
        Row::Goes(changes) => {
            let versions = append(alloc, tables, changes);
            let added = index.add_all(&versions).is_ok();
            take_back(index, tables);
            added
        }
        Row::Keys(lease, expected) => seen(index, lease) == expected,
        Row::Empty(expected) => index.is_empty() == expected,
    }
}

fn first_wrong(
    alloc: Global,
    index: &mut LeaseKeys,
    tables: &mut Tables,
    rows: &[Row],
) -> Option<usize> {
    for (place, row) in rows.iter().enumerate() {
        let row = *row;
        if !is_so(alloc, index, tables, row) {
            return Some(place);
        }
    }
    None
}

/// The place of the first row that a fresh index beside fresh tables answers otherwise.
fn first_wrong_of_fresh(alloc: Global, rows: &[Row]) -> Option<usize> {
    let mut tables = Tables::new(alloc);
    let mut index = LeaseKeys::new(alloc);
    let wrong = first_wrong(alloc, &mut index, &mut tables, rows);
    drop(index);
    drop(tables);
    wrong
}

static ROWS: [Row; 26] = [
    Row::Empty(true),
    Row::Stands(&[(b"c", Some(5)), (b"b", Some(-2)), (b"a", Some(0))]),
    Row::Empty(false),
    Row::Keys(5, Ok((1, Some(99)))),
    Row::Keys(-2, Ok((1, Some(98)))),
    Row::Keys(0, Ok((0, None))),
    // a put under the same lease, and one under another
    Row::Stands(&[(b"a", Some(5)), (b"c", Some(5)), (b"b", Some(-3))]),
    Row::Keys(5, Ok((2, Some(97)))),
    Row::Keys(-2, Ok((0, None))),
    Row::Keys(-3, Ok((1, Some(98)))),
    // what is taken back leaves what was there, also of the same pairs
    Row::Goes(&[
        (b"a", Some(5)),
        (b"b", Some(5)),
        (b"c", None),
        (b"d", Some(-3)),
    ]),
    Row::Keys(5, Ok((2, Some(97)))),
    Row::Keys(-3, Ok((1, Some(98)))),
    // a tombstone, and a put under no lease
    Row::Stands(&[(b"a", None), (b"b", Some(0))]),
    Row::Keys(5, Ok((1, Some(99)))),
    Row::Keys(-3, Ok((0, None))),
    Row::Goes(&[(b"a", Some(5))]),
    Row::Keys(5, Ok((1, Some(99)))),
    // a put after a tombstone
    Row::Stands(&[(b"a", Some(-3)), (b"d", Some(-3))]),
    Row::Keys(-3, Ok((2, Some(97)))),
    Row::Stands(&[(b"c", None), (b"d", None)]),
    Row::Keys(5, Ok((0, None))),
    Row::Keys(-3, Ok((1, Some(97)))),
    Row::Stands(&[(b"a", None)]),
    Row::Keys(-3, Ok((0, None))),
    Row::Empty(true),
];

#[test]
fn keys_stand_with_the_lease_of_their_last_put(rt: HostRuntime) {
    assert_eq!(rt; first_wrong_of_fresh(rt.alloc(), ROWS.as_slice()), None);
}
