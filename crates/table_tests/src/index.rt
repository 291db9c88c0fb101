//! Each call once, on three keys. A test is a table of what is done with an index: no function that
//! owns one asserts, and one function does all rows.
ghost use Rattle.std.specs.Prelude.{ℕ, IsTrue};
ghost use Rattle.key_index.specs.Index.{revisions};
ghost use Rattle.key_index.specs.KeyRevisions.{IsBehind};

use crate::fixtures::{pair, tombstone};
use bytes::Bytes;
use key_index::{Indexed, KeyIndex};
use kv_model::version::{KeyRange, Rev};
use std::alloc::Global;

/// Whether each revision that a key has is of an earlier main revision.
fn is_below(index: &KeyIndex, key: &Bytes, main: u64) -> bool
    ensures { (sub : ℕ) → IsTrue result
        → IsBehind (record { main = main; sub = sub }) (revisions key.now index.now) }
{
    match index.get(key) {
        Some(revisions) => match revisions.get(revisions.count_before(main)) {
            Some(_) => false,
            None => true,
        },
        None => true,
    }
}

/// Notes a change of a key, where those that it has are of earlier main revisions.
fn note(index: &mut KeyIndex, letter: &'static [u8], rev: Rev) {
    let key = Bytes::from_static(letter);
    if is_below(index, &key, rev.main) {
        let _ = index.put(&key, rev);
    }
    drop(key);
}

fn at(index: &KeyIndex, letter: &'static [u8], rev: Rev) -> Option<(u64, u64)> {
    let key = Bytes::from_static(letter);
    let found = index.at(&key, rev);
    drop(key);
    pair(found)
}

fn after(index: &KeyIndex, letter: &'static [u8], rev: Rev) -> Option<(u64, u64)> {
    let key = Bytes::from_static(letter);
    let found = index.after(&key, rev);
    drop(key);
    pair(found)
}

fn letter(indexed: Option<&Indexed<'_>>) -> Option<u8> {
    match indexed {
        Some(indexed) => indexed.key.as_slice().first().copied(),
        None => None,
    }
}

/// How many keys a range has, and the first letter of the first and of the last.
type Found = (usize, Option<u8>, Option<u8>);

fn shown(index: &KeyIndex, from: &'static [u8], end: &'static [u8]) -> Option<Found> {
    let range = KeyRange {
        key: Bytes::from_static(from),
        end: Bytes::from_static(end),
    };
    let keys = index.keys_in(&range);
    let found = match &keys {
        Ok(keys) => Some((keys.len(), letter(keys.first()), letter(keys.last()))),
        Err(_) => None,
    };
    drop(keys);
    drop(range);
    found
}

/// The first letter of the key of a range before which so many of its keys stand.
fn nth(index: &KeyIndex, from: &'static [u8], end: &'static [u8], count: usize) -> Option<u8> {
    let range = KeyRange {
        key: Bytes::from_static(from),
        end: Bytes::from_static(end),
    };
    let found = match index.nth_key(&range, count) {
        Some(key) => key.as_slice().first().copied(),
        None => None,
    };
    drop(range);
    found
}

/// How many revisions of a key are of an earlier main revision, and the first that is not.
type From = Option<(usize, Option<(u64, u64)>)>;

fn from(index: &KeyIndex, letter: &'static [u8], main: u64) -> From {
    let key = Bytes::from_static(letter);
    let found = match index.get(&key) {
        Some(revisions) => {
            let before = revisions.count_before(main);
            Some((before, pair(revisions.get(before))))
        }
        None => None,
    };
    drop(key);
    found
}

/// Takes out the changes of b, a and c at a main revision, where it is 6.
fn retract(index: &mut KeyIndex, main: u64) {
    let changes = [
        tombstone(6, 0, b"b"),
        tombstone(6, 1, b"a"),
        tombstone(6, 2, b"c"),
    ];
    index.retract(main, changes.as_slice());
    drop(changes);
}

fn drop_front(index: &mut KeyIndex, letter: &'static [u8]) {
    let key = Bytes::from_static(letter);
    index.drop_front(&key);
    drop(key);
}

fn remove(index: &mut KeyIndex, letter: &'static [u8], rev: Rev) {
    let key = Bytes::from_static(letter);
    index.remove(&key, rev);
    drop(key);
}

fn trim(index: &mut KeyIndex, letter: &'static [u8], rev: Rev, main: u64, anyway: bool) -> bool {
    let key = Bytes::from_static(letter);
    let goes = index.trim(&key, rev, main, anyway);
    drop(key);
    goes
}

/// What is done with an index, and what it is to answer: of a key, at a main revision and a number
/// within it.
#[derive(Clone, Copy)]
enum Row {
    Put(&'static [u8], u64, u64),
    /// The last revision at a place.
    At(&'static [u8], u64, u64, Option<(u64, u64)>),
    /// The first revision after a place.
    After(&'static [u8], u64, u64, Option<(u64, u64)>),
    /// The keys from one to another.
    In(&'static [u8], &'static [u8], Found),
    From(&'static [u8], u64, From),
    /// The key from one to another before which so many stand.
    Nth(&'static [u8], &'static [u8], usize, Option<u8>),
    Retract(u64),
    DropFront(&'static [u8]),
    Remove(&'static [u8], u64, u64),
    /// A revision that goes where the next one is of a main revision up to another.
    Trim(&'static [u8], u64, u64, u64, bool),
    /// A revision that goes anyway.
    Forget(&'static [u8], u64, u64),
}

fn is_so(index: &mut KeyIndex, row: Row) -> bool {
    match row {
        Row::Put(key, main, sub) => {
            note(index, key, Rev { main, sub });
            true
        }
        Row::At(key, main, sub, expected) => at(index, key, Rev { main, sub }) == expected,
        Row::After(key, main, sub, expected) => after(index, key, Rev { main, sub }) == expected,
        Row::In(key, end, expected) => shown(index, key, end) == Some(expected),
        Row::From(key, main, expected) => from(index, key, main) == expected,
        Row::Nth(key, end, count, expected) => nth(index, key, end, count) == expected,
        Row::Retract(main) => {
            retract(index, main);
            true
        }
        Row::DropFront(key) => {
            drop_front(index, key);
            true
        }
        Row::Remove(key, main, sub) => {
            remove(index, key, Rev { main, sub });
            true
        }
        Row::Trim(key, main, sub, up_to, expected) => {
            trim(index, key, Rev { main, sub }, up_to, false) == expected
        }
        Row::Forget(key, main, sub) => trim(index, key, Rev { main, sub }, 0, true),
    }
}

fn first_wrong(index: &mut KeyIndex, rows: &[Row]) -> Option<usize> {
    for (place, row) in rows.iter().enumerate() {
        let row = *row;
        if !is_so(index, row) {
            return Some(place);
        }
    }
    None
}

/// a is put at 2 and 3, deleted at 4 and put again at 6.1; b is put at 5 and 6.0; c is put at 6.2.
static FILLED: [Row; 8] = [
    Row::Put(b"a", 2, 0),
    Row::Put(b"a", 3, 0),
    Row::Put(b"a", 3, 0),
    Row::Put(b"a", 4, 0),
    Row::Put(b"b", 5, 0),
    Row::Put(b"b", 6, 0),
    Row::Put(b"a", 6, 1),
    Row::Put(b"c", 6, 2),
];

/// The place of the first row that the index of three keys answers otherwise.
fn first_wrong_of_three(alloc: Global, rows: &[Row]) -> Option<usize> {
    let mut index = KeyIndex::new(alloc);
    let _ = first_wrong(&mut index, FILLED.as_slice());
    let wrong = first_wrong(&mut index, rows);
    drop(index);
    wrong
}

static PLACES: [Row; 7] = [
    Row::At(b"a", 1, 9, None),
    Row::At(b"a", 2, 0, Some((2, 0))),
    Row::At(b"a", 3, 7, Some((3, 0))),
    Row::At(b"a", 5, 0, Some((4, 0))),
    Row::At(b"a", 6, 0, Some((4, 0))),
    Row::At(b"a", 6, 1, Some((6, 1))),
    Row::At(b"x", 6, 1, None),
];

#[test]
fn finds_the_last_revision_at_a_place(rt: HostRuntime) {
    assert_eq!(rt; first_wrong_of_three(rt.alloc(), PLACES.as_slice()), None);
}

static RANGES: [Row; 7] = [
    Row::In(b"a", b"", (1, Some(97), Some(97))),
    Row::In(b"d", b"", (0, None, None)),
    Row::In(b"\0", b"\0", (3, Some(97), Some(99))),
    Row::In(b"b", b"\0", (2, Some(98), Some(99))),
    Row::In(b"a", b"c", (2, Some(97), Some(98))),
    Row::In(b"b", b"a", (0, None, None)),
    Row::In(b"b", b"b", (0, None, None)),
];

#[test]
fn walks_the_four_kinds_of_range(rt: HostRuntime) {
    assert_eq!(rt; first_wrong_of_three(rt.alloc(), RANGES.as_slice()), None);
}

static CUT: [Row; 9] = [
    Row::Nth(b"\0", b"\0", 0, Some(97)),
    Row::Nth(b"\0", b"\0", 2, Some(99)),
    Row::Nth(b"\0", b"\0", 3, None),
    Row::Nth(b"b", b"\0", 1, Some(99)),
    Row::Nth(b"a", b"c", 1, Some(98)),
    Row::Nth(b"a", b"c", 2, None),
    Row::Nth(b"aa", b"c", 0, Some(98)),
    Row::Nth(b"b", b"a", 0, None),
    Row::Nth(b"a", b"", 0, None),
];

#[test]
fn cuts_a_range_at_a_key(rt: HostRuntime) {
    assert_eq!(rt; first_wrong_of_three(rt.alloc(), CUT.as_slice()), None);
}

static TAKEN_OUT: [Row; 12] = [
    Row::Retract(5),
    Row::At(b"b", 6, 0, Some((6, 0))),
    Row::Retract(6),
    Row::At(b"b", 6, 0, Some((5, 0))),
    Row::At(b"a", 6, 1, Some((4, 0))),
    Row::At(b"c", 6, 2, None),
    Row::DropFront(b"a"),
    Row::At(b"a", 2, 0, None),
    Row::At(b"a", 3, 0, Some((3, 0))),
    Row::DropFront(b"b"),
    Row::DropFront(b"b"),
    Row::At(b"b", 6, 0, None),
];

#[test]
fn takes_out(rt: HostRuntime) {
    assert_eq!(rt;
        first_wrong_of_three(rt.alloc(), TAKEN_OUT.as_slice()),
        None
    );
}

static REMOVED: [Row; 12] = [
    Row::After(b"a", 0, 0, Some((2, 0))),
    Row::After(b"a", 4, 0, Some((6, 1))),
    Row::After(b"a", 6, 1, None),
    Row::After(b"x", 0, 0, None),
    Row::Remove(b"a", 3, 0),
    Row::After(b"a", 2, 0, Some((4, 0))),
    Row::Remove(b"a", 2, 0),
    Row::After(b"a", 0, 0, Some((4, 0))),
    Row::Remove(b"a", 5, 0),
    Row::Remove(b"c", 6, 2),
    Row::After(b"a", 0, 0, Some((4, 0))),
    Row::After(b"c", 0, 0, None),
];

#[test]
fn takes_out_one_revision(rt: HostRuntime) {
    assert_eq!(rt; first_wrong_of_three(rt.alloc(), REMOVED.as_slice()), None);
}

static TRIMMED: [Row; 9] = [
    Row::Trim(b"a", 2, 0, 2, false),
    Row::After(b"a", 0, 0, Some((2, 0))),
    Row::Trim(b"a", 2, 0, 3, true),
    Row::After(b"a", 0, 0, Some((3, 0))),
    Row::Trim(b"c", 6, 2, 9, false),
    Row::At(b"c", 6, 2, Some((6, 2))),
    Row::Forget(b"c", 6, 2),
    Row::At(b"c", 6, 2, None),
    Row::Trim(b"x", 1, 0, 9, false),
];

#[test]
fn takes_out_what_is_followed(rt: HostRuntime) {
    assert_eq!(rt; first_wrong_of_three(rt.alloc(), TRIMMED.as_slice()), None);
}

static LISTED: [Row; 7] = [
    Row::From(b"a", 0, Some((0, Some((2, 0))))),
    Row::From(b"a", 3, Some((1, Some((3, 0))))),
    Row::From(b"a", 5, Some((3, Some((6, 1))))),
    Row::From(b"a", 7, Some((4, None))),
    Row::From(b"c", 6, Some((0, Some((6, 2))))),
    Row::From(b"c", 7, Some((1, None))),
    Row::From(b"x", 0, None),
];

#[test]
fn lists_the_revisions_of_a_key(rt: HostRuntime) {
    assert_eq!(rt; first_wrong_of_three(rt.alloc(), LISTED.as_slice()), None);
}
