//! Each call once, on the tables of a few revisions. A test is a table of what is done with them:
//! no function that owns them asserts, and one function does all rows.
use crate::fixtures::{Change, crosses, fill, tombstone};
use bytes::Bytes;
use kv_model::call::{RangeQuery, SortOrder, SortTarget};
use kv_model::refusal::Refusal;
use kv_model::version::KeyRange;
use range_view::KeyVersions;
use range_view::reply::{RangeReply, key_value_of};
use range_view::revision::end_of;
use range_view::tables::Tables;
use std::alloc::Global;

/// Revision 2 puts c, 3 puts a, 4 puts b, 5 puts a again and 6 deletes c.
static CHANGES: [Change; 5] = [
    (2, b"c", b"x", 2, 1),
    (3, b"a", b"z", 3, 1),
    (4, b"b", b"x", 4, 1),
    (5, b"a", b"y", 3, 2),
    (6, b"c", b"", 0, 0),
];

/// A Range of the keys from one to another, with nothing else asked.
fn between(key: &'static [u8], end: &'static [u8]) -> RangeQuery {
    RangeQuery {
        range: KeyRange {
            key: Bytes::from_static(key),
            end: Bytes::from_static(end),
        },
        limit: 0,
        revision: 0,
        order: SortOrder::Unsorted,
        target: SortTarget::ByKey,
        serializable: false,
        keys_only: false,
        count_only: false,
        min_mod: 0,
        max_mod: 0,
        min_create: 0,
        max_create: 0,
    }
}

/// What a Range asks for.
#[derive(Clone, Copy)]
enum Ask {
    /// The keys from one to another.
    Between(&'static [u8], &'static [u8]),
    /// Every key, at a revision and with a limit, where 0 is none.
    Every(i64, i64),
    /// Every key at revision 5, in an order.
    Sorted(SortOrder, SortTarget, i64),
    /// Every key, with bounds on the modified revision, and the greatest revision of creation.
    Bounded(i64, i64, i64),
    /// Every key with a limit, only counted, or without values.
    Counted(bool, bool, i64),
}

fn query(ask: Ask) -> RangeQuery {
    let mut query = match ask {
        Ask::Between(key, end) => between(key, end),
        _ => between(b"\0", b"\0"),
    };
    narrow(&mut query, ask);
    query
}

fn narrow(query: &mut RangeQuery, ask: Ask) {
    match ask {
        Ask::Between(_, _) => {}
        Ask::Every(revision, limit) => {
            query.revision = revision;
            query.limit = limit;
        }
        Ask::Sorted(order, target, limit) => {
            query.revision = 5;
            query.order = order;
            query.target = target;
            query.limit = limit;
        }
        Ask::Bounded(least, greatest, created) => {
            query.min_mod = least;
            query.max_mod = greatest;
            query.max_create = created;
        }
        Ask::Counted(count_only, keys_only, limit) => {
            query.count_only = count_only;
            query.keys_only = keys_only;
            query.limit = limit;
        }
    }
}

/// Whether the keys shown, joined, are these bytes, and how long the values are.
fn are_keys(alloc: Global, reply: &RangeReply<'_>, keys: &[u8]) -> (bool, usize) {
    let mut found = Vec::new(alloc);
    let mut bytes = 0;
    for kv in &reply.kvs {
        let _ = found.extend_from_slice(kv.key);
        bytes |= kv.value.len();
    }
    let are = found.as_slice() == keys;
    drop(found);
    (are, bytes)
}

/// Whether a Range shows these keys, how many it counts, whether it cuts, and how long the values
/// shown are.
type Found = Result<(bool, u64, bool, usize), Refusal>;

fn shown(alloc: Global, tables: &Tables, ask: Ask, keys: &[u8]) -> Found {
    let query = query(ask);
    let reply = tables.view().range(alloc, &query);
    let found = match &reply {
        Ok(reply) => {
            let (are, bytes) = are_keys(alloc, reply, keys);
            Ok((are, reply.count, reply.more, bytes))
        }
        Err(refusal) => Err(*refusal),
    };
    drop(reply);
    drop(query);
    found
}

/// The number of a key's puts, at the end of a revision.
fn version_at(tables: &Tables, revision: u64, key: &'static [u8]) -> Option<u64> {
    let key = Bytes::from_static(key);
    let found = match tables.view_at(end_of(revision)).get(&key) {
        Some(kv) => Some(kv.version),
        None => None,
    };
    drop(key);
    found
}

/// The number of a refusal, 0 where a Range of a revision is answered.
fn refused(alloc: Global, tables: &Tables, revision: i64) -> u8 {
    number(shown(alloc, tables, Ask::Every(revision, 0), b"").err())
}

fn number(refusal: Option<Refusal>) -> u8 {
    match refusal {
        Some(refusal) => refusal.number(),
        None => 0,
    }
}

/// The main revision of a version, and of a put its number in the key's life.
type Walked = Option<(u64, Option<u64>)>;

fn step(versions: &mut KeyVersions<'_>) -> Walked {
    match versions.next() {
        Some(version) => match key_value_of(version) {
            Some(kv) => Some((version.rev.main, Some(kv.version))),
            None => Some((version.rev.main, None)),
        },
        None => None,
    }
}

/// The first three versions of a key from a revision on.
fn walked(tables: &Tables, key: &'static [u8], next: u64) -> [Walked; 3] {
    let key = Bytes::from_static(key);
    let mut versions = tables.versions_of(&key, next);
    let steps = [
        step(&mut versions),
        step(&mut versions),
        step(&mut versions),
    ];
    drop(versions);
    drop(key);
    steps
}

/// Whether tombstones of a and b at two places may come next, where both are made.
fn takes(alloc: Global, tables: &Tables, first: (u64, u64), second: (u64, u64)) -> Option<bool> {
    let mut versions = Vec::new(alloc);
    let _ = versions.push(tombstone(first.0, first.1, b"a"));
    let _ = versions.push(tombstone(second.0, second.1, b"b"));
    let found = (versions.len() == 2).then_some(tables.takes(&versions));
    drop(versions);
    found
}

/// What is done with tables, and what they are to answer.
#[derive(Clone, Copy)]
enum Row {
    /// The number of a key's puts, at the end of a revision.
    Version(u64, &'static [u8], Option<u64>),
    /// The keys that a Range shows, joined, and what else.
    Range(Ask, &'static [u8], Found),
    /// What a Range of a revision is refused for.
    Refused(i64, Option<Refusal>),
    /// The first three versions of a key from a revision on.
    Walk(&'static [u8], u64, [Walked; 3]),
    /// Whether tombstones of a and b at two places may come next.
    Takes((u64, u64), (u64, u64), bool),
    /// Whether no version may come next.
    TakesNone(bool),
    Compact(u64),
    Retract(u64),
    /// The last revision.
    Revision(u64),
    /// How many versions there are.
    Count(usize),
}

fn is_so(alloc: Global, tables: &mut Tables, row: Row) -> bool {
    match row {
        Row::Compact(revision) => tables.compact(revision),
        Row::Retract(main) => tables.retract(main),
        _ => return is_told(alloc, tables, row),
    }
    true
}

fn is_told(alloc: Global, tables: &Tables, row: Row) -> bool {
    match row {
        Row::Version(revision, key, expected) => version_at(tables, revision, key) == expected,
        Row::Range(ask, keys, expected) => shown(alloc, tables, ask, keys) == expected,
        Row::Refused(revision, expected) => refused(alloc, tables, revision) == number(expected),
        Row::Walk(key, next, expected) => walked(tables, key, next) == expected,
        Row::Takes(first, second, expected) => {
            takes(alloc, tables, first, second) == Some(expected)
        }
        Row::TakesNone(expected) => tables.takes(&[]) == expected,
        Row::Revision(expected) => tables.revision() == expected,
        Row::Count(expected) => tables.count() == expected,
        _ => false,
    }
}

fn first_wrong(alloc: Global, tables: &mut Tables, rows: &[Row]) -> Option<usize> {
    for (place, row) in rows.iter().enumerate() {
        let row = *row;
        if !is_so(alloc, tables, row) {
            return Some(place);
        }
    }
    None
}

/// The place of the first row that the tables of five revisions answer otherwise.
fn first_wrong_of_five(alloc: Global, rows: &[Row]) -> Option<usize> {
    let mut tables = Tables::new(alloc);
    fill(alloc, &mut tables, CHANGES.as_slice());
    let wrong = first_wrong(alloc, &mut tables, rows);
    drop(tables);
    wrong
}

static VERSIONS: [Row; 4] = [
    Row::Version(2, b"a", None),
    Row::Version(4, b"a", Some(1)),
    Row::Version(6, b"a", Some(2)),
    Row::Version(6, b"c", None),
];

#[test]
fn shows_what_a_key_holds_at_a_place(rt: HostRuntime) {
    assert_eq!(rt; first_wrong_of_five(rt.alloc(), VERSIONS.as_slice()), None);
}

static INTERVALS: [Row; 4] = [
    Row::Range(Ask::Between(b"a", b""), b"a", Ok((true, 1, false, 1))),
    Row::Range(Ask::Between(b"a", b"b"), b"a", Ok((true, 1, false, 1))),
    Row::Range(Ask::Between(b"a", b"a\0"), b"a", Ok((true, 1, false, 1))),
    Row::Range(Ask::Every(5, 0), b"abc", Ok((true, 3, false, 1))),
];

#[test]
fn reads_intervals(rt: HostRuntime) {
    assert_eq!(rt; first_wrong_of_five(rt.alloc(), INTERVALS.as_slice()), None);
}

static CUT: [Row; 7] = [
    Row::Range(Ask::Every(0, 1), b"a", Ok((true, 2, true, 1))),
    Row::Range(Ask::Every(0, 2), b"ab", Ok((true, 2, false, 1))),
    Row::Range(Ask::Counted(true, false, 1), b"", Ok((true, 2, false, 0))),
    Row::Range(Ask::Bounded(5, 0, 0), b"a", Ok((true, 2, false, 1))),
    Row::Range(Ask::Bounded(0, -1, 0), b"", Ok((true, 2, false, 0))),
    Row::Range(Ask::Bounded(0, 0, 3), b"a", Ok((true, 2, false, 1))),
    Row::Range(Ask::Counted(false, true, 0), b"ab", Ok((true, 2, false, 0))),
];

#[test]
fn cuts_and_filters(rt: HostRuntime) {
    assert_eq!(rt; first_wrong_of_five(rt.alloc(), CUT.as_slice()), None);
}

static SORTED: [Row; 3] = [
    Row::Range(
        Ask::Sorted(SortOrder::Unsorted, SortTarget::ByValue, 0),
        b"bca",
        Ok((true, 3, false, 1)),
    ),
    Row::Range(
        Ask::Sorted(SortOrder::Descend, SortTarget::ByValue, 0),
        b"abc",
        Ok((true, 3, false, 1)),
    ),
    Row::Range(
        Ask::Sorted(SortOrder::Descend, SortTarget::ByKey, 2),
        b"cb",
        Ok((true, 3, true, 1)),
    ),
];

#[test]
fn sorts_with_ties_by_key(rt: HostRuntime) {
    assert_eq!(rt; first_wrong_of_five(rt.alloc(), SORTED.as_slice()), None);
}

static REFUSED: [Row; 5] = [
    Row::Compact(4),
    Row::Refused(3, Some(Refusal::Compacted(4))),
    Row::Refused(4, None),
    Row::Refused(6, None),
    Row::Refused(7, Some(Refusal::Future(6))),
];

#[test]
fn refuses_revisions(rt: HostRuntime) {
    assert_eq!(rt; first_wrong_of_five(rt.alloc(), REFUSED.as_slice()), None);
}

static TAKEN_BACK: [Row; 6] = [
    Row::Retract(5),
    Row::Revision(6),
    Row::Retract(6),
    Row::Revision(5),
    Row::Count(4),
    Row::Version(5, b"c", Some(1)),
];

#[test]
fn takes_a_revision_back(rt: HostRuntime) {
    assert_eq!(rt;
        first_wrong_of_five(rt.alloc(), TAKEN_BACK.as_slice()),
        None
    );
}

static WALKED: [Row; 4] = [
    Row::Walk(b"c", 0, [Some((2, Some(1))), Some((6, None)), None]),
    Row::Walk(b"a", 4, [Some((5, Some(2))), None, None]),
    Row::Walk(b"b", 5, [None, None, None]),
    Row::Walk(b"x", 0, [None, None, None]),
];

#[test]
fn walks_the_versions_of_a_key(rt: HostRuntime) {
    assert_eq!(rt; first_wrong_of_five(rt.alloc(), WALKED.as_slice()), None);
}

static NEXT: [Row; 5] = [
    Row::TakesNone(true),
    Row::Takes((7, 0), (7, 1), true),
    Row::Takes((7, 1), (7, 1), false),
    Row::Takes((7, 0), (8, 0), false),
    Row::Takes((8, 0), (8, 1), false),
];

#[test]
fn takes_the_next_revision_alone(rt: HostRuntime) {
    assert_eq!(rt; first_wrong_of_five(rt.alloc(), NEXT.as_slice()), None);
}

#[test]
fn goes_to_another_thread(rt: HostRuntime) {
    crosses(Tables::new(rt.alloc()));
}
