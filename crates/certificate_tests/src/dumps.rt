//! What a store keeps, shown with its certificate. A test is a table of what is done with the
//! tables of a store: no function that owns them asserts, and one function does all rows.
use crate::fixtures::{Verdict, append, judged, version};
use kv_model::version::Rev;
use range_view::Tables;
use std::alloc::Global;
use witness_core::{Certificate, Claim, Dump, Least, Need, NeedFault, make};

/// The first two needs of what is kept, with the versions' revisions, and how many there are.
type Needs = ([Option<(Rev, Need)>; 2], usize);

fn of_claim(claim: Option<&Claim>) -> Option<(Rev, Need)> {
    match claim {
        Some(claim) => Some((claim.rev, claim.need)),
        None => None,
    }
}

fn needs_of(certificate: &Certificate) -> Needs {
    let claims = certificate.claims.as_slice();
    (
        [of_claim(claims.first()), of_claim(claims.get(1))],
        claims.len(),
    )
}

fn needs(alloc: Global, tables: &Tables) -> Option<Needs> {
    let certificate = make(alloc, &tables.view());
    let found = match &certificate {
        Ok(certificate) => Some(needs_of(certificate)),
        Err(_) => None,
    };
    drop(certificate);
    found
}

/// The floor, the revision and the number of versions of a dump, and the first one's revision.
type Outline = (u64, u64, usize, Option<Rev>);

fn outline_of(dump: &Dump) -> Outline {
    let first = match dump.versions.first() {
        Some(version) => Some(version.rev),
        None => None,
    };
    (dump.floor, dump.revision, dump.versions.len(), first)
}

fn outline(alloc: Global, tables: &Tables) -> Option<Outline> {
    let dump = Dump::of(alloc, &tables.view());
    let found = match &dump {
        Ok(dump) => Some(outline_of(dump)),
        Err(_) => None,
    };
    drop(dump);
    found
}

fn trim(tables: &mut Tables) {
    for _ in 0..4 {
        let _ = tables.trim_step();
    }
}

fn puts_below(alloc: Global, tables: &mut Tables, end: u64) {
    for main in 2..end {
        append(alloc, tables, version((main, 0, b"a", true)));
    }
}

/// What is done with tables, and what they are to answer.
#[derive(Clone, Copy)]
enum Row {
    /// The put of a key at a revision, or its tombstone.
    Append(u64, &'static [u8], bool),
    /// Puts of one key, one at each revision from 2 on below this one.
    PutsBelow(u64),
    Compact(u64),
    /// Four steps of trimming.
    Trim,
    Needs(Needs),
    Shows(Outline),
    /// What a check says of what is kept and its certificate.
    Judged(Result<Least, NeedFault>),
}

fn is_so(alloc: Global, tables: &mut Tables, row: Row) -> bool {
    match row {
        Row::Append(main, key, is_put) => append(alloc, tables, version((main, 0, key, is_put))),
        Row::PutsBelow(end) => puts_below(alloc, tables, end),
        Row::Compact(revision) => tables.compact(revision),
        Row::Trim => trim(tables),
        Row::Needs(expected) => return needs(alloc, tables) == Some(expected),
        Row::Shows(expected) => return outline(alloc, tables) == Some(expected),
        Row::Judged(expected) => return judged(alloc, tables) == Some(expected),
    }
    true
}

fn first_wrong(alloc: Global, tables: &mut Tables, rows: &[Row]) -> Option<usize> {
    for (place, row) in rows.iter().enumerate() {
        let row = *row;
        if !is_so(alloc, tables, row) {
            return Some(place);
        }
    }
    None
}

/// The place of the first row that fresh tables answer otherwise.
fn first_wrong_of_fresh(alloc: Global, rows: &[Row]) -> Option<usize> {
    let mut tables = Tables::new(alloc);
    let wrong = first_wrong(alloc, &mut tables, rows);
    drop(tables);
    wrong
}

const FRESH: [Row; 3] = [
    Row::Shows((0, 1, 0, None)),
    Row::Needs(([None, None], 0)),
    Row::Judged(Ok(Least { count: 0 })),
];

#[test]
fn shows_a_fresh_store(rt: HostRuntime) {
    assert_eq!(rt; first_wrong_of_fresh(rt.alloc(), FRESH.as_slice()), None);
}

/// What is needed at 3, where the store is compacted there: a tombstone, and the put before it.
const BEFORE: (Rev, Need) = (Rev { main: 2, sub: 0 }, Need::Prev(3));

const GONE: (Rev, Need) = (Rev { main: 3, sub: 0 }, Need::Watch(3));

/// What is needed at 4, where the store is compacted there.
const LAST: (Rev, Need) = (Rev { main: 4, sub: 0 }, Need::Range(4));

/// A put of a, its tombstone, and a put of b.
const TRIMMED: [Row; 10] = [
    Row::Append(2, b"a", true),
    Row::Append(3, b"a", false),
    Row::Append(4, b"b", true),
    Row::Compact(4),
    Row::Needs(([Some(LAST), None], 1)),
    Row::Judged(Err(NeedFault::NoNeed(Rev { main: 2, sub: 0 }))),
    Row::Trim,
    Row::Needs(([Some(LAST), None], 1)),
    Row::Judged(Ok(Least { count: 1 })),
    Row::Shows((4, 4, 1, Some(Rev { main: 4, sub: 0 }))),
];

#[test]
fn needs_what_trimming_leaves(rt: HostRuntime) {
    assert_eq!(rt; first_wrong_of_fresh(rt.alloc(), TRIMMED.as_slice()), None);
}

const COMPACTED_AT_TOMBSTONE: [Row; 7] = [
    Row::Append(2, b"a", true),
    Row::Append(3, b"a", false),
    Row::Append(4, b"b", true),
    Row::Compact(3),
    Row::Trim,
    Row::Needs(([Some(BEFORE), Some(GONE)], 3)),
    Row::Judged(Ok(Least { count: 3 })),
];

#[test]
fn needs_a_tombstone_at_the_compaction_and_its_put(rt: HostRuntime) {
    assert_eq!(rt;
        first_wrong_of_fresh(rt.alloc(), COMPACTED_AT_TOMBSTONE.as_slice()),
        None
    );
}

/// The needs of the first two of many puts of one key.
const SECOND: (Rev, Need) = (Rev { main: 2, sub: 0 }, Need::Range(2));

const THIRD: (Rev, Need) = (Rev { main: 3, sub: 0 }, Need::Range(3));

/// 1,200 versions of one key, and then a compaction that needs the last one alone.
const MANY: [Row; 6] = [
    Row::PutsBelow(1_202),
    Row::Shows((0, 1_201, 1_200, Some(Rev { main: 2, sub: 0 }))),
    Row::Needs(([Some(SECOND), Some(THIRD)], 1_200)),
    Row::Judged(Ok(Least { count: 1_200 })),
    Row::Compact(1_201),
    Row::Judged(Err(NeedFault::NoNeed(Rev { main: 2, sub: 0 }))),
];

#[test]
fn needs_each_of_many_versions(rt: HostRuntime) {
    assert_eq!(rt; first_wrong_of_fresh(rt.alloc(), MANY.as_slice()), None);
}
