//! Trimming, on the worked rows of compaction. A test is a table of what is done with the tables of
//! a store: no function that owns them asserts, and one function does all rows.
use crate::fixtures::{append, tombstone, version};
use kv_model::version::Rev;
use range_view::Tables;
use std::alloc::Global;
use trim_core::Trim;

/// What is done with tables, and what they are to answer.
#[derive(Clone, Copy)]
enum Row {
    /// The put of a key at a revision, where it is the next one.
    Put(u64, &'static [u8]),
    /// The tombstone of a key, where it is the next one.
    Gone(u64, &'static [u8]),
    /// Puts of a at each of the revisions from 2 up to the one before an end.
    PutsBelow(u64),
    Compact(u64),
    Step(Trim),
    /// So many steps, and the last of them.
    Steps(u64, Trim),
    /// How many versions there are.
    Count(usize),
}

fn put(alloc: Global, tables: &mut Tables, main: u64, key: &'static [u8]) {
    append(alloc, tables, version((main, key, b"1", main, 1)));
}

fn put_below(alloc: Global, tables: &mut Tables, end: u64) {
    for main in 2..end {
        put(alloc, tables, main, b"a");
    }
}

fn last_of(tables: &mut Tables, count: u64) -> Trim {
    let mut last = tables.trim_step();
    for _ in 1..count {
        last = tables.trim_step();
    }
    last
}

fn is_so(alloc: Global, tables: &mut Tables, row: Row) -> bool {
    match row {
        Row::Put(main, key) => put(alloc, tables, main, key),
        Row::Gone(main, key) => append(alloc, tables, tombstone(main, 0, key)),
        Row::PutsBelow(end) => put_below(alloc, tables, end),
        Row::Compact(revision) => tables.compact(revision),
        Row::Step(expected) => return tables.trim_step() == expected,
        Row::Steps(count, expected) => return last_of(tables, count) == expected,
        Row::Count(expected) => return tables.count() == expected,
    }
    true
}

fn first_wrong(alloc: Global, tables: &mut Tables, rows: &[Row]) -> Option<usize> {
    for (place, row) in rows.iter().enumerate() {
        let row = *row;
        if !is_so(alloc, tables, row) {
            return Some(place);
        }
    }
    None
}

/// The place of the first row that fresh tables answer otherwise.
fn first_wrong_of_fresh(alloc: Global, rows: &[Row]) -> Option<usize> {
    let mut tables = Tables::new(alloc);
    let wrong = first_wrong(alloc, &mut tables, rows);
    drop(tables);
    wrong
}

/// A put of a, its tombstone, and a put of b after them.
static TAKEN_OUT: [Row; 12] = [
    Row::Step(Trim::Done(0)),
    Row::Put(2, b"a"),
    Row::Gone(3, b"a"),
    Row::Put(4, b"b"),
    Row::Step(Trim::Done(3)),
    Row::Compact(4),
    Row::Step(Trim::Removed(Rev { main: 2, sub: 0 })),
    Row::Step(Trim::Removed(Rev { main: 3, sub: 0 })),
    Row::Step(Trim::Kept(Rev { main: 4, sub: 0 })),
    Row::Step(Trim::Done(1)),
    Row::Step(Trim::Done(1)),
    Row::Step(Trim::Done(1)),
];

#[test]
fn takes_out_a_put_and_its_tombstone(rt: HostRuntime) {
    assert_eq!(rt;
        first_wrong_of_fresh(rt.alloc(), TAKEN_OUT.as_slice()),
        None
    );
}

static KEPT: [Row; 7] = [
    Row::Put(2, b"a"),
    Row::Gone(3, b"a"),
    Row::Compact(3),
    Row::Step(Trim::Kept(Rev { main: 2, sub: 0 })),
    Row::Step(Trim::Kept(Rev { main: 3, sub: 0 })),
    Row::Step(Trim::Done(2)),
    Row::Step(Trim::Done(2)),
];

#[test]
fn keeps_a_tombstone_at_the_compaction_and_its_put(rt: HostRuntime) {
    assert_eq!(rt; first_wrong_of_fresh(rt.alloc(), KEPT.as_slice()), None);
}

/// A tombstone before a put at the compaction is no previous value.
static PUT_AGAIN: [Row; 8] = [
    Row::Put(2, b"a"),
    Row::Gone(3, b"a"),
    Row::Put(4, b"a"),
    Row::Compact(4),
    Row::Step(Trim::Removed(Rev { main: 2, sub: 0 })),
    Row::Step(Trim::Removed(Rev { main: 3, sub: 0 })),
    Row::Step(Trim::Kept(Rev { main: 4, sub: 0 })),
    Row::Step(Trim::Done(1)),
];

#[test]
fn takes_out_a_tombstone_before_the_compaction(rt: HostRuntime) {
    assert_eq!(rt;
        first_wrong_of_fresh(rt.alloc(), PUT_AGAIN.as_slice()),
        None
    );
}

static BEGUN_AGAIN: [Row; 16] = [
    Row::Put(2, b"a"),
    Row::Put(3, b"a"),
    Row::Put(4, b"b"),
    Row::Put(5, b"a"),
    Row::Compact(4),
    Row::Step(Trim::Removed(Rev { main: 2, sub: 0 })),
    Row::Step(Trim::Kept(Rev { main: 3, sub: 0 })),
    Row::Gone(6, b"b"),
    Row::Put(7, b"a"),
    Row::Compact(7),
    Row::Step(Trim::Removed(Rev { main: 3, sub: 0 })),
    Row::Step(Trim::Removed(Rev { main: 4, sub: 0 })),
    Row::Step(Trim::Kept(Rev { main: 5, sub: 0 })),
    Row::Step(Trim::Removed(Rev { main: 6, sub: 0 })),
    Row::Step(Trim::Kept(Rev { main: 7, sub: 0 })),
    Row::Step(Trim::Done(2)),
];

#[test]
fn begins_again_at_a_later_compaction(rt: HostRuntime) {
    assert_eq!(rt;
        first_wrong_of_fresh(rt.alloc(), BEGUN_AGAIN.as_slice()),
        None
    );
}

/// 1,024 puts of a, at the revisions from 2 to 1025, and one of b. The last put of each is left.
/// The pages that they fill, and those that are left, are counted in the crate `table_tests`, in
/// `src/trimming.rt`.
static MANY: [Row; 6] = [
    Row::PutsBelow(1_026),
    Row::Put(1_026, b"b"),
    Row::Count(1_025),
    Row::Compact(1_026),
    Row::Steps(1_026, Trim::Done(2)),
    Row::Count(2),
];

#[test]
fn leaves_the_last_put_of_each_key(rt: HostRuntime) {
    assert_eq!(rt; first_wrong_of_fresh(rt.alloc(), MANY.as_slice()), None);
}
