//! Each call once, on a table of five versions. A test is a table of what is done with one: no
//! function that owns one asserts, and one function does all rows, those of `pages` too.
use crate::fixtures::{pair, tombstone};
use kv_model::version::{Rev, Version};
use std::alloc::Global;
use version_table::{VersionTable, Versions};

/// Adds a tombstone, where each version in the table is before it.
fn push(table: &mut VersionTable, rev: Rev) {
    match table.next_from(rev) {
        Some(_) => {}
        None => {
            let _ = table.push(tombstone(rev.main, rev.sub, b"a"));
        }
    }
}

/// Adds a tombstone for each of the main revisions from 2 up to the one before an end.
fn push_below(table: &mut VersionTable, end: u64) {
    for main in 2..end {
        push(table, Rev { main, sub: 0 });
    }
}

/// Adds so many tombstones of a main revision.
fn push_of(table: &mut VersionTable, main: u64, count: u64) {
    for sub in 0..count {
        push(table, Rev { main, sub });
    }
}

/// Takes out each of the main revisions from 2 up to the one before an end.
fn remove_below(table: &mut VersionTable, end: u64) {
    for main in 2..end {
        table.remove(Rev { main, sub: 0 });
    }
}

fn place(version: Option<&Version>) -> Option<(u64, u64)> {
    match version {
        Some(version) => pair(Some(version.rev)),
        None => None,
    }
}

/// How many versions a walk has left, one after another.
fn count(walk: Versions<'_>) -> usize {
    let mut walk = walk;
    let mut count: usize = 0;
    for _ in 0..1_100 {
        if walk.next().is_some() {
            count = count.saturating_add(1);
        }
    }
    count
}

/// How many slices a walk has left.
fn slices(walk: Versions<'_>) -> usize {
    let mut walk = walk;
    let mut count: usize = 0;
    for _ in 0..1_100 {
        if walk.next_slice().is_some() {
            count = count.saturating_add(1);
        }
    }
    count
}

/// What is done with a table, and what it is to answer.
#[derive(Clone, Copy)]
pub(crate) enum Row {
    Push(u64, u64),
    PushBelow(u64),
    /// So many changes of a main revision.
    PushOf(u64, u64),
    Remove(u64, u64),
    RemoveBelow(u64),
    Retract(u64),
    Get(u64, u64, Option<(u64, u64)>),
    NextFrom(u64, u64, Option<(u64, u64)>),
    /// How many versions there are.
    Len(usize),
    Pages(usize),
    /// How many versions a walk over all has, and how many slices.
    Walk(usize, usize),
    /// How many versions a walk from a main revision has.
    WalkFrom(u64, usize),
}

fn is_so(table: &mut VersionTable, row: Row) -> bool {
    match row {
        Row::Push(main, sub) => push(table, Rev { main, sub }),
        Row::PushBelow(end) => push_below(table, end),
        Row::PushOf(main, count) => push_of(table, main, count),
        Row::Remove(main, sub) => table.remove(Rev { main, sub }),
        Row::RemoveBelow(end) => remove_below(table, end),
        Row::Retract(main) => table.retract(main),
        _ => return is_told(table, row),
    }
    true
}

fn is_told(table: &VersionTable, row: Row) -> bool {
    match row {
        Row::Get(main, sub, expected) => place(table.get(Rev { main, sub })) == expected,
        Row::NextFrom(main, sub, expected) => {
            let rev = Rev { main, sub };
            pair(table.next_from(rev)) == expected && place(table.first_from(rev)) == expected
        }
        Row::Len(expected) => table.len() == expected,
        Row::Pages(expected) => table.pages() == expected,
        Row::Walk(all, most) => {
            count(table.versions()) == all && slices(table.versions()) == most
        }
        Row::WalkFrom(main, expected) => {
            count(table.versions_from(Rev { main, sub: 0 })) == expected
        }
        _ => false,
    }
}

fn first_wrong(table: &mut VersionTable, rows: &[Row]) -> Option<usize> {
    for (place, row) in rows.iter().enumerate() {
        let row = *row;
        if !is_so(table, row) {
            return Some(place);
        }
    }
    None
}

/// The place of the first row that a fresh table answers otherwise.
pub(crate) fn first_wrong_of_fresh(alloc: Global, rows: &[Row]) -> Option<usize> {
    let mut table = VersionTable::new(alloc);
    let wrong = first_wrong(&mut table, rows);
    drop(table);
    wrong
}

static GROWN: [Row; 12] = [
    Row::Len(0),
    Row::Push(2, 0),
    Row::Push(2, 0),
    Row::Push(3, 0),
    Row::Push(2, 7),
    Row::Push(3, 1),
    Row::Push(5, 0),
    Row::Push(5, 1),
    Row::Len(5),
    Row::NextFrom(5, 1, Some((5, 1))),
    Row::NextFrom(5, 2, None),
    Row::Pages(1),
];

#[test]
fn grows_at_its_end_alone(rt: HostRuntime) {
    assert_eq!(rt; first_wrong_of_fresh(rt.alloc(), GROWN.as_slice()), None);
}

static FOUND: [Row; 16] = [
    Row::Push(2, 0),
    Row::Push(3, 0),
    Row::Push(3, 1),
    Row::Push(5, 0),
    Row::Push(5, 1),
    Row::Get(2, 0, Some((2, 0))),
    Row::Get(3, 0, Some((3, 0))),
    Row::Get(3, 1, Some((3, 1))),
    Row::Get(5, 0, Some((5, 0))),
    Row::Get(5, 1, Some((5, 1))),
    Row::Get(3, 2, None),
    Row::Get(6, 0, None),
    Row::NextFrom(0, 0, Some((2, 0))),
    Row::NextFrom(3, 1, Some((3, 1))),
    Row::NextFrom(3, 2, Some((5, 0))),
    Row::NextFrom(5, 2, None),
];

#[test]
fn finds_by_revision(rt: HostRuntime) {
    assert_eq!(rt; first_wrong_of_fresh(rt.alloc(), FOUND.as_slice()), None);
}

static TAKEN_OUT: [Row; 15] = [
    Row::Push(2, 0),
    Row::Push(3, 0),
    Row::Push(3, 1),
    Row::Push(5, 0),
    Row::Push(5, 1),
    Row::Remove(3, 0),
    Row::Remove(4, 0),
    Row::Len(4),
    Row::NextFrom(3, 0, Some((3, 1))),
    Row::Remove(2, 0),
    Row::Remove(3, 0),
    Row::Remove(3, 1),
    Row::Remove(5, 0),
    Row::Remove(5, 1),
    Row::Len(0),
];

#[test]
fn takes_out(rt: HostRuntime) {
    assert_eq!(rt;
        first_wrong_of_fresh(rt.alloc(), TAKEN_OUT.as_slice()),
        None
    );
}

static TAKEN_BACK: [Row; 13] = [
    Row::Push(2, 0),
    Row::Push(3, 0),
    Row::Push(3, 1),
    Row::Push(5, 0),
    Row::Push(5, 1),
    Row::Push(5, 2),
    Row::Retract(3),
    Row::Retract(4),
    Row::Len(6),
    Row::Retract(5),
    Row::Len(3),
    Row::Retract(3),
    Row::NextFrom(0, 0, Some((2, 0))),
];

#[test]
fn takes_the_newest_main_revision_back(rt: HostRuntime) {
    assert_eq!(rt;
        first_wrong_of_fresh(rt.alloc(), TAKEN_BACK.as_slice()),
        None
    );
}
