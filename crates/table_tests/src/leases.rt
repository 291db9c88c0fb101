//! A book of leases, on its way from grants to ends. A test is a table of what is done with a book:
//! no function that owns one asserts, and one function does all rows.
use kv_model::refusal::Refusal;
use lease_book::LeaseBook;
use std::alloc::Global;

/// The number and the seconds that are granted.
type Grant = Result<(i64, u64), Refusal>;

fn grant(book: &mut LeaseBook, ttl: i64, id: i64) -> Grant {
    match book.grant(ttl, id) {
        Ok(granted) => Ok((granted.id, granted.ttl)),
        Err(refusal) => Err(refusal),
    }
}

/// Whether these are the numbers of all leases, in their order.
fn are_ids(book: &LeaseBook, ids: &[i64]) -> bool {
    match book.ids() {
        Ok(found) => found.as_slice() == ids,
        Err(_) => false,
    }
}

/// The seconds that are left to a lease, of those granted.
fn left(book: &LeaseBook, id: i64) -> Option<(u64, u64)> {
    match book.time_left(id) {
        Some(left) => Some((left.seconds, left.granted)),
        None => None,
    }
}

/// Whether the numbers below this one are granted, each as the least that is free.
fn are_granted_below(book: &mut LeaseBook, most: i64) -> bool {
    for id in 1..most {
        if grant(book, 0, 0) != Ok((id, 1)) {
            return false;
        }
    }
    true
}

/// Whether the leases below this number are revoked, each while none is due.
fn are_revoked_below(book: &mut LeaseBook, most: i64) -> bool {
    for id in 1..most {
        if (book.due(), book.revoke(id)) != (None, Ok(())) {
            return false;
        }
    }
    true
}

/// What is done with a book, and what it is to answer.
#[derive(Clone, Copy)]
enum Row {
    /// A grant of so many seconds to a number, where that is 0 to the least that is free.
    Grant(i64, i64, Grant),
    GrantBelow(i64),
    Revoke(i64, Result<(), Refusal>),
    RevokeBelow(i64),
    /// The seconds that a lease has from now on.
    KeepAlive(i64, Option<u64>),
    IsGranted(i64, bool),
    /// The numbers of all leases, in their order.
    Ids(&'static [i64]),
    Left(i64, Option<(u64, u64)>),
    /// What is due.
    Due(Option<i64>),
    /// A moment, and the clock then.
    Moment(u64, u64),
}

fn is_so(book: &mut LeaseBook, row: Row) -> bool {
    match row {
        Row::Grant(ttl, id, expected) => grant(book, ttl, id) == expected,
        Row::GrantBelow(most) => are_granted_below(book, most),
        Row::Revoke(id, expected) => book.revoke(id) == expected,
        Row::RevokeBelow(most) => are_revoked_below(book, most),
        Row::KeepAlive(id, expected) => book.keep_alive(id) == expected,
        Row::IsGranted(id, expected) => book.is_granted(id) == expected,
        Row::Ids(ids) => are_ids(book, ids),
        Row::Left(id, expected) => left(book, id) == expected,
        Row::Due(expected) => book.due() == expected,
        Row::Moment(now, clock) => book.moment(now) == clock,
    }
}

fn first_wrong(book: &mut LeaseBook, rows: &[Row]) -> Option<usize> {
    for (place, row) in rows.iter().enumerate() {
        let row = *row;
        if !is_so(book, row) {
            return Some(place);
        }
    }
    None
}

/// The place of the first row that a fresh book answers otherwise.
fn first_wrong_of_fresh(alloc: Global, rows: &[Row]) -> Option<usize> {
    let mut book = LeaseBook::new(alloc);
    let wrong = first_wrong(&mut book, rows);
    drop(book);
    wrong
}

/// The first lease and the third end after a second, and the second does not.
static EXPIRED: [Row; 15] = [
    Row::Grant(0, 0, Ok((1, 1))),
    Row::Grant(5, 2, Ok((2, 5))),
    Row::Grant(0, 0, Ok((3, 1))),
    Row::Grant(0, 2, Err(Refusal::LeaseExists)),
    Row::Grant(9_000_000_001, 2, Err(Refusal::TtlTooLarge)),
    Row::Ids(&[1, 2, 3]),
    Row::Moment(1000, 1000),
    Row::Due(Some(1)),
    Row::Revoke(1, Ok(())),
    Row::Due(Some(3)),
    Row::Revoke(3, Ok(())),
    Row::Due(None),
    Row::Moment(500, 1000),
    Row::IsGranted(3, false),
    Row::IsGranted(2, true),
];

#[test]
fn grants_and_expires(rt: HostRuntime) {
    assert_eq!(rt; first_wrong_of_fresh(rt.alloc(), EXPIRED.as_slice()), None);
}

static LIVED: [Row; 21] = [
    Row::Moment(1000, 1000),
    Row::Grant(10, 7, Ok((7, 10))),
    Row::Moment(1000, 1000),
    Row::Left(7, Some((10, 10))),
    Row::Due(None),
    Row::Moment(10_999, 10_999),
    Row::Left(7, Some((0, 10))),
    Row::Due(None),
    Row::Moment(11_000, 11_000),
    Row::Left(7, Some((0, 10))),
    Row::Due(Some(7)),
    Row::KeepAlive(7, Some(10)),
    Row::Moment(11_000, 11_000),
    Row::Left(7, Some((10, 10))),
    Row::Due(None),
    Row::Revoke(7, Ok(())),
    Row::KeepAlive(7, None),
    Row::Moment(11_000, 11_000),
    Row::Left(7, None),
    Row::Due(None),
    Row::Revoke(7, Err(Refusal::LeaseMissing)),
];

#[test]
fn lives_until_it_is_revoked(rt: HostRuntime) {
    assert_eq!(rt; first_wrong_of_fresh(rt.alloc(), LIVED.as_slice()), None);
}

static SIGNED: [Row; 10] = [
    Row::Grant(-7, 4, Ok((4, 1))),
    Row::Grant(-7, -3, Ok((-3, 1))),
    Row::Grant(-7, 2, Ok((2, 1))),
    Row::Grant(-7, i64::MIN, Ok((i64::MIN, 1))),
    Row::Grant(-7, 1, Ok((1, 1))),
    Row::Grant(-7, i64::MAX, Ok((i64::MAX, 1))),
    Row::Ids(&[i64::MIN, -3, 1, 2, 4, i64::MAX]),
    Row::Grant(0, 0, Ok((3, 1))),
    Row::Moment(u64::MAX, 1 << 62),
    Row::Due(Some(i64::MIN)),
];

#[test]
fn signed_ids_ascend(rt: HostRuntime) {
    assert_eq!(rt; first_wrong_of_fresh(rt.alloc(), SIGNED.as_slice()), None);
}

static MANY: [Row; 8] = [
    Row::GrantBelow(65_537),
    Row::Grant(0, 0, Err(Refusal::TooManyLeases)),
    Row::Grant(0, 1, Err(Refusal::LeaseExists)),
    Row::Revoke(40_000, Ok(())),
    Row::Grant(0, 0, Ok((40_000, 1))),
    Row::RevokeBelow(65_536),
    Row::Moment(1000, 1000),
    Row::Due(Some(65_536)),
];

#[test]
fn takes_as_many_as_it_may(rt: HostRuntime) {
    assert_eq!(rt; first_wrong_of_fresh(rt.alloc(), MANY.as_slice()), None);
}
