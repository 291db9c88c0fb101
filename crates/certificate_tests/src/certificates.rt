//! Checks of certificates, on worked rows.
use crate::fixtures::{Line, Row, verdict};
use kv_model::version::Rev;
use std::alloc::Global;
use witness_core::{Least, Need, NeedFault};

/// A floor, a revision, versions and claims, and what a check says of them.
type Case = (
    u64,
    u64,
    &'static [Row],
    &'static [Line],
    Result<Least, NeedFault>,
);

const X: &[u8] = b"x";

const Y: &[u8] = b"y";

const A: &[u8] = b"a";

const B: &[u8] = b"b";

/// One transaction puts x and y.
const TWO: [Row; 2] = [(2, 0, X, true), (2, 1, Y, true)];

/// The claims of the two.
const BOTH: [Line; 2] = [(2, 0, Need::Range(2)), (2, 1, Need::Range(2))];

/// Puts of a at 2, 4 and 5, and of b at 3.
const FOUR: [Row; 4] = [
    (2, 0, A, true),
    (3, 0, B, true),
    (4, 0, A, true),
    (5, 0, A, true),
];

/// A put of a and its tombstone.
const PUT_AND_GONE: [Row; 2] = [(2, 0, A, true), (3, 0, A, false)];

/// The texts of a transaction's two versions, each changed at one place.
static TRANSACTIONS: [Case; 9] = [
    (0, 2, &TWO, &BOTH, Ok(Least { count: 2 })),
    (
        0,
        2,
        &TWO,
        &[],
        Err(NeedFault::NoNeed(Rev { main: 2, sub: 0 })),
    ),
    (
        0,
        2,
        &TWO,
        &[(2, 0, Need::Range(2))],
        Err(NeedFault::NoNeed(Rev { main: 2, sub: 1 })),
    ),
    (
        0,
        2,
        &TWO,
        &[
            (2, 0, Need::Range(2)),
            (2, 1, Need::Range(2)),
            (2, 1, Need::Range(2)),
        ],
        Err(NeedFault::Extra),
    ),
    (
        0,
        2,
        &[(2, 0, X, true), (2, 0, Y, true)],
        &[(2, 0, Need::Range(2)), (2, 0, Need::Range(2))],
        Err(NeedFault::NotRising(Rev { main: 2, sub: 0 })),
    ),
    (
        0,
        2,
        &[(2, 0, X, true), (2, 1, X, true)],
        &BOTH,
        Err(NeedFault::DoubleKey(Rev { main: 2, sub: 0 })),
    ),
    (
        0,
        2,
        &[
            (2, 0, Y, true),
            (2, 1, X, true),
            (2, 2, X, true),
            (2, 3, Y, true),
        ],
        &BOTH,
        Err(NeedFault::DoubleKey(Rev { main: 2, sub: 0 })),
    ),
    (
        0,
        2,
        &[(2, 0, b"", true), (2, 1, Y, true)],
        &BOTH,
        Err(NeedFault::NeedUnmet(Rev { main: 2, sub: 0 })),
    ),
    (0, 1, &[], &[], Ok(Least { count: 0 })),
];

/// Four puts, of which the third is replaced by the last.
static PUTS: [Case; 5] = [
    (
        0,
        5,
        &FOUR,
        &[
            (2, 0, Need::Range(2)),
            (3, 0, Need::Range(3)),
            (4, 0, Need::Range(5)),
            (5, 0, Need::Range(5)),
        ],
        Err(NeedFault::NeedUnmet(Rev { main: 4, sub: 0 })),
    ),
    (
        0,
        5,
        &FOUR,
        &[
            (2, 0, Need::Range(2)),
            (3, 0, Need::Range(3)),
            (4, 0, Need::Range(4)),
            (5, 0, Need::Range(5)),
        ],
        Ok(Least { count: 4 }),
    ),
    (
        0,
        5,
        &FOUR,
        &[
            (2, 0, Need::Range(2)),
            (3, 0, Need::Range(3)),
            (5, 0, Need::Range(5)),
        ],
        Err(NeedFault::NoNeed(Rev { main: 4, sub: 0 })),
    ),
    (
        4,
        5,
        &FOUR,
        &[
            (2, 0, Need::Range(3)),
            (3, 0, Need::Range(4)),
            (4, 0, Need::Range(4)),
            (5, 0, Need::Range(5)),
        ],
        Err(NeedFault::NeedUnmet(Rev { main: 2, sub: 0 })),
    ),
    (
        0,
        4,
        &FOUR,
        &[
            (2, 0, Need::Range(2)),
            (3, 0, Need::Range(3)),
            (4, 0, Need::Range(4)),
            (5, 0, Need::Range(5)),
        ],
        Err(NeedFault::NeedUnmet(Rev { main: 5, sub: 0 })),
    ),
];

/// A tombstone answers watches, and hides the put below it.
static TOMBSTONES: [Case; 4] = [
    (
        0,
        3,
        &PUT_AND_GONE,
        &[(2, 0, Need::Range(2)), (3, 0, Need::Watch(3))],
        Ok(Least { count: 2 }),
    ),
    (
        0,
        3,
        &PUT_AND_GONE,
        &[(2, 0, Need::Watch(3)), (3, 0, Need::Watch(3))],
        Err(NeedFault::NeedUnmet(Rev { main: 2, sub: 0 })),
    ),
    (
        3,
        3,
        &PUT_AND_GONE,
        &[(2, 0, Need::Range(3)), (3, 0, Need::Watch(3))],
        Err(NeedFault::NeedUnmet(Rev { main: 2, sub: 0 })),
    ),
    (
        0,
        3,
        &PUT_AND_GONE,
        &[(2, 0, Need::Range(2)), (3, 0, Need::Range(3))],
        Err(NeedFault::NeedUnmet(Rev { main: 3, sub: 0 })),
    ),
];

/// A put answers a watch with previous values where the next version of its key is of the revision
/// asked for, which is not below the floor.
static PREVIOUS: [Case; 7] = [
    (
        3,
        3,
        &PUT_AND_GONE,
        &[(2, 0, Need::Prev(3)), (3, 0, Need::Watch(3))],
        Ok(Least { count: 2 }),
    ),
    (
        3,
        3,
        &PUT_AND_GONE,
        &[(2, 0, Need::Prev(2)), (3, 0, Need::Watch(3))],
        Err(NeedFault::NeedUnmet(Rev { main: 2, sub: 0 })),
    ),
    (
        4,
        4,
        &PUT_AND_GONE,
        &[(2, 0, Need::Prev(3)), (3, 0, Need::Watch(3))],
        Err(NeedFault::NeedUnmet(Rev { main: 2, sub: 0 })),
    ),
    (
        0,
        3,
        &PUT_AND_GONE,
        &[(2, 0, Need::Range(2)), (3, 0, Need::Prev(3))],
        Err(NeedFault::NeedUnmet(Rev { main: 3, sub: 0 })),
    ),
    (
        4,
        5,
        &FOUR,
        &[
            (2, 0, Need::Prev(4)),
            (3, 0, Need::Range(4)),
            (4, 0, Need::Prev(5)),
            (5, 0, Need::Range(5)),
        ],
        Ok(Least { count: 4 }),
    ),
    (
        4,
        5,
        &FOUR,
        &[
            (2, 0, Need::Prev(5)),
            (3, 0, Need::Range(4)),
            (4, 0, Need::Range(4)),
            (5, 0, Need::Range(5)),
        ],
        Err(NeedFault::NeedUnmet(Rev { main: 2, sub: 0 })),
    ),
    (
        4,
        5,
        &FOUR,
        &[
            (2, 0, Need::Prev(4)),
            (3, 0, Need::Range(4)),
            (4, 0, Need::Range(4)),
            (5, 0, Need::Prev(5)),
        ],
        Err(NeedFault::NeedUnmet(Rev { main: 5, sub: 0 })),
    ),
];

/// What a check says of the first case that it judges otherwise than is told.
fn first_wrong(alloc: Global, cases: &[Case]) -> Option<Result<Least, NeedFault>> {
    for row in cases {
        let (floor, revision, rows, lines, told) = *row;
        let found = verdict(alloc, floor, revision, rows, lines);
        if found != told {
            return Some(found);
        }
    }
    None
}

#[test]
fn judges_the_versions_of_a_transaction(rt: HostRuntime) {
    let wrong = first_wrong(rt.alloc(), TRANSACTIONS.as_slice());
    assert_eq!(rt; wrong, None);
}

#[test]
fn judges_puts_of_one_key(rt: HostRuntime) {
    let wrong = first_wrong(rt.alloc(), PUTS.as_slice());
    assert_eq!(rt; wrong, None);
}

#[test]
fn judges_tombstones(rt: HostRuntime) {
    let wrong = first_wrong(rt.alloc(), TOMBSTONES.as_slice());
    assert_eq!(rt; wrong, None);
}

#[test]
fn judges_previous_values(rt: HostRuntime) {
    let wrong = first_wrong(rt.alloc(), PREVIOUS.as_slice());
    assert_eq!(rt; wrong, None);
}

/// A version's place, for the faults that name one.
const PLACE: Rev = Rev { main: 4, sub: 1 };

#[test]
fn names_each_fault(rt: HostRuntime) {
    let numbers = [
        NeedFault::NotRising(PLACE).number(),
        NeedFault::DoubleKey(PLACE).number(),
        NeedFault::NoNeed(PLACE).number(),
        NeedFault::NeedUnmet(PLACE).number(),
        NeedFault::Extra.number(),
        NeedFault::Memory.number(),
    ];
    assert_eq!(rt; numbers, [1, 2, 3, 4, 5, 6]);
}

/// Whether a fault is shown as this text.
fn is_shown(alloc: Global, fault: NeedFault, text: &str) -> bool {
    let shown = format!(in alloc; "{fault}");
    let is = match &shown {
        Ok(shown) => shown.as_str() == text,
        Err(_) => false,
    };
    drop(shown);
    is
}

static SHOWN: [(NeedFault, &str); 6] = [
    (NeedFault::NotRising(PLACE), "not rising 4.1"),
    (NeedFault::DoubleKey(PLACE), "double key 4.1"),
    (NeedFault::NoNeed(PLACE), "no need 4.1"),
    (NeedFault::NeedUnmet(PLACE), "need unmet 4.1"),
    (NeedFault::Extra, "extra"),
    (NeedFault::Memory, "out of memory"),
];

/// The first text whose fault is shown otherwise.
fn first_shown_wrong(alloc: Global, cases: &[(NeedFault, &'static str)]) -> Option<&'static str> {
    for row in cases {
        let (fault, text) = *row;
        if !is_shown(alloc, fault, text) {
            return Some(text);
        }
    }
    None
}

#[test]
fn shows_each_fault(rt: HostRuntime) {
    assert_eq!(rt; first_shown_wrong(rt.alloc(), SHOWN.as_slice()), None);
}
