//! A table in pages of 256 places.
use crate::table::{Row, first_wrong_of_fresh};

// 1,024 puts of one key, at the revisions from 2 to 1025, and one of another make 5 pages. A
// compaction at the last one leaves the last put of each key: the one at the end of the fourth
// page, and the one on the fifth.
static PAGES: [Row; 13] = [
    Row::PushBelow(1_027),
    Row::Len(1_025),
    Row::Pages(5),
    Row::Walk(1_025, 5),
    Row::WalkFrom(514, 513),
    Row::RemoveBelow(1_025),
    Row::Len(2),
    Row::Pages(2),
    Row::Walk(2, 2),
    Row::Get(1_025, 0, Some((1_025, 0))),
    Row::Get(1_026, 0, Some((1_026, 0))),
    Row::Get(2, 0, None),
    Row::NextFrom(3, 0, Some((1_025, 0))),
];

#[test]
fn fills_pages_and_frees_them(rt: HostRuntime) {
    assert_eq!(rt; first_wrong_of_fresh(rt.alloc(), PAGES.as_slice()), None);
}

// 600 changes of the last main revision stand on four pages; they go, and what is before them stays.
static TAKEN_BACK: [Row; 7] = [
    Row::PushBelow(202),
    Row::PushOf(202, 600),
    Row::Len(800),
    Row::Pages(4),
    Row::Retract(202),
    Row::Len(200),
    Row::Pages(1),
];

#[test]
fn takes_back_what_stands_on_several_pages(rt: HostRuntime) {
    assert_eq!(rt;
        first_wrong_of_fresh(rt.alloc(), TAKEN_BACK.as_slice()),
        None
    );
}

// Of ten versions on one page the first two go, one between others, and then, with one more behind them,
// the first and the last of what is left.
static FIRST_AND_OTHERS: [Row; 18] = [
    Row::PushBelow(12),
    Row::Remove(2, 0),
    Row::Remove(3, 0),
    Row::Remove(6, 0),
    Row::Len(7),
    Row::Walk(7, 1),
    Row::Get(4, 0, Some((4, 0))),
    Row::Get(6, 0, None),
    Row::Get(7, 0, Some((7, 0))),
    Row::NextFrom(2, 0, Some((4, 0))),
    Row::NextFrom(6, 0, Some((7, 0))),
    Row::Push(12, 0),
    Row::Remove(4, 0),
    Row::Remove(12, 0),
    Row::Len(6),
    Row::Walk(6, 1),
    Row::WalkFrom(8, 4),
    Row::NextFrom(12, 0, None),
];

#[test]
fn takes_out_the_first_of_a_page_and_others(rt: HostRuntime) {
    assert_eq!(rt;
        first_wrong_of_fresh(rt.alloc(), FIRST_AND_OTHERS.as_slice()),
        None
    );
}
