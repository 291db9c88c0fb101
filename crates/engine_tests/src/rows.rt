//! The worked rows, step by step: each on a new engine.
use crate::texts::*;

/// One event, and what it is answered.
pub(super) enum Step {
    /// A command at a moment: its path, its body, and the status and the body of its reply.
    Post(u64, &'static str, &'static str, u16, &'static str),
    /// The watch of a number is told this text.
    Tell(u64, &'static str),
    /// The watch of a number is told nothing.
    Quiet(u64),
    /// There is no watch of a number.
    NoWatch(u64),
    /// A trimming step takes out the version of this main revision, whose sub number is 0.
    Removed(u64),
    /// A trimming step leaves it.
    Kept(u64),
    /// A trimming step is done, with so many versions.
    Done(u64),
    /// At a moment no lease is due.
    NothingDue(u64),
    /// At a moment a lease is revoked, and that is the revision after it.
    Expired(u64, i64, u64),
}

/// A row, and how many versions are kept after it.
pub(super) type Row = (&'static [Step], u64);

const A_PUT_AND_A_RANGE: [Step; 2] = [
    Step::Post(0, PUT, PUT_FOO, 200, AT_2),
    Step::Post(0, RANGE, RANGE_FOO, 200, FOO_AT_2),
];

const A_RANGE_OF_NOTHING: [Step; 1] = [Step::Post(0, RANGE, RANGE_FOO, 200, AT_1)];

const A_PUT_WITHOUT_A_KEY: [Step; 2] = [
    Step::Post(0, PUT, PUT_NO_KEY, 400, NO_KEY),
    Step::Post(0, PUT, PUT_FOO, 200, AT_2),
];

const RANGES: [Step; 7] = [
    Step::Post(0, PUT, PUT_A_1, 200, AT_2),
    Step::Post(0, PUT, PUT_B_1, 200, AT_3),
    Step::Post(0, PUT, PUT_C_1, 200, AT_4),
    Step::Post(0, PUT, PUT_B_2, 200, AT_5),
    Step::Post(0, RANGE, RANGE_ONE_OF_ALL, 200, ONE_OF_ALL),
    Step::Post(0, RANGE, RANGE_BY_VERSION, 200, BY_VERSION),
    Step::Post(0, RANGE, RANGE_OF_NOTHING, 200, AT_5),
];

const RANGES_OF_THE_PAST: [Step; 7] = [
    Step::Post(0, PUT, PUT_A_1, 200, AT_2),
    Step::Post(0, DELETE, DELETE_A, 200, DELETED_AT_3),
    Step::Post(0, PUT, PUT_A_2, 200, AT_4),
    Step::Post(0, RANGE, RANGE_A_AT_2, 200, A_AS_OF_2),
    Step::Post(0, RANGE, RANGE_A_AT_3, 200, AT_4),
    Step::Post(0, RANGE, RANGE_A_AT_4, 200, A_AS_OF_4),
    Step::Post(0, RANGE, RANGE_A_AT_5, 400, IS_FUTURE),
];

const TRIMMED_TO_THE_LEAST: [Step; 9] = [
    Step::Post(0, PUT, PUT_A_1, 200, AT_2),
    Step::Post(0, DELETE, DELETE_A, 200, DELETED_AT_3),
    Step::Post(0, PUT, PUT_B_1, 200, AT_4),
    Step::Post(0, COMPACT, COMPACT_4, 200, AT_4),
    Step::Removed(2),
    Step::Post(0, RANGE, RANGE_A_AT_4, 200, AT_4),
    Step::Removed(3),
    Step::Kept(4),
    Step::Done(1),
];

const A_RANGE_BELOW_THE_COMPACTION: [Step; 6] = [
    Step::Post(0, PUT, PUT_A_1, 200, AT_2),
    Step::Post(0, DELETE, DELETE_A, 200, DELETED_AT_3),
    Step::Post(0, PUT, PUT_B_1, 200, AT_4),
    Step::Post(0, COMPACT, COMPACT_4, 200, AT_4),
    Step::Removed(2),
    Step::Post(0, RANGE, RANGE_A_AT_3, 400, IS_COMPACTED),
];

const A_WATCH: [Step; 13] = [
    Step::Post(0, PUT, PUT_A_1, 200, AT_2),
    Step::Post(0, WATCH, WATCH_A_FROM_2, 200, CREATED_AT_2),
    Step::Tell(1, A_TOLD_AT_2),
    Step::Quiet(1),
    Step::Post(0, PUT, PUT_B_1, 200, AT_3),
    Step::Post(0, PUT, PUT_B_1, 200, AT_4),
    Step::Post(0, PUT, PUT_B_1, 200, AT_5),
    Step::Post(0, PUT, PUT_B_1, 200, AT_6),
    Step::Post(0, PUT, PUT_B_1, 200, AT_7),
    Step::Post(0, COMPACT, COMPACT_7, 200, AT_7),
    Step::Quiet(1),
    Step::Post(0, PUT, PUT_A_2, 200, AT_8),
    Step::Tell(1, A_TOLD_AT_8),
];

const WATCHES_OF_WHAT_IS_COMPACTED: [Step; 11] = [
    Step::Post(0, PUT, PUT_A_1, 200, AT_2),
    Step::Post(0, DELETE, DELETE_A, 200, DELETED_AT_3),
    Step::Post(0, COMPACT, COMPACT_3, 200, AT_3),
    Step::Kept(2),
    Step::Kept(3),
    Step::Done(2),
    Step::Post(0, WATCH, WATCH_A_FROM_3, 200, CREATED_AT_3),
    Step::Tell(1, DELETE_OF_A),
    Step::Post(0, WATCH, WATCH_A_FROM_2, 200, CREATED_AT_3),
    Step::Tell(2, CANCELED_AT_3),
    Step::NoWatch(2),
];

// Two rows, the second of which goes on where the first ends.
const COMPACTIONS: [Step; 24] = [
    Step::Post(0, PUT, PUT_A_1, 200, AT_2),
    Step::Post(0, PUT, PUT_A_2, 200, AT_3),
    Step::Post(0, PUT, PUT_B_1, 200, AT_4),
    Step::Post(0, PUT, PUT_A_1, 200, AT_5),
    Step::Post(0, COMPACT, COMPACT_4, 200, AT_5),
    Step::Removed(2),
    Step::Kept(3),
    Step::Post(0, DELETE, DELETE_B, 200, DELETED_AT_6),
    Step::Post(0, PUT, PUT_A_2, 200, AT_7),
    Step::Post(0, PUT, PUT_B_2, 200, AT_8),
    Step::Post(0, PUT, PUT_C_1, 200, AT_9),
    Step::Post(0, COMPACT, COMPACT_9, 200, AT_9),
    Step::Removed(3),
    Step::Removed(4),
    Step::Removed(5),
    Step::Removed(6),
    Step::Kept(7),
    Step::Kept(8),
    Step::Kept(9),
    Step::Done(3),
    Step::Post(0, COMPACT, COMPACT_4, 400, IS_COMPACTED),
    Step::Post(0, COMPACT, COMPACT_9, 400, IS_COMPACTED),
    Step::Post(0, COMPACT, COMPACT_99, 400, IS_FUTURE),
    Step::Done(3),
];

const LEASES: [Step; 11] = [
    Step::Post(1000, GRANT, GRANT_7, 200, GRANTED_7),
    Step::Post(1000, PUT, PUT_A_1_LEASED, 200, AT_2),
    Step::Post(1000, PUT, PUT_B_1_LEASED, 200, AT_3),
    Step::Post(1000, PUT, PUT_B_1, 200, AT_4),
    Step::Post(1000, PUT, PUT_C_1_LEASED, 200, AT_5),
    Step::Post(1000, TIME_TO_LIVE, TIME_TO_LIVE_7, 200, LEFT_7),
    Step::NothingDue(10999),
    Step::Expired(11000, 7, 6),
    Step::Post(11000, KEEP_ALIVE, KEEP_ALIVE_7, 200, NOT_RENEWED_7),
    Step::Post(11000, TIME_TO_LIVE, KEEP_ALIVE_7, 200, GONE_7),
    Step::Post(11000, REVOKE, KEEP_ALIVE_7, 404, NO_LEASE),
];

pub(super) fn a_put_and_a_range() -> Row {
    (&A_PUT_AND_A_RANGE, 1)
}

pub(super) fn a_range_of_nothing() -> Row {
    (&A_RANGE_OF_NOTHING, 0)
}

pub(super) fn a_put_without_a_key() -> Row {
    (&A_PUT_WITHOUT_A_KEY, 1)
}

pub(super) fn ranges() -> Row {
    (&RANGES, 4)
}

pub(super) fn ranges_of_the_past() -> Row {
    (&RANGES_OF_THE_PAST, 3)
}

pub(super) fn trimmed_to_the_least() -> Row {
    (&TRIMMED_TO_THE_LEAST, 1)
}

pub(super) fn a_range_below_the_compaction() -> Row {
    (&A_RANGE_BELOW_THE_COMPACTION, 2)
}

pub(super) fn a_watch() -> Row {
    (&A_WATCH, 7)
}

pub(super) fn watches_of_what_is_compacted() -> Row {
    (&WATCHES_OF_WHAT_IS_COMPACTED, 2)
}

pub(super) fn compactions() -> Row {
    (&COMPACTIONS, 3)
}

pub(super) fn leases() -> Row {
    (&LEASES, 6)
}
