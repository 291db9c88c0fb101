//! A feed and its readers.
ghost use Rattle.std.specs.Prelude.{◌≡◌, ◌∷◌, [], IfOk, IfSome};
ghost use Rattle.store_laws.specs.Snapshots.{blank, store_of};
ghost use Rattle.snapshot_feed.specs.States.{unused};
ghost use Rattle.table_tests.specs.Puts.{first_event, first_ops, first_put};

use bytes::Bytes;
use event_book::{Book, Front, Noted, Opening, open};
use kv_model::call::{RangeQuery, SortOrder, SortTarget};
use kv_model::feed::Op;
use kv_model::version::{Body, KeyRange, Rev, Version};
use logbook::Plain;
use snapshot_feed::{Feed, Lent, SnapReader};
use std::alloc::{AllocError, Global};
use std::sync::Wait;

/// The put of `a`, as an event.
struct Puts;

impl Plain<(), Noted, u64> for Puts {
    ghost use Rattle.std.specs.Prelude.{None};
    ghost use Rattle.table_tests.specs.Puts.{first_event};

    ghost ask = { λ n. first_event };

    ghost state = { λ n. None };
}

/// The front of a new list that has the put, if there is room for it.
fn front_of_put(book: &Book, first: &Front) -> Option<Front>
    requires { (book.now ≡ first.now.book) × (first.now.list ≡ []) }
    ensures { IfSome result (λ f. (f.book ≡ first.now.book) × (f.list ≡ first_event ∷ [])) }
{
    let mut all = first.again();
    if !all.add::<(), Puts>(book, &mut first.again(), &()) {
        return None;
    }
    Some(all)
}

/// The put of `a` at revision 2, as the versions of a revision.
fn put(alloc: Global) -> Result<Vec<Version>, AllocError>
    ensures { IfOk result (λ vs. vs.items ≡ first_put ∷ []) }
{
    let mut list = Vec::new(alloc);
    list.push(Version {
        rev: Rev { main: 2, sub: 0 },
        key: Bytes::from_static(b"a"),
        body: Body::Put {
            create: 2,
            version: 1,
            lease: 0,
            value: Bytes::from_static(b"1"),
        },
    })?;
    Ok(list)
}

fn query() -> RangeQuery {
    RangeQuery {
        range: KeyRange {
            key: Bytes::from_static(b"a"),
            end: Bytes::from_static(b""),
        },
        limit: 0,
        revision: 0,
        order: SortOrder::Unsorted,
        target: SortTarget::ByKey,
        serializable: true,
        keys_only: false,
        count_only: false,
        min_mod: 0,
        max_mod: 0,
        min_create: 0,
        max_create: 0,
    }
}

/// The revision that a reader enters at, and how many live keys it finds; nothing where it does
/// not.
fn seen(alloc: Global, reader: &mut SnapReader) -> (u64, u64) {
    let Ok(reading) = reader.read() else {
        return (0, 0);
    };
    match reading.range(alloc, &query()) {
        Ok(reply) => (reply.revision, reply.count),
        Err(_) => (0, 0),
    }
}

/// The tables that a new feed lends, with the put.
fn with_put(alloc: Global, lent: Lent) -> Option<Lent>
    requires tables { lent.tables ≡ blank }
    requires ops { lent.ops ≡ [] }
    ensures tables { IfSome result (λ l. l.tables ≡ store_of first_ops) }
    ensures ops { IfSome result (λ l. l.ops ≡ first_ops) }
{
    let Lent {
        mut tables,
        mut ops,
    } = lent;
    let versions = put(alloc).ok()?;
    if !tables.takes(&versions) {
        return None;
    }
    tables.append(&versions).ok()?;
    ops.append(Op::Batch(versions)).ok()?;
    Some(Lent { tables, ops })
}

/// Shows the put, and tells what a reader sees before it is shown, within the tables that it had
/// entered, and when it enters again.
#[tactic(auto, using(crate::proofs::OnePut::put_is_told, crate::proofs::OnePut::put_is_shown))]
fn put_and_read<R: Wait>(
    rt: &R,
    alloc: Global,
    feed: &mut Feed,
    reader: &mut SnapReader,
    front: &Front,
) -> Option<[(u64, u64); 3]>
    requires feed { feed.old ≡ unused front.now.book }
    requires front { front.now.list ≡ first_event ∷ [] }
{
    let lent = with_put(alloc, feed.lend(rt)?)?;
    let before = seen(alloc, reader);
    if reader.enter().is_err() {
        return None;
    }
    feed.show(rt, lent, front);
    let within = match reader.range(alloc, &query()) {
        Ok(reply) => (reply.revision, reply.count),
        Err(_) => (0, 0),
    };
    Some([before, within, seen(alloc, reader)])
}

fn run_put<R: Wait>(rt: &R, alloc: Global) -> Option<[(u64, u64); 3]> {
    let (book, first) = open();
    let front = front_of_put(&book, &first)?;
    let mut feed = Feed::new(alloc, rt, &first).ok()?;
    let Ok(mut reader) = feed.reader() else {
        return None;
    };
    let read = put_and_read(rt, alloc, &mut feed, &mut reader, &front);
    drop(reader);
    feed.close(rt);
    read
}

#[test]
fn a_reader_shows_what_was_published_once_it_enters_again(rt: HostRuntime) {
    assert_eq!(rt; run_put(&rt, rt.alloc()), Some([(1, 0), (1, 0), (2, 1)]));
}

/// How many readers there may be at a time, and whether there may be one more once one has gone.
fn readers(alloc: Global, feed: &mut Feed) -> (usize, bool) {
    let mut list = Vec::new(alloc);
    for _ in 0..66 {
        if let Ok(reader) = feed.reader() {
            let _ = list.push(reader);
        }
    }
    let most = list.len();
    drop(list.pop());
    (most, feed.reader().is_ok())
}

fn run_readers<R: Wait>(rt: &R, alloc: Global) -> (usize, bool) {
    let Ok(mut feed) = Feed::new(alloc, rt, &Opening::new().front()) else {
        return (0, false);
    };
    let found = readers(alloc, &mut feed);
    feed.close(rt);
    found
}

#[test]
fn there_are_64_readers_and_a_dropped_one_gives_its_place_back(rt: HostRuntime) {
    assert_eq!(rt; run_readers(&rt, rt.alloc()), (64, true));
}
