//! One part of a Range.
ghost use Rattle.std.specs.Prelude.{◌≡◌, ℕ, ◌<◌, ◌≤◌, ◌^◌, ◌++◌, pos, List, true, false, Some, IfOk};
ghost use mathlib.Core.List.{IsPrefix};
ghost use Rattle.kv_model.specs.declared.ids.Ids.{Ids};
ghost use Rattle.kv_model.specs.declared.call.RangeQuery.{RangeQuery as RangeQueryOf};
ghost use Rattle.kv_model.specs.Keys.{same_key, zero_byte};
ghost use Rattle.kv_model.specs.History.{KeyValue};
ghost use Rattle.kv_model.specs.Lists.{is_empty};
ghost use Rattle.kv_model.specs.World.{World, revision as revision_of};
ghost use Rattle.store_laws.specs.Changes.{untrimmed};
ghost use Rattle.snapshot_feed.specs.Answers.{AnswersOf};
ghost use Rattle.event_book.specs.Events.{Entry, led_to};
ghost use Rattle.snapshot_feed.specs.Showing.{IsShown};
ghost use Rattle.engine_lock.specs.Locked.{left};
ghost use Rattle.long_ranges.specs.Laws as laws;
ghost use Rattle.long_ranges.specs.Parts as parts;

use crate::begin::part_of;
use crate::gathered::{Gathered, Unparted, gather};
use bytes::Bytes;
use engine_lock::{Client, EngineName};
use json_gateway::Refusal;
use kv_model::call::RangeQuery;
use kv_model::version::KeyRange;
use range_view::RangeReply;
use std::alloc::{AllocError, Global};
use std::thread::yield_now;

/// A Range of more keys than these is read in parts of so many.
const MOST_KEYS: usize = 128;

/// Whether a client's reading shows a range of so many keys that it is read in parts: more than 128, live
/// or not. Takes no memory, and the time of a walk over 128 keys.
pub fn is_long<L: EngineName>(client: &Client<L>, query: &RangeQuery) -> bool {
    client.nth_key(&query.range, MOST_KEYS).is_some()
}

/// What was gathered, and what is left of a range.
#[derive(Drop)]
pub(crate) struct Read {
    pub(crate) gathered: Gathered,
    pub(crate) rest: Option<KeyRange>,
}

/// Reads the next part of what is left of a Range, at a revision, in a reading of its own.
pub(crate) fn read_part<L: EngineName>(
    alloc: Global,
    client: &mut Client<L>,
    query: &RangeQuery,
    revision: u64,
    rest: KeyRange,
    gathered: Gathered,
) -> Result<Read, Unparted>
    requires some { 0 < revision }
    requires fits { revision < 2 ^ 63 }
    requires several { is_empty rest.end ≡ false }
    ensures reads { (front : List Entry) → IsPrefix front client.old.reader.known
        → revision ≤ revision_of (led_to front) → (ids : Ids) → (now count : ℕ) → (seen : List KeyValue)
        → parts.IsGathered ids now count query.now seen gathered
        → IfOk result (λ r. parts.Reads front revision rest
        (λ later. parts.IsGathered ids now count query.now later r.gathered) seen r.rest) }
    ensures several { IfOk result (λ r. parts.IsOfSeveral r.rest) }
    ensures begins { IsPrefix client.old.reader.known client.new.reader.known }
    ensures client { client.new ≡ left (record client.old { reader = client.new.reader }) }
    ensures book { client.new.reader.book ≡ client.old.reader.book }
{
    if client.enter().is_err() {
        return Err(Unparted::Whole);
    }
    let read = read_within(alloc, client, query, revision, rest, gathered);
    client.leave();
    // A thread that loses its core within a reading has writers wait: so it gives way here.
    yield_now();
    read
}

/// The same, of what the client's reading shows.
fn read_within<L: EngineName>(
    alloc: Global,
    client: &Client<L>,
    query: &RangeQuery,
    revision: u64,
    rest: KeyRange,
    gathered: Gathered,
) -> Result<Read, Unparted>
    requires inside { client.now.reader.inside ≡ true }
    requires shown { IsShown client.now.reader.known }
    requires some { 0 < revision }
    requires fits { revision < 2 ^ 63 }
    requires several { is_empty rest.end ≡ false }
    ensures several { IfOk result (λ r. parts.IsOfSeveral r.rest) }
    ensures reads { (front : List Entry) → IsPrefix front client.now.reader.known
        → revision ≤ revision_of (led_to front) → (ids : Ids) → (now count : ℕ) → (seen : List KeyValue)
        → parts.IsGathered ids now count query.now seen gathered
        → IfOk result (λ r. parts.Reads front revision rest
        (λ later. parts.IsGathered ids now count query.now later r.gathered) seen r.rest) }
{
    let Cut { part, rest } = match next_part(client, rest) {
        Ok(cut) => cut,
        Err(AllocError) => return Err(Unparted::Memory),
    };
    let part = part_of(query, part, signed(revision), gathered.counts());
    let gathered = with_answer(gathered, client.range(alloc, &part))?;
    Ok(Read { gathered, rest })
}

/// A revision, as a request has it.
fn signed(revision: u64) -> i64
    requires { revision < 2 ^ 63 }
    ensures { result ≡ pos revision }
{
    revision as i64
}

/// Gathers what the answer to a part shows.
fn with_answer(
    gathered: Gathered,
    answer: Result<RangeReply<'_>, Refusal>,
) -> Result<Gathered, Unparted>
    ensures { (w : World) → (asked : RangeQueryOf) → (q : RangeQueryOf) → (part : List KeyValue)
        → AnswersOf (untrimmed w) asked answer.entry → parts.IsShownBy w asked gathered q part
        → (ids : Ids) → (now count : ℕ) → (seen : List KeyValue)
        → parts.IsGathered ids now count q seen gathered
        → IfOk result (parts.IsGathered ids now count q (seen ++ part)) }
{
    match answer {
        Ok(reply) => gather(gathered, &reply),
        Err(Refusal::Memory) => Err(Unparted::Memory),
        Err(_) => Err(Unparted::Whole),
    }
}

/// A part of a range, and what is left behind it.
#[derive(Drop)]
struct Cut {
    part: KeyRange,
    rest: Option<KeyRange>,
}

/// The next part of a range: the first 128 of its keys, or all where it has no more.
fn next_part<L: EngineName>(client: &Client<L>, rest: KeyRange) -> Result<Cut, AllocError>
    ensures { IfOk result (λ c. parts.IsCutInto rest c.part c.rest) }
{
    match client.nth_key(&rest, MOST_KEYS) {
        Some(key) if is_bound(key) => {
            let end = key.clone()?;
            let key = key.clone()?;
            Ok(cut_at(rest, key, end))
        }
        _ => Ok(Cut {
            part: rest,
            rest: None,
        }),
    }
}

/// The parts of a range below a key and from it on.
fn cut_at(range: KeyRange, key: Bytes, end: Bytes) -> Cut
    requires { key ≡ end }
    ensures part { result.part ≡ laws.below range end }
    ensures rest { result.rest ≡ Some (laws.from range key) }
{
    let KeyRange {
        key: first,
        end: last,
    } = range;
    Cut {
        part: KeyRange { key: first, end },
        rest: Some(KeyRange { key, end: last }),
    }
}

/// Whether ranges can end and begin at a key: no key without a byte ends one, and the byte 0 ends none.
fn is_bound(key: &Bytes) -> bool
    ensures { result ≡ true → (is_empty key.now ≡ false) × (same_key key.now zero_byte ≡ false) }
{
    if key.is_empty() {
        return false;
    }
    key.as_slice() != [0].as_slice()
}
