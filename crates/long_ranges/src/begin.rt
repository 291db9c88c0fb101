//! How a Range begins that is read in parts.
ghost use Rattle.std.specs.Prelude.{◌≡◌, ◌<◌, ◌^◌, None, IfOk, true};
ghost use mathlib.Core.List.{IsPrefix};
ghost use Rattle.kv_model.specs.declared.call.RangeQuery.{RangeQuery as RangeQueryOf};
ghost use Rattle.kv_model.specs.Keys.{one_key};
ghost use Rattle.kv_model.specs.Ranges.{range_refusal};
ghost use Rattle.kv_model.specs.World.{World, revision};
ghost use Rattle.store_laws.specs.Changes.{untrimmed};
ghost use Rattle.snapshot_feed.specs.Answers.{AnswersOf};
ghost use Rattle.engine_lock.specs.Locked.{left};
ghost use Rattle.long_ranges.specs.Parts as parts;

use crate::gathered::Unparted;
use bytes::Bytes;
use engine_lock::{Client, EngineName};
use json_gateway::Refusal;
use kv_model::call::{RangeQuery, SortOrder, SortTarget};
use kv_model::version::KeyRange;
use range_view::RangeReply;
use std::alloc::{AllocError, Global};

/// A Range that has begun to be read in parts.
#[derive(Clone, Copy)]
pub(crate) struct Begun {
    /// The present revision where it began, which its answer shows.
    pub(crate) now: u64,
    /// The revision at the end of which it reads.
    pub(crate) revision: u64,
}

/// Whether a Range may be read in parts: it asks for all that it has, or that passes its filters, in the
/// order of the keys, and is not of one key. Constant time.
pub fn may_be_parted(query: &RangeQuery) -> bool
    ensures { result ≡ true → parts.IsOfMany query.now }
{
    if query.range.end.is_empty() || query.count_only || query.limit > 0 {
        return false;
    }
    query.target == SortTarget::ByKey && query.order != SortOrder::Descend
}

/// Begins a Range: sees at which revision it reads, and that it is not refused there.
pub(crate) fn begin<L: EngineName>(
    alloc: Global,
    client: &mut Client<L>,
    query: &RangeQuery,
) -> Result<Begun, Unparted>
    ensures begun { IfOk result (parts.HasBegun client.new.reader.known query.now) }
    ensures begins { IsPrefix client.old.reader.known client.new.reader.known }
    ensures client { client.new ≡ left (record client.old { reader = client.new.reader }) }
    ensures book { client.new.reader.book ≡ client.old.reader.book }
{
    if !may_be_parted(query) || client.enter().is_err() {
        client.leave();
        return Err(Unparted::Whole);
    }
    let begun = begin_within(alloc, client, query);
    client.leave();
    begun
}

/// The same, of what the client's reading shows.
fn begin_within<L: EngineName>(
    alloc: Global,
    client: &Client<L>,
    query: &RangeQuery,
) -> Result<Begun, Unparted>
    requires inside { client.now.reader.inside ≡ true }
    requires many { parts.IsOfMany query.now }
    ensures { IfOk result (parts.HasBegun client.now.reader.known query.now) }
{
    let Ok(one) = first_key(query) else {
        return Err(Unparted::Memory);
    };
    let one = part_of(query, one, query.revision, true);
    let now = present(client.range(alloc, &one))?;
    begun_at(query, now)
}

/// The revision that an answer shows.
fn present(answer: Result<RangeReply<'_>, Refusal>) -> Result<u64, Unparted>
    ensures { (w : World) → (q : RangeQueryOf) → AnswersOf (untrimmed w) q answer.entry
        → IfOk result (λ now. (now ≡ revision w)
        × (range_refusal w.compacted (revision w) q ≡ None)) }
{
    match answer {
        Ok(reply) => Ok(shown(&reply)),
        Err(Refusal::Memory) => Err(Unparted::Memory),
        Err(_) => Err(Unparted::Whole),
    }
}

/// The revision that a reply shows.
fn shown(reply: &RangeReply<'_>) -> u64
    ensures { result ≡ reply.now.revision }
{
    reply.revision
}

/// The range of the first key of a range alone.
fn first_key(query: &RangeQuery) -> Result<KeyRange, AllocError>
    ensures { IfOk result (λ r. r ≡ one_key query.now.range.key) }
{
    Ok(KeyRange {
        key: query.range.key.clone()?,
        end: Bytes::new(),
    })
}

/// A Range that begins where this is the present revision.
fn begun_at(query: &RangeQuery, now: u64) -> Result<Begun, Unparted>
    ensures now { IfOk result (λ b. b.now ≡ now) }
    ensures asked { IfOk result (parts.IsAskedFor query.now.revision now) }
    ensures some { IfOk result (λ b. 0 < b.revision) }
    ensures fits { IfOk result (λ b. b.revision < 2 ^ 63) }
{
    if query.revision > 0 {
        return Ok(Begun {
            now,
            revision: query.revision as u64,
        });
    }
    if now == 0 || now > i64::MAX as u64 {
        return Err(Unparted::Whole);
    }
    Ok(Begun { now, revision: now })
}

/// A part of a Range, at a revision: its number of live keys alone, or what they hold too.
pub(crate) fn part_of(
    query: &RangeQuery,
    range: KeyRange,
    revision: i64,
    count_only: bool,
) -> RangeQuery
    ensures { result ≡ parts.part_of query.now range revision count_only }
{
    RangeQuery {
        range,
        limit: 0,
        revision,
        order: SortOrder::Unsorted,
        target: SortTarget::ByKey,
        serializable: query.serializable,
        keys_only: query.keys_only,
        count_only,
        min_mod: query.min_mod,
        max_mod: query.max_mod,
        min_create: query.min_create,
        max_create: query.max_create,
    }
}
