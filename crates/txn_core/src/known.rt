//! What the answers to the operations of a transaction leave for those that follow.
ghost use Rattle.std.specs.Prelude.{◌≡◌, ◌+◌, ◌<◌, ◌≤◌, ◌^◌, ℕ, IfOk, OnOk, MatchOption, None, ⊤};
ghost use Rattle.std.specs.Prelude.{true, false, filter, map, nat_le};
ghost use Rattle.std.specs.List.{list_all, list_any};
ghost use Rattle.kv_model.specs.Keys.{in_range};
ghost use Rattle.kv_model.specs.Ranges as ranges;
ghost use Rattle.range_view.specs.Replies.{reply_view};
ghost use Rattle.range_view.specs.Stored.{Stored};
ghost use Rattle.txn_core.specs.Known.{AreKnown, AreNumbered, MayBeChanges, strays};

use crate::emptied::{Emptied, live_left, none_emptied};
use crate::reply::place_before;
use bytes::Bytes;
use kv_model::call::{PutRequest, RangeQuery};
use kv_model::version::{KeyRange, Version};
use live_keys::LiveKeys;
use range_view::Tables;
use range_view::reply::RangeReply;
use std::alloc::{AllocError, Global};

/// How many operations that change keys are noted in a list of the live keys before the next Range.
const MOST_UNREAD: usize = 64;

/// What is known before an operation of a transaction that ran.
#[derive(Drop)]
pub(crate) struct Known<'a, 't> {
    /// The ranges that were deleted before it.
    pub(crate) emptied: Emptied<'a, 't>,
    /// The live keys that it finds.
    pub(crate) keys: LiveKeys<'a>,
    /// What the revision changes, in the order of the numbers, once it was asked for.
    changes: Option<Vec<&'a Version>>,
    /// How many operations have changed keys since the last Range.
    unread: usize,
}

/// What is known before the first change of the revision after one. Takes no memory.
pub(crate) fn nothing_known<'a, 't>(alloc: Global, tables: &'a Tables, before: u64) -> Known<'a, 't>
    requires { before + 1 < 2 ^ 64 }
    ensures { AreKnown tables.now before 0 result }
{
    Known {
        emptied: none_emptied(alloc),
        keys: LiveKeys::new(tables.view_before(before, place_before(before, 0))),
        changes: None,
        unread: 0,
    }
}

/// The answer to a Range that is not refused. `AllocError` comes where a list found no memory.
pub(crate) fn range_reply<'a>(
    alloc: Global,
    query: &RangeQuery,
    known: &mut Known<'a, '_>,
) -> Result<RangeReply<'a>, AllocError>
    requires { ranges.revision_refusal known.old.keys.compacted known.old.keys.revision
        query.now.revision ≡ None }
    ensures reply { IfOk result (λ r. reply_view r ≡ ranges.range_reply known.old.keys.versions
        known.old.keys.revision known.old.keys.place query.now) }
    ensures known { (s : Stored) (before sub : ℕ) → AreKnown s before sub known.old
        → AreKnown s before sub known.new }
{
    known.unread = 0;
    known.keys.range(alloc, query)
}

/// Goes on behind a put that stood behind so many changes.
///
/// `AllocError` comes where what its key holds, or a list of the changes, found no memory. Where the
/// live keys are not listed it takes no memory, and constant time.
pub(crate) fn pass_put<'a, 't>(
    alloc: Global,
    tables: &'a Tables,
    before: u64,
    sub: u64,
    put: &PutRequest,
    known: &mut Known<'a, 't>,
) -> Result<(), AllocError>
    requires room { before + 1 < 2 ^ 64 }
    requires next { sub + 1 < 2 ^ 64 }
    requires known { AreKnown tables.now before sub known.old }
    ensures { OnOk result (AreKnown tables.now before (sub + 1) known.new) }
{
    if !is_noted(known) {
        let next = tables.view_before(before, place_before(before, sub + 1));
        known.keys.skip(next);
        return Ok(());
    }
    let range = KeyRange {
        key: put.key.clone()?,
        end: Bytes::new(),
    };
    pass(alloc, tables, before, sub, sub + 1, &range, known)
}

/// Whether what an operation changes is noted in a list of the live keys.
fn is_noted(known: &Known<'_, '_>) -> bool {
    known.keys.is_listed() && known.unread < MOST_UNREAD
}

/// Goes on behind an operation that made the changes from a number on, up to another, of keys of a
/// range alone.
///
/// `AllocError` comes where what the keys of the range then hold, or a list of the changes, found no
/// memory. Where the live keys are not listed it takes no memory, and constant time.
pub(crate) fn pass<'a, 't>(
    alloc: Global,
    tables: &'a Tables,
    before: u64,
    sub: u64,
    next: u64,
    range: &KeyRange,
    known: &mut Known<'a, 't>,
) -> Result<(), AllocError>
    requires room { before + 1 < 2 ^ 64 }
    requires order { sub ≤ next }
    requires known { AreKnown tables.now before sub known.old }
    ensures { OnOk result (AreKnown tables.now before next known.new) }
{
    if next == sub {
        return Ok(());
    }
    let view = tables.view_before(before, place_before(before, next));
    if sub == 0 || !is_noted(known) {
        known.keys.skip(view);
        return Ok(());
    }
    learn_changes(alloc, tables, before, known)?;
    if !are_within(known, sub, next, range) {
        known.keys.skip(view);
        return Ok(());
    }
    known.unread = known.unread.saturating_add(1);
    let kvs = live_left(alloc, &view, &known.emptied, range)?;
    known.keys.replace(view, range, kvs);
    Ok(())
}

/// Lists the changes of the revision after one, the first time.
fn learn_changes<'a, 't>(
    alloc: Global,
    tables: &'a Tables,
    before: u64,
    known: &mut Known<'a, 't>,
) -> Result<(), AllocError>
    requires { before + 1 < 2 ^ 64 }
    ensures { OnOk result ((sub : ℕ) → AreKnown tables.now before sub known.old
        → AreKnown tables.now before sub known.new) }
{
    if known.changes.is_some() {
        return Ok(());
    }
    let changes = changes_from(alloc, tables, before + 1)?;
    known.changes = changes;
    Ok(())
}

/// The versions from a revision on, where they are numbered from 0 on without a gap.
fn changes_from<'a>(
    alloc: Global,
    tables: &'a Tables,
    main: u64,
) -> Result<Option<Vec<&'a Version>>, AllocError>
    ensures { IfOk result (λ o. MayBeChanges tables.now.versions main o) }
{
    let mut changes = Vec::new(alloc);
    let mut versions = tables.versions_from(main);
    while let Some(version) = versions.next() {
        if version.rev.sub != changes.len() as u64 {
            return Ok(None);
        }
        changes.push(version)?;
    }
    Ok(Some(changes))
}

/// Whether it is known that the changes from a number on, up to another, are of keys of the range.
fn are_within(known: &Known<'_, '_>, sub: u64, next: u64, range: &KeyRange) -> bool
    requires order { sub ≤ next }
    requires changes { MatchOption known.now.changes ⊤ (λ v. AreNumbered 0 v.items) }
    ensures { (s : Stored) (before at : ℕ) → AreKnown s before at known.now → result ≡ true
        → list_any (strays range.now sub next)
        (filter (λ v. nat_le (before + 1) v.rev.main) s.versions) ≡ false }
{
    match &known.changes {
        Some(changes) => !strays_some(changes, sub, next, range),
        None => false,
    }
}

/// Whether a change from a number on, up to another, is not there or of a key that the range has
/// not.
fn strays_some(changes: &[&Version], sub: u64, next: u64, range: &KeyRange) -> bool
    requires order { sub ≤ next }
    requires changes { AreNumbered 0 changes.now }
    ensures { result ≡ false → list_any (strays range.now sub next)
        (map (λ v. v.now) changes.now) ≡ false }
{
    if next > changes.len() as u64 {
        return true;
    }
    !are_all_in(&changes[sub as usize..next as usize], range)
}

/// Whether all of the versions are of keys of the range.
fn are_all_in(changes: &[&Version], range: &KeyRange) -> bool
    ensures { result ≡ list_all (λ v. in_range range.now v.now.key) changes.now }
{
    changes.iter().all(|version| range.contains(&version.key))
}
