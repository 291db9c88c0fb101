//! Ranges of which no key is live any more, as the answers of a transaction are read.
ghost use Rattle.std.specs.Prelude.{◌≡◌, ◌+◌, ◌<◌, ◌^◌, ◌++◌, ◌∷◌, [], ℕ, List, map, true, false};
ghost use Rattle.std.specs.Prelude.{None, IfOk, OnOk, MatchOption, ⊤};
ghost use Rattle.kv_model.specs.declared.version.Version.{Version};
ghost use Rattle.kv_model.specs.History as history;
ghost use Rattle.kv_model.specs.Keys.{in_range};
ghost use Rattle.kv_model.specs.Ranges.{live};
ghost use Rattle.kv_model.specs.Txns.{Touch};
ghost use Rattle.kv_model.specs.Txns as txns;
ghost use Rattle.range_view.specs.Replies.{kv_view};
ghost use Rattle.txn_core.specs.Emptied.{AreEmptied, PutsNone, put_from, put_keys};
ghost use Rattle.swept_ranges.specs.Swept as spans;
ghost use Rattle.txn_core.specs.Touching.{count_touched, keys_put};
ghost use Rattle.txn_core.specs.Views.{touch_view, keys_view, AreSorted};

use crate::keys::{count_within, sorted_keys};
use crate::reply::place_before;
use crate::touched::Touched;
use bytes::Bytes;
use kv_model::version::{Body, KeyRange, Version};
use range_view::reply::KvRef;
use range_view::{Tables, View};
use std::alloc::{AllocError, Global};

/// What is known of the ranges that the operations so far have deleted.
#[derive(Drop)]
pub(crate) struct Emptied<'a, 't> {
    /// The keys that the revision puts, in order, once they were asked for.
    puts: Option<Vec<&'a Bytes>>,
    /// Those of which no key is live up to the end of the revision.
    ranges: Vec<&'t KeyRange>,
    /// The one that was deleted last.
    last: Option<&'t KeyRange>,
}

/// None so far.
pub(crate) fn none_emptied<'a, 't>(alloc: Global) -> Emptied<'a, 't>
    ensures { (vs : List Version) (main sub : ℕ) → AreEmptied vs main sub result }
{
    Emptied {
        puts: None,
        ranges: Vec::new(alloc),
        last: None,
    }
}

/// The key-values of the live keys of a range at the view's place, where nothing is seen there of
/// the ranges that are emptied: these are not walked. `AllocError` comes where a list found no
/// memory.
pub(crate) fn live_left<'a, 't>(
    alloc: Global,
    view: &View<'a>,
    emptied: &Emptied<'a, 't>,
    range: &'t KeyRange,
) -> Result<Vec<KvRef<'a>>, AllocError>
    requires { (k : List ℕ) → spans.covers emptied.now.ranges.items k ≡ true
        → history.value_at view.now.versions view.now.place k ≡ None }
    ensures { IfOk result (λ kvs. map kv_view kvs.items
        ≡ live view.now.versions view.now.place range.now) }
{
    let kvs = swept_ranges::live_beside(alloc, view, &emptied.ranges, range)?;
    Ok(kvs)
}

/// Sees whether the range that was deleted last, before so many changes, stays empty up to the end
/// of the revision: where none of its keys is live, nor put by any change.
///
/// `AllocError` comes where a list found no memory. It walks the keys of the range that lie in no
/// other that is emptied; the first time, it sorts the keys that the revision puts.
pub(crate) fn settle<'a, 't>(
    alloc: Global,
    tables: &'a Tables,
    before: u64,
    sub: u64,
    emptied: &mut Emptied<'a, 't>,
) -> Result<(), AllocError>
    requires room { before + 1 < 2 ^ 64 }
    requires emptied { AreEmptied tables.now.versions (before + 1) sub emptied.old }
    ensures { OnOk result (AreEmptied tables.now.versions (before + 1) sub emptied.new) }
{
    let Some(range) = emptied.last else {
        return Ok(());
    };
    if sub == 0 {
        return Ok(());
    }
    if holds_some(alloc, tables, before, sub, emptied, range)? {
        return Ok(());
    }
    learn_puts(alloc, tables, before + 1, emptied)?;
    if !is_free(emptied, range) {
        return Ok(());
    }
    swept_ranges::add(&mut emptied.ranges, range)?;
    Ok(())
}

/// Notes the range of a delete, to be looked at before the next one.
pub(crate) fn note<'a, 't>(emptied: &mut Emptied<'a, 't>, range: &'t KeyRange)
    ensures { (vs : List Version) (main sub : ℕ) → AreEmptied vs main sub emptied.old
        → AreEmptied vs main sub emptied.new }
{
    if range.end.is_empty() {
        return;
    }
    emptied.last = Some(range);
}

/// Whether a key of the range is live before the change of a number.
fn holds_some<'a, 't>(
    alloc: Global,
    tables: &'a Tables,
    before: u64,
    sub: u64,
    emptied: &Emptied<'a, 't>,
    range: &'t KeyRange,
) -> Result<bool, AllocError>
    requires room { before + 1 < 2 ^ 64 }
    requires emptied { AreEmptied tables.now.versions (before + 1) sub emptied.now }
    ensures { IfOk result (λ b. b ≡ false → (k : List ℕ) → in_range range.now k ≡ true
        → history.value_at tables.now.versions (txns.place_before (before + 1) sub) k ≡ None) }
{
    let view = tables.view_before(before, place_before(before, sub));
    let kvs = live_left(alloc, &view, emptied, range)?;
    Ok(!kvs.as_slice().is_empty())
}

/// Lists the keys that the revision puts, the first time.
fn learn_puts<'a, 't>(
    alloc: Global,
    tables: &'a Tables,
    main: u64,
    emptied: &mut Emptied<'a, 't>,
) -> Result<(), AllocError>
    ensures { OnOk result ((sub : ℕ) → AreEmptied tables.now.versions main sub emptied.old
        → AreEmptied tables.now.versions main sub emptied.new) }
{
    if emptied.puts.is_some() {
        return Ok(());
    }
    let puts = puts_of(alloc, tables, main)?;
    emptied.puts = Some(puts);
    Ok(())
}

/// Whether it is known that the revision puts no key of the range.
fn is_free(emptied: &Emptied<'_, '_>, range: &KeyRange) -> bool
    requires { MatchOption emptied.now.puts ⊤ (λ ks. AreSorted ks.items) }
    ensures { (vs : List Version) (main sub : ℕ) → AreEmptied vs main sub emptied.now
        → result ≡ true → PutsNone vs main range.now }
{
    match &emptied.puts {
        Some(puts) => count_within(puts, range) == 0,
        None => false,
    }
}

/// The keys that the versions from a revision on put, in order.
fn puts_of<'a>(alloc: Global, tables: &'a Tables, main: u64) -> Result<Vec<&'a Bytes>, AllocError>
    ensures counts { IfOk result (λ v. (t : Touch) → count_touched t (keys_view v.items)
        ≡ count_touched t (put_from main tables.now.versions)) }
    ensures sorted { IfOk result (λ v. AreSorted v.items) }
{
    let touched = touched_from(alloc, tables, main)?;
    sorted_keys(alloc, &touched)
}

/// What the versions from a revision on put.
fn touched_from<'a>(
    alloc: Global,
    tables: &'a Tables,
    main: u64,
) -> Result<Vec<Touched<'a>>, AllocError>
    ensures { IfOk result (λ v. keys_put (map touch_view v.items)
        ≡ put_from main tables.now.versions) }
{
    let mut touched = Vec::new(alloc);
    let mut versions = tables.versions_from(main);
    while let Some(version) = versions.next() {
        push_put(&mut touched, version)?;
    }
    Ok(touched)
}

/// Adds the key of a version that is a put.
fn push_put<'a>(out: &mut Vec<Touched<'a>>, version: &'a Version) -> Result<(), AllocError>
    ensures { OnOk result (keys_put (map touch_view out.new.items)
        ≡ keys_put (map touch_view out.old.items) ++ put_keys (version.now ∷ [])) }
{
    match &version.body {
        Body::Put { .. } => out.push(Touched::Put(&version.key))?,
        Body::Gone => {}
    }
    Ok(())
}
