//! A message to a watch: whole revisions from the front (the etcd documentation's WatchResponse).
ghost use Rattle.std.specs.Prelude.{◌≡◌, ◌++◌, filter, map, nat_le, IfOk, OnOk};
ghost use Rattle.kv_model.specs.Watches.{event_of};
ghost use Rattle.kv_model.specs.Watches.{last_revision};
ghost use Rattle.version_table.specs.Rising.{IsRising};
ghost use Rattle.watch_hub.specs.Delivering.{message_from};
ghost use Rattle.watch_hub.specs.Messages.{event_view, first_tally, tallied, with_room};

use crate::tally::Tally;
use crate::walk::Walk;
use kv_model::call::Watched;
use kv_model::version::Version;
use range_view::Tables;
use range_view::reply::KvRef;
use range_view::revision::end_of;
use std::alloc::{AllocError, Global};

/// What a watch is told of one version (the etcd documentation's Event). It lends from what is
/// kept.
#[derive(Clone, Copy, Debug)]
pub struct Event<'a> {
    /// The put, or the tombstone.
    pub version: &'a Version,
    /// What the key held before the version's revision, where that is asked for and the revision is
    /// not compacted.
    pub previous: Option<KvRef<'a>>,
}

/// The last revision of a message that begins with an event of a revision, and goes on with what is
/// left of a walk. It ends at the first version that the message has no room for.
fn last_behind(first: u64, walk: &mut Walk<'_>) -> u64
    ensures { result ≡ tallied (first_tally first) walk.old }
{
    let mut tally = Tally::first(first);
    while let Some(version) = walk.next() {
        let main = version.rev.main;
        if !tally.has_room(main) {
            return tally.cut_at(main);
        }
        tally.add(main);
    }
    tally.current()
}

/// The last revision of the message of what is left of a walk, 0 where nothing is. Takes no memory.
///
/// The walk ends at the first version that the message has no room for.
pub(crate) fn last_revision(walk: Walk<'_>) -> u64
    requires { IsRising walk }
    ensures { result ≡ last_revision walk.entry }
{
    let mut walk = walk;
    match walk.next() {
        Some(first) => last_behind(first.rev.main, &mut walk),
        None => 0,
    }
}

/// Adds what is left of a walk to a list, behind an event of a revision, up to the first version
/// that the message has no room for, and tells the last revision of the message.
fn collect_behind<'a>(
    first: u64,
    walk: &mut Walk<'a>,
    found: &mut Vec<&'a Version>,
) -> Result<u64, AllocError>
    ensures last { IfOk result (λ last. last ≡ tallied (first_tally first) walk.old) }
    ensures found { OnOk result (map (λ v. v.now) found.new.items
        ≡ map (λ v. v.now) found.old.items ++ with_room (first_tally first) walk.old) }
{
    let mut tally = Tally::first(first);
    while let Some(version) = walk.next() {
        let main = version.rev.main;
        if !tally.has_room(main) {
            return Ok(tally.cut_at(main));
        }
        tally.add(main);
        found.push(version)?;
    }
    Ok(tally.current())
}

/// The versions of the message of what is left of a walk.
fn versions_of<'a>(alloc: Global, walk: Walk<'a>) -> Result<Vec<&'a Version>, AllocError>
    requires { IsRising walk }
    ensures { IfOk result (λ us. map (λ u. u.now) us.items
        ≡ filter (λ u. nat_le u.rev.main (last_revision walk.entry)) walk.entry) }
{
    let mut walk = walk;
    let mut found = Vec::new(alloc);
    if let Some(first) = walk.next() {
        found.push(first)?;
        let last = collect_behind(first.rev.main, &mut walk, &mut found)?;
        found.retain(|version| version.rev.main <= last);
    }
    Ok(found)
}

/// What a watch is told of a version that is kept. Takes no memory.
fn event_of<'a>(tables: &'a Tables, watched: &Watched, version: &'a Version) -> Event<'a>
    ensures { event_view result
        ≡ event_of tables.now.versions tables.now.compacted watched.now version.now }
{
    let main = version.rev.main;
    let previous = if tables.compacted() <= main && watched.prev_kv {
        let before = main.saturating_sub(1);
        tables.view_at(end_of(before)).get(&version.key)
    } else {
        None
    };
    Event { version, previous }
}

/// What a watch is told of versions that are kept.
fn events_of<'a>(
    alloc: Global,
    tables: &'a Tables,
    watched: &Watched,
    versions: &[&'a Version],
) -> Result<Vec<Event<'a>>, AllocError>
    ensures { IfOk result (λ es. map event_view es.items
        ≡ map (event_of tables.now.versions tables.now.compacted watched.now)
        (map (λ v. v.now) versions.now)) }
{
    let mut events = Vec::with_capacity(alloc, versions.len())?;
    for version in versions {
        events.push(event_of(tables, watched, version))?;
    }
    Ok(events)
}

/// The events of the message of what is left of a walk.
///
/// The error is want of memory.
pub(crate) fn message<'a>(
    alloc: Global,
    tables: &'a Tables,
    watched: &Watched,
    walk: Walk<'a>,
) -> Result<Vec<Event<'a>>, AllocError>
    requires { IsRising walk }
    ensures { IfOk result (λ es. map event_view es.items
        ≡ message_from tables.now.versions tables.now.compacted watched.now walk.entry) }
{
    let versions = versions_of(alloc, walk)?;
    events_of(alloc, tables, watched, &versions)
}
