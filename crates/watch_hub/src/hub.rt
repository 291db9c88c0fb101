//! The watches of a store (etcd: Watch).
ghost use Rattle.std.specs.Prelude.{◌≡◌, ◌⊎◌, ◌+◌, ◌<◌, ◌≤◌, Some, None, [], map, is_ok, is_some};
ghost use Rattle.std.specs.Prelude.{option_map, IfOk, IfErr, OnOk, OnErr};
ghost use Rattle.kv_model.specs.declared.refusal.Refusal.TheVariants.{Memory, NoWatch};
ghost use Rattle.kv_model.specs.Lists.{is_empty};
ghost use Rattle.store_laws.specs.Stands.{noted};
ghost use Rattle.kv_model.specs.Step.{last_main, start_of, watched_range};
ghost use Rattle.store_laws.specs.Stores.{refusal_of_watch, tracked_made};
ghost use Rattle.watch_hub.specs.Hub.{advanced_to, entry_made, pending_of, store_with, tracked_at};
ghost use Rattle.watch_hub.specs.Hub.{with_watch, without_tracked, NumbersAscend};
ghost use Rattle.watch_hub.specs.Entries.{tracked_of};
ghost use Rattle.watch_hub.specs.Views.{pending_view};

use crate::entries::{Entries, copy_of};
use crate::entry::Entry;
use crate::matching::ahead_of;
use crate::walk::first_from;
use bytes::Bytes;
use kv_model::call::Watched;
use kv_model::refusal::Refusal;
use kv_model::version::Version;
use range_view::Tables;
use std::alloc::{AllocError, Global};
use std::marker::Model;

/// The greatest number of watches at one time.
const MOST_WATCHES: usize = 1024;

/// The greatest number of a watch.
const LAST_NUMBER: u64 = 9_223_372_036_854_775_807;

/// What a delivery needs of a watch.
#[derive(Clone, Copy, Debug)]
pub struct Pending<'a> {
    /// The client's number for the watch.
    pub id: i64,
    /// What it looks at.
    pub watched: &'a Watched,
    /// Whether its start was below the last compaction when it was made. Such a watch is told
    /// nothing but that.
    pub late: bool,
    /// The main revision of the first version that it matches and was not told of; nothing while it
    /// is caught up.
    pub first: Option<u64>,
}

/// The watches that stand, in the order in which they were made, and how many were made so far.
///
/// A watch that is not late is behind, and holds the main revision of the first version that it
/// matches and was not told of; or it is caught up, and what it looks at next is the next revision,
/// or a later one that it waits for. Each stands at a place of a slab. Only `create` takes memory.
#[derive(Drop)]
pub struct WatchHub {
    entries: Entries,
    made: u64,
}

impl Model for WatchHub {
    ghost use Rattle.watch_hub.specs.Hub.{Hub};
    ghost use Rattle.watch_hub.specs.Entries.{AreUpTo};

    ghost Value = { Hub };

    ghost view = { λ h. record { watches = h.entries; made = h.made } };

    ghost invariant = { λ h. AreUpTo h.made h.entries };
}

impl WatchHub {
    /// No watch, and none made so far. What comes takes its memory from `alloc`.
    pub fn new(alloc: Global) -> Self
        ensures { result ≡ record { watches = []; made = 0 } }
    {
        WatchHub {
            entries: Entries::new(alloc),
            made: 0,
        }
    }

    /// Whether no watch stands. Takes no memory, and constant time.
    pub fn is_empty(&self) -> bool
        ensures { result ≡ is_empty self.now.watches }
    {
        self.entries.len() == 0
    }

    /// Makes a watch of what is kept, and answers its number: one more than the last one made, from
    /// 1 on.
    ///
    /// `start` is the first revision that it looks at, where 0 and below mean the next one; it may
    /// be above the present revision. An empty key counts as the byte 0. `id` is the client's
    /// number for the watch. A start below the last compaction makes a watch that is late. Keys are
    /// shared, not copied.
    ///
    /// The refusals, in this order: `TooManyWatches` where 1,024 stand or 2^63 - 1 were made,
    /// `Memory`. A refusal changes nothing.
    ///
    /// For a range of one key the time is logarithmic in the number of keys and in that of the
    /// key's versions, and for each of the key's versions from the start up to the first match at
    /// most logarithmic in the number of versions; no version of another key is looked at. For any
    /// other range it is logarithmic in the number of versions, and linear in that of those from
    /// the start up to the first match. It is linear in the number of the watches that stand.
    pub fn create(
        &mut self,
        tables: &Tables,
        watched: &Watched,
        start: i64,
        id: i64,
    ) -> Result<u64, Refusal>
        requires { tables.now.revision ≤ last_main }
        ensures allowed { OnOk result (refusal_of_watch (store_with tables.now self.old) ≡ None) }
        ensures number { IfOk result (λ n. n ≡ self.old.made + 1) }
        ensures made { OnOk result (self.new ≡ with_watch self.old
            (tracked_made (store_with tables.now self.old) watched.now start id)) }
        ensures refused { IfErr result (λ e.
            (refusal_of_watch (store_with tables.now self.old) ≡ Some e)
            ⊎ ((refusal_of_watch (store_with tables.now self.old) ≡ None) × (e ≡ Memory))) }
        ensures unchanged { OnErr result (self.new ≡ self.old) }
    {
        if self.entries.len() >= MOST_WATCHES || self.made >= LAST_NUMBER {
            return Err(Refusal::TooManyWatches);
        }
        match self.add(tables, watched, start, id) {
            Ok(()) => Ok(self.made),
            Err(_) => Err(Refusal::Memory),
        }
    }

    /// Adds a watch that is allowed.
    fn add(
        &mut self,
        tables: &Tables,
        watched: &Watched,
        start: i64,
        id: i64,
    ) -> Result<(), AllocError>
        requires revision { tables.now.revision ≤ last_main }
        requires room { self.old.made < last_main }
        ensures made { OnOk result (self.new ≡ with_watch self.old
            (tracked_made (store_with tables.now self.old) watched.now start id)) }
        ensures unchanged { OnErr result (self.new ≡ self.old) }
    {
        let entry = entry_for(tables, watched, start, id, self.made + 1)?;
        self.entries.push(entry)?;
        self.made += 1;
        Ok(())
    }

    /// Takes note of the versions of a new revision, which is now the present one, `now`. A watch
    /// that is caught up and matches one of them is then behind; those that are behind already are
    /// passed over. Takes no memory.
    ///
    /// For each version the time is logarithmic in the number of the watches, and linear in that of
    /// those that have its key in their range. Of the others, one that ends before the key is
    /// passed in one step with all that begin before it and end no later: keys and prefixes that
    /// lie apart cost one step together, and ranges that lie within one another at most one each.
    ///
    /// Where a watch waits for a revision above `now`, be it one that ended since the last call,
    /// all watches are walked: the time is then linear in the room of the slab, which is for as
    /// many watches as stood at once, at most 1,024, and as much again by the way that lists grow;
    /// and for each watch that is caught up in the number of the versions. A watch from the next
    /// revision on does not wait, nor does one that was told of all.
    pub fn note(&mut self, versions: &[Version], now: u64)
        ensures { self.new
            ≡ record self.old { watches = map (noted versions.now now) self.old.watches } }
    {
        self.entries.note(versions, now);
    }

    /// Whether a watch that was caught up fell behind since this was asked last. A hint, of which no
    /// clause tells. Takes no memory, and constant time.
    pub fn take_news(&mut self) -> bool
        ensures { self.new ≡ self.old }
    {
        self.entries.take_news()
    }

    /// Adds the numbers of the watches that are behind, or late, to a list, in rising order: each
    /// has something to be told. Up to the first that finds no memory in the list; a hint, of which no
    /// clause tells. The time is linear in the number of the watches that stand.
    pub fn behind(&self, numbers: &mut Vec<u64>) {
        self.entries.behind(numbers);
    }

    /// What a delivery to the watch of a number needs. `NoWatch` comes where no watch has the
    /// number. Takes no memory. Logarithmic time.
    pub fn pending(&self, number: u64) -> Result<Pending<'_>, Refusal>
        ensures found { IfOk result (λ p.
            option_map pending_of (tracked_at self.now.watches number) ≡ Some (pending_view p)) }
        ensures missing { IfErr result (λ e. (e ≡ NoWatch)
            × (tracked_at self.now.watches number ≡ None)) }
        ensures ascending { NumbersAscend self.now.watches }
    {
        match self.entries.get(number) {
            Some(entry) => Ok(Pending {
                id: entry.id,
                watched: &entry.watched,
                late: entry.late,
                first: entry.first,
            }),
            None => Err(Refusal::NoWatch),
        }
    }

    /// The watch of a number was told of all that it matches up to the revision `last`: it moves
    /// past that. Where no watch has the number, nothing changes. Takes no memory.
    ///
    /// The time is that of `create`, from the revision behind `last` on up to the next match.
    pub fn advance(&mut self, tables: &Tables, number: u64, last: u64)
        requires { last ≤ last_main }
        ensures { self.new
            ≡ record self.old {
              watches = advanced_to tables.now.versions tables.now.revision
                  number last self.old.watches;
            } }
    {
        self.entries.advance(number, tables, last);
    }

    /// Ends the watch of a number. `NoWatch` comes where no watch has the number, and then nothing
    /// changes. Takes no memory.
    ///
    /// It is found in logarithmic time. Then the time is linear in the number of the watches: the
    /// places of those that were made later move, and their ranges are ordered anew.
    pub fn cancel(&mut self, number: u64) -> Result<(), Refusal>
        ensures found { is_ok result ≡ is_some (tracked_at self.old.watches number) }
        ensures missing { IfErr result (λ e. e ≡ NoWatch) }
        ensures left { self.new
            ≡ record self.old { watches = without_tracked number self.old.watches } }
    {
        if self.entries.remove(number) {
            Ok(())
        } else {
            Err(Refusal::NoWatch)
        }
    }
}

/// The watch that is made.
fn entry_for(
    tables: &Tables,
    watched: &Watched,
    start: i64,
    id: i64,
    number: u64,
) -> Result<Entry, AllocError>
    requires { tables.now.revision ≤ last_main }
    ensures { IfOk result (λ e. tracked_of e ≡ entry_made tables.now watched.now start id number) }
{
    let watched = watched_of(watched)?;
    let next = start_of(tables.revision(), start);
    let first = first_from(tables, next, &watched);
    Ok(Entry {
        number,
        id,
        watched,
        late: next < tables.compacted(),
        first,
        ahead: ahead_of(tables.revision(), next),
    })
}

/// The first revision that a watch looks at.
fn start_of(now: u64, start: i64) -> u64
    requires { now ≤ last_main }
    ensures { result ≡ start_of now start }
{
    if start > 0 { start as u64 } else { now + 1 }
}

/// What a watch looks at, where an empty key counts as the byte 0.
fn watched_of(watched: &Watched) -> Result<Watched, AllocError>
    ensures { IfOk result (λ w. w
        ≡ record watched.now { range = watched_range watched.now.range }) }
{
    let mut range = copy_of(&watched.range)?;
    if range.key.is_empty() {
        range.key = Bytes::from_static(b"\0");
    }
    Ok(Watched {
        range,
        no_put: watched.no_put,
        no_delete: watched.no_delete,
        prev_kv: watched.prev_kv,
    })
}
