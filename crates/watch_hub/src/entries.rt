//! The watches that stand, each at a place of a slab, found by number.
ghost use Rattle.std.specs.Prelude.{◌≡◌, ◌≢◌, ℕ, ◌<◌, ◌≤◌, [], ◌∷◌, ◌++◌, ◌||◌, length, map};
ghost use Rattle.std.specs.Prelude.{is_some};
ghost use Rattle.std.specs.Prelude.{option_map, option_copied, OnOk, OnErr, IfOk, IfSome};
ghost use Rattle.std.specs.List.{AllByRecursion, slice_get};
ghost use Rattle.slab.specs.Slab.{get, slab_len};
ghost use Rattle.store_laws.specs.Stands.{noted};
ghost use Rattle.kv_model.specs.Step.{last_main};
ghost use Rattle.watch_hub.specs.Hub.{NumbersAscend, advanced_to, told_to, tracked_at};
ghost use Rattle.watch_hub.specs.Hub.{without_tracked};
ghost use Rattle.watch_hub.specs.Entries.{tracked_of, seen_in, AreAscending, index_of, key_of};

use crate::entry::Entry;
use crate::guards::Guards;
use crate::noting::note_each;
use kv_model::version::{KeyRange, Version};
use range_view::Tables;
use slab::Slab;
use std::alloc::{AllocError, Global};
use std::marker::Model;

/// Where in the slab a watch stands.
#[derive(Clone, Copy)]
pub(crate) struct Place {
    number: u64,
    key: usize,
}

/// The watches that stand, in the order of their numbers. The slab has these and no other: one that
/// ends leaves it. Each has a guard of its range. Only `push` takes memory.
#[derive(Drop)]
pub(crate) struct Entries {
    slab: Slab<Entry>,
    places: Vec<Place>,
    guards: Guards,
    /// Where this is false, no watch waits for a revision above the next one.
    waiting: bool,
    /// Whether a watch fell behind since this was asked for last. No clause rests on it.
    news: bool,
}

impl Model for Entries {
    ghost use Rattle.std.specs.Prelude.{List};
    ghost use Rattle.store_laws.specs.Stands.{Tracked};
    ghost use Rattle.watch_hub.specs.Entries.{seen_in, listed, AreAll};

    ghost Value = { List Tracked };

    ghost view = { λ e. listed (seen_in e.slab) e.places.items };

    ghost invariant = { λ e. AreAll e.slab e.places.items e.guards e.waiting };
}

impl Entries {
    /// No watch.
    pub(crate) fn new(alloc: Global) -> Self
        ensures { result ≡ [] }
    {
        Entries {
            slab: Slab::new(alloc),
            places: Vec::new(alloc),
            guards: Guards::new(alloc),
            waiting: false,
            news: false,
        }
    }

    /// How many there are.
    pub(crate) fn len(&self) -> usize
        ensures { result ≡ length self.now }
    {
        self.places.len()
    }

    /// The watch of a number. Logarithmic time.
    pub(crate) fn get(&self, number: u64) -> Option<&Entry>
        ensures found { option_map tracked_of (option_copied result) ≡ tracked_at self.now number }
        ensures ascending { NumbersAscend self.now }
    {
        match key_of(&self.places, number) {
            Some(key) => self.slab.get(key),
            None => None,
        }
    }

    /// Adds a watch, whose number is above all. The error is want of memory. Linear time.
    pub(crate) fn push(&mut self, entry: Entry) -> Result<(), AllocError>
        requires { AllByRecursion (λ t. t.number < entry.number) self.old }
        ensures ok { OnOk result (self.new ≡ self.old ++ tracked_of entry ∷ []) }
        ensures err { OnErr result (self.new ≡ self.old) }
    {
        self.places.reserve(1)?;
        self.slab.reserve(1)?;
        let range = copy_of(&entry.watched.range)?;
        self.guards.insert(range, self.slab.vacant_key())?;
        let waiting = either(self.waiting, entry.ahead.is_some());
        self.waiting = waiting;
        let number = entry.number;
        let key = self.slab.insert_reserved(entry);
        self.places.push_reserved(Place { number, key });
        Ok(())
    }

    /// Takes out the watch of a number, and tells whether there was one. It is found in logarithmic
    /// time; the places and guards behind it move, and the guards are walked.
    pub(crate) fn remove(&mut self, number: u64) -> bool
        ensures found { result ≡ is_some (tracked_at self.old number) }
        ensures left { self.new ≡ without_tracked number self.old }
    {
        match index_of(&self.places, number) {
            Some(index) => {
                let place = self.places.remove(index);
                let _ = self.slab.try_remove(place.key);
                self.guards.remove(place.key);
                true
            }
            None => false,
        }
    }

    /// Each watch takes note of the versions of a new revision, which is now the present one. The
    /// guards find those that a version may concern, unless one may wait for a later revision.
    pub(crate) fn note(&mut self, versions: &[Version], now: u64)
        ensures { self.new ≡ map (noted versions.now now) self.old }
    {
        let waiting = note_each(
            &mut self.slab,
            &self.guards,
            self.waiting,
            versions,
            now,
            &mut self.news,
        );
        self.waiting = waiting;
    }

    /// Whether a watch fell behind since this was asked last. Constant time.
    pub(crate) fn take_news(&mut self) -> bool
        ensures { self.new ≡ self.old }
    {
        let news = self.news;
        self.news = false;
        news
    }

    /// Adds the numbers of the watches that are behind to a list, in rising order, up to the first
    /// that finds no memory there. Linear time.
    pub(crate) fn behind(&self, numbers: &mut Vec<u64>) {
        for place in &self.places {
            if is_behind(&self.slab, place.key) && numbers.push(place.number).is_err() {
                return;
            }
        }
    }

    /// The watch of a number moves past a revision, by what is kept.
    pub(crate) fn advance(&mut self, number: u64, tables: &Tables, last: u64)
        requires { last ≤ last_main }
        ensures { self.new
            ≡ advanced_to tables.now.versions tables.now.revision number last self.old }
    {
        if let Some(key) = key_of(&self.places, number) {
            advance_at(&mut self.slab, key, tables, last);
            let waiting = either(self.waiting, tables.revision() < last);
            self.waiting = waiting;
        }
    }
}

/// Whether the watch under a key is behind, or late.
fn is_behind(slab: &Slab<Entry>, key: usize) -> bool {
    match slab.get(key) {
        Some(entry) => entry.late || entry.first.is_some(),
        None => false,
    }
}

/// Whether one of two is so.
fn either(one: bool, other: bool) -> bool
    ensures { result ≡ (one || other) }
{
    one || other
}

/// A range with the same keys, which are shared.
pub(crate) fn copy_of(range: &KeyRange) -> Result<KeyRange, AllocError>
    ensures { IfOk result (λ r. r ≡ range.now) }
{
    Ok(KeyRange {
        key: range.key.clone()?,
        end: range.end.clone()?,
    })
}

/// The place at an index.
fn place_at(places: &[Place], index: usize) -> Option<&Place>
    ensures { option_copied result ≡ slice_get places.now index }
{
    places.get(index)
}

/// The index of the place with a number. It halves.
fn index_of(places: &[Place], number: u64) -> Option<usize>
    requires { AreAscending places.now }
    ensures index { result ≡ index_of number places.now }
    ensures bound { IfSome result (λ i. i < length places.now) }
{
    let index = places.partition_point(|p| p.number < number);
    match place_at(places, index) {
        Some(place) if place.number == number => Some(index),
        _ => None,
    }
}

/// The key of the watch with a number.
fn key_of(places: &[Place], number: u64) -> Option<usize>
    requires { AreAscending places.now }
    ensures { result ≡ key_of number places.now }
{
    match index_of(places, number) {
        Some(index) => Some(places[index].key),
        None => None,
    }
}

/// The watch under a key moves past a revision.
fn advance_at(slab: &mut Slab<Entry>, key: usize, tables: &Tables, last: u64)
    requires { last ≤ last_main }
    ensures here { seen_in slab.new key
        ≡ option_map (told_to tables.now.versions tables.now.revision last)
        (seen_in slab.old key) }
    ensures others { (other : ℕ) → other ≢ key → get slab.new other ≡ get slab.old other }
    ensures count { slab_len slab.new ≡ slab_len slab.old }
{
    if let Some(entry) = slab.get_mut(key) {
        entry.advance(tables, last);
    }
}
