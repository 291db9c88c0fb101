//! The watches of a slab take note of the versions of a new revision.
ghost use Rattle.std.specs.Prelude.{◌≡◌, ◌≢◌, ℕ, ◌∷◌, [], true, false, is_some, option_map};
ghost use Rattle.std.specs.Prelude.{option_and_then};
ghost use Rattle.slab.specs.Slab.{get, slab_len};
ghost use Rattle.store_laws.specs.Stands.{noted};
ghost use Rattle.watch_hub.specs.Entries.{seen_in, tracked_of, AreGuarded, AreReached, IsAnyAhead};

use crate::entry::Entry;
use crate::guards::Guards;
use kv_model::version::Version;
use slab::Slab;
use std::slice;

/// Each watch takes note of the versions of a new revision, which is now the present one. Where one
/// may wait for a later revision, all are walked. Else a version is noted by the watches that have
/// its key in their range, which the guards find. The answer is whether a watch waits then. `news` is
/// set where a watch that was caught up falls behind.
pub(crate) fn note_each(
    slab: &mut Slab<Entry>,
    guards: &Guards,
    waiting: bool,
    versions: &[Version],
    now: u64,
    news: &mut bool,
) -> bool
    requires guarded { AreGuarded (seen_in slab.old) guards.now }
    requires reached { waiting ≡ false → AreReached (seen_in slab.old) }
    ensures each { (place : ℕ) → seen_in slab.new place
        ≡ option_map (noted versions.now now) (seen_in slab.old place) }
    ensures count { slab_len slab.new ≡ slab_len slab.old }
    ensures reached { result ≡ false → AreReached (seen_in slab.new) }
    ensures ahead { result ≡ true → IsAnyAhead (seen_in slab.new) }
{
    if waiting {
        note_all(slab, versions, now, news);
        return is_any_ahead(slab);
    }
    note_guarded(slab, guards, versions, now, news);
    false
}

/// The watch at a place takes note.
fn note_at(slab: &mut Slab<Entry>, place: usize, versions: &[Version], now: u64, news: &mut bool)
    ensures here { seen_in slab.new place
        ≡ option_map (noted versions.now now) (seen_in slab.old place) }
    ensures others { (other : ℕ) → other ≢ place → get slab.new other ≡ get slab.old other }
    ensures count { slab_len slab.new ≡ slab_len slab.old }
{
    if let Some(entry) = slab.get_mut(place) {
        note_entry(entry, versions, now, news);
    }
}

/// A watch takes note.
fn note_entry(entry: &mut Entry, versions: &[Version], now: u64, news: &mut bool)
    ensures { tracked_of entry.new ≡ noted versions.now now (tracked_of entry.old) }
{
    let was_caught_up = entry.first.is_none();
    entry.note(versions, now);
    if was_caught_up && entry.first.is_some() {
        *news = true;
    }
}

/// The watch at each place takes note.
fn note_all(slab: &mut Slab<Entry>, versions: &[Version], now: u64, news: &mut bool)
    ensures each { (place : ℕ) → seen_in slab.new place
        ≡ option_map (noted versions.now now) (seen_in slab.old place) }
    ensures count { slab_len slab.new ≡ slab_len slab.old }
{
    let places = slab.capacity();
    for place in 0..places {
        note_at(slab, place, versions, now, news);
    }
}

/// Whether the watch at a place waits for a revision above the next one.
fn is_ahead(slab: &Slab<Entry>, place: usize) -> bool
    ensures { result ≡ is_some (option_and_then (λ t. t.ahead) (seen_in slab.now place)) }
{
    match slab.get(place) {
        Some(entry) => entry.ahead.is_some(),
        None => false,
    }
}

/// Whether a watch waits for a revision above the next one.
fn is_any_ahead(slab: &Slab<Entry>) -> bool
    ensures reached { result ≡ false → AreReached (seen_in slab.now) }
    ensures ahead { result ≡ true → IsAnyAhead (seen_in slab.now) }
{
    for place in 0..slab.capacity() {
        if is_ahead(slab, place) {
            return true;
        }
    }
    false
}

/// The versions are noted one after another, by the watches that have their keys in their ranges.
fn note_guarded(
    slab: &mut Slab<Entry>,
    guards: &Guards,
    versions: &[Version],
    now: u64,
    news: &mut bool,
)
    requires guarded { AreGuarded (seen_in slab.old) guards.now }
    requires reached { AreReached (seen_in slab.old) }
    ensures each { (place : ℕ) → seen_in slab.new place
        ≡ option_map (noted versions.now now) (seen_in slab.old place) }
    ensures count { slab_len slab.new ≡ slab_len slab.old }
    ensures reached { AreReached (seen_in slab.new) }
{
    for version in versions {
        note_key(slab, guards, version, now, news);
    }
}

/// One version is noted by the watches that have its key in their range.
fn note_key(slab: &mut Slab<Entry>, guards: &Guards, version: &Version, now: u64, news: &mut bool)
    requires guarded { AreGuarded (seen_in slab.old) guards.now }
    requires reached { AreReached (seen_in slab.old) }
    ensures each { (place : ℕ) → seen_in slab.new place
        ≡ option_map (noted (version.now ∷ []) now) (seen_in slab.old place) }
    ensures count { slab_len slab.new ≡ slab_len slab.old }
{
    let key = version.key.as_slice();
    let versions = slice::from_ref(version);
    let mut left = guards.count_begun(key);
    while let Some((index, place)) = guards.last_open(left, key) {
        note_at(slab, place, versions, now, news);
        left = index;
    }
}
