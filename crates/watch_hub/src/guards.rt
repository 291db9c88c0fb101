//! The ranges of the watches in the order of their first keys, by which those that a key may
//! concern are found.
ghost use Rattle.std.specs.Prelude.{◌≡◌, ℕ, ◌<◌, ◌≤◌, ◌+◌, [], ◌∷◌, length, true, false, filter};
ghost use Rattle.std.specs.Prelude.{not};
ghost use Rattle.std.specs.Prelude.{◌==◌, None, Some, OnOk, OnErr, MatchOption, slice_index_or};
ghost use Rattle.std.specs.Prelude.{if◌then◌else◌};
ghost use Rattle.kv_model.specs.declared.version.KeyRange.{KeyRange};
ghost use Rattle.watch_hub.specs.declared.guards.Guard.{Guard};
ghost use Rattle.watch_hub.specs.Guards.{is_past, range_at, AreBacks, AreFar, AreInOrder, ArePast};
ghost use Rattle.watch_hub.specs.Guards.{AreBegun, AreToCome, IsBack, IsFar};

use crate::bounds::{ends_by, first_key, has_begun, is_past};
use kv_model::version::KeyRange;
use std::alloc::{AllocError, Global};
use std::marker::Model;

/// The range of a watch, and the place in the slab where the watch stands.
#[derive(Drop)]
pub(crate) struct Guard {
    range: KeyRange,
    place: usize,
}

/// The ranges of watches, in the order of their first keys.
///
/// Beside each stands an index: the ranges from there on up to it end no later than it does, so a
/// key that is behind it is behind them too; and the one before them ends later, so none of them is
/// left out. Only `insert` takes memory.
#[derive(Drop)]
pub(crate) struct Guards {
    guards: Vec<Guard>,
    backs: Vec<usize>,
}

impl Model for Guards {
    ghost use Rattle.std.specs.Prelude.{List};
    ghost use Rattle.watch_hub.specs.declared.guards.Guard.{Guard};
    ghost use Rattle.watch_hub.specs.Guards.{AreReady};

    ghost Value = { List Guard };

    ghost view = { λ g. g.guards.items };

    ghost invariant = { λ g. AreReady g.guards.items g.backs.items };
}

impl Guards {
    /// No guard.
    pub(crate) fn new(alloc: Global) -> Self
        ensures { result ≡ [] }
    {
        Guards {
            guards: Vec::new(alloc),
            backs: Vec::new(alloc),
        }
    }

    /// Adds the range of the watch at a place of the slab, which no guard has yet. The error is
    /// want of memory. Linear time.
    pub(crate) fn insert(&mut self, range: KeyRange, place: usize) -> Result<(), AllocError>
        ensures ok { OnOk result (range_at place self.old ≡ None → (other : ℕ)
            → range_at other self.new
            ≡ (if place == other then Some range else range_at other self.old)) }
        ensures err { OnErr result (self.new ≡ self.old) }
    {
        self.backs.reserve(1)?;
        let index = count_begun(&self.guards, first_key(&range));
        self.guards.insert(index, Guard { range, place })?;
        self.backs.push_reserved(0);
        set_backs(&self.guards, &mut self.backs);
        Ok(())
    }

    /// Takes out the range of the watch at a place of the slab. Linear time.
    pub(crate) fn remove(&mut self, place: usize)
        ensures { self.new ≡ filter (λ g. not (g.place == place)) self.old }
    {
        self.guards.retain(|guard| guard.place != place);
        self.backs.truncate(self.guards.len());
        set_backs(&self.guards, &mut self.backs);
    }

    /// How many ranges begin with a key or before it, and no more: those from there on do not have it.
    /// Logarithmic time.
    pub(crate) fn count_begun(&self, key: &[u8]) -> usize
        ensures bound { result ≤ length self.now }
        ensures before { AreBegun self.now key.now result }
        ensures behind { AreToCome self.now key.now result }
    {
        count_begun(&self.guards, key)
    }

    /// The last of the first so many ranges that a key is not behind, by its index, with the place
    /// of its watch. Each step passes a range that ends before the key, with all before it that end
    /// no later.
    pub(crate) fn last_open(&self, count: usize, key: &[u8]) -> Option<(usize, usize)>
        requires { count ≤ length self.now }
        ensures { MatchOption result (ArePast self.now key.now 0 count)
            (λ f. (f.0 < count) × ArePast self.now key.now (f.0 + 1) count
            × ((d : Guard) → (slice_index_or self.now f.0 d).place ≡ f.1)
            × ((d : Guard) → is_past (slice_index_or self.now f.0 d).range key.now ≡ false)) }
    {
        last_open(&self.guards, &self.backs, count, key)
    }
}

/// How many ranges begin with a key or before it. It halves.
fn count_begun(guards: &[Guard], key: &[u8]) -> usize
    requires { AreInOrder guards.now }
    ensures bound { result ≤ length guards.now }
    ensures before { AreBegun guards.now key.now result }
    ensures behind { AreToCome guards.now key.now result }
{
    guards.partition_point(|guard| has_begun(&guard.range, key))
}

/// Finds for each range the way back.
fn set_backs(guards: &[Guard], backs: &mut Vec<usize>)
    requires { length backs.old.items ≡ length guards.now }
    ensures count { length backs.new.items ≡ length guards.now }
    ensures backs { AreBacks guards.now backs.new.items (length guards.now) }
    ensures far { AreFar guards.now backs.new.items (length guards.now) }
{
    for index in 0..guards.len() {
        backs[index] = back_of(guards, backs, index);
    }
}

/// How far back the ranges end no later than the one at an index, where those before it have their
/// ways back.
fn back_of(guards: &[Guard], backs: &[usize], index: usize) -> usize
    requires index { index < length guards.now }
    requires count { length backs.now ≡ length guards.now }
    requires backs { AreBacks guards.now backs.now index }
    ensures back { IsBack guards.now index result }
    ensures far { IsFar guards.now index result }
{
    let mut back = index;
    while back > 0 {
        if !ends_by(&guards[back - 1].range, &guards[index].range) {
            return back;
        }
        back = backs[back - 1];
    }
    back
}

/// The last of the first so many ranges that a key is not behind.
fn last_open(guards: &[Guard], backs: &[usize], count: usize, key: &[u8]) -> Option<(usize, usize)>
    requires bound { count ≤ length guards.now }
    requires count { length backs.now ≡ length guards.now }
    requires backs { AreBacks guards.now backs.now (length guards.now) }
    ensures { MatchOption result (ArePast guards.now key.now 0 count)
        (λ f. (f.0 < count) × ArePast guards.now key.now (f.0 + 1) count
        × ((d : Guard) → (slice_index_or guards.now f.0 d).place ≡ f.1)
        × ((d : Guard) → is_past (slice_index_or guards.now f.0 d).range key.now ≡ false)) }
{
    let mut left = count;
    while left > 0 {
        let index = left - 1;
        if !is_past(&guards[index].range, key) {
            return Some((index, guards[index].place));
        }
        left = backs[index];
    }
    None
}
