//! From each key to its revisions (etcd: the tree index of keys).
ghost use Rattle.std.specs.Prelude.{◌≡◌, List, [], ◌++◌, ◌||◌, if◌then◌else◌, map};
ghost use Rattle.std.specs.Prelude.{option_copied, OnOk, OnErr, IfOk, MatchOption, Some, ⊤, true, ◌<◌};
ghost use Rattle.kv_model.specs.declared.version.Version.{Version};
ghost use Rattle.kv_model.specs.Keys.{in_range, key_lt};
ghost use Rattle.key_pages.specs.Pairs.{from_key};
ghost use Rattle.key_index.specs.Agrees.{Agrees, IsBelow, AreOf};
ghost use Rattle.key_index.specs.KeyRevisions.{IsBehind, after_place, at_place, is_followed};
ghost use Rattle.key_index.specs.Index.{IsIndex, found, in_interval, is_up_to, nth_of, revisions};
ghost use Rattle.key_index.specs.Index.{retracted, retracted_newest, undone_at};
ghost use Rattle.key_index.specs.Index.{with_revision, without_front, without_revision};

use crate::revisions::Revisions;
use crate::{changes, interval};
use bytes::Bytes;
use key_pages::{KeyPages, Walk};
use kv_model::span::Span;
use kv_model::version::{KeyRange, Rev, Version};
use std::alloc::{AllocError, Global};
use std::marker::Model;

/// The revisions of each key: a sorted map in pages.
#[derive(Drop)]
pub struct KeyIndex {
    alloc: Global,
    keys: KeyPages<Revisions>,
    /// The newest main revision ever added. None in the index is above it.
    newest: u64,
}

impl Model for KeyIndex {
    ghost use Rattle.key_index.specs.Index.{Index, IsBound, IsIndex};

    ghost Value = { Index };

    ghost view = { λ x. x.keys };

    ghost invariant = { λ x. IsIndex x.keys × IsBound x.newest x.keys };
}

/// A key of the index, lent with its revisions.
#[derive(Clone, Copy)]
pub struct Indexed<'a> {
    pub key: &'a Bytes,
    pub revisions: &'a Revisions,
}

impl KeyIndex {
    ghost use Rattle.key_index.specs.Lent.{entry_of};

    /// The empty index, which takes its memory from `alloc` as it grows.
    pub fn new(alloc: Global) -> Self
        ensures { result ≡ [] }
    {
        KeyIndex {
            alloc,
            keys: KeyPages::new(alloc),
            newest: 0,
        }
    }

    /// Adds a revision of a key, that of a put or of a tombstone: which of its revisions are
    /// tombstones the versions say, and not the index. It is above each one that the key has. Of
    /// equal keys the index keeps the one that came last, with the block in which it stands.
    ///
    /// The error is want of memory, and the index is then as it was. The time is logarithmic in the
    /// number of keys.
    pub fn put(&mut self, key: &Bytes, rev: Rev) -> Result<(), AllocError>
        requires { IsBehind rev (revisions key.now self.old) }
        ensures ok { OnOk result (self.new ≡ with_revision key.now rev self.old) }
        ensures err { OnErr result (self.new ≡ self.old) }
    {
        changes::put(self.alloc, &mut self.keys, &mut self.newest, key, rev)?;
        Ok(())
    }

    /// Takes a main revision back where no later one is in the index, and else changes nothing,
    /// whatever the changes are. Where they are those of the main revision nothing of it is left;
    /// those of its keys alone are looked at. What they have of that revision goes, and where they
    /// have none, as where the revision is not in the index, nothing does. Takes no memory.
    ///
    /// The time is logarithmic in the number of keys for each change. Where a later revision was
    /// ever added, which need not be there any more, it is linear in the number of keys too: they
    /// are walked until one has a later revision. What was added last is taken back without it.
    pub fn retract(&mut self, main: u64, changes: &[Version])
        ensures value { self.new ≡ retracted_newest main changes.now self.old }
        ensures whole { (older : List Version) → IsBelow main older → AreOf main changes.now
            → Agrees self.old (older ++ changes.now) → Agrees self.new older }
    {
        if self.is_up_to(main) {
            self.take_back(main, changes);
        }
    }

    /// Whether no key has a revision of a later main revision. Constant time where none was ever
    /// added.
    fn is_up_to(&self, main: u64) -> bool
        ensures { result ≡ is_up_to main self.now }
    {
        main >= self.newest || is_up_to(self.keys.all(), main)
    }

    /// Drops what the keys of the changes have of a main revision at the end.
    fn take_back(&mut self, main: u64, changes: &[Version])
        ensures { self.new ≡ retracted main changes.now self.old }
    {
        for change in changes {
            self.undo(main, &change.key);
        }
    }

    /// Drops what a key has of a main revision at the end.
    fn undo(&mut self, main: u64, key: &Bytes)
        ensures { self.new ≡ undone_at main key.now self.old }
    {
        changes::undo(&mut self.keys, main, key);
    }

    /// Drops the oldest revision of a key, and nothing where it has none. Takes no memory, and time
    /// logarithmic in the number of keys.
    pub fn drop_front(&mut self, key: &Bytes)
        ensures { self.new ≡ without_front key.now self.old }
    {
        changes::drop_front(&mut self.keys, key);
    }

    /// Takes out a revision of a key, and nothing where the key has it not. Takes no memory.
    ///
    /// The time is logarithmic in the number of keys where it is the oldest revision of the key,
    /// and else linear in that of the key's revisions too.
    pub fn remove(&mut self, key: &Bytes, rev: Rev)
        ensures { self.new ≡ without_revision key.now rev self.old }
    {
        changes::drop_at(&mut self.keys, key, rev);
    }

    /// Takes out a revision of a key where the next one of the key is of a main revision up to
    /// another, or where it is to go anyway, and tells whether it goes; a revision that the key has
    /// not changes nothing. It is one look-up, for `after` and `remove`. Takes no memory.
    ///
    /// The time is logarithmic in the number of keys where it is the oldest revision of the key,
    /// and else linear in that of the key's revisions too.
    pub fn trim(&mut self, key: &Bytes, rev: Rev, main: u64, anyway: bool) -> bool
        ensures told { result ≡ (is_followed rev main (revisions key.now self.old) || anyway) }
        ensures value { self.new
            ≡ if result then without_revision key.now rev self.old else self.old }
    {
        changes::trim(&mut self.keys, key, rev, main, anyway)
    }

    /// The revisions of a key, lent: none where the index has not the key. Takes no memory, and
    /// time logarithmic in the number of keys.
    pub fn get(&self, key: &Bytes) -> Option<&Revisions>
        ensures { option_copied result ≡ found key.now self.now }
    {
        self.keys.get(key)
    }

    /// The first revision of a key after a place, also where it is a tombstone. Takes no memory.
    ///
    /// The time is logarithmic in the number of keys, and where the place is not that of the key's
    /// oldest revision in that of its revisions too.
    pub fn after(&self, key: &Bytes, place: Rev) -> Option<Rev>
        ensures { result ≡ after_place place (revisions key.now self.now) }
    {
        match self.keys.get(key) {
            Some(revisions) => revisions.after(place),
            None => None,
        }
    }

    /// The last revision of a key that is not after a place, also where it is a tombstone. Takes no
    /// memory.
    ///
    /// The time is logarithmic in the number of keys and in that of the key's revisions.
    pub fn at(&self, key: &Bytes, place: Rev) -> Option<Rev>
        ensures { result ≡ at_place place (revisions key.now self.now) }
    {
        match self.keys.get(key) {
            Some(revisions) => revisions.at(place),
            None => None,
        }
    }

    /// The keys of a range, ascending, each with its revisions (etcd: key ranges of a
    /// RangeRequest).
    ///
    /// The error is want of memory. The time is logarithmic in the number of keys, and linear in
    /// that of the keys of the range: no other key is walked.
    pub fn keys_in(&self, range: &KeyRange) -> Result<Vec<Indexed<'_>>, AllocError>
        ensures keys { IfOk result (λ v. map entry_of v.items ≡ in_interval range.now self.now) }
        ensures sound { IsIndex self.now }
    {
        match range.span() {
            Span::Key(key) => interval::first(self.alloc, self.keys.from(key), key),
            Span::All => interval::all(self.alloc, self.keys.all()),
            Span::From(from) => interval::all(self.alloc, self.keys.from(from)),
            Span::Interval { from, to } => {
                interval::all_below(self.alloc, self.keys.from(from), to)
            }
        }
    }

    /// The key of a range before which so many of those from the range's first key on stand, lent;
    /// `None` where the range has no more than so many, and of one key. Takes no memory.
    ///
    /// The time is logarithmic in the number of keys, and linear in the number that is given.
    pub fn nth_key(&self, range: &KeyRange, count: usize) -> Option<&Bytes>
        ensures within { MatchOption result ⊤ (λ k. in_range range.now k.now ≡ true) }
        ensures nth { MatchOption result ⊤ (λ k.
            nth_of count (from_key range.now.key self.now) ≡ Some k.now) }
        ensures above { MatchOption result ⊤ (λ k.
            0 < count → key_lt range.now.key k.now ≡ true) }
    {
        if range.end.is_empty() {
            return None;
        }
        match interval::nth(self.keys.from(&range.key), count) {
            Some(key) if range.contains(key.as_slice()) => Some(key),
            _ => None,
        }
    }
}

/// Whether no key has a revision of a later main revision. Walks over the keys, until one has.
fn is_up_to(walk: Walk<'_, Revisions>, main: u64) -> bool
    ensures { result ≡ is_up_to main walk.entry }
{
    let mut walk = walk;
    'walking: while let Some((_, revisions)) = walk.next() {
        if !revisions.ends_up_to(main) {
            return false;
        }
    }
    true
}
