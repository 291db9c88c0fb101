//! What is kept, read at a place (the etcd documentation's RangeRequest and RangeResponse).
ghost use Rattle.std.specs.Prelude.{◌≡◌, ◌&&◌, ◌<◌, IfOk, IfErr, MatchOption, option_map, filter_map};
ghost use Rattle.std.specs.Prelude.{map, filter, length, nat_le, true, ⊤};
ghost use Rattle.kv_model.specs.Keys.{in_range, key_lt, one_key, same_key};
ghost use Rattle.kv_model.specs.History.{value_at, end_of};
ghost use Rattle.kv_model.specs.Ranges.{range_reply, read_place, revision_refusal, live};
ghost use Rattle.version_table.specs.Rising.{IsRising};
ghost use Rattle.key_index.specs.Agrees.{read_at, read_entry};
ghost use Rattle.key_index.specs.Lent.{entry_of};
ghost use Rattle.range_view.specs.Replies.{kv_view, reply_view};
ghost use Rattle.range_view.specs.Selecting.{IsFound};
ghost use Rattle.range_view.specs.Stored.{AreTied};

use crate::key_versions::KeyVersions;
use crate::reply::{KvRef, RangeReply, key_value_of};
use crate::revision::{end_of, read_place, revision_refusal};
use crate::select::Found;
use bytes::Bytes;
use key_index::{Indexed, KeyIndex};
use kv_model::call::RangeQuery;
use kv_model::refusal::Refusal;
use kv_model::version::{KeyRange, Rev};
use std::alloc::{AllocError, Global};
use std::marker::Model;
use version_table::{VersionTable, Versions};

/// What is kept, seen at a place in the history: of each key its last version that is not after the
/// place.
#[derive(Drop)]
pub struct View<'a> {
    table: &'a VersionTable,
    index: &'a KeyIndex,
    compacted: u64,
    revision: u64,
    place: Rev,
}

impl<'a> Model for View<'a> {
    ghost use Rattle.range_view.specs.Stored.{Viewed, AreTied};

    ghost Value = { Viewed };

    ghost view = { λ v. record {
      versions = v.table.now;
      compacted = v.compacted;
      revision = v.revision;
      place = v.place;
    } };

    ghost invariant = { λ v. AreTied v.index.now v.table.now };
}

impl<'a> View<'a> {
    /// A view of a table and the index of its versions, with the revision of the last compaction,
    /// the present one, and the place that is seen.
    pub fn new(
        table: &'a VersionTable,
        index: &'a KeyIndex,
        compacted: u64,
        revision: u64,
        place: Rev,
    ) -> Self
        requires { AreTied index.now table.now }
        ensures { result ≡ record {
          versions = table.now;
          compacted = compacted;
          revision = revision;
          place = place;
        } }
    {
        View {
            table,
            index,
            compacted,
            revision,
            place,
        }
    }

    /// The same, seen at the end of the view's revision. Takes no memory, and constant time.
    pub fn at_end(&self) -> View<'a>
        ensures { result ≡ record self.now { place = end_of self.now.revision } }
    {
        View::new(
            self.table,
            self.index,
            self.compacted,
            self.revision,
            end_of(self.revision),
        )
    }

    /// The revision of the last compaction, 0 before the first.
    pub fn compacted(&self) -> u64
        ensures { result ≡ self.now.compacted }
    {
        self.compacted
    }

    /// The present revision of the store.
    pub fn revision(&self) -> u64
        ensures { result ≡ self.now.revision }
    {
        self.revision
    }

    /// The number of versions that are kept, those behind the view's place too. Takes no memory, and
    /// constant time.
    pub fn count(&self) -> usize
        ensures { result ≡ length self.now.versions }
    {
        self.table.len()
    }

    /// The versions that are kept, rising, those behind the view's place too, lent one after
    /// another. Takes no memory, and constant time.
    pub fn versions(&self) -> Versions<'a>
        ensures value { result ≡ self.now.versions }
        ensures rising { IsRising self.now.versions }
    {
        self.table.versions()
    }

    /// The versions of a key from a revision on, the oldest first, those behind the view's place
    /// too, lent one after another. It goes by the index of keys, and comes by no version of another
    /// key. Takes no memory.
    ///
    /// The time is logarithmic in the number of keys and in that of the key's revisions, and that
    /// of each step logarithmic in the number of versions.
    pub fn versions_of(&self, key: &Bytes, next: u64) -> KeyVersions<'a>
        ensures value { result ≡ filter
            (λ v. nat_le next v.rev.main && same_key v.key key.now) self.now.versions }
        ensures rising { IsRising self.now.versions }
    {
        KeyVersions::new(self.table, self.index, key, next)
    }

    /// What a key holds at the view's place, lent from the table: nothing where it was never put or
    /// is deleted. Takes no memory.
    ///
    /// The time is logarithmic in the number of keys, in that of the key's revisions and in that of
    /// the versions.
    pub fn get(&self, key: &Bytes) -> Option<KvRef<'a>>
        ensures { option_map kv_view result ≡ value_at self.now.versions self.now.place key.now }
    {
        self.read(key, self.place)
    }

    /// What a key holds at a place.
    fn read(&self, key: &Bytes, place: Rev) -> Option<KvRef<'a>>
        ensures { option_map kv_view result ≡ value_at self.now.versions place key.now }
    {
        match self.index.at(key, place) {
            Some(rev) => held(self.table, rev),
            None => None,
        }
    }

    /// The key-values of the live keys of a range at the view's place, in the order of the keys,
    /// lent from the table.
    ///
    /// `AllocError` comes where the list of the keys or that of what they hold found no memory. The
    /// keys of the range are walked, live or not, each in time logarithmic in the versions; no
    /// other key is. One key is looked up as by `get`, and no list of keys is made.
    pub fn live(&self, alloc: Global, range: &KeyRange) -> Result<Vec<KvRef<'a>>, AllocError>
        ensures { IfOk result (λ kvs. map kv_view kvs.items
            ≡ live self.now.versions self.now.place range.now) }
    {
        if range.end.is_empty() {
            self.live_one(alloc, &range.key)
        } else {
            self.live_all(alloc, range)
        }
    }

    /// The key-value of a key at the view's place, where it is live.
    fn live_one(&self, alloc: Global, key: &Bytes) -> Result<Vec<KvRef<'a>>, AllocError>
        ensures { IfOk result (λ kvs. map kv_view kvs.items
            ≡ live self.now.versions self.now.place (one_key key.now)) }
    {
        let mut kvs = Vec::new(alloc);
        match self.get(key) {
            Some(kv) => kvs.push(kv)?,
            None => {}
        }
        Ok(kvs)
    }

    /// The key-values of the live keys of a range at the view's place, by a walk over its keys.
    fn live_all(&self, alloc: Global, range: &KeyRange) -> Result<Vec<KvRef<'a>>, AllocError>
        ensures { IfOk result (λ kvs. map kv_view kvs.items
            ≡ live self.now.versions self.now.place range.now) }
    {
        let keys = self.index.keys_in(range)?;
        held_by(alloc, self.table, &keys, self.place)
    }

    /// The key of a range before which so many of its keys stand that are kept, live or not, lent;
    /// `None` where it has no more than so many, and of one key. So a range can be read in parts: the
    /// keys before this one, and those from it on. Takes no memory.
    ///
    /// The time is logarithmic in the number of keys, and linear in the number that is given.
    pub fn nth_key(&self, range: &KeyRange, count: usize) -> Option<&'a Bytes>
        ensures within { MatchOption result ⊤ (λ k. in_range range.now k.now ≡ true) }
        ensures above { MatchOption result ⊤ (λ k.
            0 < count → key_lt range.now.key k.now ≡ true) }
    {
        self.index.nth_key(range, count)
    }

    /// The answer to a Range, read at the end of the revision asked for, or at the view's place
    /// where none is. It lends keys and values from the table, and shows the view's revision. The
    /// caller has refused a range with an empty key.
    ///
    /// Refused as `Compacted` where the revision asked for is above 0 and below that of the last
    /// compaction, and as `Future` where it is above the view's; both come before any memory is
    /// asked for. `Memory` comes where a list of what is found, or a sort, found none.
    ///
    /// The keys of the range are walked, live or not, each in time logarithmic in the versions; no
    /// other key is. One key is looked up as by `get`, and no list of keys is made. With a limit,
    /// and no other order than that of the keys, no more is collected than the limit asks for; the
    /// walk goes on all the same, since `count` counts every live key of the range. Any other order
    /// is sorted, in n log n comparisons of the n that pass the filters. No value is copied.
    pub fn range(&self, alloc: Global, query: &RangeQuery) -> Result<RangeReply<'a>, Refusal>
        ensures reply { IfOk result (λ r. reply_view r ≡ range_reply self.now.versions
            self.now.revision self.now.place query.now) }
        ensures refused { MatchOption
            (revision_refusal self.now.compacted self.now.revision query.now.revision)
            (IfErr result (λ e. e ≡ Refusal.Memory)) (λ e. result ≡ Err e) }
    {
        if let Some(refusal) = revision_refusal(self.compacted, self.revision, query) {
            return Err(refusal);
        }
        match self.answer(alloc, query) {
            Ok(reply) => Ok(reply),
            Err(_) => Err(Refusal::Memory),
        }
    }

    /// The answer to a Range at the revision asked for, which is not looked at.
    fn answer(&self, alloc: Global, query: &RangeQuery) -> Result<RangeReply<'a>, AllocError>
        ensures { IfOk result (λ r. reply_view r ≡ range_reply self.now.versions
            self.now.revision self.now.place query.now) }
    {
        let place = read_place(query, self.place);
        let found = self.walk(alloc, query, place)?;
        found.finish(query, self.revision)
    }

    /// What the live keys of a range at a place are.
    fn walk(&self, alloc: Global, query: &RangeQuery, place: Rev) -> Result<Found<'a>, AllocError>
        ensures { IfOk result (λ found. IsFound query.now found
            (live self.now.versions place query.now.range)) }
    {
        if query.range.end.is_empty() {
            self.walk_one(alloc, query, place)
        } else {
            self.walk_all(alloc, query, place)
        }
    }

    /// What the key of a range is at a place, where it is live.
    fn walk_one(
        &self,
        alloc: Global,
        query: &RangeQuery,
        place: Rev,
    ) -> Result<Found<'a>, AllocError>
        ensures { IfOk result (λ found. IsFound query.now found
            (live self.now.versions place (one_key query.now.range.key))) }
    {
        let mut found = Found::new(alloc);
        match self.read(&query.range.key, place) {
            Some(kv) => found.add(query, kv)?,
            None => {}
        }
        Ok(found)
    }

    /// What the live keys of a range at a place are, by a walk over its keys.
    fn walk_all(
        &self,
        alloc: Global,
        query: &RangeQuery,
        place: Rev,
    ) -> Result<Found<'a>, AllocError>
        ensures { IfOk result (λ found. IsFound query.now found
            (live self.now.versions place query.now.range)) }
    {
        let keys = self.index.keys_in(&query.range)?;
        collect(alloc, self.table, &keys, query, place)
    }
}

/// What the version at a revision shows.
fn held(table: &VersionTable, rev: Rev) -> Option<KvRef<'_>>
    ensures value { option_map kv_view result ≡ read_at table.now rev }
    ensures rising { IsRising table.now }
{
    match table.get(rev) {
        Some(version) => key_value_of(version),
        None => None,
    }
}

/// What a key of the index holds at a place.
fn held_at<'a>(table: &'a VersionTable, key: &Indexed<'a>, place: Rev) -> Option<KvRef<'a>>
    ensures { option_map kv_view result ≡ read_entry table.now place (entry_of key.now) }
{
    match key.revisions.at(place) {
        Some(rev) => held(table, rev),
        None => None,
    }
}

/// What those of the keys hold at a place that hold something.
fn collect<'a>(
    alloc: Global,
    table: &'a VersionTable,
    keys: &[Indexed<'a>],
    query: &RangeQuery,
    place: Rev,
) -> Result<Found<'a>, AllocError>
    ensures { IfOk result (λ found. IsFound query.now found
        (filter_map (read_entry table.now place) (map entry_of keys.now))) }
{
    let mut found = Found::new(alloc);
    for key in keys {
        match held_at(table, key, place) {
            Some(kv) => found.add(query, kv)?,
            None => {}
        }
    }
    Ok(found)
}

/// What the keys hold at a place, of those that hold something.
fn held_by<'a>(
    alloc: Global,
    table: &'a VersionTable,
    keys: &[Indexed<'a>],
    place: Rev,
) -> Result<Vec<KvRef<'a>>, AllocError>
    ensures { IfOk result (λ kvs. map kv_view kvs.items
        ≡ filter_map (read_entry table.now place) (map entry_of keys.now)) }
{
    let mut kvs = Vec::new(alloc);
    for key in keys {
        match held_at(table, key, place) {
            Some(kv) => kvs.push(kv)?,
            None => {}
        }
    }
    Ok(kvs)
}
