//! What a store keeps: the versions, the index of their keys, and the revisions it has come to
//! (etcd: data model).
ghost use Rattle.std.specs.Prelude.{◌≡◌, ◌<◌, ◌≤◌, ◌-◌, ◌==◌, ◌&&◌, nat_lt, true, OnOk, OnErr};
ghost use Rattle.std.specs.Prelude.{filter, length, nat_le};
ghost use Rattle.kv_model.specs.Keys.{same_key};
ghost use Rattle.kv_model.specs.History.{end_of};
ghost use Rattle.store_laws.specs.Stands.{first_main_of};
ghost use Rattle.version_table.specs.Rising.{retracted};
ghost use Rattle.range_view.specs.Stored.{IsStored, appended, blank, blank_at, compacted_at};
ghost use Rattle.range_view.specs.Stored.{goes_on, is_next, retracted_to, seen_at};
ghost use Rattle.range_view.specs.Stored.{trim_of, trimmed_once};
ghost use Rattle.trim_core.specs.Steps.{next_version};
ghost use Rattle.trim_core.specs.Told.{told_of};
ghost use Rattle.std.specs.Prelude.{option_copied};

use crate::growth::{add_all, take_back};
use crate::key_versions::KeyVersions;
use crate::revision::end_of;
use crate::view::View;
use bytes::Bytes;
use key_index::KeyIndex;
use kv_model::version::{Rev, Version};
use std::alloc::{AllocError, Global};
use std::marker::Model;
pub use trim_core::Trim;
use trim_core::Trimmer;
use version_table::VersionTable;
pub use version_table::Versions;

/// The versions that are kept with the index of their keys, the revision of the last compaction,
/// the present one, and how far trimming has come.
#[derive(Drop)]
pub struct Tables {
    table: VersionTable,
    index: KeyIndex,
    compacted: u64,
    revision: u64,
    trimmer: Trimmer,
}

impl Model for Tables {
    ghost use Rattle.range_view.specs.Stored.{Stored, AreTables};

    ghost Value = { Stored };

    ghost view = { λ t. record {
      versions = t.table;
      compacted = t.compacted;
      revision = t.revision;
      place = t.trimmer;
    } };

    ghost invariant = { λ t. AreTables t.index (record {
      versions = t.table;
      compacted = t.compacted;
      revision = t.revision;
      place = t.trimmer;
    }) };
}

/// Whether each version is of the revision of the one before, and numbered behind it.
fn goes_on(first: Rev, versions: &[Version]) -> bool
    ensures { result ≡ goes_on first versions.now }
{
    let mut last = first;
    for version in versions {
        if version.rev.main != last.main || version.rev.sub <= last.sub {
            return false;
        }
        last = version.rev;
    }
    true
}

/// The main revision of the first of the versions.
fn main_of(versions: &[Version]) -> Option<u64>
    ensures { result ≡ first_main_of versions.now }
{
    match versions.first() {
        Some(version) => Some(version.rev.main),
        None => None,
    }
}

/// Whether a main revision is the present one, and not the first.
fn is_present(main: u64, revision: u64) -> bool
    ensures { result ≡ (main == revision && nat_lt 1 main) }
{
    main == revision && main > 1
}

impl Tables {
    /// What a store keeps before its first change: no version, at revision 1.
    pub fn new(alloc: Global) -> Self
        ensures { result ≡ blank }
    {
        Tables::at(alloc, 1)
    }

    /// What a store keeps that has come to a revision, from 1 on, and has no version left. Takes no
    /// memory.
    pub fn at(alloc: Global, revision: u64) -> Self
        requires { 1 ≤ revision }
        ensures { result ≡ blank_at revision }
    {
        Tables {
            table: VersionTable::new(alloc),
            index: KeyIndex::new(alloc),
            compacted: 0,
            revision,
            trimmer: Trimmer::new(),
        }
    }

    /// The number of versions. Constant time.
    pub fn count(&self) -> usize
        ensures { result ≡ length self.now.versions }
    {
        self.table.len()
    }

    /// The versions, rising, up to the present revision, lent one after another. Takes no memory,
    /// and constant time.
    pub fn versions(&self) -> Versions<'_>
        ensures value { result ≡ self.now.versions }
        ensures stored { IsStored self.now }
    {
        self.table.versions()
    }

    /// The versions from a main revision on, lent one after another. Takes no memory, and time
    /// logarithmic in the number of versions.
    pub fn versions_from(&self, next: u64) -> Versions<'_>
        ensures value { result ≡ filter (λ v. nat_le next v.rev.main) self.now.versions }
        ensures stored { IsStored self.now }
    {
        self.table.versions_from(Rev { main: next, sub: 0 })
    }

    /// The versions of a key from a revision on, the oldest first, lent one after another. It goes
    /// by the index of keys, and comes by no version of another key. Takes no memory.
    ///
    /// The time is logarithmic in the number of keys and in that of the key's revisions, and that
    /// of each step logarithmic in the number of versions.
    pub fn versions_of(&self, key: &Bytes, next: u64) -> KeyVersions<'_>
        ensures value { result ≡ filter
            (λ v. nat_le next v.rev.main && same_key v.key key.now) self.now.versions }
        ensures stored { IsStored self.now }
    {
        KeyVersions::new(&self.table, &self.index, key, next)
    }

    /// The revision of the last compaction, 0 before the first.
    pub fn compacted(&self) -> u64
        ensures { result ≡ self.now.compacted }
    {
        self.compacted
    }

    /// The present revision.
    pub fn revision(&self) -> u64
        ensures value { result ≡ self.now.revision }
        ensures stored { IsStored self.now }
    {
        self.revision
    }

    /// What is kept, seen at a place.
    pub fn view_at(&self, place: Rev) -> View<'_>
        ensures { result ≡ seen_at place self.now }
    {
        View::new(
            &self.table,
            &self.index,
            self.compacted,
            self.revision,
            place,
        )
    }

    /// What is kept, seen at a place by a transaction that began at a revision: no Range of it
    /// reads a later revision.
    pub fn view_before(&self, revision: u64, place: Rev) -> View<'_>
        ensures { result ≡ record {
          versions = self.now.versions;
          compacted = self.now.compacted;
          revision = revision;
          place = place;
        } }
    {
        View::new(&self.table, &self.index, self.compacted, revision, place)
    }

    /// What is kept, seen at the end of the present revision.
    pub fn view(&self) -> View<'_>
        ensures { result ≡ seen_at (end_of self.now.revision) self.now }
    {
        self.view_at(end_of(self.revision))
    }

    /// Whether `append` takes these versions: they are all of the revision after the present one,
    /// and rise. Takes no memory, and time linear in their number.
    pub fn takes(&self, versions: &[Version]) -> bool
        ensures { result ≡ is_next self.now.revision versions.now }
    {
        match versions.split_first() {
            Some((first, rest)) => {
                first.rev.main > self.revision
                    && first.rev.main - self.revision == 1
                    && goes_on(first.rev, rest)
            }
            None => true,
        }
    }

    /// Adds the versions of the revision after the present one, which becomes the present one. No
    /// versions change nothing.
    ///
    /// Each version is copied; its key and its value are shared by count. The error is want of memory,
    /// and what is kept is then as it was. The time is logarithmic in the number of keys for each of
    /// the versions, but for the growth of a list.
    pub fn append(&mut self, versions: &[Version]) -> Result<(), AllocError>
        requires { is_next self.old.revision versions.now ≡ true }
        ensures ok { OnOk result (self.new ≡ appended self.old versions.now) }
        ensures err { OnErr result (self.new ≡ self.old) }
    {
        match main_of(versions) {
            Some(main) => self.append_all(main, versions),
            None => Ok(()),
        }
    }

    /// Adds the versions of a revision, of which there are some.
    fn append_all(&mut self, main: u64, versions: &[Version]) -> Result<(), AllocError>
        requires next { is_next self.old.revision versions.now ≡ true }
        requires first { first_main_of versions.now ≡ Some main }
        ensures ok { OnOk result (self.new ≡ appended self.old versions.now) }
        ensures err { OnErr result (self.new ≡ self.old) }
    {
        match add_all(&mut self.table, &mut self.index, main, versions) {
            Ok(()) => {
                self.revision = main;
                Ok(())
            }
            Err(error) => Err(error),
        }
    }

    /// Takes a revision back where it is the present one, with all its versions; the one before
    /// becomes the present one. Any other revision, and the first, changes nothing. Takes no
    /// memory. So what was appended last goes again.
    ///
    /// The time is logarithmic in the number of versions and, for each of those that go, in that of
    /// the keys.
    pub fn retract(&mut self, main: u64)
        ensures { self.new ≡ retracted_to main self.old }
    {
        if is_present(main, self.revision) {
            self.retract_present()
        }
    }

    /// Takes the present revision back, which is not the first.
    fn retract_present(&mut self)
        requires { 1 < self.old.revision }
        ensures { self.new ≡ record self.old {
          versions = retracted self.old.revision self.old.versions;
          revision = self.old.revision - 1;
        } }
    {
        take_back(&mut self.table, &mut self.index, self.revision);
        self.revision -= 1;
    }

    /// Notes an accepted compaction: trimming begins again at the oldest version. Takes no memory,
    /// and constant time.
    pub fn compact(&mut self, revision: u64)
        ensures { self.new ≡ compacted_at revision self.old }
    {
        self.compacted = revision;
        self.trimmer.restart();
    }

    /// The version that a trimming step would visit next, lent from the table; none where trimming
    /// is done. Takes no memory, and time logarithmic in the number of versions.
    pub fn next_visited(&self) -> Option<&Version>
        ensures value { option_copied result
            ≡ next_version self.now.versions self.now.place self.now.compacted }
        ensures stored { IsStored self.now }
    {
        self.trimmer.next(&self.table, self.compacted)
    }

    /// Makes one trimming step: the next version at or below the last compaction is visited, the
    /// oldest first, and taken out where a later version of its key is below the compaction, or
    /// where it is a tombstone below it. Where none is left to visit, nothing changes, and the
    /// answer is `Done` with the number of versions that are kept.
    ///
    /// Takes no memory. The time is logarithmic in the number of versions and of keys, but for the
    /// versions behind the one that goes on its page, which move one place unless it is the first there.
    pub fn trim_step(&mut self) -> Trim
        ensures stored { IsStored self.old }
        ensures told { told_of result ≡ (trim_of self.old).told }
        ensures kept { self.new ≡ trimmed_once self.old }
    {
        self.trimmer
            .step(&mut self.table, &mut self.index, self.compacted)
    }
}
