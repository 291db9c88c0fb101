//! A table of versions in pages, rising by revision (etcd: data model): what is taken out moves no
//! version but those on its own page.
ghost use Rattle.std.specs.Prelude.{◌≡◌, ◌≤◌, ◌<◌, ◌*◌, [], ◌∷◌, ◌++◌, length, filter, not, option_map};
ghost use Rattle.std.specs.Prelude.{option_copied, OnOk, OnErr, Some, true, false};
ghost use Rattle.std.specs.List.{find};
ghost use Rattle.kv_model.specs.History.{rev_lt, is_at, without_rev};
ghost use Rattle.version_table.specs.Rising.{IsBehind, IsRising, is_newest, newest, retracted};

use crate::page::Page;
use crate::walk::Versions;
use crate::{growth, pages};
use kv_model::version::{Rev, Version};
use std::alloc::{AllocError, Global};
use std::marker::Model;

/// The versions of all keys, one list that rises by revision. Beside its pages it may have the
/// memory of one more.
#[derive(Drop)]
pub struct VersionTable {
    alloc: Global,
    pages: Vec<Page>,
    spare: Option<Page>,
    len: usize,
}

impl Model for VersionTable {
    ghost use Rattle.std.specs.Prelude.{List};
    ghost use Rattle.kv_model.specs.declared.version.Version.{Version};
    ghost use Rattle.version_table.specs.Paged.{ArePages, flat};

    ghost Value = { List Version };

    ghost view = { λ t. flat t.pages.items };

    ghost invariant = { λ t. ArePages t.pages.items t.spare t.len };
}

impl VersionTable {
    /// The empty table, which takes its memory from `alloc` as it grows.
    pub fn new(alloc: Global) -> Self
        ensures { result ≡ [] }
    {
        VersionTable {
            alloc,
            pages: Vec::new(alloc),
            spare: None,
            len: 0,
        }
    }

    /// The number of versions. Constant time.
    pub fn len(&self) -> usize
        ensures { result ≡ length self.now }
    {
        self.len
    }

    /// The number of pages: never more than there are versions, since one without versions is
    /// freed, and never fewer than the versions fill, 256 to a page. Constant time.
    pub fn pages(&self) -> usize
        ensures most { result ≤ length self.now }
        ensures least { length self.now ≤ 256 * result }
    {
        self.pages.len()
    }

    /// Adds a version at the end. Its revision is above each one in the table.
    ///
    /// The error is want of memory, and the table is then as it was. Memory is taken for a new page
    /// alone, for two pages of 256 versions at once. Constant time, but for the growth of the list
    /// of pages.
    pub fn push(&mut self, version: Version) -> Result<(), AllocError>
        requires { IsBehind version.rev self.old }
        ensures ok { OnOk result (self.new ≡ self.old ++ version ∷ []) }
        ensures err { OnErr result (self.new ≡ self.old) }
    {
        // No memory holds 2^64 versions.
        let Some(len) = self.len.checked_add(1) else {
            return Err(AllocError);
        };
        growth::push(&mut self.pages, &mut self.spare, self.alloc, version)?;
        self.len = len;
        Ok(())
    }

    /// The versions in order, lent one after another. Takes no memory, and constant time.
    pub fn versions(&self) -> Versions<'_>
        ensures value { result ≡ self.now }
        ensures rising { IsRising self.now }
    {
        Versions::all(&self.pages)
    }

    /// The versions that are not before a revision, lent one after another. Takes no memory, and
    /// logarithmic time.
    pub fn versions_from(&self, rev: Rev) -> Versions<'_>
        ensures value { result ≡ filter (λ v. not (rev_lt v.rev rev)) self.now }
        ensures rising { IsRising self.now }
    {
        pages::walk_from(&self.pages, rev)
    }

    /// The version at a revision. Takes no memory.
    ///
    /// Constant time where the table has one version of each main revision from its first one to
    /// this: it looks first at the place that the revision then has. Elsewhere, as behind a command
    /// of several changes or behind trimmed versions, it gallops from there: time that is
    /// logarithmic in how many versions away it stands.
    pub fn get(&self, rev: Rev) -> Option<&Version>
        ensures value { option_copied result ≡ find (is_at rev) self.now }
        ensures rising { IsRising self.now }
    {
        pages::get(&self.pages, rev)
    }

    /// The first version that is not before a revision. Takes no memory, and logarithmic time.
    pub fn first_from(&self, rev: Rev) -> Option<&Version>
        ensures value { option_copied result ≡ find (λ v. not (rev_lt v.rev rev)) self.now }
        ensures rising { IsRising self.now }
    {
        pages::first_from(&self.pages, rev)
    }

    /// The first revision in the table that is not before the given one. Takes no memory, and
    /// logarithmic time.
    pub fn next_from(&self, rev: Rev) -> Option<Rev>
        ensures value { result ≡ option_map (λ v. v.rev)
            (find (λ v. not (rev_lt v.rev rev)) self.now) }
        ensures rising { IsRising self.now }
    {
        self.first_from(rev).map(|version| version.rev)
    }

    /// Takes out the version at a revision, and nothing where there is none. Takes no memory.
    ///
    /// It is found in logarithmic time; where it is not the first on its page those behind it there move
    /// one place, and where the page has no other version, the pages behind it move one place in the list
    /// of pages.
    pub fn remove(&mut self, rev: Rev)
        ensures { self.new ≡ without_rev (Some rev) self.old }
    {
        let gone = growth::remove(&mut self.pages, rev);
        self.len -= gone;
    }

    /// Takes a main revision back where it is the newest: all versions of it go, and of any other
    /// none. Takes no memory.
    ///
    /// The time is logarithmic in the number of versions for each of those that go.
    pub fn retract(&mut self, main: u64)
        ensures { self.new ≡ retracted main self.old }
    {
        'taking: while self.take_last(main) {}
    }

    /// Takes out the last version where it is of a main revision. Tells whether it was.
    fn take_last(&mut self, main: u64) -> bool
        ensures taken { result ≡ true → retracted main self.new ≡ retracted main self.old }
        ensures fewer { result ≡ true → length self.new < length self.old }
        ensures left { result ≡ false → (self.new ≡ self.old)
            × (is_newest main self.old ≡ false) }
    {
        match self.newest() {
            Some(version) if version.rev.main == main => {
                let last = version.rev;
                self.remove(last);
                true
            }
            _ => false,
        }
    }

    /// The last version. Constant time.
    fn newest(&self) -> Option<&Version>
        ensures value { option_copied result ≡ newest self.now }
        ensures rising { IsRising self.now }
    {
        pages::newest(&self.pages)
    }
}
