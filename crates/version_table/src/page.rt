//! A page of a table: so many places, and the versions that stand in them.
ghost use Rattle.std.specs.Prelude.{◌≡◌, ◌↔◌, ◌+◌, ◌<◌, [], length, nat_lt};
ghost use Rattle.std.specs.Prelude.{IfOk, IsOk, OnOk, OnErr, IsTrue};
ghost use Rattle.version_table.specs.Paged.{blank, is_past, with_version, without_at, without_version};
ghost use Rattle.version_table.specs.Rising.{IsRising};

use crate::halving::{index_of, is_before, newest, remove_at, rest_from};
use bytes::Bytes;
use kv_model::version::{Body, Rev, Version};
use std::alloc::{AllocError, Global};
use std::marker::Model;

/// How many places a page has.
pub(crate) const PLACES: usize = 256;

/// Versions side by side, and how many places of the page were ever used: the place of a version
/// that was taken out is not used again. While some place was never used the page has the memory of
/// all of them (the invariant of `Page`). So many as `gone` says stand before its first version and
/// hold nothing: trimming takes out the oldest, behind which none moves then.
#[derive(Drop)]
pub(crate) struct Page {
    used: usize,
    gone: usize,
    versions: Vec<Version>,
}

impl Model for Page {
    ghost use Rattle.std.specs.Prelude.{◌≤◌, drop, length, vec_capacity};
    ghost use Rattle.version_table.specs.Paged.{HasRoom, Places};

    ghost Value = { Places };

    ghost view = { λ p. record { used = p.used; versions = drop p.gone p.versions.items } };

    ghost invariant = { λ p. (p.gone ≤ length p.versions.items) × (length p.versions.items ≤ p.used)
        × (p.used ≤ 256) × HasRoom p.used (vec_capacity p.versions) };
}

impl Page {
    /// A page of which no place was ever used. It takes the memory of all its places at once: a page
    /// that grew would leave holes behind. The error is want of memory.
    pub(crate) fn blank(alloc: Global) -> Result<Page, AllocError>
        ensures { IfOk result (λ p. p ≡ blank) }
    {
        let versions = Vec::with_capacity(alloc, PLACES)?;
        Ok(Page {
            used: 0,
            gone: 0,
            versions,
        })
    }

    /// The versions, lent.
    pub(crate) fn versions(&self) -> &[Version]
        ensures { result.now ≡ self.now.versions }
    {
        rest_from(self.versions.as_slice(), self.gone)
    }

    /// Whether no version stands in the page.
    pub(crate) fn is_empty(&self) -> bool
        ensures { IsTrue result ↔ (self.now.versions ≡ []) }
    {
        self.versions().is_empty()
    }

    /// Whether some place was never used.
    pub(crate) fn has_room(&self) -> bool
        ensures { result ≡ nat_lt self.now.used 256 }
    {
        self.used < PLACES
    }

    /// Whether every version stands before a revision: the last one does.
    pub(crate) fn is_past(&self, rev: Rev) -> bool
        ensures { result ≡ is_past rev self.now }
    {
        match newest(self.versions()) {
            Some(version) => is_before(version.rev, rev),
            None => true,
        }
    }

    /// Puts a version into the first place that was never used. It never fails, for the page has
    /// the memory of all its places, and takes none.
    pub(crate) fn push(&mut self, version: Version) -> Result<(), AllocError>
        requires { self.old.used < 256 }
        ensures ok { OnOk result (self.new ≡ with_version version self.old) }
        ensures err { OnErr result (self.new ≡ self.old) }
        ensures room { IsOk result }
    {
        self.versions.push(version)?;
        self.used += 1;
        Ok(())
    }

    /// Takes out the version at a revision, and nothing where there is none. Tells how many went.
    /// It halves.
    pub(crate) fn remove(&mut self, rev: Rev) -> usize
        requires { IsRising self.old.versions }
        ensures value { self.new ≡ without_version rev self.old }
        ensures count { result + length self.new.versions ≡ length self.old.versions }
    {
        let Some(index) = index_of(self.versions(), rev) else {
            return 0;
        };
        self.take_out(index);
        self.lighten();
        1
    }

    /// Takes out the version at an index. Where it is the first its place holds nothing from then on,
    /// and else those behind it move one place.
    fn take_out(&mut self, index: usize)
        requires { index < length self.old.versions }
        ensures { self.new ≡ without_at index self.old }
    {
        if index == 0 {
            self.versions[self.gone] = nothing();
            self.gone += 1;
        } else {
            remove_at(&mut self.versions, self.gone + index);
        }
    }

    /// Gives room back where seven of eight places stand empty, of a page whose places were all used:
    /// what is left moves to where there is room for it alone, if that finds memory. So a few versions
    /// that last do not keep a whole page.
    fn lighten(&mut self)
        ensures { self.new ≡ self.old }
    {
        let room = self.versions.capacity();
        if self.used == PLACES && self.versions.len() - self.gone <= room / 8 {
            if let Ok(rest) = self.versions.split_off(self.gone) {
                self.versions = rest;
                self.gone = 0;
            }
        }
    }
}

/// What stands in a place that holds nothing. Takes no memory.
fn nothing() -> Version {
    Version {
        rev: Rev { main: 0, sub: 0 },
        key: Bytes::new(),
        body: Body::Gone,
    }
}
