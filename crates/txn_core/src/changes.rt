//! The versions that a transaction makes, numbered as they come.
ghost use Rattle.std.specs.Prelude.{◌≡◌, [], ◌∷◌, ◌++◌, ℕ, List, true, false, length, OnOk, OnErr};
ghost use Rattle.std.specs.Prelude.{map};
ghost use Rattle.kv_model.specs.Ranges.{keys_of};
ghost use Rattle.kv_model.specs.History.{is_tombstone};
ghost use Rattle.range_view.specs.Replies.{kv_view};
ghost use Rattle.txn_core.specs.Graves.{has_key};
ghost use Rattle.txn_core.specs.Planning as planning;

use crate::delete::tombstone;
use crate::deleted;
use kv_model::version::{Rev, Version};
use range_view::reply::KvRef;
use std::alloc::{AllocError, Global};
use std::collections::BTreeSet;
use std::marker::Model;

/// The versions that a transaction has made so far, and the keys that it has deleted, lent from
/// what is kept.
#[derive(Drop)]
pub(crate) struct Changes<'a> {
    alloc: Global,
    versions: Vec<Version>,
    deleted: BTreeSet<&'a [u8]>,
}

impl<'a> Model for Changes<'a> {
    ghost use Rattle.std.specs.Prelude.{◌≡◌, ℕ, List};
    ghost use Rattle.kv_model.specs.declared.version.Version.{Version};
    ghost use Rattle.txn_core.specs.Graves.{has_key};
    ghost use Rattle.txn_core.specs.Planning.{is_gone};

    ghost Value = { List Version };

    ghost view = { λ c. c.versions.items };

    ghost invariant = { λ c. (k : List ℕ) → has_key k c.deleted ≡ is_gone c.versions.items k };
}

impl<'a> Changes<'a> {
    /// No version, and no key deleted.
    pub(crate) fn new(alloc: Global) -> Self
        ensures { result ≡ [] }
    {
        Changes {
            alloc,
            versions: Vec::new(alloc),
            deleted: deleted::none(alloc),
        }
    }

    /// The versions.
    pub(crate) fn into_versions(self) -> Vec<Version>
        ensures { result.items ≡ self.entry }
    {
        self.versions
    }

    /// The place of the next version, at a revision.
    pub(crate) fn next_rev(&self, main: u64) -> Rev
        ensures { result ≡ record { main = main; sub = length self.now } }
    {
        Rev {
            main,
            sub: self.versions.len() as u64,
        }
    }

    /// Adds a version that is no tombstone. The error is want of memory.
    pub(crate) fn push(&mut self, version: Version) -> Result<(), AllocError>
        requires { is_tombstone version.body ≡ false }
        ensures { OnOk result (self.new ≡ self.old ++ version ∷ []) }
    {
        self.versions.push(version)?;
        Ok(())
    }

    /// Deletes the keys of these key-values at a revision: adds a tombstone of each that is not
    /// deleted already, numbered on in their order. The keys are copied. The error is want of
    /// memory.
    ///
    /// Each key takes time logarithmic in the number of keys deleted so far.
    pub(crate) fn delete(&mut self, main: u64, live: &[KvRef<'a>]) -> Result<(), AllocError>
        ensures { OnOk result
            (self.new ≡ planning.with_graves main self.old (keys_of (map kv_view live.now))) }
    {
        for kv in live {
            self.bury(main, kv.key)?;
        }
        Ok(())
    }

    /// Adds the tombstone of a key, if there is none yet.
    fn bury(&mut self, main: u64, key: &'a [u8]) -> Result<(), AllocError>
        ensures { OnOk result (self.new ≡ planning.with_grave main self.old key.now) }
    {
        if deleted::has(&self.deleted, key) {
            return Ok(());
        }
        let grave = tombstone(self.alloc, self.next_rev(main), key)?;
        add_tombstone(&mut self.versions, &mut self.deleted, grave, key)
    }
}

/// Adds a tombstone, and its key to those that are deleted; neither where there is no memory.
fn add_tombstone<'a>(
    versions: &mut Vec<Version>,
    deleted: &mut BTreeSet<&'a [u8]>,
    tombstone: Version,
    key: &'a [u8],
) -> Result<(), AllocError>
    requires body { is_tombstone tombstone.body ≡ true }
    requires key { tombstone.key ≡ key.now }
    requires tied { (k : List ℕ) → has_key k deleted.old ≡ planning.is_gone versions.old.items k }
    ensures tied { (k : List ℕ) → has_key k deleted.new ≡ planning.is_gone versions.new.items k }
    ensures ok { OnOk result (versions.new.items ≡ versions.old.items ++ tombstone ∷ []) }
{
    versions.push(tombstone)?;
    if deleted::add(deleted, key).is_err() {
        versions.pop();
        return Err(AllocError);
    }
    Ok(())
}
