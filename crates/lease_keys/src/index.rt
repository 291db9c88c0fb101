//! From each lease to its keys.
ghost use Rattle.std.specs.Prelude.{◌≡◌, [], ◌∷◌, map, IfOk, OnOk, OnErr};
ghost use Rattle.kv_model.specs.Lists.{is_empty};
ghost use Rattle.store_laws.specs.Laws.{IsStrictlyAscending};
ghost use Rattle.lease_keys.specs.Holding.{ArePut, ArePartlyPut, lease_of};
ghost use Rattle.lease_keys.specs.Pairs.{AreAdded, AreRemoved, HaveKeys, keys_at};

use crate::set::KeySet;
use bytes::Bytes;
use kv_model::version::{Body, Version};
use std::alloc::{AllocError, Global};
use std::collections::BTreeMap;
use std::marker::Model;

/// Pairs of a lease and a key: of each lease an ordered set of its keys. A lease without keys has
/// no entry.
#[derive(Drop)]
pub struct LeaseKeys {
    alloc: Global,
    leases: BTreeMap<i64, KeySet>,
}

impl Model for LeaseKeys {
    ghost use Rattle.lease_keys.specs.Pairs.{HaveKeys, Pairs};

    ghost Value = { Pairs };

    ghost view = { λ x. x.leases.entries };

    ghost invariant = { λ x. HaveKeys x.leases.entries };
}

impl LeaseKeys {
    /// No pair. What comes takes its memory from `alloc`.
    pub fn new(alloc: Global) -> Self
        ensures { result ≡ [] }
    {
        LeaseKeys {
            alloc,
            leases: BTreeMap::new(alloc),
        }
    }

    /// Adds, of each of the versions that puts its key under a lease, that pair. 0 is no lease. The
    /// keys' bytes are shared, not copied.
    ///
    /// The error is want of memory, and the pairs of some of the versions are then added. The time
    /// is, for each of the versions, logarithmic in the number of leases and in that of the lease's
    /// keys.
    pub fn add_all(&mut self, versions: &[Version]) -> Result<(), AllocError>
        ensures ok { OnOk result (ArePut versions.now self.old self.new) }
        ensures err { OnErr result (ArePartlyPut versions.now self.old self.new) }
    {
        for version in versions {
            if let Err(full) = self.add_version(version) {
                return Err(full);
            }
        }
        Ok(())
    }

    /// Adds the pair of a version, where it puts its key under a lease.
    fn add_version(&mut self, version: &Version) -> Result<(), AllocError>
        ensures ok { OnOk result (ArePut (version.now ∷ []) self.old self.new) }
        ensures err { OnErr result (self.new ≡ self.old) }
    {
        match lease_of(&version.body) {
            Some(lease) => self.add(lease, &version.key),
            None => Ok(()),
        }
    }

    /// Adds a key to those of a lease, where it is not there.
    fn add(&mut self, lease: i64, key: &Bytes) -> Result<(), AllocError>
        ensures ok { OnOk result (AreAdded lease key.now self.old self.new) }
        ensures err { OnErr result (self.new ≡ self.old) }
    {
        add(self.alloc, &mut self.leases, lease, key)
    }

    /// Whether there is no pair. Takes no memory, and constant time.
    pub fn is_empty(&self) -> bool
        ensures { result ≡ is_empty self.now }
    {
        self.leases.is_empty()
    }

    /// Takes a key out of those of a lease, where it is there. A lease that is left without keys
    /// has no entry any more.
    ///
    /// Takes no memory. The time is logarithmic in the number of leases and in that of the lease's
    /// keys.
    pub(crate) fn remove(&mut self, lease: i64, key: &Bytes)
        ensures { AreRemoved lease key.now self.old self.new }
    {
        remove(self.alloc, &mut self.leases, lease, key);
    }

    /// The keys of a lease, ascending.
    ///
    /// The error is want of memory. The time is logarithmic in the number of leases, and linear in
    /// that of the lease's keys.
    pub fn keys_of(&self, lease: i64) -> Result<Vec<&Bytes>, AllocError>
        ensures keys { IfOk result (λ ks. map (λ k. k.now) ks.items ≡ keys_at lease self.now) }
        ensures ascending { IsStrictlyAscending (keys_at lease self.now) }
    {
        match self.leases.get(&lease) {
            Some(keys) => keys.keys(self.alloc),
            None => Ok(Vec::new(self.alloc)),
        }
    }
}

/// The lease that a put names, where it names one.
pub(crate) fn lease_of(body: &Body) -> Option<i64>
    ensures { result ≡ lease_of body.now }
{
    match body {
        Body::Put { lease, .. } if *lease != 0 => Some(*lease),
        _ => None,
    }
}

/// Adds a key to those of a lease.
fn add(
    alloc: Global,
    leases: &mut BTreeMap<i64, KeySet>,
    lease: i64,
    key: &Bytes,
) -> Result<(), AllocError>
    ensures ok { OnOk result (AreAdded lease key.now leases.old.entries leases.new.entries) }
    ensures err { OnErr result (leases.new.entries ≡ leases.old.entries) }
    ensures kept { HaveKeys leases.old.entries → HaveKeys leases.new.entries }
{
    if let Some(keys) = leases.get_mut(&lease) {
        return keys.add(alloc, key);
    }
    let keys = KeySet::one(key)?;
    leases.insert(lease, keys)?;
    Ok(())
}

/// Takes a key out of those of a lease. A lease that is left without keys goes.
fn remove(alloc: Global, leases: &mut BTreeMap<i64, KeySet>, lease: i64, key: &Bytes)
    ensures removed { AreRemoved lease key.now leases.old.entries leases.new.entries }
    ensures kept { HaveKeys leases.old.entries → HaveKeys leases.new.entries }
{
    let Some(keys) = leases.get_mut(&lease) else {
        return;
    };
    if keys.remove(alloc, key) {
        leases.remove(&lease);
    }
}
