//! The keys of one lease, in order.
ghost use Rattle.std.specs.Prelude.{◌≡◌, [], ◌∷◌, map, IfOk, OnOk, OnErr};
ghost use Rattle.std.specs.BTreeSet.{insert_key};
ghost use Rattle.kv_model.specs.Keys.{key_cmp};
ghost use Rattle.kv_model.specs.Lists.{is_empty};
ghost use Rattle.store_laws.specs.Laws.{IsStrictlyAscending};
ghost use Rattle.lease_keys.specs.Pairs.{without_key};

use bytes::Bytes;
use std::alloc::{AllocError, Global};
use std::collections::BTreeSet;
use std::marker::Model;

/// The keys of one lease. A single one, as most leases have, takes no memory of its own; more, and
/// none at all, stand in an ordered set of the standard library.
#[derive(Drop)]
pub(crate) struct KeySet {
    held: Held,
}

#[derive(Drop)]
enum Held {
    One(Bytes),
    Many(BTreeSet<Bytes>),
}

impl Model for KeySet {
    ghost use Rattle.std.specs.Prelude.{ℕ, List};
    ghost use Rattle.lease_keys.specs.Sets.{held_keys};

    ghost Value = { List (List ℕ) };

    ghost view = { λ s. held_keys s.held };
}

impl KeySet {
    /// One key.
    pub(crate) fn one(key: &Bytes) -> Result<Self, AllocError>
        ensures { IfOk result (λ s. s ≡ key.now ∷ []) }
    {
        Ok(KeySet {
            held: Held::One(key.clone()?),
        })
    }

    /// Adds a key, where it is not there.
    pub(crate) fn add(&mut self, alloc: Global, key: &Bytes) -> Result<(), AllocError>
        ensures ok { OnOk result (self.new ≡ insert_key key_cmp self.old key.now) }
        ensures err { OnErr result (self.new ≡ self.old) }
    {
        match &mut self.held {
            Held::One(one) => {
                let keys = two(alloc, one, key)?;
                self.held = Held::Many(keys);
            }
            Held::Many(keys) => {
                keys.insert(key.clone()?)?;
            }
        }
        Ok(())
    }

    /// Takes a key out, where it is there. Answers whether no key is left. Takes no memory.
    pub(crate) fn remove(&mut self, alloc: Global, key: &Bytes) -> bool
        ensures keys { self.new ≡ without_key key.now self.old }
        ensures left { result ≡ is_empty self.new }
    {
        match &mut self.held {
            Held::One(one) => {
                let last = key == one;
                if last {
                    self.held = Held::Many(BTreeSet::new(alloc));
                }
                last
            }
            Held::Many(keys) => {
                keys.remove(key);
                keys.is_empty()
            }
        }
    }

    /// The keys, ascending.
    pub(crate) fn keys(&self, alloc: Global) -> Result<Vec<&Bytes>, AllocError>
        ensures keys { IfOk result (λ ks. map (λ k. k.now) ks.items ≡ self.now) }
        ensures ascending { IsStrictlyAscending self.now }
    {
        match &self.held {
            Held::One(one) => just(alloc, one),
            Held::Many(keys) => all(alloc, keys),
        }
    }
}

/// A set of two keys, or of one where they are the same.
fn two(alloc: Global, one: &Bytes, other: &Bytes) -> Result<BTreeSet<Bytes>, AllocError>
    ensures { IfOk result (λ s. s.keys ≡ insert_key key_cmp (one.now ∷ []) other.now) }
{
    let mut keys = BTreeSet::new(alloc);
    keys.insert(one.clone()?)?;
    keys.insert(other.clone()?)?;
    Ok(keys)
}

/// A key by itself.
fn just(alloc: Global, one: &Bytes) -> Result<Vec<&Bytes>, AllocError>
    ensures { IfOk result (λ ks. map (λ k. k.now) ks.items ≡ one.now ∷ []) }
{
    let mut keys = Vec::with_capacity(alloc, 1)?;
    keys.push(one)?;
    Ok(keys)
}

/// The keys of a set.
fn all(alloc: Global, keys: &BTreeSet<Bytes>) -> Result<Vec<&Bytes>, AllocError>
    ensures keys { IfOk result (λ ks. map (λ k. k.now) ks.items ≡ keys.now.keys) }
    ensures ascending { IsStrictlyAscending keys.now.keys }
{
    keys.iter().collect(alloc)
}
