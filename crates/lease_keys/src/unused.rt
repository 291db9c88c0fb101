//! Pairs that no key needs any more.
ghost use Rattle.std.specs.Prelude.{◌≡◌, option_map};
ghost use Rattle.kv_model.specs.History.{value_at};
ghost use Rattle.range_view.specs.Replies.{kv_view};
ghost use Rattle.lease_keys.specs.Holding.{AreSettled, AreTakenBack, IsUnusedDropped};
ghost use Rattle.lease_keys.specs.Holding.{lease_held, lease_of};
ghost use Rattle.std.specs.Prelude.{[], ◌∷◌};

use crate::index::{LeaseKeys, lease_of};
use crate::walk::held;
use bytes::Bytes;
use kv_model::version::Version;
use range_view::Versions;
use range_view::reply::KvRef;
use range_view::view::View;

impl LeaseKeys {
    /// Takes the pairs back that versions put, where their keys do not hold, at the view's place,
    /// what was put under their leases. After an `add_all` of them, also one that failed half way,
    /// with a view of what stood before them, the index is as it was.
    ///
    /// Takes no memory. The time is, for each of the versions, that of `View::get`, and logarithmic
    /// in the number of leases and in that of the lease's keys.
    pub fn take_back(&mut self, before: &View<'_>, versions: Versions<'_>)
        ensures { AreTakenBack versions.entry
            (value_at before.now.versions before.now.place) self.old self.new }
    {
        let mut versions = versions;
        while let Some(version) = versions.next() {
            self.drop_unused(before, lease_of(&version.body), &version.key);
        }
    }

    /// Takes out, of the keys of versions, the pairs that they put and those of what the keys held
    /// before, where the keys do not hold now what was put under these leases. After an `add_all`
    /// of them, with views of what stood before them and of what stands now, no pair is left of
    /// what they replaced.
    ///
    /// Takes no memory. The time is constant where there is no pair, and else, for each of the
    /// versions, three times that of `View::get`, and logarithmic in the number of leases and in
    /// that of the lease's keys.
    pub fn settle(&mut self, before: &View<'_>, now: &View<'_>, versions: Versions<'_>)
        ensures { AreSettled versions.entry (value_at before.now.versions before.now.place)
            (value_at now.now.versions now.now.place) self.old self.new }
    {
        if self.is_empty() {
            return;
        }
        self.settle_all(before, now, versions);
    }

    /// The same, where there may be a pair.
    fn settle_all(&mut self, before: &View<'_>, now: &View<'_>, versions: Versions<'_>)
        ensures { AreSettled versions.entry (value_at before.now.versions before.now.place)
            (value_at now.now.versions now.now.place) self.old self.new }
    {
        let mut versions = versions;
        while let Some(version) = versions.next() {
            self.settle_one(before, now, version);
        }
    }

    /// The same of one version.
    fn settle_one(&mut self, before: &View<'_>, now: &View<'_>, version: &Version)
        ensures { AreSettled (version.now ∷ []) (value_at before.now.versions before.now.place)
            (value_at now.now.versions now.now.place) self.old self.new }
    {
        self.drop_unused(now, lease_of(&version.body), &version.key);
        self.drop_unused(now, lease_held(before.get(&version.key)), &version.key);
    }

    /// Takes the pair of a lease and a key out, where there is a lease and the key does not hold,
    /// at the view's place, what was put under it.
    fn drop_unused(&mut self, view: &View<'_>, named: Option<i64>, key: &Bytes)
        ensures { IsUnusedDropped named key.now
            (value_at view.now.versions view.now.place) self.old self.new }
    {
        let Some(lease) = named else {
            return;
        };
        if held(view, key, lease).is_none() {
            self.remove(lease, key);
        }
    }
}

/// The lease that what a key holds was put under.
fn lease_held(held: Option<KvRef<'_>>) -> Option<i64>
    ensures { result ≡ lease_held (option_map kv_view held.entry) }
{
    match held {
        Some(kv) if kv.lease != 0 => Some(kv.lease),
        _ => None,
    }
}
