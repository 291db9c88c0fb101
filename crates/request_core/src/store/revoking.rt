//! The keys of a lease, and its revoke.
ghost use Rattle.kv_model.specs.Leases.{without_lease};
ghost use Rattle.range_view.specs.Replies.{kv_view};
ghost use Rattle.std.specs.Prelude.{◌≡◌, ◌++◌, ◌+◌, map, [], length, IfOk, IfErr, OnOk, OnErr, None};

use super::Core;
use crate::answer::Todo;
use crate::writing::tombstones;
use kv_model::feed::Sink;
use kv_model::refusal::Refusal;
use kv_model::version::Version;
use range_view::reply::KvRef;
use range_view::revision::end_of;
use std::alloc::AllocError;

impl Core {
    ghost use Rattle.kv_model.specs.Calls.{Call};
    ghost use Rattle.request_core.specs.State.{IsTold, added_by, floor_by, added_by_revoke};
    ghost use Rattle.request_core.specs.State.{after_revoke, fault_of_revoke, leased, leased_in};
    ghost use Rattle.request_core.specs.Answers.{IsFirst};
    ghost use Rattle.store_laws.specs.Stores.{refusal_of_revoke};
    ghost use Rattle.request_core.specs.Commands.{CarriesOut, Refuses};

    /// A revoke appends the tombstones of the lease's keys at the next revision, and nothing where
    /// it has none, and takes the lease out.
    pub(crate) fn apply_revoke<'c, S: Sink>(
        &mut self,
        id: i64,
        sink: &mut S,
    ) -> Result<Todo<'c>, Refusal>
        ensures done { IfOk result (λ t. CarriesOut self.old self.new (Call.revoke id) t) }
        ensures grows { OnOk result (self.new.store.versions
            ≡ self.old.store.versions ++ added_by self.old.store (Call.revoke id)) }
        ensures floors { OnOk result
            (self.new.store.compacted ≡ floor_by self.old.store (Call.revoke id)) }
        ensures told { OnOk result
            (IsTold S.takes (added_by self.old.store (Call.revoke id)) sink.old sink.new) }
        ensures refused { IfErr result (λ e. Refuses self.old self.new (Call.revoke id) e) }
        ensures untold { OnErr result (sink.new ≡ sink.old) }
    {
        match self.revoke(id, sink) {
            Ok(_) => Ok(Todo::Revoke),
            Err(refusal) => Err(refusal),
        }
    }

    /// Takes a lease and its keys out, and tells how many keys. What can fail comes first, and the
    /// sink's taking last.
    pub(crate) fn revoke<S: Sink>(&mut self, id: i64, sink: &mut S) -> Result<u64, Refusal>
        ensures made { IfOk result
            (λ n. (fault_of_revoke self.old.store id ≡ None)
            × (self.new ≡ after_revoke self.old id)) }
        ensures counted { IfOk result (λ n. n ≡ length (leased_in self.old.store id)) }
        ensures told { OnOk result
            (IsTold S.takes (added_by_revoke self.old.store id) sink.old sink.new) }
        ensures refused { IfErr result (λ e. IsFirst e (refusal_of_revoke self.old.store id)
            (fault_of_revoke self.old.store id)) }
        ensures err { OnErr result ((self.new ≡ self.old) × (sink.new ≡ sink.old)) }
    {
        let versions = match self.versions_of_revoke(id) {
            Ok(versions) => versions,
            Err(refusal) => return Err(refusal),
        };
        let deleted = versions.len() as u64;
        if self.append_any(versions, sink).is_err() {
            return Err(Refusal::Memory);
        }
        self.take_lease(id);
        Ok(deleted)
    }

    /// The tombstones that a revoke adds, or its first refusal.
    fn versions_of_revoke(&self, id: i64) -> Result<Vec<Version>, Refusal>
        ensures made { IfOk result
            (λ vs. (fault_of_revoke self.now.store id ≡ None)
            × (vs.items ≡ added_by_revoke self.now.store id)) }
        ensures refused { IfErr result (λ e. IsFirst e (refusal_of_revoke self.now.store id)
            (fault_of_revoke self.now.store id)) }
    {
        let main = self.tables.revision() + 1;
        if !self.book.is_granted(id) {
            return Err(Refusal::LeaseMissing);
        }
        let Ok(held) = self.keys_of_lease(id) else {
            return Err(Refusal::Memory);
        };
        if !held.is_empty() && self.is_spent() {
            return Err(Refusal::RevisionsSpent);
        }
        match tombstones(self.alloc, main, &held) {
            Ok(versions) => Ok(versions),
            Err(_) => Err(Refusal::Memory),
        }
    }

    /// The live keys whose last put names the lease, in the order of the keys, lent from the
    /// versions.
    ///
    /// `AllocError` comes where a list found no memory. They are found by the index, and looked up
    /// each in time logarithmic in the keys and the versions; no other key is.
    pub(crate) fn keys_of_lease(&self, id: i64) -> Result<Vec<KvRef<'_>>, AllocError>
        ensures { IfOk result (λ kvs. map kv_view kvs.items ≡ leased_in self.now.store id) }
    {
        let place = end_of(self.tables.revision());
        self.keys.live(self.alloc, &self.tables.view_at(place), id)
    }

    /// Takes a lease out of the book.
    fn take_lease(&mut self, id: i64)
        ensures { self.new ≡ leased self.old (without_lease id self.old.store.leases) }
    {
        let _found = self.book.revoke(id);
    }
}
