//! DeleteRange.
ghost use Rattle.kv_model.specs.History.{end_of};
ghost use Rattle.kv_model.specs.Ranges.{live};
ghost use Rattle.kv_model.specs.Txns.{if_asked};
ghost use Rattle.range_view.specs.Replies.{kv_view};
ghost use Rattle.std.specs.Prelude.{◌≡◌, ◌++◌, map, ◌-◌, [], length, IfOk, IfErr, OnOk, OnErr, None};

use super::Core;
use crate::answer::Todo;
use crate::writing::tombstones;
use kv_model::call::DeleteRequest;
use kv_model::feed::Sink;
use kv_model::refusal::Refusal;
use kv_model::version::{KeyRange, Version};
use range_view::reply::KvRef;
use range_view::revision::end_of;
use std::alloc::AllocError;

impl Core {
    ghost use Rattle.kv_model.specs.Calls.{Call};
    ghost use Rattle.request_core.specs.State.{IsTold, added_by, floor_by, fault_of_delete, added_by_delete};
    ghost use Rattle.request_core.specs.State.{after_delete, live_in};
    ghost use Rattle.request_core.specs.Answers.{IsFirst};
    ghost use Rattle.store_laws.specs.Stores.{refusal_of_delete};
    ghost use Rattle.request_core.specs.Commands.{CarriesOut, Refuses};

    /// A DeleteRange appends the tombstones of the live keys of its range at the next revision, and
    /// nothing where none is live.
    pub(crate) fn apply_delete<'c, S: Sink>(
        &mut self,
        request: &'c DeleteRequest,
        sink: &mut S,
    ) -> Result<Todo<'c>, Refusal>
        ensures done { IfOk result (λ t. CarriesOut self.old self.new (Call.delete request.now) t) }
        ensures grows { OnOk result (self.new.store.versions
            ≡ self.old.store.versions ++ added_by self.old.store (Call.delete request.now)) }
        ensures floors { OnOk result
            (self.new.store.compacted ≡ floor_by self.old.store (Call.delete request.now)) }
        ensures told { OnOk result
            (IsTold S.takes (added_by self.old.store (Call.delete request.now)) sink.old sink.new) }
        ensures refused { IfErr result
            (λ e. Refuses self.old self.new (Call.delete request.now) e) }
        ensures untold { OnErr result (sink.new ≡ sink.old) }
    {
        match self.delete(request, sink) {
            Ok(deleted) => Ok(Todo::Delete {
                range: &request.range,
                previous: request.prev_kv,
                deleted,
            }),
            Err(refusal) => Err(refusal),
        }
    }

    /// Appends the tombstones of a delete, and tells how many. What can fail comes first, and the
    /// sink's taking last.
    fn delete<S: Sink>(&mut self, request: &DeleteRequest, sink: &mut S) -> Result<u64, Refusal>
        ensures made { IfOk result
            (λ n. (fault_of_delete self.old.store request.now ≡ None)
            × (self.new ≡ after_delete self.old request.now)) }
        ensures counted { IfOk result (λ n. n ≡ length (live_in self.old.store request.now.range)) }
        ensures told { OnOk result
            (IsTold S.takes (added_by self.old.store (Call.delete request.now)) sink.old sink.new) }
        ensures refused { IfErr result
            (λ e. IsFirst e (refusal_of_delete request.now)
            (fault_of_delete self.old.store request.now)) }
        ensures err { OnErr result ((self.new ≡ self.old) × (sink.new ≡ sink.old)) }
    {
        let versions = match self.versions_of_delete(request) {
            Ok(versions) => versions,
            Err(refusal) => return Err(refusal),
        };
        let deleted = versions.len() as u64;
        if self.append_any(versions, sink).is_err() {
            return Err(Refusal::Memory);
        }
        Ok(deleted)
    }

    /// The tombstones that a delete adds, or its first refusal.
    fn versions_of_delete(&self, request: &DeleteRequest) -> Result<Vec<Version>, Refusal>
        ensures made { IfOk result
            (λ vs. (fault_of_delete self.now.store request.now ≡ None)
            × (vs.items ≡ added_by_delete self.now.store request.now)) }
        ensures refused { IfErr result
            (λ e. IsFirst e (refusal_of_delete request.now)
            (fault_of_delete self.now.store request.now)) }
    {
        let main = self.tables.revision() + 1;
        if request.range.key.is_empty() {
            return Err(Refusal::NoKey);
        }
        let Ok(live) = self.tables.view().live(self.alloc, &request.range) else {
            return Err(Refusal::Memory);
        };
        if !live.is_empty() && self.is_spent() {
            return Err(Refusal::RevisionsSpent);
        }
        match tombstones(self.alloc, main, &live) {
            Ok(versions) => Ok(versions),
            Err(_) => Err(Refusal::Memory),
        }
    }

    /// What the keys of a range held before a revision, where it is asked for.
    pub(crate) fn values_before(
        &self,
        revision: u64,
        range: &KeyRange,
        asked: bool,
    ) -> Result<Vec<KvRef<'_>>, AllocError>
        ensures { IfOk result
            (λ kvs. map kv_view kvs.items
            ≡ if_asked asked (live self.now.store.versions (end_of (revision - 1)) range.now)) }
    {
        if asked {
            let place = end_of(revision.saturating_sub(1));
            self.tables.view_at(place).live(self.alloc, range)
        } else {
            Ok(Vec::new(self.alloc))
        }
    }
}
