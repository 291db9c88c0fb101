//! Put.
ghost use Rattle.kv_model.specs.History.{end_of, value_at};
ghost use Rattle.kv_model.specs.Txns.{previous_value};
ghost use Rattle.range_view.specs.Replies.{kv_view};
ghost use Rattle.request_core.specs.Writing.{AreNext};
ghost use Rattle.std.specs.Prelude.{◌≡◌, ◌++◌, option_map, ◌-◌, [], ◌∷◌, None};
ghost use Rattle.std.specs.Prelude.{IfOk, IfErr, OnOk, OnErr};

use super::Core;
use crate::answer::Todo;
use crate::writing::{fault_of_put, put_versions};
use bytes::Bytes;
use kv_model::call::PutRequest;
use kv_model::feed::Sink;
use kv_model::refusal::Refusal;
use kv_model::version::{Rev, Version};
use range_view::reply::KvRef;
use range_view::revision::end_of;

impl Core {
    ghost use Rattle.kv_model.specs.Calls.{Call};
    ghost use Rattle.request_core.specs.State.{IsTold, added_by, floor_by, fault_of_put, added_by_put};
    ghost use Rattle.request_core.specs.State.{after_put, held_in};
    ghost use Rattle.request_core.specs.Answers.{IsFault};
    ghost use Rattle.request_core.specs.Commands.{CarriesOut, Refuses};

    /// A Put appends one version at the next revision.
    pub(crate) fn apply_put<'c, S: Sink>(
        &mut self,
        request: &'c PutRequest,
        sink: &mut S,
    ) -> Result<Todo<'c>, Refusal>
        ensures done { IfOk result (λ t. CarriesOut self.old self.new (Call.put request.now) t) }
        ensures grows { OnOk result (self.new.store.versions
            ≡ self.old.store.versions ++ added_by self.old.store (Call.put request.now)) }
        ensures floors { OnOk result
            (self.new.store.compacted ≡ floor_by self.old.store (Call.put request.now)) }
        ensures told { OnOk result
            (IsTold S.takes (added_by self.old.store (Call.put request.now)) sink.old sink.new) }
        ensures refused { IfErr result (λ e. Refuses self.old self.new (Call.put request.now) e) }
        ensures untold { OnErr result (sink.new ≡ sink.old) }
    {
        if let Err(refusal) = self.put(request, sink) {
            return Err(refusal);
        }
        Ok(Todo::Put {
            key: &request.key,
            previous: request.prev_kv,
        })
    }

    /// Appends the version that a put makes. What can fail comes first, and the sink's taking last.
    fn put<S: Sink>(&mut self, request: &PutRequest, sink: &mut S) -> Result<(), Refusal>
        ensures made { OnOk result
            ((fault_of_put self.old.store request.now ≡ None)
            × (self.new ≡ after_put self.old request.now)) }
        ensures told { OnOk result
            (IsTold S.takes (added_by self.old.store (Call.put request.now)) sink.old sink.new) }
        ensures refused { IfErr result
            (λ e. IsFault e (fault_of_put self.old.store request.now)) }
        ensures err { OnErr result ((self.new ≡ self.old) × (sink.new ≡ sink.old)) }
    {
        let versions = match self.versions_of_put(request) {
            Ok(versions) => versions,
            Err(refusal) => return Err(refusal),
        };
        if self.append(versions, sink).is_err() {
            return Err(Refusal::Memory);
        }
        Ok(())
    }

    /// The one version that a put adds, or its first refusal.
    fn versions_of_put(&self, request: &PutRequest) -> Result<Vec<Version>, Refusal>
        ensures made { IfOk result
            (λ vs. (fault_of_put self.now.store request.now ≡ None)
            × (vs.items ≡ added_by_put self.now.store request.now ∷ [])) }
        ensures next { IfOk result (λ vs. AreNext self.now.store.revision vs.items) }
        ensures refused { IfErr result
            (λ e. IsFault e (fault_of_put self.now.store request.now)) }
    {
        let rev = Rev {
            main: self.tables.revision() + 1,
            sub: 0,
        };
        let held = self.held(&request.key);
        let is_granted = self.book.is_granted(request.lease);
        if let Some(refusal) = fault_of_put(request, held, is_granted, self.is_spent()) {
            return Err(refusal);
        }
        match put_versions(self.alloc, rev, request, held) {
            Ok(versions) => Ok(versions),
            Err(_) => Err(Refusal::Memory),
        }
    }

    /// What a key held before a revision, where it is asked for.
    pub(crate) fn value_before(&self, revision: u64, key: &Bytes, asked: bool) -> Option<KvRef<'_>>
        ensures { option_map kv_view result
            ≡ previous_value asked
            (value_at self.now.store.versions (end_of (revision - 1)) key.now) }
    {
        if asked {
            let place = end_of(revision.saturating_sub(1));
            self.tables.view_at(place).get(key)
        } else {
            None
        }
    }
}
