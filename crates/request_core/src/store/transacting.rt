//! Txn.
ghost use Rattle.kv_model.specs.Step.{last_main};
ghost use Rattle.store_laws.specs.Stores.{path_in, refusal_of_path, changes_of_path};
ghost use Rattle.kv_model.specs.Txns.{Path, replies_of};
ghost use Rattle.range_view.specs.Replies.{replies_view};
ghost use Rattle.range_view.specs.Stored.{IsUpTo};
ghost use Rattle.std.specs.List.{AllByRecursion};
ghost use Rattle.std.specs.Prelude.{◌≡◌, ◌++◌, ◌⊎◌, ◌+◌, ◌<◌, ◌≤◌, ◌^◌, [], length, map, None, Some};
ghost use Rattle.std.specs.Prelude.{IfOk, IfErr, IsOk, OnOk, OnErr};
ghost use Rattle.kv_model.specs.Commands as commands;
ghost use Rattle.kv_model.specs.History as history;
ghost use Rattle.kv_model.specs.Leases.{is_granted};
ghost use Rattle.kv_model.specs.Txns as txns;
ghost use Rattle.store_laws.specs.Plans.{planned, planned_refusal};
ghost use Rattle.txn_core.specs.KeyWrites.{IsCountedTo};
ghost use Rattle.txn_core.specs.Planning as planning;
ghost use Rattle.txn_core.specs.Steps.{steps_view};

use super::Core;
use crate::answer::Todo;
use kv_model::call::Txn;
use kv_model::feed::Sink;
use kv_model::refusal::Refusal;
use lease_book::LeaseBook;
use range_view::reply::OpReply;
use range_view::revision::end_of;
use range_view::view::View;
use std::alloc::{AllocError, Global};
use txn_core::step::{Plan, Step};
use txn_core::{check, plan};

impl Core {
    ghost use Rattle.kv_model.specs.Calls.{as_call};
    ghost use Rattle.kv_model.specs.Commands.{txn_view};
    ghost use Rattle.kv_model.specs.History.{end_of};
    ghost use Rattle.request_core.specs.State.{IsTold, added_by, floor_by, fault_of_txn, added_by_txn};
    ghost use Rattle.request_core.specs.State.{after_txn, at_once_of};
    ghost use Rattle.txn_core.specs.Planning.{IsAtOnce, TellsAtOnce};
    ghost use Rattle.request_core.specs.Answers.{CanReply, IsFirst, IsRefusal};
    ghost use Rattle.request_core.specs.Commands.{CarriesOut, Refuses};

    /// A transaction appends the versions of its changes at the next revision, and nothing where it
    /// changes no key.
    pub(crate) fn apply_txn<'c, S: Sink>(
        &mut self,
        txn: &'c Txn,
        sink: &mut S,
    ) -> Result<Todo<'c>, Refusal>
        ensures done { IfOk result
            (λ t. CarriesOut self.old self.new (as_call (txn_view txn.now)) t) }
        ensures grows { OnOk result (self.new.store.versions
            ≡ self.old.store.versions ++ added_by self.old.store (as_call (txn_view txn.now))) }
        ensures floors { OnOk result
            (self.new.store.compacted ≡ floor_by self.old.store (as_call (txn_view txn.now))) }
        ensures told { OnOk result
            (IsTold S.takes (added_by self.old.store (as_call (txn_view txn.now)))
            sink.old sink.new) }
        ensures refused { IfErr result
            (λ e. Refuses self.old self.new (as_call (txn_view txn.now)) e) }
        ensures untold { OnErr result (sink.new ≡ sink.old) }
    {
        let before = self.tables.revision();
        let checked = check(self.alloc, txn);
        match self.run(checked, txn, sink) {
            Ok((succeeded, steps)) => Ok(Todo::Txn {
                before,
                succeeded,
                steps,
            }),
            Err(refusal) => Err(refusal),
        }
    }

    /// Appends the versions of a transaction, and tells whether its compares hold and which
    /// operations ran. What its check came to is told as it is. What can fail comes first, and the
    /// sink's taking last.
    fn run<'c, S: Sink>(
        &mut self,
        checked: Result<(), Refusal>,
        txn: &'c Txn,
        sink: &mut S,
    ) -> Result<(bool, Vec<Step<'c>>), Refusal>
        requires allowed { OnOk checked (txns.static_fault (txn_view txn.now) ≡ None) }
        requires faulty { IfErr checked (λ e. (txns.static_fault (txn_view txn.now) ≡ Some e)
            ⊎ ((txns.walk_fault 0 (txn_view txn.now) ≡ None) × (e ≡ Refusal.Memory))) }
        ensures made { OnOk result
            ((fault_of_txn self.old.store (txn_view txn.now) ≡ None)
            × (self.new ≡ after_txn self.old (txn_view txn.now))) }
        ensures path { IfOk result
            (λ r. Path.txn r.0 (steps_view r.1.items) Path.end
            ≡ path_in self.old.store (txn_view txn.now)) }
        ensures few { OnOk result
            (length (changes_of_path self.old.store
            (path_in self.old.store (txn_view txn.now))) < 2 ^ 64) }
        ensures upto { IsUpTo self.old.store.revision self.old.store.versions }
        ensures places { AllByRecursion (λ v. v.rev.sub < 2 ^ 64) self.old.store.versions }
        ensures fits { self.old.store.revision ≤ last_main }
        ensures told { OnOk result
            (IsTold S.takes (added_by_txn self.old.store (txn_view txn.now)) sink.old sink.new) }
        ensures refused { IfErr result
            (λ e. IsFirst e (txns.walk_fault 0 (txn_view txn.now))
            (fault_of_txn self.old.store (txn_view txn.now))) }
        ensures passed { OnOk result (IsOk checked) }
        ensures passes { IfErr result (λ e. IfErr checked (λ f. e ≡ f)) }
        ensures first { OnOk checked (IfErr result
            (λ e. IsAtOnce e (at_once_of self.old.store (txn_view txn.now)))) }
        ensures err { OnErr result ((self.new ≡ self.old) × (sink.new ≡ sink.old)) }
    {
        let Plan {
            succeeded,
            steps,
            versions,
        } = match self.plan(checked, txn) {
            Ok(made) => made,
            Err(refusal) => return Err(refusal),
        };
        if self.append_any(versions, sink).is_err() {
            return Err(Refusal::Memory);
        }
        Ok((succeeded, steps))
    }

    /// What a transaction is to do, or its first refusal: that of its check as it is, where there is
    /// one.
    fn plan<'c>(&self, checked: Result<(), Refusal>, txn: &'c Txn) -> Result<Plan<'c>, Refusal>
        requires { OnOk checked (txns.static_fault (txn_view txn.now) ≡ None) }
        ensures made { IfOk result
            (λ p. (fault_of_txn self.now.store (txn_view txn.now) ≡ None)
            × (p.versions.items ≡ added_by_txn self.now.store (txn_view txn.now))) }
        ensures path { IfOk result
            (λ p. Path.txn p.succeeded (steps_view p.steps.items) Path.end
            ≡ path_in self.now.store (txn_view txn.now)) }
        ensures few { OnOk result
            (length (changes_of_path self.now.store
            (path_in self.now.store (txn_view txn.now))) < 2 ^ 64) }
        ensures upto { IsUpTo self.now.store.revision self.now.store.versions }
        ensures places { AllByRecursion (λ v. v.rev.sub < 2 ^ 64) self.now.store.versions }
        ensures fits { self.now.store.revision ≤ last_main }
        ensures counted { AllByRecursion
            (λ v. IsCountedTo self.now.store.revision v.body) self.now.store.versions }
        ensures passed { OnOk result (IsOk checked) }
        ensures passes { IfErr result (λ e. IfErr checked (λ f. e ≡ f)) }
        ensures first { OnOk checked
            (TellsAtOnce result (at_once_of self.now.store (txn_view txn.now))) }
        ensures refused { IfErr result
            (λ e. OnOk checked (IsRefusal e (fault_of_txn self.now.store (txn_view txn.now)))) }
    {
        let view = self.view();
        if let Err(refusal) = checked {
            return Err(refusal);
        }
        let made = match plan_on(self.alloc, &view, txn, &self.book) {
            Ok(made) => made,
            Err(refusal) => return Err(refusal),
        };
        if !made.versions.is_empty() && self.is_spent() {
            return Err(Refusal::RevisionsSpent);
        }
        Ok(made)
    }

    /// What is kept, seen at the end of the present revision.
    fn view(&self) -> View<'_>
        ensures value { result
            ≡ record {
              versions = self.now.store.versions;
              compacted = self.now.store.compacted;
              revision = self.now.store.revision;
              place = end_of self.now.store.revision;
            } }
        ensures upto { IsUpTo self.now.store.revision self.now.store.versions }
        ensures places { AllByRecursion (λ v. v.rev.sub < 2 ^ 64) self.now.store.versions }
        ensures fits { self.now.store.revision ≤ last_main }
        ensures counted { AllByRecursion
            (λ v. IsCountedTo self.now.store.revision v.body) self.now.store.versions }
    {
        self.tables.view_at(end_of(self.tables.revision()))
    }

    /// The answers to the operations of a transaction that found a revision.
    pub(crate) fn replies(
        &self,
        before: u64,
        steps: &[Step<'_>],
    ) -> Result<Vec<OpReply<'_>>, AllocError>
        requires { CanReply self.now.store before (steps_view steps.now) }
        ensures { IfOk result
            (λ rs. replies_view rs.items
            ≡ replies_of self.now.store.versions before 0
            (steps_view steps.now)) }
    {
        txn_core::replies(self.alloc, &self.tables, before, steps)
    }
}

/// What a transaction that passed its check is to do on a view of the present revision, or its
/// first refusal but that of spent revisions.
fn plan_on<'c>(
    alloc: Global,
    view: &View<'_>,
    txn: &'c Txn,
    leases: &LeaseBook,
) -> Result<Plan<'c>, Refusal>
    requires at { view.now.place ≡ history.end_of view.now.revision }
    requires upto { IsUpTo view.now.revision view.now.versions }
    requires places { AllByRecursion (λ v. v.rev.sub < 2 ^ 64) view.now.versions }
    requires fits { view.now.revision ≤ last_main }
    requires counted { AllByRecursion (λ v.
        IsCountedTo view.now.revision v.body) view.now.versions }
    requires checked { txns.static_fault (commands.txn_view txn.now) ≡ None }
    ensures path { IfOk result (λ p. Path.txn p.succeeded (steps_view p.steps.items) Path.end
        ≡ txns.path_of view.now.versions view.now.revision (commands.txn_view txn.now)) }
    ensures clear { OnOk result
        (planned_refusal
        (is_granted leases.now.leases) view.now.compacted view.now.revision view.now.versions
        (txns.path_of view.now.versions view.now.revision (commands.txn_view txn.now)) ≡ None) }
    ensures versions { IfOk result (λ p. p.versions.items ≡ map (txns.next_version view.now.versions)
        (planned view.now.versions (view.now.revision + 1) []
        (txns.path_of view.now.versions view.now.revision (commands.txn_view txn.now)))) }
    ensures refused { IfErr result (λ e. (e ≡ Refusal.Memory)
        ⊎ (planned_refusal
        (is_granted leases.now.leases) view.now.compacted view.now.revision view.now.versions
        (txns.path_of view.now.versions view.now.revision (commands.txn_view txn.now)) ≡ Some e)) }
    ensures first { planning.TellsAtOnce result (planning.at_once
        (is_granted leases.now.leases) view.now.compacted view.now.revision view.now.versions
        (history.end_of view.now.revision) (commands.txn_view txn.now)) }
{
    match plan(alloc, view, txn, leases) {
        Ok(made) => Ok(made),
        Err(refusal) => Err(refusal),
    }
}
