//! What a transaction does, decided on the state before it (etcd: the apply of a TxnRequest).
ghost use Rattle.std.specs.Prelude.{◌≡◌, ◌⊎◌, ◌∷◌, ◌++◌, [], length, map, None, Some};
ghost use Rattle.std.specs.Prelude.{IfOk, IfErr, OnOk};
ghost use Rattle.kv_model.specs.Calls.{Ops, then};
ghost use Rattle.kv_model.specs.Commands.{op_view, ops_view, txn_view};
ghost use Rattle.kv_model.specs.History as history;
ghost use Rattle.kv_model.specs.Leases.{is_granted};
ghost use Rattle.kv_model.specs.Ranges as ranges;
ghost use Rattle.kv_model.specs.Txns.{Path, path_of, static_fault, run_refusal, effect, added_by};
ghost use Rattle.txn_core.specs.KeyWrites.{number_after, as_kept};
ghost use Rattle.txn_core.specs.KeyWrites as writes;
ghost use Rattle.txn_core.specs.Planning.{AreGone, present};
ghost use Rattle.txn_core.specs.Planning as planning;
ghost use Rattle.txn_core.specs.Steps.{step_view, steps_view};

use crate::changes::Changes;
use crate::compare::all_hold;
use crate::put::{held_refusal, number_after, version_put};
use crate::step::{Plan, Step};
use kv_model::call::{DeleteRequest, Operation, PutRequest, RangeQuery, Txn};
use kv_model::refusal::Refusal;
use kv_model::version::KeyRange;
use lease_book::LeaseBook;
use live_keys::LiveKeys;
use range_view::View;
use range_view::revision::revision_refusal;
use std::alloc::{AllocError, Global};

/// The branch of a transaction that runs.
#[derive(Drop)]
struct Branch<'t> {
    succeeded: bool,
    steps: Vec<Step<'t>>,
}

/// What a transaction does at the revision after the view's, decided on the end of the view's
/// revision alone, whatever place the view is of: which branches run, and the versions that their
/// operations make, numbered in the order of the document. The branches are right for every
/// transaction; the versions and the refusals for one that `check` allows, in which no two
/// operations change one key but that deletes may meet: a key that several take is deleted by the
/// first.
///
/// The first refusal of the operations that run, in their order, is answered: `Compacted` or
/// `Future` of a Range whose own revision is not kept or not there, `KeyMissing` of a put that
/// keeps what is not there, `LeaseMissing` of one that names a lease that is not granted. `Memory`
/// comes where there is none for the steps, the versions or what a range holds: never in the place
/// of what the first operation is refused for, a Range or a put of a transaction without compares.
///
/// A revision or a count of puts that 64 bits do not hold is given as the greatest number that they
/// hold. No store comes to either, whose revisions end at 2^63 - 1.
///
/// The compares of a transaction are decided up to the first that does not hold. Those of ranges
/// walk their keys, until that has cost about as much as a list of all live keys: it is made then,
/// once for the whole document, and from there on a compare is logarithmic in the live keys
/// (`LiveKeys::holds`). Each delete walks those keys of its range that lie in no range that was
/// deleted before it; each key that is put or deleted takes time logarithmic in the keys that are
/// kept or deleted so far. A put shares the request's key and value; the key of a tombstone and a
/// value that is kept are copied.
pub fn plan<'t>(
    alloc: Global,
    view: &View<'_>,
    txn: &'t Txn,
    leases: &LeaseBook,
) -> Result<Plan<'t>, Refusal>
    ensures path { IfOk result (λ p. Path.txn p.succeeded (steps_view p.steps.items) Path.end
        ≡ path_of (present view.now) view.now.revision (txn_view txn.now)) }
    ensures clear { OnOk result (static_fault (txn_view txn.now) ≡ None
        → run_refusal (is_granted leases.now.leases) view.now.compacted view.now.revision
        (present view.now) 0
        (path_of (present view.now) view.now.revision (txn_view txn.now)) ≡ None) }
    ensures versions { IfOk result (λ p. static_fault (txn_view txn.now) ≡ None
        → p.versions.items ≡ map as_kept (added_by (present view.now)
        (effect (present view.now) (number_after view.now.revision) 0
        (path_of (present view.now) view.now.revision (txn_view txn.now))))) }
    ensures refused { IfErr result (λ e. static_fault (txn_view txn.now) ≡ None
        → (e ≡ Refusal.Memory)
        ⊎ (run_refusal (is_granted leases.now.leases) view.now.compacted view.now.revision
        (present view.now) 0
        (path_of (present view.now) view.now.revision (txn_view txn.now)) ≡ Some e)) }
    ensures first { planning.TellsAtOnce result (planning.at_once
        (is_granted leases.now.leases) view.now.compacted view.now.revision view.now.versions
        (history.end_of view.now.revision) (txn_view txn.now)) }
{
    let view = view.at_end();
    match plan_at(alloc, &view, txn, leases) {
        Ok(plan) => Ok(plan),
        Err(refusal) => Err(refusal),
    }
}

/// What a transaction does at the revision after that of a view of its end.
fn plan_at<'t>(
    alloc: Global,
    view: &View<'_>,
    txn: &'t Txn,
    leases: &LeaseBook,
) -> Result<Plan<'t>, Refusal>
    requires { planning.IsPresent view.now }
    ensures path { IfOk result (λ p. Path.txn p.succeeded (steps_view p.steps.items) Path.end
        ≡ planning.path_in view.now (txn_view txn.now)) }
    ensures made { IfOk result (λ p. p.versions.items
        ≡ planning.versions_made_in view.now [] (planning.path_in view.now (txn_view txn.now))) }
    ensures fine { OnOk result (planning.refusal_in view.now leases.now.leases
        (planning.path_in view.now (txn_view txn.now)) ≡ None) }
    ensures refused { IfErr result (λ e.
        planning.IsRefusal e
        (planning.refusal_in view.now leases.now.leases
        (planning.path_in view.now (txn_view txn.now)))) }
    ensures first { planning.TellsAtOnce result
        (planning.at_once_in view.now leases.now.leases (txn_view txn.now)) }
{
    let mut changes = Changes::new(alloc);
    let mut emptied = Vec::new(alloc);
    let mut keys = LiveKeys::new(view.at_end());
    match run_txn(
        alloc,
        view,
        leases,
        &mut keys,
        &mut changes,
        &mut emptied,
        txn,
    ) {
        Ok(branch) => Ok(Plan {
            succeeded: branch.succeeded,
            steps: branch.steps,
            versions: changes.into_versions(),
        }),
        Err(refusal) => Err(refusal),
    }
}

/// Runs the branch of a transaction that its compares choose.
#[cycle(run)]
fn run_txn<'a, 't>(
    alloc: Global,
    view: &View<'a>,
    leases: &LeaseBook,
    keys: &mut LiveKeys<'a>,
    changes: &mut Changes<'a>,
    emptied: &mut Vec<&'t KeyRange>,
    txn: &'t Txn,
) -> Result<Branch<'t>, Refusal>
    requires present { planning.IsPresent view.now }
    requires keys { keys.old ≡ view.now }
    requires emptied { AreGone view.now changes.old emptied.old.items }
    ensures keys { keys.new ≡ view.now }
    ensures emptied { OnOk result (AreGone view.now changes.new emptied.new.items) }
    ensures path { IfOk result (λ b. Path.txn b.succeeded (steps_view b.steps.items) Path.end
        ≡ planning.path_in view.now (txn_view txn.now)) }
    ensures made { IfOk result (λ b. changes.new
        ≡ planning.versions_made_in view.now changes.old (steps_view b.steps.items)) }
    ensures fine { IfOk result (λ b.
        planning.refusal_in view.now leases.now.leases (steps_view b.steps.items) ≡ None) }
    ensures refused { IfErr result (λ e.
        planning.IsRefusal e
        (planning.refusal_in view.now leases.now.leases
        (planning.path_in view.now (txn_view txn.now)))) }
    ensures first { IfErr result (λ e. planning.IsAtOnce e
        (planning.at_once_in view.now leases.now.leases (txn_view txn.now))) }
{
    let Ok(succeeded) = all_hold(alloc, view, keys, &txn.compare) else {
        return Err(Refusal::Memory);
    };
    let ran = if succeeded {
        run_row(alloc, view, leases, keys, changes, emptied, &txn.success)
    } else {
        run_row(alloc, view, leases, keys, changes, emptied, &txn.failure)
    };
    match ran {
        Ok(steps) => Ok(Branch { succeeded, steps }),
        Err(refusal) => Err(refusal),
    }
}

/// Runs operations one after another.
#[cycle(run)]
fn run_row<'a, 't>(
    alloc: Global,
    view: &View<'a>,
    leases: &LeaseBook,
    keys: &mut LiveKeys<'a>,
    changes: &mut Changes<'a>,
    emptied: &mut Vec<&'t KeyRange>,
    row: &'t Vec<Operation>,
) -> Result<Vec<Step<'t>>, Refusal>
    requires present { planning.IsPresent view.now }
    requires keys { keys.old ≡ view.now }
    requires emptied { AreGone view.now changes.old emptied.old.items }
    ensures keys { keys.new ≡ view.now }
    ensures emptied { OnOk result (AreGone view.now changes.new emptied.new.items) }
    ensures path { IfOk result (λ s. steps_view s.items
        ≡ planning.path_in view.now (ops_view row.now.items)) }
    ensures made { IfOk result (λ s. changes.new
        ≡ planning.versions_made_in view.now changes.old (steps_view s.items)) }
    ensures fine { IfOk result (λ s.
        planning.refusal_in view.now leases.now.leases (steps_view s.items) ≡ None) }
    ensures refused { IfErr result (λ e.
        planning.IsRefusal e
        (planning.refusal_in view.now leases.now.leases
        (planning.path_in view.now (ops_view row.now.items)))) }
    ensures first { IfErr result (λ e. planning.IsAtOnce e
        (planning.at_once_in view.now leases.now.leases (ops_view row.now.items))) }
{
    let mut steps = Vec::new(alloc);
    for operation in row {
        let step = match run_operation(alloc, view, leases, keys, changes, emptied, operation) {
            Ok(step) => step,
            Err(refusal) => return Err(refusal),
        };
        match steps.push(step) {
            Ok(()) => {}
            Err(_) => return Err(Refusal::Memory),
        }
    }
    Ok(steps)
}

/// Runs an operation.
#[cycle(run)]
fn run_operation<'a, 't>(
    alloc: Global,
    view: &View<'a>,
    leases: &LeaseBook,
    keys: &mut LiveKeys<'a>,
    changes: &mut Changes<'a>,
    emptied: &mut Vec<&'t KeyRange>,
    operation: &'t Operation,
) -> Result<Step<'t>, Refusal>
    requires present { planning.IsPresent view.now }
    requires keys { keys.old ≡ view.now }
    requires emptied { AreGone view.now changes.old emptied.old.items }
    ensures keys { keys.new ≡ view.now }
    ensures emptied { OnOk result (AreGone view.now changes.new emptied.new.items) }
    ensures path { IfOk result (λ s. (rest : Ops)
        → planning.path_in view.now (then (op_view operation.now) rest)
        ≡ step_view s (planning.path_in view.now rest)) }
    ensures made { IfOk result (λ s. (rest : Path)
        → planning.versions_made_in view.now changes.old (step_view s rest)
        ≡ planning.versions_made_in view.now changes.new rest) }
    ensures fine { IfOk result (λ s. (rest : Path)
        → planning.refusal_in view.now leases.now.leases (step_view s rest)
        ≡ planning.refusal_in view.now leases.now.leases rest) }
    ensures refused { IfErr result (λ e. (rest : Ops)
        → planning.IsRefusal e
        (planning.refusal_in view.now leases.now.leases
        (planning.path_in view.now (then (op_view operation.now) rest)))) }
    ensures first { IfErr result (λ e. (rest : Ops) → planning.IsAtOnce e
        (planning.at_once_in view.now leases.now.leases (then (op_view operation.now) rest))) }
{
    match operation {
        Operation::Range(query) => match run_range(view, query) {
            Ok(()) => Ok(Step::Range(query)),
            Err(refusal) => Err(refusal),
        },
        Operation::Put(request) => match run_put(alloc, view, leases, changes, request) {
            Ok(()) => Ok(Step::Put(request)),
            Err(refusal) => Err(refusal),
        },
        Operation::Delete(request) => match run_delete(alloc, view, changes, emptied, request) {
            Ok(()) => Ok(Step::Delete(request)),
            Err(_) => Err(Refusal::Memory),
        },
        Operation::Inner(txn) => match run_txn(alloc, view, leases, keys, changes, emptied, txn) {
            Ok(Branch { succeeded, steps }) => Ok(Step::Inner { succeeded, steps }),
            Err(refusal) => Err(refusal),
        },
    }
}

/// A Range changes nothing; it is refused by its own revision.
fn run_range(view: &View<'_>, query: &RangeQuery) -> Result<(), Refusal>
    ensures fine { OnOk result
        (ranges.revision_refusal view.now.compacted view.now.revision query.now.revision ≡ None) }
    ensures refused { IfErr result (λ e.
        ranges.revision_refusal view.now.compacted view.now.revision query.now.revision ≡ Some e) }
{
    match revision_refusal(view.compacted(), view.revision(), query) {
        Some(refusal) => Err(refusal),
        None => Ok(()),
    }
}

/// A put makes the next version of its key, of what it held before the transaction.
fn run_put<'a>(
    alloc: Global,
    view: &View<'a>,
    leases: &LeaseBook,
    changes: &mut Changes<'a>,
    request: &PutRequest,
) -> Result<(), Refusal>
    ensures made { OnOk result (changes.new ≡ changes.old
        ++ as_kept (writes.put_version
        (record { main = number_after view.now.revision; sub = length changes.old }) request.now
        (history.value_at view.now.versions view.now.place request.now.key)) ∷ []) }
    ensures fine { OnOk result
        (writes.held_refusal (is_granted leases.now.leases) request.now
        (history.value_at view.now.versions view.now.place request.now.key) ≡ None) }
    ensures refused { IfErr result (λ e. planning.IsFault e
        (writes.held_refusal (is_granted leases.now.leases) request.now
        (history.value_at view.now.versions view.now.place request.now.key))) }
{
    let held = view.get(&request.key);
    if let Some(refusal) = held_refusal(request, held, leases.is_granted(request.lease)) {
        return Err(refusal);
    }
    let rev = changes.next_rev(number_after(view.revision()));
    match version_put(alloc, rev, request, held) {
        Ok(version) => match changes.push(version) {
            Ok(()) => Ok(()),
            Err(_) => Err(Refusal::Memory),
        },
        Err(_) => Err(Refusal::Memory),
    }
}

/// A delete makes a tombstone of each live key of its range that the transaction has not deleted
/// already. Those of ranges that it has emptied are not looked for.
fn run_delete<'a, 't>(
    alloc: Global,
    view: &View<'a>,
    changes: &mut Changes<'a>,
    emptied: &mut Vec<&'t KeyRange>,
    request: &'t DeleteRequest,
) -> Result<(), AllocError>
    requires { AreGone view.now changes.old emptied.old.items }
    ensures made { OnOk result (changes.new
        ≡ planning.with_graves (number_after view.now.revision) changes.old
        (ranges.keys_of (ranges.live view.now.versions view.now.place request.now.range))) }
    ensures emptied { OnOk result (AreGone view.now changes.new emptied.new.items) }
{
    let live = swept_ranges::live_beside(alloc, view, emptied, &request.range)?;
    changes.delete(number_after(view.revision()), &live)?;
    swept_ranges::add(emptied, &request.range)?;
    Ok(())
}
