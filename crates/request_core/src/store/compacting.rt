//! Compact: up to which revision the history is given up.
ghost use Rattle.kv_model.specs.Step.{at_least_zero, compact_refusal};
ghost use Rattle.kv_model.specs.Feed.{Published};
ghost use Rattle.request_core.specs.Answers.{is_memory};
ghost use Rattle.std.specs.Prelude.{◌≡◌, false, None, Some, IfOk, IfErr, OnOk, OnErr};

use super::Core;
use crate::answer::{Receipt, Todo};
use kv_model::feed::{Op, Sink};
use kv_model::refusal::Refusal;

impl Core {
    ghost use Rattle.kv_model.specs.Calls.{Call};
    ghost use Rattle.request_core.specs.Commands.{Does, IsToldChange, StoresChange};
    ghost use Rattle.request_core.specs.Answers.{IsFault};
    ghost use Rattle.request_core.specs.Commands.{CarriesOut, RefusesTo};
    ghost use Rattle.request_core.specs.State.{after_compact};

    /// Compacts the history up to a revision, as `apply_to` does a Compact, and hands the new floor
    /// to a sink before it stands. Whether it is `physical` is the caller's: it then makes the
    /// trimming steps before it answers.
    ///
    /// Refused as `Compacted` where the revision is 0 or below, or not above that of the last
    /// compaction, as `Future` where it is above the present one, and as `Memory` where the sink
    /// finds none. Constant time, but for the sink.
    pub fn compact_to<'c, S: Sink>(
        &mut self,
        revision: i64,
        physical: bool,
        sink: &mut S,
    ) -> Result<Receipt<'c>, Refusal>
        ensures done { IfOk result
            (λ r. Does self.old self.new (Call.compact revision physical) r) }
        ensures told { OnOk result (IsToldChange S.takes self.old.store
            (Call.compact revision physical) sink.old sink.new) }
        ensures stored { OnOk result
            (StoresChange self.old self.new (Call.compact revision physical)) }
        ensures refused { IfErr result
            (λ e. RefusesTo S.never_fails self.old self.new (Call.compact revision physical) e) }
        ensures untold { OnErr result (sink.new ≡ sink.old) }
    {
        let before = self.tables.revision();
        match self.apply_compact(revision, physical, sink) {
            Ok(todo) => Ok(self.receipt_of(before, todo)),
            Err(refusal) => Err(refusal),
        }
    }

    /// A Compact moves the floor, once the sink has taken it, and trimming begins again at the
    /// oldest version. Whether it is `physical` makes no difference here: its caller makes the
    /// steps. Takes no memory but for the sink.
    pub(crate) fn apply_compact<'c, S: Sink>(
        &mut self,
        revision: i64,
        physical: bool,
        sink: &mut S,
    ) -> Result<Todo<'c>, Refusal>
        ensures done { IfOk result
            (λ t. CarriesOut self.old self.new (Call.compact revision physical) t) }
        ensures versions { OnOk result
            (self.new.store.versions ≡ self.old.store.versions) }
        ensures compacted { OnOk result
            (self.new.store.compacted ≡ at_least_zero revision) }
        ensures told { OnOk result
            (S.takes sink.old (Published.floor (at_least_zero revision)) sink.new) }
        ensures refused { IfErr result
            (λ e. RefusesTo S.never_fails self.old self.new (Call.compact revision physical) e) }
        ensures untold { OnErr result (sink.new ≡ sink.old) }
    {
        let _ = physical;
        match self.compact(revision, sink) {
            Ok(()) => Ok(Todo::Compact),
            Err(refusal) => Err(refusal),
        }
    }

    /// Moves the floor, once the sink has taken it.
    fn compact<S: Sink>(&mut self, revision: i64, sink: &mut S) -> Result<(), Refusal>
        ensures allowed { OnOk result (compact_refusal
            self.old.store.compacted self.old.store.revision revision ≡ None) }
        ensures made { OnOk result (self.new ≡ after_compact self.old revision) }
        ensures told { OnOk result
            (S.takes sink.old (Published.floor (at_least_zero revision)) sink.new) }
        ensures refused { IfErr result (λ e. IsFault e (compact_refusal
            self.old.store.compacted self.old.store.revision revision)) }
        ensures free { S.never_fails → IfErr result (λ e. is_memory e ≡ false) }
        ensures err { OnErr result ((self.new ≡ self.old) × (sink.new ≡ sink.old)) }
    {
        let floor = match floor_of(self.tables.compacted(), self.tables.revision(), revision) {
            Ok(floor) => floor,
            Err(refusal) => return Err(refusal),
        };
        if sink.take(Op::Floor(floor)).is_err() {
            return Err(Refusal::Memory);
        }
        self.tables.compact(floor);
        Ok(())
    }
}

/// The revision that a Compact moves the floor to, or why it is refused (the etcd documentation's
/// CompactionRequest): one at or below the last one is compacted already, and so are 0 and below;
/// one above the present revision is in the future.
fn floor_of(compacted: u64, present: u64, revision: i64) -> Result<u64, Refusal>
    ensures floor { IfOk result (λ n. (compact_refusal compacted present revision ≡ None)
        × (n ≡ at_least_zero revision)) }
    ensures refused { IfErr result (λ e. compact_refusal compacted present revision ≡ Some e) }
    ensures free { IfErr result (λ e. is_memory e ≡ false) }
{
    if revision <= 0 {
        return Err(Refusal::Compacted(compacted));
    }
    let floor = revision as u64;
    if floor <= compacted {
        Err(Refusal::Compacted(compacted))
    } else if floor > present {
        Err(Refusal::Future(present))
    } else {
        Ok(floor)
    }
}
