//! The clock, and expiry.
ghost use Rattle.kv_model.specs.Told.{Expiry as ModelExpiry};
ghost use Rattle.request_core.specs.Answers.{is_memory};
ghost use Rattle.std.specs.Prelude.{◌≡◌, true, nat_lt, if◌then◌else◌, Some};
ghost use Rattle.std.specs.Prelude.{IfOk, IfErr, OnOk, OnErr};

use super::Core;
use crate::answer::Expiry;
use kv_model::feed::{NoSink, Sink};
use kv_model::refusal::Refusal;

impl Core {
    ghost use Rattle.kv_model.specs.World.{World, at_moment};
    ghost use Rattle.store_laws.specs.Stands.{StandsFor};
    ghost use Rattle.request_core.specs.State.{after_moment, counted, due_in, tables_of};
    ghost use Rattle.request_core.specs.Answers.{expiry_view};
    ghost use Rattle.request_core.specs.Commands.{Expires, IsToldExpiry, RefusesExpiry};
    ghost use Rattle.request_core.specs.Commands.{StoresExpiry};

    /// Hands in the present moment, in milliseconds, and answers the clock: the greatest moment so
    /// far. An earlier one leaves the clock, and one above 2^62 counts as 2^62. Either is a
    /// changing call. Takes no memory. Constant time.
    pub fn moment(&mut self, now: u64) -> u64
        ensures clock { result ≡ self.new.store.clock }
        ensures made { self.new ≡ after_moment self.old now }
        ensures kept { tables_of self.new ≡ tables_of self.old }
        ensures stands { (w : World) → StandsFor self.old.store w
            → StandsFor self.new.store (at_moment w now) × (result ≡ (at_moment w now).clock) }
    {
        self.stamp = self.stamp.wrapping_add(1);
        self.book.moment(now)
    }

    /// One step of expiry: revokes the lease that is due first, by deadline and then by ID, and
    /// deletes its keys in one revision. That is a changing call, whether it has keys or not. Where
    /// no lease is due, the core is left as it was, its stamp too, so that an answer that was asked
    /// for before may still be read. `Expires` says what was done: it is what the model does in
    /// each world that the core stood for (`expired`), nothing where no lease was due
    /// (`unchanged`), and else counted (`stamp`).
    ///
    /// Refused as `RevisionsSpent` where the lease has keys and no revision comes after the present
    /// one, and as `Memory`, and as nothing else (`refused` of `RefusesExpiry`); the core is then
    /// as it was (`kept`). Finding that no lease is due takes constant time; else the cost is that
    /// of a revoke.
    pub fn expire(&mut self) -> Result<Expiry, Refusal>
        ensures done { IfOk result (λ e. Expires self.old self.new e) }
        ensures refused { IfErr result (λ e. RefusesExpiry self.old self.new e) }
    {
        self.expire_to(&mut NoSink)
    }

    /// One step of expiry that hands the tombstones to a sink before they stand, in one batch. A
    /// sink that finds no memory refuses the step.
    pub fn expire_to<S: Sink>(&mut self, sink: &mut S) -> Result<Expiry, Refusal>
        ensures done { IfOk result (λ e. Expires self.old self.new e) }
        ensures told { OnOk result (IsToldExpiry S.takes self.old.store sink.old sink.new) }
        ensures stored { OnOk result (StoresExpiry self.old self.new) }
        ensures refused { IfErr result (λ e. RefusesExpiry self.old self.new e) }
        ensures untold { OnErr result (sink.new ≡ sink.old) }
    {
        match self.book.due() {
            Some(id) => self.expire_lease(id, sink),
            None => Ok(Expiry::Nothing),
        }
    }

    /// Revokes the lease that is due.
    fn expire_lease<S: Sink>(&mut self, id: i64, sink: &mut S) -> Result<Expiry, Refusal>
        requires { due_in self.old.store ≡ Some id }
        ensures done { IfOk result (λ e. Expires self.old self.new e) }
        ensures told { OnOk result (IsToldExpiry S.takes self.old.store sink.old sink.new) }
        ensures stored { OnOk result (StoresExpiry self.old self.new) }
        ensures refused { IfErr result (λ e. RefusesExpiry self.old self.new e) }
        ensures untold { OnErr result (sink.new ≡ sink.old) }
    {
        match self.revoke(id, sink) {
            Ok(deleted) => Ok(self.expired(id, deleted)),
            Err(refusal) => Err(refusal_of_expiry(refusal)),
        }
    }

    /// Counts that a lease was revoked with so many keys, and tells it.
    fn expired(&mut self, id: i64, deleted: u64) -> Expiry
        ensures told { expiry_view result
            ≡ ModelExpiry.expired id self.old.store.revision (nat_lt 0 deleted) }
        ensures counts { self.new ≡ counted true self.old }
    {
        self.stamp = self.stamp.wrapping_add(1);
        Expiry::Expired {
            id,
            revision: self.tables.revision(),
            raised: deleted > 0,
        }
    }
}

/// Why a step of expiry is refused where the revoke is: the lease that is due is granted, so it
/// wants memory, or a revision.
fn refusal_of_expiry(refusal: Refusal) -> Refusal
    ensures { result ≡ (if is_memory refusal then Refusal.Memory else Refusal.RevisionsSpent) }
{
    match refusal {
        Refusal::Memory => Refusal::Memory,
        _ => Refusal::RevisionsSpent,
    }
}
