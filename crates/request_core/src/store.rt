//! The core: one step of the store.
ghost use Rattle.range_view.specs.Replies.{kv_view, reply_view};
ghost use Rattle.request_core.specs.Writing.{IsHeldTo};
ghost use Rattle.kv_model.specs.Step.{last_main};
ghost use Rattle.std.specs.Prelude.{◌≡◌, [], ◌++◌, true, is_ok, option_map, ◌≤◌, length};
ghost use Rattle.std.specs.Prelude.{IfOk, IfErr, OnOk, OnErr};

mod appending;
mod certifying;
mod compacting;
mod deleting;
mod expiring;
mod leasing;
mod putting;
mod ranging;
mod receipts;
mod rest;
mod revoking;
mod transacting;
mod trimming;
mod watching;

use self::leasing::{granted, renewed};
pub use self::rest::Rest;
use crate::answer::{Answer, Receipt, Status, Todo};
use bytes::Bytes;
use kv_model::call::Command;
use kv_model::feed::{NoSink, Sink};
use kv_model::refusal::Refusal;
use lease_book::LeaseBook;
use lease_keys::LeaseKeys;
use range_view::reply::KvRef;
use range_view::tables::Tables;
use std::alloc::{AllocError, Global};
use std::marker::Model;
use watch_hub::WatchHub;

/// The greatest revision.
pub const LAST_MAIN: u64 = 9_223_372_036_854_775_807;

/// The state of the store: what is kept, and its numbers.
#[derive(Drop)]
pub struct Core {
    alloc: Global,
    tables: Tables,
    book: LeaseBook,
    keys: LeaseKeys,
    hub: WatchHub,
    stamp: u64,
}

impl Model for Core {
    ghost use Rattle.kv_model.specs.History.{value_now};
    ghost use Rattle.lease_keys.specs.Holding.{AreJust};
    ghost use Rattle.request_core.specs.State.{CoreState, IsSound, core_state};

    ghost Value = { CoreState };

    ghost view = { λ c. core_state c.tables c.book c.hub c.stamp };

    ghost invariant = { λ c. IsSound c.tables × AreJust c.keys (value_now c.tables.versions) };
}

impl Core {
    ghost use Rattle.kv_model.specs.Commands.{call_of};
    ghost use Rattle.kv_model.specs.World.{opening};
    ghost use Rattle.store_laws.specs.Stands.{StandsFor};
    ghost use Rattle.request_core.specs.State.{CoreState, IsToldOf, added_by, core_state, floor_by};
    ghost use Rattle.request_core.specs.State.{held_in};
    ghost use Rattle.request_core.specs.State.{is_spent, no_watches};
    ghost use Rattle.range_view.specs.Stored.{blank, blank_at};
    ghost use Rattle.request_core.specs.State.{tables_of};
    ghost use Rattle.request_core.specs.Answers.{IsReadable, answer_view, answer_of, is_free};
    ghost use Rattle.request_core.specs.Commands.{CarriesOut, Does, IsToldChange, Refuses};
    ghost use Rattle.request_core.specs.Commands.{RefusesTo, StoresChange};

    /// The store before the first event, and before the first changing call. Takes no memory.
    pub fn new(alloc: Global) -> Self
        ensures stands { StandsFor result.store opening }
        ensures kept { tables_of result ≡ blank }
        ensures stamp { result.stamp ≡ 0 }
    {
        Core::at(alloc, 1)
    }

    /// A store that has come to a revision and keeps no version, no lease and no watch; its clock and
    /// its stamp are 0. The revision is one that a store may have: from 1 to `LAST_MAIN`. Takes no memory.
    fn at(alloc: Global, revision: u64) -> Self
        requires opened { 1 ≤ revision }
        requires fits { revision ≤ last_main }
        ensures { result
            ≡ core_state (blank_at revision) (record { leases = []; clock = 0 }) no_watches 0 }
    {
        Core {
            alloc,
            tables: Tables::at(alloc, revision),
            book: LeaseBook::new(alloc),
            keys: LeaseKeys::new(alloc),
            hub: WatchHub::new(alloc),
            stamp: 0,
        }
    }

    /// How many changing calls came, wrapping: accepted commands that changed something, moments,
    /// steps of expiry that revoked a lease, and trimming steps that took a version out. No other
    /// call counts. Takes no memory.
    pub fn stamp(&self) -> u64
        ensures { result ≡ self.now.stamp }
    {
        self.stamp
    }

    /// The store's numbers. The revision is at most 2^63 - 1. Takes no memory.
    pub fn status(&self) -> Status
        ensures revision { result.revision ≡ self.now.store.revision }
        ensures compacted { result.compacted ≡ self.now.store.compacted }
        ensures clock { result.clock ≡ self.now.store.clock }
        ensures versions { result.versions ≡ length self.now.store.versions }
        ensures fits { self.now.store.revision ≤ last_main }
    {
        Status {
            revision: self.tables.revision(),
            compacted: self.tables.compacted(),
            clock: self.book.clock(),
            versions: self.tables.count() as u64,
        }
    }

    /// Does one command, on what the core stands for.
    ///
    /// What an accepted command did is one record, `Does`. In each world that the core stood for,
    /// the model accepts the command and answers it as the receipt does on the new state, which
    /// stands for the world after it, and the receipt's `raised` is the model's (`accepted`). The
    /// receipt can be answered on the new state (`readable`). Where it says that nothing has
    /// changed, the core is as it was (`unchanged`), and where something has, the stamp is one more
    /// (`stamp`). It has the number of a watch where it made one (`watch`), and something besides
    /// the versions changed where the model changes it (`beside`).
    ///
    /// What a refused one left is another, `Refuses`: the refusal is the model's, or memory was
    /// wanting (`refused`), which it never is where the command takes none (`free`) nor in place of
    /// a refusal that comes before memory is asked for (`first`), and the core is as it was
    /// (`kept`).
    ///
    /// The refusals come in the order of the etcd documentation's checks of a request: `NoKey`
    /// where the key is empty; of a Range, `Compacted` and `Future` where its revision is below the
    /// last compaction or above the present one; of a Put, `ValueGiven` and `LeaseGiven` where it
    /// keeps what it also gives, `KeyMissing` where it keeps what is not there, and `LeaseMissing`
    /// where it names a lease that is not granted; of a grant, `TtlTooLarge` above 9,000,000,000
    /// seconds, `LeaseExists` for an ID in use and `TooManyLeases` where 65,536 are granted; of a
    /// revoke, `LeaseMissing`; of a Compact, `Compacted` where its revision is 0 or below, or not
    /// above that of the last one, and `Future` where it is above the present one; of a watch,
    /// `TooManyWatches` where 1,024 stand or 2^63 - 1 were made; and last `RevisionsSpent` where a
    /// change would need a revision above the greatest. `Memory` comes where a list, a copy or the
    /// place of a lease or a watch found none, and of a DeleteRange and a revoke it may come in place
    /// of `RevisionsSpent`; a Range, a Compact, a keepalive, a time to live and the list of leases
    /// take none here.
    ///
    /// A Txn is first refused for what its request shows, also in branches that do not run, and a
    /// transaction before its parts: `TooDeep` where it lies in eight others, `TooManyOps` where it
    /// has more than 1,024 compares or operations of a branch, and `NoKey`, `ValueGiven` and
    /// `LeaseGiven` as each by itself; then `DuplicateKey` where operations that can run together
    /// put one key, or put a key and delete it; then, of the operations that run, in their order,
    /// `Compacted`, `Future`, `KeyMissing` and `LeaseMissing`; and `RevisionsSpent` last. `Memory`
    /// may come in place of all from `DuplicateKey` on.
    ///
    /// A Put takes time logarithmic in the number of keys and in that of the versions, and linear
    /// in a value that it keeps, which is copied. A DeleteRange walks the keys of its range, live
    /// or not, each in such time, and adds a tombstone for each that is live, all in one revision.
    /// A Txn sorts its keys for the check, and takes for each compare and each operation that runs
    /// the time of a read or a write by itself; all its changes stand in one revision. All this is
    /// but for the growth of a list. A grant and a keepalive are logarithmic in the number of
    /// leases. A revoke looks up the keys that were put under the lease, each in such time, and
    /// deletes those that still are in one revision. A Compact takes constant time: what it leaves
    /// over goes step by step (`trim_step`), and where it is `physical`, its caller makes the steps
    /// before it answers. A watch takes the time of `WatchHub::create`.
    pub fn apply<'c>(&mut self, command: &'c Command) -> Result<Receipt<'c>, Refusal>
        ensures done { IfOk result (λ r. Does self.old self.new (call_of command.now) r) }
        ensures refused { IfErr result (λ e. Refuses self.old self.new (call_of command.now) e) }
    {
        self.apply_to(command, &mut NoSink)
    }

    /// Does one command, and hands what changes to a sink before it stands. A sink that finds no
    /// memory refuses the command.
    pub fn apply_to<'c, S: Sink>(
        &mut self,
        command: &'c Command,
        sink: &mut S,
    ) -> Result<Receipt<'c>, Refusal>
        ensures done { IfOk result (λ r. Does self.old self.new (call_of command.now) r) }
        ensures told { OnOk result
            (IsToldChange S.takes self.old.store (call_of command.now) sink.old sink.new) }
        ensures stored { OnOk result (StoresChange self.old self.new (call_of command.now)) }
        ensures refused { IfErr result
            (λ e. RefusesTo S.never_fails self.old self.new (call_of command.now) e) }
        ensures untold { OnErr result (sink.new ≡ sink.old) }
    {
        let before = self.tables.revision();
        match self.carry_out(command, sink) {
            Ok(todo) => Ok(self.receipt_of(before, todo)),
            Err(refusal) => Err(refusal),
        }
    }

    /// Does one command, and gives what is left to read for its answer. It is not counted yet.
    fn carry_out<'c, S: Sink>(
        &mut self,
        command: &'c Command,
        sink: &mut S,
    ) -> Result<Todo<'c>, Refusal>
        ensures done { IfOk result (λ t. CarriesOut self.old self.new (call_of command.now) t) }
        ensures grows { OnOk result (self.new.store.versions
            ≡ self.old.store.versions ++ added_by self.old.store (call_of command.now)) }
        ensures floors { OnOk result
            (self.new.store.compacted ≡ floor_by self.old.store (call_of command.now)) }
        ensures told { OnOk result
            (IsToldOf S.takes self.old.store (call_of command.now) sink.old sink.new) }
        ensures refused { IfErr result
            (λ e. RefusesTo S.never_fails self.old self.new (call_of command.now) e) }
        ensures untold { OnErr result (sink.new ≡ sink.old) }
    {
        match command {
            Command::Range(query) => self.apply_range(query),
            Command::Put(request) => self.apply_put(request, sink),
            Command::Delete(request) => self.apply_delete(request, sink),
            Command::Txn(txn) => self.apply_txn(txn, sink),
            Command::Compact { revision, physical } => {
                self.apply_compact(*revision, *physical, sink)
            }
            Command::Watch { watched, start, id } => self.apply_watch(watched, *start, *id),
            Command::Grant { ttl, id } => self.apply_grant(*ttl, *id),
            Command::Revoke { id } => self.apply_revoke(*id, sink),
            Command::KeepAlive { id } => Ok(self.apply_keep_alive(*id)),
            Command::TimeToLive { id, keys } => Ok(self.apply_time_to_live(*id, *keys)),
            Command::Leases => Ok(self.apply_leases()),
        }
    }

    /// The answer of a receipt, on the state that it left. It lends keys and values from the core
    /// and copies none.
    ///
    /// `AllocError` comes where the list of an answer, or the sort of a Range, found no memory; so
    /// never to a Put, a Compact, a grant, a revoke, a keepalive or a watch. What a delete showed
    /// is read at the end of the revision before its own, and each operation of a transaction is
    /// read before its own changes. The keys of a lease are found by an index, and no others are
    /// walked but those that were put under it.
    pub fn answer<'a>(&'a self, receipt: &Receipt<'_>) -> Result<Answer<'a>, AllocError>
        requires { IsReadable receipt.now self.now }
        ensures lends { IfOk result (λ a. answer_view a ≡ answer_of receipt.now self.now) }
        ensures free { is_free receipt.now.todo ≡ true → is_ok result ≡ true }
    {
        match &receipt.todo {
            Todo::Range(query) => Ok(Answer::Range(self.range(query)?)),
            Todo::Put { key, previous } => Ok(Answer::Put {
                revision: receipt.revision,
                previous: self.value_before(receipt.revision, key, *previous),
            }),
            Todo::Delete {
                range,
                previous,
                deleted,
            } => Ok(Answer::Delete {
                revision: receipt.revision,
                deleted: *deleted,
                previous: self.values_before(receipt.revision, range, *previous && *deleted > 0)?,
            }),
            Todo::Txn {
                before,
                succeeded,
                steps,
            } => Ok(Answer::Txn {
                revision: receipt.revision,
                succeeded: *succeeded,
                replies: self.replies(*before, steps)?,
            }),
            Todo::Grant { id, ttl } => Ok(granted(receipt.revision, *id, *ttl)),
            Todo::Revoke => Ok(Answer::Revoke {
                revision: receipt.revision,
            }),
            Todo::KeepAlive { id, ttl } => Ok(renewed(receipt.revision, *id, *ttl)),
            Todo::TimeToLive { id, keys } => self.time_to_live(receipt.revision, *id, *keys),
            Todo::Leases => Ok(Answer::Leases {
                revision: receipt.revision,
                ids: self.book.ids()?,
            }),
            Todo::Compact => Ok(Answer::Compact {
                revision: receipt.revision,
            }),
            Todo::Watch { id, number } => Ok(Answer::Watch {
                revision: receipt.revision,
                id: *id,
                number: *number,
            }),
        }
    }

    /// Whether no revision comes after the present one.
    fn is_spent(&self) -> bool
        ensures { result ≡ is_spent self.now.store.revision }
    {
        self.tables.revision() >= LAST_MAIN
    }

    /// What a key holds at the present revision.
    fn held(&self, key: &Bytes) -> Option<KvRef<'_>>
        ensures value { option_map kv_view result ≡ held_in self.now.store key.now }
        ensures counted { IsHeldTo self.now.store.revision (option_map kv_view result) }
        ensures fits { self.now.store.revision ≤ last_main }
    {
        self.tables.view().get(key)
    }
}
