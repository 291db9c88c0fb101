//! What a core is besides its tables: so the tables of an engine can be the copy that readers are shown.
ghost use Rattle.kv_model.specs.History.{value_now};
ghost use Rattle.kv_model.specs.World.{World, at_moment, watch_at, without_watch};
ghost use Rattle.kv_model.specs.declared.refusal.Refusal.TheVariants.{NoWatch};
ghost use Rattle.lease_keys.specs.Holding.{AreJust};
ghost use Rattle.range_view.specs.Stored.{Stored};
ghost use Rattle.request_core.specs.Apart.{CanJoin, joined};
ghost use Rattle.request_core.specs.State.{IsSound, after_moment, with_watches};
ghost use Rattle.std.specs.Prelude.{◌≡◌, ◌≤◌, is_ok, is_some, length, IfErr, OnErr};
ghost use Rattle.store_laws.specs.Stands.{StandsFor};

use super::Core;
use crate::answer::Status;
use kv_model::refusal::Refusal;
use lease_book::LeaseBook;
use lease_keys::LeaseKeys;
use range_view::tables::Tables;
use std::alloc::Global;
use std::marker::Model;
use watch_hub::WatchHub;

/// What a core is besides its tables: its leases with their keys, its clock, its watches, and the
/// number of its changing calls. With the tables that it was parted from it is that core again.
#[derive(Drop)]
pub struct Rest {
    alloc: Global,
    book: LeaseBook,
    keys: LeaseKeys,
    hub: WatchHub,
    stamp: u64,
}

impl Model for Rest {
    ghost use Rattle.request_core.specs.Apart.{RestState};

    ghost Value = { RestState };

    ghost view = { λ r. record { book = r.book; keys = r.keys; hub = r.hub; stamp = r.stamp } };
}

impl Core {
    /// Parts a core: its tables, and the rest of it. Takes no memory.
    pub fn part(self) -> (Tables, Rest)
        ensures core { joined result.0 result.1 ≡ self }
        ensures can { CanJoin result.0 result.1 }
    {
        let Core {
            alloc,
            tables,
            book,
            keys,
            hub,
            stamp,
        } = self;
        let rest = Rest {
            alloc,
            book,
            keys,
            hub,
            stamp,
        };
        (tables, rest)
    }
}

impl Rest {
    /// The core of these tables and the rest. Takes no memory.
    pub fn join(self, tables: Tables) -> Core
        requires { CanJoin tables self }
        ensures { result ≡ joined tables self }
    {
        let Rest {
            alloc,
            book,
            keys,
            hub,
            stamp,
        } = self;
        Core {
            alloc,
            tables,
            book,
            keys,
            hub,
            stamp,
        }
    }

    /// As [`Core::status`], of the core of these tables and the rest.
    pub fn status(&self, tables: &Tables) -> Status
        requires { CanJoin tables.now self.now }
        ensures revision { result.revision ≡ (joined tables.now self.now).store.revision }
        ensures compacted { result.compacted ≡ (joined tables.now self.now).store.compacted }
        ensures clock { result.clock ≡ (joined tables.now self.now).store.clock }
        ensures versions { result.versions ≡ length (joined tables.now self.now).store.versions }
    {
        Status {
            revision: tables.revision(),
            compacted: tables.compacted(),
            clock: self.book.clock(),
            versions: tables.count() as u64,
        }
    }

    /// As [`Core::moment`], whatever the tables are.
    pub fn moment(&mut self, now: u64) -> u64
        ensures made { (t : Stored) → joined t self.new ≡ after_moment (joined t self.old) now }
        ensures can { (t : Stored) → CanJoin t self.old → CanJoin t self.new }
        ensures stands { (t : Stored) → (w : World) → StandsFor (joined t self.old).store w
            → StandsFor (joined t self.new).store (at_moment w now)
            × (result ≡ (at_moment w now).clock) }
    {
        self.stamp = self.stamp.wrapping_add(1);
        self.book.moment(now)
    }

    /// As [`Core::cancel`], whatever the tables are.
    pub fn cancel(&mut self, number: u64) -> Result<(), Refusal>
        ensures stood { (t : Stored) → (w : World) → StandsFor (joined t self.old).store w
            → is_ok result ≡ is_some (watch_at w.watches number) }
        ensures stands { (t : Stored) → (w : World) → StandsFor (joined t self.old).store w
            → StandsFor (joined t self.new).store
            (record w { watches = without_watch number w.watches }) }
        ensures can { (t : Stored) → CanJoin t self.old → CanJoin t self.new }
        ensures others { (t : Stored) → joined t self.new
            ≡ with_watches (joined t self.new).store.watches (joined t self.old) }
        ensures missing { IfErr result (λ e. e ≡ NoWatch) }
        ensures unchanged { OnErr result (self.new ≡ self.old) }
    {
        self.hub.cancel(number)
    }

    /// As [`Core::take_news`].
    pub fn take_news(&mut self) -> bool
        ensures { self.new ≡ self.old }
    {
        self.hub.take_news()
    }

    /// As [`Core::behind`].
    pub fn behind(&self, numbers: &mut Vec<u64>) {
        self.hub.behind(numbers);
    }
}
