//! Watches: how one is made, what each is told next, how it moves past that, and how it ends.
ghost use Rattle.kv_model.specs.declared.refusal.Refusal.TheVariants.{NoWatch};
ghost use Rattle.kv_model.specs.Watches.{deliver, Delivery as ModelDelivery};
ghost use Rattle.kv_model.specs.World.{World, watch_at, without_watch};
ghost use Rattle.std.specs.Prelude.{◌≡◌, ◌+◌, ⊤, None, is_ok, is_some, IfOk, IfErr, OnOk};
ghost use Rattle.std.specs.Prelude.{option_map, OnErr, MatchBool};
ghost use Rattle.store_laws.specs.Stands.{StandsFor};
ghost use Rattle.store_laws.specs.Stores.{refusal_of_watch};
ghost use Rattle.watch_hub.specs.Messages.{delivery_view};

use super::Core;
use crate::answer::Todo;
use kv_model::call::Watched;
use kv_model::refusal::Refusal;
use watch_hub::Delivery;

impl Core {
    ghost use Rattle.kv_model.specs.Calls.{Call};
    ghost use Rattle.request_core.specs.Answers.{IsFault, is_memory};
    ghost use Rattle.request_core.specs.Commands.{CarriesOut, Refuses};
    ghost use Rattle.request_core.specs.State.{after_watch, tables_of, with_watches};

    /// Whether a watch that was caught up fell behind since this was asked last. A hint, of which no
    /// clause tells. Takes no memory, and constant time.
    pub fn take_news(&mut self) -> bool
        ensures { self.new ≡ self.old }
    {
        self.hub.take_news()
    }

    /// Adds the numbers of the watches that are behind, or late, to a list, in rising order: each has
    /// something to be told. Up to the first that finds no memory in the list; a hint, of which no
    /// clause tells. The time is linear in the number of the watches.
    pub fn behind(&self, numbers: &mut Vec<u64>) {
        self.hub.behind(numbers);
    }

    /// A watch takes a place of the hub.
    pub(crate) fn apply_watch<'c>(
        &mut self,
        watched: &Watched,
        start: i64,
        id: i64,
    ) -> Result<Todo<'c>, Refusal>
        ensures done { IfOk result
            (λ t. CarriesOut self.old self.new (Call.watch watched.now start id) t) }
        ensures versions { OnOk result
            (self.new.store.versions ≡ self.old.store.versions) }
        ensures compacted { OnOk result
            (self.new.store.compacted ≡ self.old.store.compacted) }
        ensures refused { IfErr result
            (λ e. Refuses self.old self.new (Call.watch watched.now start id) e) }
    {
        match self.watch(watched, start, id) {
            Ok(number) => Ok(Todo::Watch { id, number }),
            Err(refusal) => Err(refusal),
        }
    }

    /// Makes a watch, and tells its number.
    fn watch(&mut self, watched: &Watched, start: i64, id: i64) -> Result<u64, Refusal>
        ensures allowed { OnOk result (refusal_of_watch self.old.store ≡ None) }
        ensures made { OnOk result (self.new ≡ after_watch self.old watched.now start id) }
        ensures number { IfOk result (λ n. n ≡ self.old.store.made + 1) }
        ensures refused { IfErr result (λ e. IsFault e (refusal_of_watch self.old.store)) }
        ensures err { OnErr result (self.new ≡ self.old) }
    {
        self.hub.create(&self.tables, watched, start, id)
    }

    /// The client's number for the watch of a number; nothing where no watch has that number. Takes
    /// no memory. Logarithmic time.
    pub fn watch_id(&self, number: u64) -> Option<i64>
        ensures { (w : World) → StandsFor self.now.store w
            → result ≡ option_map (λ x. x.id) (watch_at w.watches number) }
    {
        match self.hub.pending(number) {
            Ok(pending) => Some(pending.id),
            Err(_) => None,
        }
    }

    /// What the watch of a number is told next (the etcd documentation's Watch): nothing where it
    /// is caught up, the events of whole revisions, or that it is cancelled since what it still had
    /// to be told of is compacted. It lends from the core and changes nothing; `advance` follows
    /// once it was told.
    ///
    /// The refusals: `NoWatch` where no watch has the number, `Memory` where the list of the events
    /// found none. The time is logarithmic in the number of versions, linear in that of those from
    /// the watch's first match on up to the end of the message, and for each event with a previous
    /// value logarithmic in the number of keys and of versions.
    pub fn deliver(&self, number: u64) -> Result<Delivery<'_>, Refusal>
        ensures told { IfOk result (λ d. (w : World) → StandsFor self.now.store w
            → delivery_view d ≡ (deliver w number).0) }
        ensures refused { IfErr result (λ e. MatchBool (is_memory e) ⊤ ((e ≡ NoWatch)
            × ((w : World) → StandsFor self.now.store w
            → (deliver w number).0 ≡ ModelDelivery.no_watch))) }
        ensures missing { IfErr result (λ e. (w : World) → StandsFor self.now.store w
            → (deliver w number).0 ≡ ModelDelivery.no_watch → e ≡ NoWatch) }
    {
        self.hub.deliver(self.alloc, &self.tables, number)
    }

    /// The watch of a number moves past what `deliver` shows: it stays as it was where that is
    /// nothing, it ends where it is cancelled, and else it was told of all up to the last revision
    /// of the message. Where no watch has the number, nothing changes. No changing call is counted.
    /// Takes no memory.
    ///
    /// The time is that of `deliver` without previous values, twice.
    pub fn advance(&mut self, number: u64)
        ensures stands { (w : World) → StandsFor self.old.store w
            → StandsFor self.new.store (deliver w number).1 }
        ensures others { self.new ≡ with_watches self.new.store.watches self.old }
        ensures kept { tables_of self.new ≡ tables_of self.old }
    {
        self.hub.go_on(&self.tables, number);
    }

    /// Ends the watch of a number. `NoWatch` comes where no watch has the number, and then nothing
    /// changes. No changing call is counted. Takes no memory.
    ///
    /// It is found in logarithmic time; the places of those that were made later move.
    pub fn cancel(&mut self, number: u64) -> Result<(), Refusal>
        ensures stood { (w : World) → StandsFor self.old.store w
            → is_ok result ≡ is_some (watch_at w.watches number) }
        ensures stands { (w : World) → StandsFor self.old.store w
            → StandsFor self.new.store (record w { watches = without_watch number w.watches }) }
        ensures others { self.new ≡ with_watches self.new.store.watches self.old }
        ensures kept { tables_of self.new ≡ tables_of self.old }
        ensures missing { IfErr result (λ e. e ≡ NoWatch) }
        ensures unchanged { OnErr result (self.new ≡ self.old) }
    {
        self.hub.cancel(number)
    }
}
