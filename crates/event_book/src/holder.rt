//! Who enters events.
ghost use Rattle.std.specs.Prelude.{◌≡◌};

use crate::book::Front;
use crate::naming::ListName;
use std::marker::Model;
use std::sync::ledger::Share;

/// Whoever enters events in the list `L`: its number, the beginning of the list that it has seen,
/// and its share of the ledger, which is how many events it made. It goes from thread to thread.
#[derive(Drop)]
pub struct Holder<L: ListName> {
    pub(crate) share: Share<L>,
    pub(crate) number: usize,
    pub(crate) count: u64,
    pub(crate) front: Front,
}

impl<L: ListName> Model for Holder<L> {
    ghost use Rattle.std.specs.Prelude.{◌≡◌, ◌<◌, length};
    ghost use Rattle.std.specs.Coded.{codes};
    ghost use Rattle.kv_model.specs.contracts.call.Command as commands;
    ghost use Rattle.event_book.specs.Callers.{Caller};
    ghost use Rattle.event_book.specs.Events.{IsHistory, events_by};

    ghost Value = { Caller };

    ghost coded = { Prim.hlevel (codes, commands.the_row.coded) };

    ghost view = { λ h. record { number = h.number; front = h.front.list } };

    ghost invariant = { λ h. (h.share.parts ≡ 1) × (h.share.amount ≡ h.count)
        × (h.count ≡ length (events_by h.number h.front.list)) × (h.number < 64)
        × (h.front.book ≡ L.book) × IsHistory L.ids h.front.list };
}

impl<L: ListName> Holder<L> {
    ghost use Rattle.std.specs.Prelude.{◌<◌};
    ghost use Rattle.event_book.specs.Callers.{made_by};
    ghost use Rattle.event_book.specs.Events.{IsHistory};

    /// Its number, by which its events are known in the list. Takes no memory.
    pub fn number(&self) -> usize
        ensures number { result ≡ self.now.number }
        ensures few { result < 64 }
    {
        self.number
    }

    /// How many events it made. Takes no memory.
    pub fn made(&self) -> u64
        ensures made { result ≡ made_by self.now }
        ensures history { IsHistory L.ids self.now.front }
    {
        self.count
    }

    /// The beginning of the list that it has seen. Takes no memory, and copies a number.
    pub fn front(&self) -> Front
        ensures list { result.list ≡ self.now.front }
        ensures book { result.book ≡ L.book }
        ensures history { IsHistory L.ids result.list }
    {
        self.front.again()
    }
}
