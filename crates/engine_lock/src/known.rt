//! What a client knows of for its reads, handed from one client to another.
ghost use Rattle.std.specs.Prelude.{◌≡◌};

use crate::opening::EngineName;
use event_book::Front;
use std::marker::{Model, PhantomData};

/// A front of the list of all events of the engine `L`: all that a client has read or was told of for
/// its reads ([`Client::known`](crate::Client::known)). Another client of the engine may take note of it
/// ([`Client::know`](crate::Client::know)). It is a number; clauses see the events.
#[derive(Drop)]
pub struct Known<L: EngineName> {
    front: Front,
    name: PhantomData<L>,
}

impl<L: EngineName> Model for Known<L> {
    ghost use Rattle.std.specs.Prelude.{◌≡◌, List};
    ghost use Rattle.std.specs.Coded.{codes};
    ghost use Rattle.kv_model.specs.contracts.call.Command as commands;
    ghost use Rattle.event_book.specs.Events.{Entry};

    ghost Value = { List Entry };

    ghost coded = { Prim.hlevel (codes, commands.the_row.coded) };

    ghost view = { λ k. k.front.list };

    ghost invariant = { λ k. k.front.book ≡ L.ListName.book };
}

impl<L: EngineName> Known<L> {
    /// Of a front of the engine's list.
    pub(crate) fn of(front: Front) -> Self
        requires { front.book ≡ L.ListName.book }
        ensures { result ≡ front.list }
    {
        Known {
            front,
            name: PhantomData,
        }
    }

    /// The front.
    pub(crate) fn front(&self) -> &Front
        ensures list { result.now.list ≡ self.now }
        ensures book { result.now.book ≡ L.ListName.book }
    {
        &self.front
    }
}
