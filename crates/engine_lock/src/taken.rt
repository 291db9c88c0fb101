//! Up to which event of the list what is written down was taken.
ghost use Rattle.std.specs.Prelude.{◌≡◌, [], true};
ghost use Rattle.event_book.specs.Events.{IsHistory};
ghost use Rattle.event_script.specs.Taking.{taken_next, untaken};

use crate::opening::EngineName;
use event_book::Front;
use std::marker::{Model, PhantomData};

/// Up to which event of the list of the engine `L` its lines were taken, and whether it was told then
/// that some are missing. What stands under the lock has one, and whoever takes the lines another
/// ([`Engine::taken`](crate::Engine::taken)), which is the same whenever the lock is free.
#[derive(Drop)]
pub struct Taken<L: EngineName> {
    front: Front,
    is_over: bool,
    name: PhantomData<L>,
}

impl<L: EngineName> Model for Taken<L> {
    ghost use Rattle.std.specs.Prelude.{◌≡◌};
    ghost use Rattle.std.specs.Coded.{codes};
    ghost use Rattle.kv_model.specs.contracts.call.Command as commands;
    ghost use Rattle.event_book.specs.Events.{IsHistory};
    ghost use Rattle.event_script.specs.Scripts.{Taken};

    ghost Value = { Taken };

    ghost coded = { Prim.hlevel (codes, commands.the_row.coded) };

    ghost view = { λ t. record { front = t.front.list; is_over = t.is_over } };

    ghost invariant = { λ t. (t.front.book ≡ L.ListName.book) × IsHistory L.ListName.ids t.front.list };
}

impl<L: EngineName> Taken<L> {
    /// Nothing was taken yet of the list that this front begins; where no line will come, that is over.
    pub(crate) fn nothing(front: Front, is_over: bool) -> Self
        requires list { front.list ≡ [] }
        requires book { front.book ≡ L.ListName.book }
        requires history { IsHistory L.ListName.ids front.list }
        ensures { result ≡ untaken is_over }
    {
        Taken {
            front,
            is_over,
            name: PhantomData,
        }
    }

    /// A copy. Takes no memory.
    pub(crate) fn again(&self) -> Self
        ensures value { result ≡ self.now }
        ensures history { IsHistory L.ListName.ids result.front }
    {
        Taken {
            front: self.front.again(),
            is_over: self.is_over,
            name: PhantomData,
        }
    }

    /// Whether this one is as far as another.
    pub(crate) fn is(&self, other: &Self) -> bool
        ensures { result ≡ true → self.now ≡ other.now }
    {
        if !self.front.begins_with(&other.front) {
            return false;
        }
        if !other.front.begins_with(&self.front) {
            return false;
        }
        self.is_over == other.is_over
    }

    /// All was taken that was written of the list up to here, of which lines are missing or not. Once
    /// they are, nothing more is taken.
    pub(crate) fn take_on(&mut self, all: bool, front: Front)
        requires book { front.book ≡ L.ListName.book }
        requires history { IsHistory L.ListName.ids front.list }
        ensures { self.new ≡ taken_next self.old all front.list }
    {
        if self.is_over {
            return;
        }
        self.front = front;
        self.is_over = !all;
    }
}
