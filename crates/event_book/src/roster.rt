//! Who there is to enter events.
ghost use Rattle.std.specs.Prelude.{◌≡◌, ◌+◌, ◌≤◌, [], IfNone, IfSome, OnSome};

use crate::MOST_HOLDERS;
use crate::book::Front;
use crate::holder::Holder;
use crate::naming::ListName;
use crate::returned::Returned;
use std::marker::Model;
use std::sync::ledger::Share;

/// The roster of the holders of the list `L`, as a clause sees it how many were made. It stands
/// beside the engine, not under its lock: no holder is made but where the roster is lent. `rest` is
/// what no holder has of the ledger.
#[derive(Drop)]
pub struct Roster<L: ListName> {
    pub(crate) rest: Share<L>,
    pub(crate) holders: usize,
    pub(crate) front: Front,
}

impl<L: ListName> Model for Roster<L> {
    ghost use Rattle.std.specs.Prelude.{◌≡◌, ◌+◌, [], ℕ};

    ghost Value = { ℕ };

    ghost view = { λ r. r.holders };

    ghost invariant = { λ r. (r.rest.parts + r.holders ≡ 64) × (L.Ledger.parts ≡ 64)
        × (r.rest.amount ≡ 0) × (r.front.book ≡ L.book) × (r.front.list ≡ []) };
}

impl<L: ListName> Roster<L> {
    /// One more holder, which has seen nothing of the list yet. None comes after 64. Takes no memory.
    pub fn holder(&mut self) -> Option<Holder<L>>
        ensures number { IfSome result (λ h. h.number ≡ self.old) }
        ensures front { IfSome result (λ h. h.front ≡ []) }
        ensures counted { OnSome result (self.new ≡ self.old + 1) }
        ensures full { IfNone result ((64 ≤ self.old) × (self.new ≡ self.old)) }
    {
        if self.holders >= MOST_HOLDERS {
            return None;
        }
        let share = self.rest.split_off(1, 0);
        let number = self.holders;
        self.holders += 1;
        Some(Holder {
            share,
            number,
            count: 0,
            front: self.front.again(),
        })
    }

    /// How many holders were made. Takes no memory.
    pub fn holders(&self) -> usize
        ensures { result ≡ self.now }
    {
        self.holders
    }

    /// No holder more is made, and none came back yet. Takes no memory.
    pub fn returned(self) -> Returned<L>
        ensures { result ≡ record { holders = self; list = [] } }
    {
        let Roster { rest, holders, .. } = self;
        Returned::of(rest, holders)
    }
}
