//! The holders that came back, and the end of a list.
ghost use Rattle.std.specs.Prelude.{◌≡◌, ◌≤◌, ◌+◌, ◌++◌, ◌∷◌, [], false, All, length, replicate};
ghost use Rattle.event_book.specs.Callers.{AreAll, Owns, made_by_all};

use crate::MOST_HOLDERS;
use crate::came::Came;
use crate::holder::Holder;
use crate::listing::{Listing, sure};
use crate::naming::ListName;
use std::marker::Model;
use std::sync::Wait;
use std::sync::ledger::Share;

/// The holders of the list `L` that came back, one after the other, and how many were made. It has
/// what no holder has of the ledger, and the number of each that came back.
#[derive(Drop)]
pub struct Returned<L: ListName> {
    share: Share<L>,
    holders: usize,
    marks: [bool; MOST_HOLDERS],
    came: Came,
}

impl<L: ListName> Model for Returned<L> {
    ghost use Rattle.std.specs.Prelude.{◌≡◌, ◌≤◌, ◌+◌, length};
    ghost use Rattle.std.specs.Coded.{codes};
    ghost use Rattle.kv_model.specs.contracts.call.Command as commands;
    ghost use Rattle.event_book.specs.Callers.{Back, made_by_all};
    ghost use Rattle.event_book.specs.Lists.{AreMarked};

    ghost Value = { Back };

    ghost coded = { Prim.hlevel (codes, commands.the_row.coded) };

    ghost view = { λ r. record { holders = r.holders; list = r.came } };

    ghost invariant = { λ r. (r.share.parts + r.holders ≡ 64 + length r.came)
        × (L.Ledger.parts ≡ 64) × (length r.came ≤ r.holders)
        × (r.share.amount ≡ made_by_all r.came) × AreMarked r.marks r.came };
}

impl<L: ListName> Returned<L> {
    /// So many were made, and none came back yet.
    pub(crate) fn of(rest: Share<L>, holders: usize) -> Self
        requires parts { rest.parts + holders ≡ 64 }
        requires whole { L.Ledger.parts ≡ 64 }
        requires none { rest.amount ≡ 0 }
        ensures { result ≡ record { holders = holders; list = [] } }
    {
        Returned {
            share: rest,
            holders,
            marks: no_marks(),
            came: Came::nobody(),
        }
    }

    /// This holder came back. Takes no memory, constant time.
    ///
    /// It waits for ever where the holder has not seen each of its own events. That never comes, but
    /// nothing that a book can say tells so.
    pub fn add<R: Wait>(&mut self, rt: &R, listing: &Listing<L>, holder: Holder<L>)
        ensures list { self.new ≡ record self.old { list = self.old.list ++ holder ∷ [] } }
        ensures owns { Owns listing.now holder }
    {
        sure(rt, listing.owns(&holder));
        let Holder {
            share,
            number,
            front,
            ..
        } = holder;
        self.came.add(number, &front);
        self.marks[number] = true;
        self.share.merge(share);
    }

    /// The list's end, where all holders came back: each event is of one of them, and there are as
    /// many as they made. Takes no memory, the time of 64 comparisons.
    ///
    /// It waits for ever where there is an event of a number that did not come. That never comes,
    /// but nothing that a book can say tells so.
    pub fn finish<R: Wait>(self, rt: &R, listing: Listing<L>)
        requires all { self.holders ≤ length self.list }
        requires owns { All (Owns listing) self.list }
        ensures all { AreAll listing self.list }
        ensures made { length listing ≡ made_by_all self.list }
    {
        let Returned { share, marks, .. } = self;
        sure(rt, listing.known_by(&marks));
        let mut total = listing.into_total();
        let mut all = share;
        total.audit(&mut all);
    }
}

/// No number came back.
fn no_marks() -> [bool; MOST_HOLDERS]
    ensures { result ≡ replicate 64 false }
{
    [false; MOST_HOLDERS]
}
