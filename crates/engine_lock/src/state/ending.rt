//! The end of what stands under the lock.
ghost use Rattle.std.specs.Prelude.{◌≡◌, ◌≤◌, true, All, length, map};
ghost use mathlib.Core.List.{IsPrefix};
ghost use Rattle.event_book.specs.Callers.{Owns};
ghost use Rattle.engine_lock.specs.Entering.{Closes};
ghost use Rattle.engine_lock.specs.Locked.{Caller};

use super::State;
use crate::client::Client;
use crate::opening::EngineName;
use event_book::{Listing, Returned, Roster, sure};
use request_core::store::Core;
use snapshot_feed::SnapReader;
use std::sync::Wait;

impl<L: EngineName> State<L> {
    /// The core, where all clients came back. Their readings end first, since the feed's end waits for
    /// each of them.
    pub(crate) fn finish<R: Wait>(self, rt: &R, roster: Roster<L>, clients: Vec<Client<L>>) -> Core
        requires { roster ≤ length clients.items }
        ensures { Closes L.ListName.ids result clients.items }
    {
        let State {
            copies,
            listing,
            ..
        } = self;
        listing.audit();
        let returned = take_back(rt, &listing, roster, clients);
        returned.finish(rt, listing);
        copies.finish(rt)
    }
}

/// Takes all these clients back, whose readings end.
fn take_back<L: EngineName, R: Wait>(
    rt: &R,
    listing: &Listing<L>,
    roster: Roster<L>,
    clients: Vec<Client<L>>,
) -> Returned<L>
    ensures holders { result.holders ≡ roster }
    ensures list { result.list ≡ map (λ c. c.holder) clients.items }
    ensures owns { All (Owns listing.now) result.list }
    ensures known { All (λ (c : Caller). IsPrefix c.reader.known listing.now) clients.items }
{
    let mut returned = roster.returned();
    for client in clients {
        let Client { holder, reader, .. } = client;
        sure(rt, knows(listing, &reader));
        returned.add(rt, listing, holder);
    }
    returned
}

/// Whether all that a reader knows of begins this list. It always does, but nothing that a book can say
/// tells so of a list that its lock's holder has.
fn knows<L: EngineName>(listing: &Listing<L>, reader: &SnapReader) -> bool
    requires { reader.now.reads.book ≡ L.ListName.book }
    ensures { result ≡ true → IsPrefix reader.now.reads.known listing.now }
{
    listing.front().begins_with(&reader.known())
}
