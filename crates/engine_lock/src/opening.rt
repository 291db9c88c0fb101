//! What an engine is opened with: the name of its list, and what readers will be told of.
ghost use Rattle.std.specs.Prelude.{◌≡◌, Bool, false, IfOk};

use crate::MOST_CLIENTS;
use event_book::ListName;
use snapshot_feed::Feed;
use std::alloc::{AllocError, Global};
use std::marker::{Brand, Model};
use std::sync::Wait;

/// Names one engine, by the list of all its events, with the ledger of its clients' shares and the ids
/// that it answers by ([`ListName`]), and says whether its events are written down. No type but
/// `Brand` has it, and a call with `Brand` picks the names: so engine and clients live inside a
/// function that is generic in it, and a client of another engine has another type.
pub trait EngineName: ListName {
    /// Whether its events are written down.
    ghost recorded: { Bool };
}

impl EngineName for Brand {
    ghost recorded = { false };
}

/// What an engine is opened with, made before the function that is generic in its name: a list
/// without an event, whose ledger no type stands for yet and is cut into a part for each client, and
/// the feed of what readers beside the writer see.
#[derive(Drop)]
pub struct Opening {
    pub(crate) list: event_book::Opening,
    pub(crate) feed: Feed,
}

impl Model for Opening {
    ghost use Rattle.std.specs.Prelude.{◌≡◌};
    ghost use Rattle.event_book.specs.Lists.{Opened};
    ghost use Rattle.snapshot_feed.specs.States.{unused};

    ghost Value = { Opened };

    ghost view = { λ o. o.list };

    ghost invariant = { λ o. (o.list.parts ≡ 64) × (o.feed ≡ unused o.list.book) };
}

impl Opening {
    /// The opening of an engine of 64 clients, as [`Opening::for_clients`] makes it.
    pub fn new<R: Wait>(alloc: Global, rt: &R) -> Result<Self, AllocError>
        ensures { IfOk result (λ o. o.parts ≡ 64) }
    {
        Opening::for_clients(alloc, rt, MOST_CLIENTS)
    }

    /// The opening of an engine that is asked for so many clients, but for one at least and for 64
    /// at most: there are places for as many readers, each of which a publication visits. One more
    /// client finds no place.
    ///
    /// `AllocError` comes where the feed of the readers finds no memory: for two copies of the empty
    /// tables, and for the table of the readers' places.
    pub fn for_clients<R: Wait>(alloc: Global, rt: &R, clients: u64) -> Result<Self, AllocError>
        ensures { IfOk result (λ o. o.parts ≡ 64) }
    {
        let list = event_book::Opening::new();
        let feed = Feed::with_room(alloc, rt, clients as usize, &list.front())?;
        Ok(Opening { list, feed })
    }
}
