//! How far a connection is.
ghost use Rattle.std.specs.Prelude.{◌≡◌, []};
ghost use Rattle.http_connections.specs.declared.life.Stage.TheVariants as stage;

use crate::awaiting::Trimming;
use engine_lock::{EngineName, Known};
use http_peer::Unsent;
use std::alloc::Global;

/// How far a connection is.
#[derive(Drop)]
pub enum Stage {
    /// A next request is waited for, or has come in part.
    Reading,
    /// A request was done, and its answer waits for trimming.
    Trimming(Trimming),
    /// The stream of the watch of this number has begun, and goes on elsewhere once all is out.
    Streaming(u64),
    /// It is closed once all is out.
    Closing,
}

/// A connection between two waits, but for its socket and for what has come and was not answered: how
/// far it is, what was answered and has not gone out, and what its client knows of. What that says of the
/// connection's whole life is `Lives` of `specs/Lines.antt`, which each turn keeps.
#[derive(Drop)]
pub struct Life<L: EngineName> {
    /// The connection's number, which each of its events is about.
    pub call: u64,
    pub stage: Stage,
    /// What has not gone out. While there is any, no request is read.
    pub unsent: Unsent,
    /// The front of all that was read for it, and that it was told of.
    pub known: Known<L>,
}

impl<L: EngineName> Life<L> {
    /// A connection of this number of which no byte has come. Takes no memory.
    pub fn new(alloc: Global, call: u64, known: Known<L>) -> Self
        ensures { result ≡ record { call = call; stage = stage.Reading; unsent = []; known = known } }
    {
        Life {
            call,
            stage: Stage::Reading,
            unsent: Unsent::new(alloc),
            known,
        }
    }
}
