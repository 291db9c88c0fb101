//! What a server begins with.
ghost use Rattle.std.specs.Prelude.{◌≡◌, ◌+◌, IfOk, IfErr};
ghost use Rattle.engine_lock.specs.Locked.{IsNew};
ghost use Rattle.http_front.specs.Ends.{IsOfServer};

use engine_lock::{Client, Engine, EngineName};
use http_reply::Front;
use std::sync::Wait;

/// How much a server serves.
#[derive(Clone, Copy, Debug, PartialEq, Eq)]
pub struct Limits {
    /// How many threads give connections their turns.
    pub workers: u64,
    /// How many in all, at most 2^63 - 1.
    pub connections: u64,
}

/// An engine that a server is to serve, and a client of it: events may have been made by it before.
/// The server goes on with both, and closes the engine.
#[derive(Drop)]
pub struct Begun<L: EngineName> {
    pub engine: Engine<L>,
    pub client: Client<L>,
}

impl<L: EngineName> Begun<L> {
    /// An engine, and a client that is made of it, which made no event yet. Fails with
    /// `Front::Unclosed` where it has no place for one.
    pub fn new<R: Wait>(rt: &R, engine: Engine<L>) -> Result<Self, Front>
        ensures engine { IfOk result
            (λ begun. begun.engine ≡ record engine { clients = engine.clients + 1 }) }
        ensures client { IfOk result (λ begun. IsNew begun.client) }
        ensures fault { IfErr result IsOfServer }
    {
        let mut engine = engine;
        match engine.client(rt) {
            Ok(client) => Ok(Begun { engine, client }),
            Err(_) => Err(Front::Unclosed),
        }
    }
}
