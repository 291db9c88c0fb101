//! What the threads of a server share.
ghost use Rattle.std.specs.Prelude.{◌≡◌};

use crate::lines::Lines;
use engine_lock::{Engine, EngineName};
use http_peer::Door;
use http_streams::Handing;
use recorded_engine::GatedEngine;
use std::net::TcpListener;
use std::sync::Mutex;
use std::sync::atomic::AtomicBool;

/// What the threads of a server share.
#[derive(Drop)]
pub struct Shared<'s, L: EngineName, G, C> {
    pub engine: &'s Engine<L>,
    pub gate: &'s G,
    pub clock: &'s C,
    pub listener: &'s TcpListener,
    /// Under which a worker accepts a connection.
    pub door: Mutex<Door>,
    /// The connections that stand.
    pub lines: Lines<L>,
    /// By which streams that have begun are handed over.
    pub handing: Handing,
    /// Whether the server ends: no further connection is let in, each ends after the request that it
    /// is in, and the threads beside the workers end. Without a director it is set once the workers
    /// have ended.
    pub ended: AtomicBool,
}

impl<'s, L: EngineName, G, C> Shared<'s, L, G, C> {
    /// Nothing has begun. At most `connections` come in.
    pub fn new(
        engine: &'s Engine<L>,
        gate: &'s G,
        clock: &'s C,
        listener: &'s TcpListener,
        connections: u64,
        lines: Lines<L>,
        handing: Handing,
    ) -> Self {
        Shared {
            engine,
            gate,
            clock,
            listener,
            door: Mutex::new(Door::new(connections)),
            lines,
            handing,
            ended: AtomicBool::new(false),
        }
    }

    /// What makes the events of the engine.
    pub fn events<'e, R>(&'e self, rt: &'e R) -> GatedEngine<'e, L, G, R>
        ensures { result.engine.now ≡ self.now.engine.now }
    {
        GatedEngine {
            rt,
            engine: self.engine,
            gate: self.gate,
        }
    }
}
