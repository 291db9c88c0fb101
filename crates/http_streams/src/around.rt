//! What the thread that looks after streams shares with the other threads of a server.
ghost use Rattle.std.specs.Prelude.{◌≡◌};

use crate::handing::Handing;
use engine_lock::{Engine, EngineName};
use recorded_engine::GatedEngine;
use std::sync::Wait;
use std::sync::atomic::AtomicBool;

/// What is looked at once a second, beside the streams.
pub trait Looked {
    /// Looks at it.
    fn look<R: Wait>(&self, rt: &R);
}

/// What the thread that looks after streams shares with the other threads of a server.
#[derive(Drop)]
pub struct Around<'s, L: EngineName, G, K> {
    pub engine: &'s Engine<L>,
    pub gate: &'s G,
    /// By which streams that have begun are handed over.
    pub handing: &'s Handing,
    /// Whether the server ends.
    pub ended: &'s AtomicBool,
    /// What is looked at once a second beside the streams.
    pub others: &'s K,
}

impl<'s, L: EngineName, G, K> Around<'s, L, G, K> {
    /// What makes the events of the engine.
    pub(crate) fn events<'e, R>(&'e self, rt: &'e R) -> GatedEngine<'e, L, G, R>
        ensures { result.engine.now ≡ self.now.engine.now }
    {
        GatedEngine {
            rt,
            engine: self.engine,
            gate: self.gate,
        }
    }
}
