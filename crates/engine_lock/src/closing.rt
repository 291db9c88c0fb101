//! How an engine ends.
ghost use Rattle.std.specs.Prelude.{◌≡◌};

use crate::client::Client;
use crate::engine::Engine;
use crate::opening::EngineName;

/// Missing: not every client that the engine made came back. The engine is handed back, with the
/// clients that came.
#[derive(Drop)]
pub struct CloseFault<L: EngineName> {
    pub engine: Engine<L>,
    pub clients: Vec<Client<L>>,
}

impl<L: EngineName> CloseFault<L> {
    /// The number of the fault. Takes no memory.
    pub fn number(&self) -> u8
        ensures { result ≡ 1 }
    {
        1
    }
}
