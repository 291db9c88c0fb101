//! A request whose answer waits.
ghost use Rattle.std.specs.Prelude.{◌<◌};

use http_loop::Waiting;

/// A request that was done and whose answer waits for trimming.
#[derive(Drop)]
pub struct Trimming {
    /// Its outcome.
    pub waiting: Waiting,
    /// The store's revision behind it.
    pub revision: u64,
    /// How many trimming steps were refused in a row.
    pub refusals: u64,
    ghost few: { refusals < 1000 },
}
