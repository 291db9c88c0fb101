//! A clock that stands still.
use http_peer::Clock;

/// A clock that stands at its beginning. A moment that is handed in by it leaves the engine's clock,
/// so that this stands where the engine was last told a moment by somebody else.
#[derive(Clone, Copy, Drop)]
pub struct StoppedClock;

impl Clock for StoppedClock {
    ghost use Rattle.std.specs.Prelude.{◌≡◌};

    ghost Tells = { λ c now. now ≡ 0 };

    fn now(&self) -> u64 {
        0
    }
}
