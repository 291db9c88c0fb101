//! What whoever runs an engine asks of it, beside the requests of clients: events of a run, each in
//! one holding of the lock, for a client of its own.
ghost use Rattle.std.specs.Prelude.{◌≡◌, IfErr, MatchResult};
ghost use Rattle.kv_model.specs.declared.refusal.Refusal.TheVariants.{Memory};
ghost use Rattle.kv_model.specs.Follows.Outcome.{said};
ghost use Rattle.kv_model.specs.Wire.{WireTold};
ghost use Rattle.kv_model.specs.Wire as events;
ghost use Rattle.json_gateway.specs.Runs.{certified_outcome, trimmed_view};
ghost use Rattle.event_book.specs.Events.{Event};
ghost use Rattle.engine_lock.specs.Entering.{Makes, ShowsTo};

use super::{Engine, locked};
use crate::client::Client;
use crate::opening::EngineName;
use json_gateway::{Certified, Refusal, Trimmed};
use std::alloc::AllocError;
use std::sync::Wait;

impl<L: EngineName> Engine<L> {
    /// Hands in the moment `now`, in milliseconds, and tells the clock: the greatest moment so far,
    /// at most 2^62. One before the clock leaves it. Takes no memory. The client's reading is left.
    pub fn moment<R: Wait>(&self, rt: &R, client: &mut Client<L>, now: u64) -> u64
        ensures { Makes self.now.ids client.old (Event.moment now) (events.WireEvent.moment now)
            (said (WireTold.clock result)) client.new }
    {
        client.leave();
        locked(rt, &self.state).moment(rt, client, now)
    }

    /// What is kept and its certificate, of one holding of the lock: the dump of some core that
    /// stood for a world, whose versions answer there every question from the compaction on as the
    /// whole history does, and the claims of that dump. The client's reading is left.
    ///
    /// `AllocError` comes where one of the two found no memory. Time and memory are those of
    /// `Core::dump` and `Core::certificate`, linear in the versions that are kept and their look-ups,
    /// while the lock is held; what a version holds is shared and not copied.
    pub fn certificate<R: Wait>(
        &self,
        rt: &R,
        client: &mut Client<L>,
    ) -> Result<Certified, AllocError>
        ensures { Makes self.now.ids client.old Event.certificate events.WireEvent.certify
            (certified_outcome result) client.new }
    {
        client.leave();
        locked(rt, &self.state).certificate(rt, client)
    }

    /// Makes a trimming step, as [`Engine::trim_once`] does, and where it is done makes and checks
    /// the certificate of what is kept, in the same holding. `Memory` comes where there is none
    /// for the step, and then nothing has changed; where the certificate finds none, the step tells
    /// none. The client's reading is left.
    pub fn trim_checked<R: Wait>(&self, rt: &R, client: &mut Client<L>) -> Result<Trimmed, Refusal>
        ensures makes { MatchResult result (λ t. Makes self.now.ids client.old Event.trimming
            events.WireEvent.trim (said (trimmed_view t)) client.new)
            (λ e. ShowsTo client.old client.new) }
        ensures refused { IfErr result (λ e. e ≡ Memory) }
    {
        client.leave();
        locked(rt, &self.state).trim_checked(rt, self.alloc, client)
    }
}
