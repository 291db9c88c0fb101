//! The events of an engine; the gate is told of each that may have a line, once it is made.
ghost use Rattle.std.specs.Prelude.{◌≡◌, is_ok, IfErr, MatchResult};
ghost use Rattle.kv_model.specs.Follows.Outcome.{said};
ghost use Rattle.kv_model.specs.Wire.{WireTold};
ghost use Rattle.kv_model.specs.Wire as events;
ghost use Rattle.kv_model.specs.declared.refusal.Refusal.TheVariants.{Memory, NoWatch};
ghost use Rattle.json_gateway.specs.Runs.{certified_outcome, delivery_outcome, trimmed_view};
ghost use Rattle.event_book.specs.Events.{Event};
ghost use Rattle.engine_lock.specs.Entering.{EntersAlone, Makes, MayTrim, ShowsTo, Submits, SubmitsExpiry};

use engine_lock::{Asked, Client, Engine, EngineName, Submitted, locked};
use http_peer::{Gate, Takes};
use json_gateway::{Certified, Expiry, Message, Refusal, Trim, Trimmed};
use std::alloc::AllocError;
use std::sync::Wait;

/// An engine, and the gate that is told of its events. Each call makes the event of the engine's call
/// that its comment names, with that call's contract and its cost, and then, where the event may have
/// a line, tells the gate, which may take the lines ([`Engine::take_lines`]). An engine without a
/// record has none.
#[derive(Drop)]
pub struct GatedEngine<'e, L: EngineName, G, R> {
    /// What lets a call wait.
    pub rt: &'e R,
    /// The engine.
    pub engine: &'e Engine<L>,
    /// What is told of each event.
    pub gate: &'e G,
}

impl<'e, L: EngineName, G, R: Wait> Takes for GatedEngine<'e, L, G, R> {
    ghost use Rattle.event_script.specs.Scripts.{Taken};
    ghost use Rattle.engine_lock.specs.Takings.{TakesLines};

    ghost Gives = { λ r text all. (old : Taken) × (new : Taken) × TakesLines r.engine.now.ids old new text all };

    fn take(&self, text: &mut Vec<u8>) -> bool {
        let mut taken = locked(self.rt, self.engine.taken());
        self.engine.take_lines(self.rt, &mut *taken, text)
    }
}

impl<'e, L: EngineName, G: Gate, R: Wait> GatedEngine<'e, L, G, R> {
    /// Whether events are written down.
    pub fn is_recorded(&self) -> bool
        ensures { result ≡ L.recorded }
    {
        self.engine.is_recorded()
    }

    /// [`Engine::submit_request`].
    pub fn submit_request(&self, client: &mut Client<L>, now: u64, asked: &Asked<'_>) -> Submitted
        ensures { Submits self.now.engine.now.ids client.old now asked.now result client.new }
    {
        let submitted = self.engine.submit_request(self.rt, client, now, asked);
        self.gate.recorded(self);
        self.tell_news();
        submitted
    }

    /// Tells the gate where a watch has fallen behind.
    fn tell_news(&self) {
        if self.engine.take_news() {
            self.gate.changed();
        }
    }

    /// [`Engine::deliver`].
    pub fn deliver(&self, client: &mut Client<L>, number: u64) -> Result<Message, AllocError>
        ensures { EntersAlone self.now.engine.now.ids client.old (Event.delivery number)
            (delivery_outcome result) client.new }
    {
        let told = self.engine.deliver(self.rt, client, number);
        self.gate.recorded(self);
        told
    }

    /// [`Engine::drop_watch`].
    pub fn drop_watch(&self, client: &mut Client<L>, number: u64) -> Result<(), Refusal>
        ensures ends { EntersAlone self.now.engine.now.ids client.old (Event.ending number)
            (said (WireTold.closed (is_ok result))) client.new }
        ensures missing { IfErr result (λ e. e ≡ NoWatch) }
    {
        let ended = self.engine.drop_watch(self.rt, client, number);
        self.gate.recorded(self);
        ended
    }

    /// [`Engine::trim_once`].
    pub fn trim_once(&self, client: &mut Client<L>) -> Result<Trim, Refusal>
        ensures trims { MayTrim self.now.engine.now.ids client.old result client.new }
        ensures refused { IfErr result (λ e. e ≡ Memory) }
    {
        let step = self.engine.trim_once(self.rt, client);
        self.gate.recorded(self);
        step
    }

    /// [`Engine::expire_once`].
    pub fn expire_once(&self, client: &mut Client<L>, now: u64) -> Result<Expiry, Refusal>
        ensures { SubmitsExpiry self.now.engine.now.ids client.old now result client.new }
    {
        let step = self.engine.expire_once(self.rt, client, now);
        self.gate.recorded(self);
        self.tell_news();
        step
    }

    /// [`Engine::moment`], which is never written down before another event comes.
    pub fn moment(&self, client: &mut Client<L>, now: u64) -> u64
        ensures { Makes self.now.engine.now.ids client.old (Event.moment now)
            (events.WireEvent.moment now) (said (WireTold.clock result)) client.new }
    {
        self.engine.moment(self.rt, client, now)
    }

    /// [`Engine::trim_checked`].
    pub fn trim_checked(&self, client: &mut Client<L>) -> Result<Trimmed, Refusal>
        ensures makes { MatchResult result (λ t. Makes self.now.engine.now.ids client.old Event.trimming
            events.WireEvent.trim (said (trimmed_view t)) client.new)
            (λ e. ShowsTo client.old client.new) }
        ensures refused { IfErr result (λ e. e ≡ Memory) }
    {
        let step = self.engine.trim_checked(self.rt, client);
        self.gate.recorded(self);
        step
    }

    /// [`Engine::certificate`], which has no line.
    pub fn certificate(&self, client: &mut Client<L>) -> Result<Certified, AllocError>
        ensures { Makes self.now.engine.now.ids client.old Event.certificate events.WireEvent.certify
            (certified_outcome result) client.new }
    {
        self.engine.certificate(self.rt, client)
    }
}
