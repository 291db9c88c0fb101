//! One event on the core that has tables of its own, or, where it needs none, on what is besides them.
ghost use Rattle.std.specs.Prelude.{◌≡◌, is_ok, true, false, None, Ok, IfErr, IfOk, OnErr};
ghost use Rattle.kv_model.specs.Commands.{call_of};
ghost use Rattle.kv_model.specs.Follows.Outcome.{said};
ghost use Rattle.kv_model.specs.Wire.{WireTold, is_physical_call, trim_told};
ghost use Rattle.kv_model.specs.Wire as events;
ghost use Rattle.kv_model.specs.World.{World, at_moment};
ghost use Rattle.kv_model.specs.declared.ids.Ids.{Ids as IdsOf};
ghost use Rattle.kv_model.specs.declared.refusal.Refusal.TheVariants.{Memory, NoWatch};
ghost use Rattle.store_laws.specs.Stands.{StandsFor};
ghost use Rattle.trim_core.specs.Told.{told_of};
ghost use Rattle.request_core.specs.Commands.{TrimsOnce};
ghost use Rattle.request_core.specs.State.{tables_of};
ghost use Rattle.engine_lock.specs.Copied.{appended};
ghost use Rattle.json_gateway.specs.Outcomes.{IsBare, is_accepted};
ghost use Rattle.json_gateway.specs.Runs.{certified_outcome, command_view, delivery_outcome, trimmed_view};
ghost use Rattle.event_book.specs.Asking.{IsAsked};
ghost use Rattle.event_book.specs.Events.{Event};
ghost use Rattle.event_script.specs.Notes.{step_outcome};
ghost use Rattle.engine_lock.specs.Entering.{MakesExpiry};
ghost use Rattle.engine_lock.specs.Fits.{MakesOn, StepsIn};

use super::{Copies, Hold};
use crate::asked::Asked;
use crate::steps::{
    certified, dropped, dropped_apart, expired, moved, moved_apart, performed, told, trimmed,
    trimmed_and_checked, wanting,
};
use json_gateway::{Certified, Expiry, Ids, Message, Outcome, Refusal, Trim, Trimmed};
use std::alloc::{AllocError, Global};
use std::sync::Wait;

impl Copies {
    /// Hands in a moment, and tells the clock. Readers are told of nothing, and nobody is waited for.
    pub(crate) fn moved(&mut self, now: u64) -> u64
        ensures stands { (w : World) → StandsFor self.old.core.store w
            → StandsFor self.new.core.store (at_moment w now) }
        ensures tables { tables_of self.new.core ≡ tables_of self.old.core }
        ensures makes { (ids : IdsOf) → MakesOn ids (Event.moment now) (said (WireTold.clock result))
            self.old.core self.new.core (appended self.old.feed) (appended self.new.feed) }
        ensures steps { (ids : IdsOf) → StepsIn ids (events.WireEvent.moment now)
            (said (WireTold.clock result)) self.old.core self.new.core }
        ensures feed { self.new.feed ≡ self.old.feed }
    {
        let core = match &mut self.hold {
            Hold::Whole(core, _) => core,
            Hold::Apart(rest) => return moved_apart(rest, now),
        };
        moved(core, now)
    }

    /// Does a command. Where the tables of the core find no memory to come to what they are to be, it
    /// is refused for that.
    pub(crate) fn performed<R: Wait>(
        &mut self,
        rt: &R,
        alloc: Global,
        asked: &Asked<'_>,
        ids: &Ids,
    ) -> Outcome
        ensures makes { (now : _) → MakesOn ids.now (Event.command now asked.now)
            (command_view result) self.old.core self.new.core
            (appended self.old.feed) (appended self.new.feed) }
        ensures book { self.new.feed.book ≡ self.old.feed.book }
        ensures asked { IsAsked asked.now }
        ensures bare { IsBare result }
        ensures ready { is_accepted result.settled ≡ false → result.waits ≡ false }
        ensures waits { (w : World) → StandsFor self.old.core.store w
            → is_accepted result.settled ≡ true
            → result.waits ≡ is_physical_call w (Ok (call_of asked.now.command)) }
    {
        self.own(rt);
        let Hold::Whole(core, ops) = &mut self.hold else {
            return wanting(asked);
        };
        performed(alloc, core, ops, asked, ids)
    }

    /// Makes a step of expiry.
    pub(crate) fn expired<R: Wait>(&mut self, rt: &R) -> Result<Expiry, Refusal>
        ensures makes { MakesExpiry self.old.core self.new.core result }
        ensures on { (ids : IdsOf) → (now : _) → MakesOn ids (Event.expiry now)
            (step_outcome result) self.old.core self.new.core
            (appended self.old.feed) (appended self.new.feed) }
        ensures book { self.new.feed.book ≡ self.old.feed.book }
    {
        self.own(rt);
        let Hold::Whole(core, ops) = &mut self.hold else {
            return Err(Refusal::Memory);
        };
        expired(core, ops)
    }

    /// Tells a watch what it is told next, and moves it past that.
    pub(crate) fn delivered<R: Wait>(
        &mut self,
        rt: &R,
        alloc: Global,
        number: u64,
        ids: &Ids,
    ) -> Result<Message, AllocError>
        ensures makes { MakesOn ids.now (Event.delivery number) (delivery_outcome result)
            self.old.core self.new.core (appended self.old.feed) (appended self.new.feed) }
        ensures feed { self.new.feed ≡ self.old.feed }
    {
        self.own(rt);
        let Hold::Whole(core, _) = &mut self.hold else {
            return Err(AllocError);
        };
        told(alloc, core, number, ids)
    }

    /// Ends a watch. Nobody is waited for.
    pub(crate) fn dropped(&mut self, number: u64) -> Result<(), Refusal>
        ensures makes { (ids : IdsOf) → MakesOn ids (Event.ending number)
            (said (WireTold.closed (is_ok result))) self.old.core self.new.core
            (appended self.old.feed) (appended self.new.feed) }
        ensures feed { self.new.feed ≡ self.old.feed }
        ensures missing { IfErr result (λ e. e ≡ NoWatch) }
    {
        let core = match &mut self.hold {
            Hold::Whole(core, _) => core,
            Hold::Apart(rest) => return dropped_apart(rest, number),
        };
        dropped(core, number)
    }

    /// Makes a trimming step. `Memory` comes where the tables find none to come to what they are to be,
    /// or the feed none to be told of the step, and then nothing has changed.
    pub(crate) fn trimmed<R: Wait>(&mut self, rt: &R) -> Result<Trim, Refusal>
        ensures trims { IfOk result (λ t. TrimsOnce self.old.core self.new.core t) }
        ensures makes { IfOk result (λ t. (ids : IdsOf) → MakesOn ids Event.trimming
            (said (trim_told (told_of t) None)) self.old.core self.new.core
            (appended self.old.feed) (appended self.new.feed)) }
        ensures book { self.new.feed.book ≡ self.old.feed.book }
        ensures refused { IfErr result (λ e. e ≡ Memory) }
        ensures unchanged { OnErr result (self.new ≡ self.old) }
    {
        self.own(rt);
        let Hold::Whole(core, ops) = &mut self.hold else {
            return Err(Refusal::Memory);
        };
        trimmed(core, ops)
    }

    /// The same, told with the certificate of what is kept where it is done.
    pub(crate) fn trimmed_and_checked<R: Wait>(
        &mut self,
        rt: &R,
        alloc: Global,
    ) -> Result<Trimmed, Refusal>
        ensures makes { IfOk result (λ t. (ids : IdsOf) → MakesOn ids Event.trimming
            (said (trimmed_view t)) self.old.core self.new.core
            (appended self.old.feed) (appended self.new.feed)) }
        ensures steps { IfOk result (λ t. (ids : IdsOf) → StepsIn ids events.WireEvent.trim
            (said (trimmed_view t)) self.old.core self.new.core) }
        ensures book { self.new.feed.book ≡ self.old.feed.book }
        ensures refused { IfErr result (λ e. e ≡ Memory) }
        ensures unchanged { OnErr result (self.new ≡ self.old) }
    {
        self.own(rt);
        let Hold::Whole(core, ops) = &mut self.hold else {
            return Err(Refusal::Memory);
        };
        trimmed_and_checked(alloc, core, ops)
    }

    /// What the core keeps, and its certificate.
    pub(crate) fn certified<R: Wait>(&mut self, rt: &R) -> Result<Certified, AllocError>
        ensures makes { (ids : IdsOf) → MakesOn ids Event.certificate (certified_outcome result)
            self.old.core self.new.core (appended self.old.feed) (appended self.new.feed) }
        ensures steps { (ids : IdsOf) → StepsIn ids events.WireEvent.certify
            (certified_outcome result) self.old.core self.new.core }
        ensures same { self.new ≡ self.old }
    {
        self.own(rt);
        let Hold::Whole(core, _) = &self.hold else {
            return Err(AllocError);
        };
        certified(core)
    }
}
