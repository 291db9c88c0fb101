//! Events of a run that nobody's request asks for: a moment by itself, what is kept with its
//! certificate, and a trimming step that is told with one.
ghost use Rattle.std.specs.Prelude.{◌≡◌, false, Ok, Err, IfErr, MatchResult};
ghost use Rattle.kv_model.specs.declared.refusal.Refusal.TheVariants.{Memory};
ghost use Rattle.kv_model.specs.Follows.Outcome.{said};
ghost use Rattle.kv_model.specs.Wire.{WireTold};
ghost use Rattle.kv_model.specs.Wire as events;
ghost use Rattle.json_gateway.specs.Runs.{certified_outcome, trimmed_view};
ghost use Rattle.event_book.specs.Events.{Event};
ghost use Rattle.engine_lock.specs.Entering.{IsTold, Makes, ShowsTo};

use super::State;
use crate::client::Client;
use crate::making::Made;
use crate::noting::note_checked;
use crate::opening::EngineName;
use json_gateway::{Certified, Refusal, Trimmed};
use std::alloc::{AllocError, Global};
use std::sync::Wait;

impl<L: EngineName> State<L> {
    /// Hands in a moment, and tells the clock.
    pub(crate) fn moment<R: Wait>(&mut self, rt: &R, client: &mut Client<L>, now: u64) -> u64
        requires { client.old.reader.inside ≡ false }
        ensures makes { Makes L.ListName.ids client.old (Event.moment now) (events.WireEvent.moment now)
            (said (WireTold.clock result)) client.new }
        ensures quiet { IsTold false client.old client.new }
        ensures front { client.new.holder.front ≡ self.new.log }
        ensures out { client.new.reader.inside ≡ false }
    {
        let clock = self.copies.moved(now);
        self.lines.hand_in(now);
        client.note(rt, &mut self.listing, Made::Moment(now, clock), false);
        clock
    }

    /// What is kept, and its certificate.
    pub(crate) fn certificate<R: Wait>(
        &mut self,
        rt: &R,
        client: &mut Client<L>,
    ) -> Result<Certified, AllocError>
        requires { client.old.reader.inside ≡ false }
        ensures { Makes L.ListName.ids client.old Event.certificate events.WireEvent.certify
            (certified_outcome result) client.new }
    {
        let shown = self.copies.certified(rt);
        client.note(rt, &mut self.listing, Made::Certificate(&shown), false);
        shown
    }

    /// Makes a trimming step, as [`State::trim`] does; where it is done, with the certificate of what
    /// is kept.
    pub(crate) fn trim_checked<R: Wait>(
        &mut self,
        rt: &R,
        alloc: Global,
        client: &mut Client<L>,
    ) -> Result<Trimmed, Refusal>
        requires { client.old.reader.inside ≡ false }
        ensures makes { MatchResult result (λ t. Makes L.ListName.ids client.old Event.trimming
            events.WireEvent.trim (said (trimmed_view t)) client.new)
            (λ e. ShowsTo client.old client.new) }
        ensures refused { IfErr result (λ e. e ≡ Memory) }
    {
        let step = match self.copies.trimmed_and_checked(rt, alloc) {
            Ok(step) => step,
            Err(refusal) => {
                client.see(rt, &self.listing);
                return Err(refusal);
            }
        };
        client.note(rt, &mut self.listing, Made::Checked(&step), false);
        note_checked(&mut self.lines, &step);
        self.show(rt, matches!(step, Trimmed::Done { .. }));
        Ok(step)
    }
}
