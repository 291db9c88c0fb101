//! Trimming steps, of which readers are told.
ghost use Rattle.std.specs.Prelude.{◌≡◌, ◌+◌, ◌||◌, not, nat_lt, false, [], IfErr, MatchBool};
ghost use Rattle.kv_model.specs.declared.refusal.Refusal.TheVariants.{Memory};
ghost use Rattle.engine_lock.specs.Copied.{appended};
ghost use Rattle.engine_lock.specs.Entering.{MayTrim};

use super::State;
use crate::client::Client;
use crate::making::Made;
use crate::noting::note_trimmed;
use crate::opening::EngineName;
use json_gateway::{Refusal, Trim};
use std::sync::Wait;

/// After so many trimming steps readers are told of them, whether trimming is done or not: so no
/// publication makes more of them in one holding of the lock.
const MOST_STEPS: u64 = 100;

impl<L: EngineName> State<L> {
    /// Makes a trimming step, of which the feed is told first. `Memory` comes where it finds none.
    pub(crate) fn trim<R: Wait>(&mut self, rt: &R, client: &mut Client<L>) -> Result<Trim, Refusal>
        requires { client.old.reader.inside ≡ false }
        ensures trims { MayTrim L.ListName.ids client.old result client.new }
        ensures refused { IfErr result (λ e. e ≡ Memory) }
    {
        let step = match self.copies.trimmed(rt) {
            Ok(step) => step,
            Err(refusal) => {
                client.see(rt, &self.listing);
                return Err(refusal);
            }
        };
        client.note(rt, &mut self.listing, Made::Trimming(&step), false);
        note_trimmed(&mut self.lines, &step);
        self.show(rt, matches!(step, Trim::Done(_)));
        Ok(step)
    }

    /// Tells readers of the trimming steps, where trimming is done or many were made.
    pub(super) fn show<R: Wait>(&mut self, rt: &R, is_done: bool)
        ensures settled { MatchBool (is_done || not (nat_lt self.old.steps 100))
            (self.new.feed.pending ≡ []) (self.new.steps ≡ self.old.steps + 1) }
        ensures appended { appended self.new.feed ≡ appended self.old.feed }
        ensures same { self.new ≡ record self.old {
          feed = self.new.feed;
          steps = self.new.steps;
        } }
    {
        if !is_done && self.steps < MOST_STEPS {
            self.steps += 1;
            return;
        }
        self.steps = 0;
        self.copies.show(rt, &self.listing.front());
    }
}
