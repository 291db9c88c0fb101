//! An engine whose events are written down, under its lock, as the lines of a script.
ghost use Rattle.std.specs.Prelude.{◌≡◌, true};
ghost use Rattle.engine_lock.specs.Entering.{Submits};
ghost use Rattle.engine_lock.specs.Takings.{TakesLines};

use super::{Engine, Submitted, locked};
use crate::asked::Asked;
use crate::client::Client;
use crate::opening::{EngineName, Opening};
use crate::taken::Taken;
use json_gateway::Ids;
use std::alloc::Global;
use std::sync::{Mutex, Wait};

impl<L: EngineName> Engine<L> {
    /// As [`Engine::new`], an engine whose events are written down, in the order in which they are
    /// made, until somebody takes the lines ([`Engine::take_lines`]).
    ///
    /// Each has its line but what changes nothing, or nothing but the clock: a command that was
    /// refused for memory, a delivery that told nothing, the end of a watch that was not there, a step
    /// of expiry that ended no lease, a trimming step that says Done again, a certificate. Where the
    /// moment has moved, an `AT` stands before the next line. A line that finds no memory is the end of
    /// them, and so is [`Engine::submit`]; the engine goes on.
    pub fn recorded(alloc: Global, opening: Opening, ids: Ids) -> Self
        requires name { opening.name ≡ L.Ledger.name }
        requires parts { opening.parts ≡ L.Ledger.parts }
        requires book { opening.book ≡ L.ListName.book }
        requires ids { ids ≡ L.ListName.ids }
        requires recorded { L.recorded ≡ true }
        ensures { result ≡ record { ids = ids; clients = 0; recorded = true } }
    {
        Engine::opened(alloc, opening, ids, true)
    }

    /// As [`Engine::submit`], of a command and the request for it, which is its line where events are
    /// written down. The cost is that of [`Engine::submit`], and linear in the line.
    pub fn submit_request<R: Wait>(
        &self,
        rt: &R,
        client: &mut Client<L>,
        now: u64,
        asked: &Asked<'_>,
    ) -> Submitted
        ensures { Submits self.now.ids client.old now asked.now result client.new }
    {
        client.leave();
        let mut state = locked(rt, &self.state);
        let submitted = state.submit(rt, self.alloc, &self.ids, client, now, asked);
        self.note_news(&mut state);
        submitted
    }

    /// Up to which event lines were taken: whoever takes them has it locked meanwhile, before the
    /// engine is. Waits for nobody.
    pub fn taken(&self) -> &Mutex<Taken<L>> {
        &self.taken
    }

    /// Puts the lines that were not taken yet in place of what a list had. Says whether none is
    /// missing: where some are, an event was made that has no line, or the events are not written
    /// down, and none will come.
    ///
    /// The text goes on where the one before ended: with all that was taken before, it is the script
    /// of the list of all events up to the one that `taken` tells from then on, or, where lines are
    /// missing, of a beginning of it (`TakesLines`). Constant time under the lock.
    pub fn take_lines<R: Wait>(&self, rt: &R, taken: &mut Taken<L>, text: &mut Vec<u8>) -> bool
        ensures { TakesLines self.now.ids taken.old taken.new text.new.items result }
    {
        locked(rt, &self.state).take_lines(rt, taken, text)
    }
}
