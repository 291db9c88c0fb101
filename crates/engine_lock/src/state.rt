//! What stands under the lock: the core, the list of all events, and what readers are told of.
ghost use Rattle.std.specs.Prelude.{◌≡◌, ◌≤◌, not, false, is_ok, map, length, [], ◌++◌};
ghost use Rattle.std.specs.Prelude.{IfOk, IfErr, OnErr};
ghost use mathlib.Core.List.{IsPrefix};
ghost use Rattle.kv_model.specs.Follows.Outcome.{said};
ghost use Rattle.kv_model.specs.Wire.{WireTold};
ghost use Rattle.kv_model.specs.World.{opening as first_world, revision};
ghost use Rattle.kv_model.specs.declared.refusal.Refusal.TheVariants.{Memory, NoPlace, NoWatch};
ghost use Rattle.store_laws.specs.Snapshots.{blank as first_tables};
ghost use Rattle.store_laws.specs.Stands.{StandsFor};
ghost use Rattle.request_core.specs.State.{tables_of};
ghost use Rattle.engine_lock.specs.Copied.{appended};
ghost use Rattle.json_gateway.specs.Runs.{command_view, delivery_outcome};
ghost use Rattle.recording.specs.Lines.{blank};
ghost use Rattle.event_book.specs.Events.{Event, led_to};
ghost use Rattle.event_book.specs.Publishing.{published_by};
ghost use Rattle.event_script.specs.Notes.{step_outcome};
ghost use Rattle.event_script.specs.Taking.{untaken};
ghost use Rattle.engine_lock.specs.Entering.{CatchesUp, EntersAlone, IsTold};
ghost use Rattle.engine_lock.specs.Entering.{ExpiresUntold, StaysOut, Submits, SubmitsExpiry};

mod ending;
mod orders;
mod trimming;
mod watching;
mod writing;

use crate::asked::Asked;
use crate::client::Client;
use crate::copies::Copies;
use crate::engine::Submitted;
use crate::making::Made;
use crate::noting::{first_lines, note_done, note_dropped, note_expired, note_told};
use crate::opening::{EngineName, Opening};
use crate::steps::{has_raised, is_raised};
use crate::taken::Taken;
use event_book::{Listing, Roster};
use json_gateway::{Expiry, Ids, Message, Outcome, Refusal};
use recording::Lines;
use request_core::answer::Status;
use snapshot_feed::SnapReader;
use std::alloc::{AllocError, Global};
use std::marker::Model;
use std::sync::Wait;

/// What stands under the lock. `steps` counts the trimming steps since one of them last showed readers
/// what was done. `lines` are what is written down of the events that led to the core.
#[derive(Drop)]
pub(crate) struct State<L: EngineName> {
    copies: Copies,
    listing: Listing<L>,
    steps: u64,
    lines: Lines,
    /// Up to which event the lines were taken.
    taken: Taken<L>,
}

impl<L: EngineName> Model for State<L> {
    ghost use Rattle.std.specs.Prelude.{◌≡◌, true, false};
    ghost use Rattle.std.specs.Coded.{codes};
    ghost use Rattle.kv_model.specs.contracts.call.Command as commands;
    ghost use Rattle.engine_lock.specs.Copied.{appended};
    ghost use Rattle.engine_lock.specs.Fits.{IsLocked};
    ghost use Rattle.engine_lock.specs.Locked.{LockState};

    ghost Value = { LockState };

    ghost coded = { Prim.hlevel (codes, commands.the_row.coded) };

    ghost view = { λ s. record {
      core = s.copies.core;
      log = s.listing;
      feed = s.copies.feed;
      steps = s.steps;
      lines = s.lines;
      taken = s.taken;
    } };

    ghost invariant = { λ s. IsLocked s.copies.core s.listing (appended s.copies.feed) s.lines s.taken
        × (s.copies.feed.book ≡ L.ListName.book) × (L.recorded ≡ false → s.taken.is_over ≡ true) };
}

impl<L: EngineName> State<L> {
    /// A new core, to which nothing was done, and the roster of its clients, of whom there is none. The
    /// events are written down where `is_recorded` says so.
    pub(crate) fn new(alloc: Global, opening: Opening, is_recorded: bool) -> (Self, Roster<L>)
        requires recorded { is_recorded ≡ L.recorded }
        requires name { opening.name ≡ L.Ledger.name }
        requires parts { opening.parts ≡ L.Ledger.parts }
        requires book { opening.book ≡ L.ListName.book }
        ensures log { result.0.log ≡ [] }
        ensures lines { result.0.lines ≡ blank (not is_recorded) }
        ensures taken { result.0.taken ≡ untaken (not is_recorded) }
        ensures clients { result.1 ≡ 0 }
    {
        let Opening { list, feed } = opening;
        let (listing, roster) = Listing::new(list);
        let taken = Taken::nothing(listing.front(), !is_recorded);
        let state = State {
            copies: Copies::new(alloc, feed),
            listing,
            steps: 0,
            lines: first_lines(alloc, is_recorded),
            taken,
        };
        (state, roster)
    }

    /// A reader beside the lock. `NoPlace` comes where the feed has no place for one.
    pub(crate) fn reader(&mut self) -> Result<SnapReader, Refusal>
        ensures book { IfOk result (λ r. r.reads.book ≡ L.ListName.book) }
        ensures full { IfErr result (λ e. e ≡ NoPlace) }
        ensures same { self.new ≡ self.old }
    {
        self.copies.reader()
    }

    /// The core's numbers.
    fn status(&self) -> Status
        ensures revision { result.revision ≡ revision (led_to self.now.log) }
    {
        self.copies.status()
    }

    /// Hands in a moment and then does a command. Readers are shown then all that was done.
    pub(crate) fn submit<R: Wait>(
        &mut self,
        rt: &R,
        alloc: Global,
        ids: &Ids,
        client: &mut Client<L>,
        now: u64,
        asked: &Asked<'_>,
    ) -> Submitted
        requires ids { ids.now ≡ L.ListName.ids }
        requires out { client.old.reader.inside ≡ false }
        ensures submits { Submits ids.now client.old now asked.now result client.new }
        ensures shown { self.new.feed.pending ≡ [] }
    {
        let outcome = self.make(rt, alloc, ids, client, now, asked);
        let after = self.status();
        let published = self.tell(rt, client);
        Submitted {
            outcome,
            published,
            revision: after.revision,
        }
    }

    /// Hands in a moment and does a command, of which the client is told nothing for its reads yet.
    fn make<R: Wait>(
        &mut self,
        rt: &R,
        alloc: Global,
        ids: &Ids,
        client: &mut Client<L>,
        now: u64,
        asked: &Asked<'_>,
    ) -> Outcome
        requires ids { ids.now ≡ L.ListName.ids }
        requires out { client.old.reader.inside ≡ false }
        ensures submits { Submits ids.now client.old now asked.now (record {
          outcome = result;
          published = false;
          revision = revision (led_to client.new.holder.front);
        }) client.new }
        ensures front { client.new.holder.front ≡ self.new.log }
        ensures out { client.new.reader.inside ≡ false }
    {
        self.copies.moved(now);
        self.lines.hand_in(now);
        let outcome = self.copies.performed(rt, alloc, asked, ids);
        let raised = is_raised(&outcome);
        let made = Made::Command(now, &*asked, &outcome);
        client.note(rt, &mut self.listing, made, raised);
        note_done(&mut self.lines, asked, &outcome);
        outcome
    }

    /// Shows readers all that was done, trimming steps too, and then tells the client, which has seen
    /// all of the list; says whether it did.
    fn tell<R: Wait>(&mut self, rt: &R, client: &mut Client<L>) -> bool
        requires { client.old.holder.front ≡ self.old.log }
        ensures told { IsTold result client.old client.new }
        ensures others { client.new ≡ record client.old { reader = client.new.reader } }
        ensures out { StaysOut client.old client.new }
        ensures settled { self.new.feed.pending ≡ [] }
        ensures appended { appended self.new.feed ≡ appended self.old.feed }
        ensures same { self.new ≡ record self.old { feed = self.new.feed } }
    {
        if !self.copies.is_settled() {
            self.copies.show(rt, &self.listing.front());
        }
        client.learn(&self.copies)
    }

    /// Hands in a moment, shows readers all that was done, and tells the client of it; says whether it
    /// did.
    pub(crate) fn catch_up<R: Wait>(&mut self, rt: &R, client: &mut Client<L>, now: u64) -> bool
        requires { client.old.reader.inside ≡ false }
        ensures catches { CatchesUp L.ListName.ids client.old now result client.new }
        ensures shown { self.new.feed.pending ≡ [] }
    {
        self.moment(rt, client, now);
        self.tell(rt, client)
    }

    /// Hands in a moment and then makes a step of expiry. Readers are shown then all that was done.
    pub(crate) fn expire<R: Wait>(
        &mut self,
        rt: &R,
        client: &mut Client<L>,
        now: u64,
    ) -> Result<Expiry, Refusal>
        requires { client.old.reader.inside ≡ false }
        ensures submits { SubmitsExpiry L.ListName.ids client.old now result client.new }
        ensures shown { self.new.feed.pending ≡ [] }
    {
        let step = self.end(rt, client, now);
        let _published = self.tell(rt, client);
        step
    }

    /// Hands in a moment and makes a step of expiry, of which the client is told nothing for its reads
    /// yet.
    fn end<R: Wait>(&mut self, rt: &R, client: &mut Client<L>, now: u64) -> Result<Expiry, Refusal>
        requires { client.old.reader.inside ≡ false }
        ensures submits { ExpiresUntold L.ListName.ids client.old now result client.new }
        ensures front { client.new.holder.front ≡ self.new.log }
        ensures out { client.new.reader.inside ≡ false }
    {
        self.copies.moved(now);
        self.lines.hand_in(now);
        let step = self.copies.expired(rt);
        let raised = has_raised(&step);
        client.note(rt, &mut self.listing, Made::Expiry(now, &step), raised);
        note_expired(&mut self.lines, &step);
        step
    }

    /// Tells a watch what it is told next.
    pub(crate) fn deliver<R: Wait>(
        &mut self,
        rt: &R,
        alloc: Global,
        ids: &Ids,
        client: &mut Client<L>,
        number: u64,
    ) -> Result<Message, AllocError>
        requires ids { ids.now ≡ L.ListName.ids }
        requires out { client.old.reader.inside ≡ false }
        ensures { EntersAlone ids.now client.old (Event.delivery number) (delivery_outcome result)
            client.new }
    {
        let message = self.copies.delivered(rt, alloc, number, ids);
        client.note(
            rt,
            &mut self.listing,
            Made::Delivery(number, &message),
            false,
        );
        note_told(&mut self.lines, number, &message);
        message
    }

    /// Ends a watch.
    pub(crate) fn drop_watch<R: Wait>(
        &mut self,
        rt: &R,
        client: &mut Client<L>,
        number: u64,
    ) -> Result<(), Refusal>
        requires { client.old.reader.inside ≡ false }
        ensures ends { EntersAlone L.ListName.ids client.old (Event.ending number)
            (said (WireTold.closed (is_ok result))) client.new }
        ensures missing { IfErr result (λ e. e ≡ NoWatch) }
    {
        let ended = self.copies.dropped(number);
        let stood = ended.is_ok();
        client.note(rt, &mut self.listing, Made::Ending(number, stood), false);
        note_dropped(&mut self.lines, number, stood);
        ended
    }
}
