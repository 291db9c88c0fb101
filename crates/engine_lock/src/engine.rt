//! The engine: one event of the core for each holding of its lock.
ghost use Rattle.std.specs.Prelude.{◌≡◌, ◌+◌, ◌<◌, ◌≤◌, is_ok, false, length, None, IfOk, IfErr, OnOk, OnErr};
ghost use Rattle.kv_model.specs.declared.refusal.Refusal.TheVariants.{Memory, NoPlace, NoWatch};
ghost use Rattle.kv_model.specs.Follows.Outcome.{said};
ghost use Rattle.kv_model.specs.Wire.{WireTold};
ghost use Rattle.json_gateway.specs.Runs.{delivery_outcome};
ghost use Rattle.event_book.specs.Events.{Event};
ghost use Rattle.engine_lock.specs.Entering.{CatchesUp, Closes, EntersAlone, MayTrim, Submits, SubmitsExpiry};
ghost use Rattle.engine_lock.specs.Locked.{IsNew};

mod orders;
mod watching;
mod writing;

use crate::asked::Asked;
use crate::client::Client;
use crate::closing::CloseFault;
use crate::engine::watching::News;
use crate::kept::Kept;
use crate::opening::{EngineName, Opening};
use crate::state::State;
use crate::taken::Taken;
use json_gateway::{Expiry, Ids, Message, Outcome, Refusal, Trim};
use kv_model::call::Command;
use request_core::store::Core;
use std::alloc::{AllocError, Global};
use std::hint::spin_loop;
use std::marker::Model;
use std::sync::{Mutex, MutexGuard, Wait};
use std::thread::yield_now;

/// How often the lock is asked for with pauses between, which are about as long as most holdings.
const ASKS: u64 = 3;

/// How long each of these pauses is.
const PAUSES: u64 = 20;

/// How often it is asked for then, with other threads let run between, before a thread sleeps.
const TURNS: u64 = 200;

/// A core that any number of threads share. Clauses see of it by which ids it answers, how many
/// clients it made, and whether its events are written down. The roster of its clients stands outside
/// the lock, so no call by `&` makes one, for its own use or another's.
#[derive(Drop)]
pub struct Engine<L: EngineName> {
    alloc: Global,
    ids: Ids,
    /// Whether its events are written down.
    is_recorded: bool,
    roster: Kept<L>,
    state: Mutex<State<L>>,
    /// Up to which event lines were taken.
    taken: Mutex<Taken<L>>,
    /// Whether a watch fell behind since somebody asked.
    news: News,
}

impl<L: EngineName> Model for Engine<L> {
    ghost use Rattle.std.specs.Prelude.{◌≡◌};
    ghost use Rattle.engine_lock.specs.Locked.{EngineState};

    ghost Value = { EngineState };

    ghost view = { λ e. record {
      ids = e.ids;
      clients = e.roster.made;
      recorded = e.is_recorded;
    } };

    ghost invariant = { λ e. (e.ids ≡ L.ListName.ids) × (e.is_recorded ≡ L.recorded) };
}

/// What a command came to.
#[derive(Debug, Drop)]
pub struct Submitted {
    /// Its outcome, as `json_gateway::perform` gives it.
    pub outcome: Outcome,
    /// Readers see all that the engine has done, and the client was told of it.
    pub published: bool,
    /// The store's revision after it.
    pub revision: u64,
}

impl<L: EngineName> Engine<L> {
    /// An engine over a new core, that answers by these ids. No client is made yet. The opening has
    /// all the memory that it takes. Its events are not written down ([`Engine::recorded`]).
    ///
    /// `L` is the name that the opening has, with the ids: where the function that is generic in it is
    /// called with `Brand`, the pick of its ghost members is the opening's `name`, `parts` and `book`, the
    /// ids, and that its events are not written down.
    pub fn new(alloc: Global, opening: Opening, ids: Ids) -> Self
        requires name { opening.name ≡ L.Ledger.name }
        requires parts { opening.parts ≡ L.Ledger.parts }
        requires book { opening.book ≡ L.ListName.book }
        requires ids { ids ≡ L.ListName.ids }
        requires recorded { L.recorded ≡ false }
        ensures { result ≡ record { ids = ids; clients = 0; recorded = false } }
    {
        Engine::opened(alloc, opening, ids, false)
    }

    /// An engine over a new core, whose events are written down where `is_recorded` says so.
    fn opened(alloc: Global, opening: Opening, ids: Ids, is_recorded: bool) -> Self
        requires name { opening.name ≡ L.Ledger.name }
        requires parts { opening.parts ≡ L.Ledger.parts }
        requires book { opening.book ≡ L.ListName.book }
        requires ids { ids ≡ L.ListName.ids }
        requires recorded { is_recorded ≡ L.recorded }
        ensures { result ≡ record { ids = ids; clients = 0; recorded = is_recorded } }
    {
        let (state, roster) = State::new(alloc, opening, is_recorded);
        let taken = state.taken();
        Engine {
            alloc,
            ids,
            is_recorded,
            roster: Kept::of(roster),
            state: Mutex::new(state),
            taken: Mutex::new(taken),
            news: News::none(),
        }
    }

    /// The ids that it answers by. Waits for nobody.
    pub fn ids(&self) -> &Ids
        ensures { result.now ≡ self.now.ids }
    {
        &self.ids
    }

    /// Whether its events are written down. Waits for nobody.
    pub fn is_recorded(&self) -> bool
        ensures { result ≡ L.recorded }
    {
        self.is_recorded
    }

    /// A client that made no event and has seen and read nothing yet, and no other one. Its number is
    /// how many were made before. `NoPlace` comes once 64 were made, however many of them are still
    /// there, and where the feed has no place for one more reader. Takes no memory.
    pub fn client<R: Wait>(&mut self, rt: &R) -> Result<Client<L>, Refusal>
        ensures new { IfOk result IsNew }
        ensures number { IfOk result (λ c. c.holder.number ≡ self.old.clients) }
        ensures made { OnOk result
            (self.new ≡ record self.old { clients = self.old.clients + 1 }) }
        ensures full { IfErr result (λ e. e ≡ NoPlace) }
        ensures unmade { OnErr result (self.new ≡ self.old) }
    {
        let Ok(reader) = locked(rt, &self.state).reader() else {
            return Err(Refusal::NoPlace);
        };
        match self.roster.holder(rt) {
            Some(holder) => Ok(Client::of(holder, reader)),
            None => Err(Refusal::NoPlace),
        }
    }

    /// Hands in the moment `now`, in milliseconds, and then does a command, in one holding. The
    /// moment stands where the command is refused, too; one before the clock leaves it.
    ///
    /// That is one event of the list of all events, whose outcome is `json_gateway::perform`'s in the
    /// world that the events before it lead to (`Submits`). The client has seen the list up to it.
    /// Where the result says `published`, the client was told for its reads of all that these events
    /// publish: each later reading of the client begins with it.
    ///
    /// The client's share rises by one where the outcome tells a new revision, also where its
    /// answer was lost, and else stays. Its reading is left.
    ///
    /// What was changed is published, and each trimming step that waits for it, which takes no memory
    /// and waits for nobody. Before, the core
    /// takes the copy of the tables that readers do not see, unless it has it: that waits for the
    /// readings that began before the last publication, and does there what was done on the other
    /// copy. Where that finds no memory the command is refused for it. The text of the answer is made
    /// while the lock is held: the cost is that of `perform_to`, of waiting for the lock, and of
    /// `Feed::lend` and `Feed::show`.
    ///
    /// Where events are written down, no line is written from here on: the command is none of a
    /// request ([`Engine::submit_request`]).
    pub fn submit<R: Wait>(
        &self,
        rt: &R,
        client: &mut Client<L>,
        now: u64,
        command: &Command,
    ) -> Submitted
        ensures { Submits self.now.ids client.old now
            (record { command = command.now; request = None }) result client.new }
    {
        self.submit_request(rt, client, now, &Asked::of(command))
    }

    /// Hands in the moment `now`, in milliseconds, and tells the client of all that the engine has
    /// done, in one holding: each later reading of the client begins with it (etcd: the read index
    /// of a linearizable read). So a Range that the client reads then beside the lock answers from a
    /// state that was the engine's between this call and that reading. The moment is the event of it.
    ///
    /// Says whether the client was told, which it always is, but that no clause can say so. Its reading
    /// is left.
    ///
    /// Constant time under the lock, and waits for no reading, also where something has to be
    /// published, as trimming steps.
    pub fn catch_up<R: Wait>(&self, rt: &R, client: &mut Client<L>, now: u64) -> bool
        ensures { CatchesUp self.now.ids client.old now result client.new }
    {
        client.leave();
        locked(rt, &self.state).catch_up(rt, client, now)
    }

    /// Tells the watch of a number what it is told next, and moves it past that, as
    /// `json_gateway::message` does: one event, also where it tells nothing. `AllocError` comes where
    /// the list of the events or their text found no memory; then nothing is changed, and the same
    /// message comes at the next call. The client's reading is left.
    pub fn deliver<R: Wait>(
        &self,
        rt: &R,
        client: &mut Client<L>,
        number: u64,
    ) -> Result<Message, AllocError>
        ensures { EntersAlone self.now.ids client.old (Event.delivery number) (delivery_outcome result)
            client.new }
    {
        client.leave();
        locked(rt, &self.state).deliver(rt, self.alloc, &self.ids, client, number)
    }

    /// Ends the watch of a number. `NoWatch` comes where no watch has the number, and then nothing
    /// changes. Takes no memory. The client's reading is left.
    pub fn drop_watch<R: Wait>(
        &self,
        rt: &R,
        client: &mut Client<L>,
        number: u64,
    ) -> Result<(), Refusal>
        ensures ends { EntersAlone self.now.ids client.old (Event.ending number)
            (said (WireTold.closed (is_ok result))) client.new }
        ensures missing { IfErr result (λ e. e ≡ NoWatch) }
    {
        client.leave();
        locked(rt, &self.state).drop_watch(rt, client, number)
    }

    /// Makes a trimming step, as `Core::trim_step` does, which is noted for the other copy of the
    /// tables before it is made. `Memory` comes where there is none for that, or for what the copy that
    /// is trimmed lacks, and then nothing has changed, and no event was made. The client's reading is
    /// left.
    ///
    /// What was done is published where the step says Done, and after 100 steps that were not. The
    /// first step behind that waits for readings, as [`Engine::submit`] does.
    pub fn trim_once<R: Wait>(&self, rt: &R, client: &mut Client<L>) -> Result<Trim, Refusal>
        ensures trims { MayTrim self.now.ids client.old result client.new }
        ensures refused { IfErr result (λ e. e ≡ Memory) }
    {
        client.leave();
        locked(rt, &self.state).trim(rt, client)
    }

    /// Hands in the moment `now`, in milliseconds, and then makes a step of expiry, as
    /// `Core::expire` does, in one holding. The client's share rises by one where the step tells
    /// that the revision rose, and else stays; its reading is left. What the step deleted is published
    /// as by [`Engine::submit`]. Refused as `RevisionsSpent` and as `Memory`, as there; the moment then
    /// stands.
    pub fn expire_once<R: Wait>(
        &self,
        rt: &R,
        client: &mut Client<L>,
        now: u64,
    ) -> Result<Expiry, Refusal>
        ensures { SubmitsExpiry self.now.ids client.old now result client.new }
    {
        client.leave();
        let mut state = locked(rt, &self.state);
        let step = state.expire(rt, client, now);
        self.note_news(&mut state);
        step
    }

    /// Ends the engine, and gives back its core, where every client that it made came back: the list
    /// of all events is a history, the core stands for the world that it leads to, each event is of one
    /// of the clients, and the core's revision is 1 plus the sum of their shares (`Closes`).
    ///
    /// `CloseFault` is Missing: fewer clients came than the engine made. Takes no
    /// memory. What readers were shown is let go, which waits for their readings; those of the
    /// clients that came are left first.
    pub fn close<R: Wait>(self, rt: &R, clients: Vec<Client<L>>) -> Result<Core, CloseFault<L>>
        ensures closes { IfOk result (λ core. Closes self.ids core clients.items) }
        ensures all { OnOk result (self.clients ≤ length clients.items) }
        ensures missing { IfErr result (λ f. length clients.items < self.clients) }
        ensures clients { IfErr result (λ f. f.clients ≡ clients) }
        ensures engine { IfErr result (λ f. f.engine ≡ self) }
    {
        let Engine {
            alloc,
            ids,
            is_recorded,
            roster,
            state,
            taken,
            news,
        } = self;
        let roster = roster.into_roster(rt);
        if clients.len() < roster.holders() {
            let engine = Engine {
                alloc,
                ids,
                is_recorded,
                roster: Kept::of(roster),
                state,
                taken,
                news,
            };
            return Err(CloseFault { engine, clients });
        }
        Ok(state.into_inner().finish(rt, roster, clients))
    }
}

/// What is under a lock. Most holdings are short, so a thread asks a few times. Then the one that has
/// the lock may be waiting for a core, so this thread gives way to others between two asks; it sleeps
/// for the lock only where all that did not do.
pub fn locked<'a, T, R: Wait>(rt: &R, mutex: &'a Mutex<T>) -> MutexGuard<'a, T> {
    for _ in 0..ASKS {
        if let Some(guard) = mutex.try_lock() {
            return guard;
        }
        for _ in 0..PAUSES {
            spin_loop();
        }
    }
    for _ in 0..TURNS {
        if let Some(guard) = mutex.try_lock() {
            return guard;
        }
        yield_now();
    }
    mutex.lock(rt)
}
