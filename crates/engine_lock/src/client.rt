//! A client of an engine, what it has seen of the list of all events, and its reader.
ghost use Rattle.std.specs.Prelude.{◌≡◌, ◌<◌, ◌++◌, ◌∷◌, [], cond, true, ⊤, MatchBool, MatchOption, OnOk, OnErr, IfOk, IfErr};
ghost use mathlib.Core.List.{IsPrefix};
ghost use Rattle.kv_model.specs.declared.refusal.Refusal.TheVariants.{NoPlace};
ghost use Rattle.kv_model.specs.Keys.{in_range, key_lt};
ghost use Rattle.store_laws.specs.Changes.{untrimmed};
ghost use Rattle.snapshot_feed.specs.Answers.{AnswersOf};
ghost use Rattle.snapshot_feed.specs.Showing.{IsShown};
ghost use Rattle.engine_lock.specs.Copied.{appended};
ghost use Rattle.event_book.specs.Callers.{Adds, Shows};
ghost use Rattle.event_book.specs.Events.{Answers, IsAskedFor, clocked, entry, led_to};
ghost use Rattle.event_book.specs.Publishing.{published_by};
ghost use Rattle.event_book.specs.Raising.{rise_of};
ghost use Rattle.engine_lock.specs.Entering.{Learns, StaysOut, made_by};
ghost use Rattle.engine_lock.specs.Locked.{IsNew, left, naming};
ghost use Rattle.engine_lock.specs.Makings.{event_made, outcome_made};

use crate::copies::Copies;
use crate::known::Known;
use crate::making::{Made, Making, Makings};
use crate::opening::EngineName;
use bytes::Bytes;
use event_book::{Holder, Listing};
use json_gateway::Refusal;
use kv_model::call::RangeQuery;
use kv_model::version::KeyRange;
use range_view::RangeReply;
use snapshot_feed::SnapReader;
use std::alloc::Global;
use std::marker::Model;
use std::sync::Wait;

/// A client of the engine `L`: what it has seen of the list of all events, how many changes it made,
/// and its reader beside the writers. It goes from thread to thread, and one thread at a time makes
/// events by it.
///
/// [`Client::enter`] begins a reading and [`Client::leave`] ends it; so does each call of the engine
/// that is given the client, before it asks for the lock. While a reading lasts, the second
/// publication after it began waits for it, under the lock: so leave it before anything else waits.
#[derive(Drop)]
pub struct Client<L: EngineName> {
    pub(crate) holder: Holder<L>,
    pub(crate) about: u64,
    pub(crate) made: u64,
    pub(crate) reader: SnapReader,
}

impl<L: EngineName> Model for Client<L> {
    ghost use Rattle.std.specs.Prelude.{◌≡◌};
    ghost use Rattle.std.specs.Coded.{codes};
    ghost use Rattle.kv_model.specs.contracts.call.Command as commands;
    ghost use Rattle.snapshot_feed.specs.contracts.reader.SnapReader as reads;
    ghost use Rattle.event_book.specs.Raising.{raises};
    ghost use Rattle.engine_lock.specs.Locked.{Caller};

    ghost Value = { Caller };

    ghost coded = { Prim.hlevel (codes, commands.the_row.coded, reads.the_row.coded) };

    ghost view = { λ c. record { holder = c.holder; about = c.about; reader = c.reader.reads } };

    ghost invariant = { λ c. (c.made ≡ raises c.holder) × (c.reader.reads.book ≡ L.ListName.book) };
}

impl<L: EngineName> Client<L> {
    ghost use Rattle.std.specs.Borrow.{sem};
    ghost use Rattle.engine_lock.specs.Lending.{LendsReading};
    ghost use Rattle.engine_lock.specs.Readings.{Enters, ReadsOrNot};

    /// A client that has seen nothing, and reads by this reader.
    pub(crate) fn of(holder: Holder<L>, reader: SnapReader) -> Self
        requires front { holder.front ≡ [] }
        requires book { reader.reads.book ≡ L.ListName.book }
        ensures { result ≡ record { holder = holder; about = 0; reader = reader.reads } }
    {
        Client {
            holder,
            about: 0,
            made: 0,
            reader,
        }
    }

    /// How many changes the client made: by how much its events raised the revision. Takes no memory.
    pub fn share(&self) -> u64
        ensures { result ≡ made_by self.now }
    {
        self.made
    }

    /// What its next events are about, in the list of all events: a number of the caller's own, as that
    /// of a connection. It is 0 at first. Takes no memory.
    pub fn set_about(&mut self, about: u64)
        ensures { self.new ≡ naming self.old about }
    {
        self.about = about;
    }

    /// Enters an event that this client made, which has raised the revision by one or not at all.
    pub(crate) fn note<R: Wait>(
        &mut self,
        rt: &R,
        listing: &mut Listing<L>,
        made: Made<'_>,
        raised: bool,
    )
        requires answers { Answers L.ListName.ids (clocked (led_to listing.old) (event_made made))
            (event_made made) (outcome_made made) }
        requires asked { IsAskedFor (event_made made) }
        requires rises { rise_of (led_to listing.old) (entry self.old.holder.number self.old.about
            (event_made made) (outcome_made made)) ≡ cond raised 1 0 }
        ensures log { listing.new ≡ listing.old ++ entry self.old.holder.number self.old.about
            (event_made made.entry) (outcome_made made.entry) ∷ [] }
        ensures adds { Adds L.ListName.ids self.old.holder self.old.about (event_made made.entry)
            (outcome_made made.entry) self.new.holder }
        ensures front { self.new.holder.front ≡ listing.new }
        ensures same { self.new ≡ record self.old { holder = self.new.holder } }
    {
        let making = Making {
            by: self.holder.number(),
            about: self.about,
            made,
        };
        listing.enter::<R, Making<'_>, Makings>(rt, &mut self.holder, &making);
        if raised {
            // It made at most as many changes as events, whose number has 64 bits.
            let _events = self.holder.made();
            self.made += 1;
        }
    }

    /// Shows the client the list of all events, of which none is its own.
    pub(crate) fn see<R: Wait>(&mut self, rt: &R, listing: &Listing<L>)
        ensures shows { Shows self.old.holder self.new.holder }
        ensures front { self.new.holder.front ≡ listing.now }
        ensures same { self.new ≡ record self.old { holder = self.new.holder } }
    {
        listing.show(rt, &mut self.holder);
    }

    /// Begins a reading of what is published now, and ends the one before it. It shows all that
    /// this client has read and was told of.
    ///
    /// The only refusal is `NoPlace`, where the engine is closed, or where what is published is
    /// older than what the client knows of, which never comes; then no reading lasts. Takes no
    /// memory, constant time, and waits for nobody.
    pub fn enter(&mut self) -> Result<(), Refusal>
        ensures ok { OnOk result (self.new.reader.inside ≡ true) }
        ensures begins { IsPrefix self.old.reader.known self.new.reader.known }
        ensures book { self.new.reader.book ≡ self.old.reader.book }
        ensures engine { self.new.reader.book ≡ L.ListName.book }
        ensures shown { OnOk result (IsShown self.new.reader.known) }
        ensures others { self.new ≡ record self.old { reader = self.new.reader } }
        ensures err { OnErr result (self.new ≡ left self.old) }
        ensures refusal { IfErr result (λ e. e ≡ NoPlace) }
    {
        self.reader.enter()
    }

    /// Ends the reading, if there is one. Takes no memory, constant time, and waits for nobody.
    pub fn leave(&mut self)
        ensures { self.new ≡ left self.old }
    {
        self.reader.leave();
    }

    /// The answer to a Range, lent from what the reading shows: the model's in the world that the
    /// front leads to at which the client reads, of which nothing is trimmed, with its compaction and
    /// its revision.
    ///
    /// The refusals are those of the model, and `Memory` where the list of what is found, or a
    /// sort, found none. The cost is that of `range_view`'s `View::range`. Waits for nobody.
    pub fn range(&self, alloc: Global, query: &RangeQuery) -> Result<RangeReply<'_>, Refusal>
        requires { self.now.reader.inside ≡ true }
        ensures { AnswersOf (untrimmed (led_to self.now.reader.known)) query.now result }
    {
        self.reader.range(alloc, query)
    }

    /// The key of a range before which so many of its keys stand that are kept, live or not, lent from
    /// what the reading shows; `None` where it has no more than so many, of one key, and where there is
    /// no reading. Takes no memory; the time is logarithmic in the number of keys, and linear in the
    /// number that is given. Waits for nobody.
    pub fn nth_key(&self, range: &KeyRange, count: usize) -> Option<&Bytes>
        ensures within { MatchOption result ⊤ (λ k. in_range range.now k.now ≡ true) }
        ensures above { MatchOption result ⊤ (λ k.
            0 < count → key_lt range.now.key k.now ≡ true) }
    {
        self.reader.nth_key(range, count)
    }

    /// The front of all that the client has read or was told of for its reads. Takes no memory, and
    /// copies a number.
    pub fn known(&self) -> Known<L>
        ensures { result ≡ self.now.reader.known }
    {
        Known::of(self.reader.known())
    }

    /// Takes note of what another client of the engine knew ([`Client::known`]): each later reading
    /// begins with it. Where this client knows more already, nothing changes. Its reading is left. Takes no
    /// memory, constant time, and waits for nobody.
    pub fn know(&mut self, known: &Known<L>)
        ensures knows { IsPrefix known.now self.new.reader.known }
        ensures begins { IsPrefix self.old.reader.known self.new.reader.known }
        ensures others { self.new ≡ record (left self.old) { reader = self.new.reader } }
    {
        let _knows_more = self.reader.learn(known.front());
    }

    /// [`Client::enter`], and lends the client to be read by [`Client::range`]. Once what was lent is
    /// gone, the client is in the reading that was read, and knows of the front of this engine's
    /// events that was shown there. The refusal is that of [`Client::enter`].
    pub fn read(&mut self) -> Result<&Client<L>, Refusal>
        ensures* after { sem 𝓛 (LendsReading L.row (record { recorded = L.recorded })
            (record { book = L.ListName.book; ids = L.ListName.ids })
            (record { name = L.Ledger.name; parts = L.Ledger.parts }) self.entry result) }
        ensures enters { IfOk result (λ c. Enters self.old c.now) }
        ensures engine { IfOk result (λ c. c.now.reader.book ≡ L.ListName.book) }
        ensures shown { IfOk result (λ c. IsShown c.now.reader.known) }
        ensures refusal { IfErr result (λ e. e ≡ NoPlace) }
    {
        match self.enter() {
            Ok(()) => Ok(self),
            Err(refusal) => Err(refusal),
        }
    }

    /// [`Client::read`] and [`Client::range`]: the model's answer in the world that the front leads to
    /// which the client has entered; it begins with all that the client has read and was told of. The
    /// client is borrowed while the reply lives, and the reading lasts until it is left; what the
    /// client knows of afterwards is known where the two are called apart. The refusals are those of
    /// the two.
    pub fn range_serializable(
        &mut self,
        alloc: Global,
        query: &RangeQuery,
    ) -> Result<RangeReply<'_>, Refusal>
        ensures { ReadsOrNot L.ListName.book self.old query.now result }
    {
        match self.read() {
            Ok(client) => client.range(alloc, query),
            Err(refusal) => Err(refusal),
        }
    }

    /// Takes note of all that was appended, where readers see all of it; says whether it did.
    pub(crate) fn learn(&mut self, copies: &Copies) -> bool
        requires { copies.now.feed.book ≡ L.ListName.book }
        ensures told { Learns result (appended copies.now.feed) self.old self.new }
        ensures others { self.new ≡ record self.old { reader = self.new.reader } }
        ensures out { StaysOut self.old self.new }
    {
        if !copies.is_settled() {
            return false;
        }
        self.reader.learn(&copies.told())
    }
}
