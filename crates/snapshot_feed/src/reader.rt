//! A reader beside the writer.
ghost use Rattle.std.specs.Prelude.{◌≡◌, ◌<◌, suc, true, false, OnOk, OnErr, IfErr, IfOk, IfSome, MatchBool, MatchOption, ⊤};
ghost use mathlib.Core.List.{IsPrefix};
ghost use Rattle.left_right.specs.Sides.{view};
ghost use Rattle.kv_model.specs.declared.refusal.Refusal.TheVariants as refusal;
ghost use Rattle.kv_model.specs.Keys.{in_range, key_lt};
ghost use Rattle.store_laws.specs.Changes.{untrimmed};
ghost use Rattle.event_book.specs.Events.{led_to};
ghost use Rattle.event_book.specs.Rules.{IsShorter};
ghost use Rattle.snapshot_feed.specs.Answers.{Answers, AnswersOf};
ghost use Rattle.snapshot_feed.specs.Seats.{Looking, Reads, MayRead, IsWithin, known_to, is_in, out};
ghost use Rattle.snapshot_feed.specs.Showing.{IsShown};
ghost use Rattle.snapshot_feed.specs.Shown.{IsOf};

use crate::seat::{FeedReader, Seat, entered, left};
use bytes::Bytes;
use core::mem::replace_with;
use event_book::Front;
use kv_model::call::RangeQuery;
use kv_model::refusal::Refusal;
use kv_model::version::KeyRange;
use range_view::{RangeReply, Tables};
use std::alloc::Global;
use std::marker::Model;

/// A reader of a feed, which reads the tables that it has entered until it leaves them.
///
/// It keeps a place of the feed, and gives it back where it is dropped. While it is within tables
/// the second publication after it entered waits for it, so [`SnapReader::leave`] as soon as the
/// reply is written.
#[derive(Drop)]
pub struct SnapReader {
    seat: Seat,
    /// All that it has seen or was told of.
    known: Front,
}

impl Model for SnapReader {
    ghost use Rattle.std.specs.Coded.{codes};
    ghost use Rattle.kv_model.specs.contracts.call.Command as commands;
    ghost use Rattle.snapshot_feed.specs.Seats.{Looking, is_in, sight_of, IsSeated};

    ghost Value = { Looking };

    ghost coded = { Prim.hlevel (codes, commands.the_row.coded) };

    ghost view = { λ r. record {
      reads = record { book = r.known.book; known = r.known.list; inside = is_in r.seat };
      looks = (sight_of r.seat).looks;
    } };

    ghost invariant = { λ r. IsSeated r.seat r.known };
}

/// The front of the tables that a seat is within, where it begins with all that is known.
fn newer(seat: &Seat, known: &Front) -> Option<Front>
    requires { MayRead known.now.book seat.now }
    ensures within { IfSome result (λ f. IsWithin f seat.now) }
    ensures begins { IfSome result (λ f. IsPrefix known.now.list f.list) }
    ensures shown { IfSome result (λ f. IsShown f.list) }
{
    match seat {
        Seat::Out(_) => None,
        Seat::In(reading) => {
            let front = &reading.get().front;
            if front.begins_with(known) {
                Some(front.again())
            } else {
                None
            }
        }
    }
}

/// The answer to a Range over tables.
fn answer<'a>(
    tables: &'a Tables,
    alloc: Global,
    query: &RangeQuery,
) -> Result<RangeReply<'a>, Refusal>
    ensures { Answers tables.now.versions tables.now.compacted tables.now.revision query.now result }
{
    if query.range.key.is_empty() {
        return Err(Refusal::NoKey);
    }
    tables.view().range(alloc, query)
}

impl SnapReader {
    ghost use Rattle.std.specs.Borrow.{sem};
    ghost use Rattle.snapshot_feed.specs.Lending.{EntersAtOnce, LendsReading};

    /// A reader that has seen nothing but what it was told of.
    pub(crate) fn of(reader: FeedReader, known: Front) -> Self
        requires { IsOf known.book (view reader.place).front }
        ensures { result ≡ record {
          reads = record { book = known.book; known = known.list; inside = false };
          looks = (view reader.place).looks;
        } }
    {
        SnapReader {
            seat: Seat::Out(reader),
            known,
        }
    }

    /// Takes the tables that are shown now, and leaves those that it was within. They stand at a front
    /// that begins with all that this reader has seen and was told of, and that may be shown. What is
    /// shown is looked at once, and the tables are those of that look (`Sees`, the one step by which a
    /// reader's looks are counted).
    ///
    /// The only refusal is `NoPlace`, where the feed is closed, or where the tables are older than
    /// what is known, which never comes. The reader is then within no tables. Takes no memory,
    /// constant time, and waits for nobody.
    pub fn enter(&mut self) -> Result<(), Refusal>
        ensures ok { OnOk result (self.new.reads.inside ≡ true) }
        ensures looks { OnOk result (self.new.looks ≡ suc self.old.looks) }
        ensures begins { IsPrefix self.old.reads.known self.new.reads.known }
        ensures book { self.new.reads.book ≡ self.old.reads.book }
        ensures shown { OnOk result (IsShown self.new.reads.known) }
        ensures err { OnErr result (self.new.reads ≡ record self.old.reads { inside = false }) }
        ensures refusal { IfErr result (λ e. e ≡ refusal.NoPlace) }
    {
        let SnapReader { seat, known } = self;
        if !replace_with(&mut *seat, (), entered) {
            return Err(Refusal::NoPlace);
        }
        let Some(front) = newer(seat, known) else {
            replace_with(&mut *seat, (), left);
            return Err(Refusal::NoPlace);
        };
        *known = front;
        Ok(())
    }

    /// The front of all that it has seen or was told of. Takes no memory, and copies a number.
    pub fn known(&self) -> Front
        ensures book { result.book ≡ self.now.reads.book }
        ensures list { result.list ≡ self.now.reads.known }
    {
        self.known.again()
    }

    /// Leaves the tables, if it is within any. Takes no memory, constant time, and waits for nobody.
    pub fn leave(&mut self)
        ensures { self.new ≡ out self.old }
    {
        let SnapReader {
            seat,
            known: _known,
        } = self;
        replace_with(&mut *seat, (), left);
    }

    /// Leaves the tables, and takes note of a front that it was told of: from then on it enters no
    /// older tables. So a front that is not shown yet keeps it out until one is that begins with it:
    /// hand it what [`Feed::told`](crate::Feed::told) told. It takes no note where what it knows begins
    /// with the front and has more, and says so. Takes no memory, constant time, and waits for nobody.
    pub fn learn(&mut self, told: &Front) -> bool
        requires { told.now.book ≡ self.old.reads.book }
        ensures told { MatchBool result
            ((self.new.reads.known ≡ told.now.list) × IsPrefix self.old.reads.known told.now.list)
            ((self.new.reads.known ≡ self.old.reads.known)
            × IsShorter told.now.list self.old.reads.known) }
        ensures book { self.new.reads.book ≡ self.old.reads.book }
        ensures out { self.new.reads.inside ≡ false }
        ensures looks { self.new.looks ≡ self.old.looks }
    {
        self.leave();
        let SnapReader { seat: _seat, known } = self;
        if !told.begins_with(known) {
            return false;
        }
        *known = told.again();
        true
    }

    /// The answer to a Range, lent from the tables that the reader is within: the model's in the
    /// world that the known events lead to, over all versions, of which nothing is trimmed, with its
    /// compaction and its revision.
    ///
    /// The refusals are those of the model: `NoKey` where the key is empty, `Compacted` and `Future`
    /// where the revision asked for is not kept. `Memory` comes where a list of what is found, or a
    /// sort, found none. The cost is that of `range_view`'s [`View::range`](range_view::View::range).
    pub fn range(&self, alloc: Global, query: &RangeQuery) -> Result<RangeReply<'_>, Refusal>
        requires { self.now.reads.inside ≡ true }
        ensures { AnswersOf (untrimmed (led_to self.now.reads.known)) query.now result }
    {
        match &self.seat {
            Seat::In(reading) => answer(&reading.get().tables, alloc, query),
            Seat::Out(_) => Err(Refusal::NoPlace),
        }
    }

    /// The key of a range before which so many of its keys stand that are kept, as of
    /// `range_view`'s [`View::nth_key`](range_view::View::nth_key), lent from the tables that the reader
    /// is within. Takes no memory.
    pub fn nth_key(&self, range: &KeyRange, count: usize) -> Option<&Bytes>
        ensures within { MatchOption result ⊤ (λ k. in_range range.now k.now ≡ true) }
        ensures above { MatchOption result ⊤ (λ k.
            0 < count → key_lt range.now.key k.now ≡ true) }
    {
        match &self.seat {
            Seat::In(reading) => reading.get().tables.view().nth_key(range, count),
            Seat::Out(_) => None,
        }
    }

    /// Enters, and lends itself to be read by [`SnapReader::range`]. Once what was lent is gone, the
    /// reader is within the tables that were read, and knows of their front.
    ///
    /// The only refusal is that of [`SnapReader::enter`], and the reader is then within no tables.
    pub fn read(&mut self) -> Result<&SnapReader, Refusal>
        ensures* after { sem 𝓛 (LendsReading self.entry result) }
        ensures enters { IfOk result (λ r. EntersAtOnce self.old r.now) }
        ensures shown { IfOk result (λ r. IsShown r.now.reads.known) }
        ensures refusal { IfErr result (λ e. e ≡ refusal.NoPlace) }
    {
        match self.enter() {
            Ok(()) => Ok(self),
            Err(refusal) => Err(refusal),
        }
    }
}
