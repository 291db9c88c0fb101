//! The feed of what a store publishes, and the tables of the store itself.
ghost use Rattle.std.specs.Prelude.{◌≡◌, ◌++◌, false, true, [], IfOk, IfErr, IfNone, IfSome};
ghost use Rattle.kv_model.specs.declared.refusal.Refusal.TheVariants.{NoPlace};
ghost use Rattle.store_laws.specs.Snapshots.{store_of};
ghost use Rattle.event_book.specs.Publishing.{published_by};
ghost use Rattle.snapshot_feed.specs.Showing.{IsShown};
ghost use Rattle.snapshot_feed.specs.States.{lent_out, shown_at, unused};

use crate::entry::ReadTables;
use crate::ops::Ops;
use crate::reader::SnapReader;
use crate::rule::Tells;
use crate::writer::{FeedWriter, Lent, lend, show};
use core::mem::{replace, replace_with};
use event_book::Front;
use kv_model::refusal::Refusal;
use range_view::Tables;
use std::alloc::{AllocError, Global};
use std::marker::Model;
use std::mem::ManuallyDrop;
use std::sync::Wait;

/// There are at most so many readers at a time.
pub const READERS: usize = 64;

/// The two copies of a store's tables: one that readers are shown, at a front of the list of all
/// events, and a spare one, which is lent to the store that changes it, and shown again by it.
///
/// It is ended by [`Feed::close`]. A feed that is dropped in another way leaks what it has of both
/// copies, since only one who may wait for the readers can take them back.
#[derive(Drop)]
pub struct Feed {
    alloc: Global,
    writer: ManuallyDrop<FeedWriter>,
    /// The operations that the spare copy lacks, where it is here.
    lag: Ops,
    is_lent: bool,
}

impl Model for Feed {
    ghost use Rattle.std.specs.Prelude.{◌≡◌, false, fold};
    ghost use Rattle.std.specs.Coded.{codes};
    ghost use Rattle.core.specs.Mem.{manually_drop_value};
    ghost use Rattle.left_right.specs.Sides as sides;
    ghost use Rattle.kv_model.specs.contracts.call.Command as commands;
    ghost use Rattle.store_laws.specs.Snapshots.{absorb};
    ghost use Rattle.snapshot_feed.specs.Shown.{ShowsWell, IsOf};
    ghost use Rattle.snapshot_feed.specs.States.{FeedState, state_by};

    ghost Value = { FeedState };

    ghost coded = { Prim.hlevel (codes, commands.the_row.coded) };

    ghost view = { λ f. state_by f.is_lent
        (manually_drop_value f.writer).desk.shown.value.front };

    ghost invariant = { λ f.
        ShowsWell (manually_drop_value f.writer).desk.shown.value.tables
        (manually_drop_value f.writer).desk.shown.value.front
        × IsOf (manually_drop_value f.writer).desk.shown.value.front.book
        (sides.view (manually_drop_value f.writer).desk.place).front
        × (f.is_lent ≡ false
        → fold absorb (manually_drop_value f.writer).desk.spare.value.tables f.lag
        ≡ (manually_drop_value f.writer).desk.shown.value.tables) };
}

impl Feed {
    /// A feed of the empty store, with room for 64 readers: [`Feed::with_room`].
    pub fn new<R: Wait>(alloc: Global, rt: &R, front: &Front) -> Result<Self, AllocError>
        requires { front.now.list ≡ [] }
        ensures { IfOk result (λ f. f ≡ unused front.now.book) }
    {
        Feed::with_room(alloc, rt, READERS, front)
    }

    /// A feed of the empty store, of the list of which this front has seen nothing, with room for so
    /// many readers, but for one at least and for 64 at most: each showing visits the place of each,
    /// so fewer make it shorter. It shows the empty tables once, so that it knows its list, and waits
    /// for nobody then.
    ///
    /// The error is want of memory: for the two copies, and the table of readers' places.
    pub fn with_room<R: Wait>(
        alloc: Global,
        rt: &R,
        readers: usize,
        front: &Front,
    ) -> Result<Self, AllocError>
        requires { front.now.list ≡ [] }
        ensures { IfOk result (λ f. f ≡ unused front.now.book) }
    {
        let first = ReadTables::new(alloc, front.again());
        let second = ReadTables::new(alloc, front.again());
        let next = ReadTables::new(alloc, front.again());
        let writer = FeedWriter::new(alloc, first, second, readers.clamp(1, READERS))?;
        let (writer, ()) = show(writer, (rt, next));
        Ok(Feed {
            alloc,
            // It is taken out again by `close`.
            writer: unsafe { ManuallyDrop::new_unchecked(writer) },
            lag: Ops::new(alloc),
            is_lent: false,
        })
    }

    /// Lends the spare copy of the tables, which has all that readers are shown, with an empty list of
    /// the operations that are done on it from then on. It is shown again by [`Feed::show`].
    ///
    /// `None` means that a growth of its tables found no memory as it took in what it lacked; the next
    /// call goes on from there.
    ///
    /// It waits for the readings that began before the copy was last replaced. The copy takes in what
    /// was done on the other one: each operation is done twice, once on each copy. The place of each
    /// reader that there is room for is visited once.
    pub fn lend<R: Wait>(&mut self, rt: &R) -> Option<Lent>
        requires { self.old.lent ≡ false }
        ensures tables { IfSome result (λ l. l.tables ≡ store_of (published_by self.old.published)) }
        ensures ops { IfSome result (λ l. l.ops ≡ []) }
        ensures lent { IfSome result (λ l. self.new ≡ lent_out self.old) }
        ensures none { IfNone result (self.new ≡ self.old) }
    {
        let blank = ReadTables::new(self.alloc, self.told());
        let Feed {
            alloc,
            writer,
            lag,
            is_lent,
        } = self;
        let ops = replace(&mut *lag, Ops::new(*alloc));
        match replace_with(&mut **writer, (rt, ops, blank), lend::<R>) {
            Ok(lent) => {
                *is_lent = true;
                Some(lent)
            }
            Err(left) => {
                *lag = left;
                None
            }
        }
    }

    /// Shows readers the tables that were lent, with these operations that were done on them, at this
    /// front of the list of all events: what readers are told of its events is all that was done, so
    /// each change of them stands, and they are events that readers may be shown. Takes no memory, and
    /// waits for nobody. The place of each reader that there is room for is visited twice.
    pub fn show<R: Wait>(&mut self, rt: &R, lent: Lent, front: &Front)
        requires lent { self.old.lent ≡ true }
        requires book { front.now.book ≡ self.old.book }
        requires all { published_by front.now.list ≡ published_by self.old.published ++ lent.ops }
        requires shown { IsShown front.now.list }
        requires tables { lent.tables ≡ store_of (published_by self.old.published ++ lent.ops) }
        ensures { self.new ≡ shown_at self.old front.now.list }
    {
        let Feed {
            alloc: _alloc,
            writer,
            lag,
            is_lent,
        } = self;
        let Lent { tables, ops } = lent;
        let next = ReadTables {
            tables,
            front: front.again(),
        };
        replace_with(&mut **writer, (rt, next), show::<R>);
        *lag = ops;
        *is_lent = false;
    }

    /// The tables that readers are shown. Takes no memory, and constant time.
    pub fn tables(&self) -> &Tables
        ensures { result.now ≡ store_of (published_by self.now.published) }
    {
        &self.writer.published().tables
    }

    /// The front of what is shown now. Takes no memory, and constant time.
    pub fn told(&self) -> Front
        ensures book { result.book ≡ self.now.book }
        ensures list { result.list ≡ self.now.published }
        ensures shown { IsShown result.list }
    {
        self.writer.published().front.again()
    }

    /// A new reader, which was told of all that is published.
    ///
    /// The only refusal is `NoPlace`, where each of the places is in use. A reader that is dropped
    /// gives its place back. Takes no memory, and time linear in the number of places.
    pub fn reader(&mut self) -> Result<SnapReader, Refusal>
        ensures reader { IfOk result (λ r. r ≡ record {
          reads = record { book = self.old.book; known = self.old.published; inside = false };
          looks = 0;
        }) }
        ensures refusal { IfErr result (λ e. e ≡ NoPlace) }
        ensures same { self.new ≡ self.old }
    {
        let Ok(mut reader) = self.writer.factory().reader() else {
            return Err(Refusal::NoPlace);
        };
        reader.learn::<Tells>(self.writer.desk.tell::<Tells>());
        Ok(SnapReader::of(reader, self.told()))
    }

    /// Ends the feed, and gives back the tables that were shown last. It waits for each reading to be
    /// left. Readers that are left over find no tables to enter.
    pub fn close<R: Wait>(self, rt: &R) -> Tables
        ensures { result ≡ store_of (published_by self.published) }
    {
        let Feed {
            alloc: _alloc,
            writer,
            lag: _lag,
            is_lent: _is_lent,
        } = self;
        let last = ManuallyDrop::into_inner(writer).take(rt);
        let ReadTables {
            tables,
            front: _front,
        } = Box::into_inner(last);
        tables
    }
}
