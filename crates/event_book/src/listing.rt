//! What stands under the lock beside the core: the list, and how many events each holder made.
ghost use Rattle.std.specs.Prelude.{None, ◌≡◌, ◌<◌, ◌+◌, ◌++◌, ◌∷◌, [], true, All, length, replicate, slice_index_or, slice_set};

use crate::MOST_HOLDERS;
use crate::book::{Book, Front, Noted};
use crate::holder::Holder;
use crate::naming::{ListName, Opening};
use crate::roster::Roster;
use logbook::Plain;
use std::marker::Model;
use std::sync::{Wait, ledger};

/// The list `L`, for the one who holds the lock that this stands under. Clauses see the list.
#[derive(Drop)]
pub struct Listing<L: ListName> {
    list: Book,
    front: Front,
    total: ledger::Book<L>,
    counts: [u64; MOST_HOLDERS],
}

impl<L: ListName> Model for Listing<L> {
    ghost use Rattle.std.specs.Prelude.{◌≡◌, List, length};
    ghost use Rattle.std.specs.Coded.{codes};
    ghost use Rattle.kv_model.specs.contracts.call.Command as commands;
    ghost use Rattle.event_book.specs.Events.{Entry, IsHistory};
    ghost use Rattle.event_book.specs.Lists.{AreCounted};

    ghost Value = { List Entry };

    ghost coded = { Prim.hlevel (codes, commands.the_row.coded) };

    ghost view = { λ l. l.front.list };

    ghost invariant = { λ l. (l.list ≡ L.book) × (l.front.book ≡ L.book)
        × IsHistory L.ids l.front.list × (l.total.total ≡ length l.front.list)
        × AreCounted l.counts l.front.list };
}

impl<L: ListName> Listing<L> {
    ghost use Rattle.event_book.specs.Callers.{Adds, Owns, Shows, made_by};
    ghost use Rattle.event_book.specs.Events.{Answers, IsAskedFor, IsHistory, clocked, events_by, led_to};
    ghost use Rattle.event_book.specs.Lists.{IsMarked};

    /// A list without an event, and the roster of its holders, of whom there is none. Takes no
    /// memory.
    pub fn new(opening: Opening) -> (Listing<L>, Roster<L>)
        requires name { opening.name ≡ L.Ledger.name }
        requires parts { opening.parts ≡ L.Ledger.parts }
        requires book { opening.book ≡ L.book }
        ensures log { result.0 ≡ [] }
        ensures holders { result.1 ≡ 0 }
    {
        let Opening { blank, list, front } = opening;
        let (total, rest) = blank.open::<L>();
        let roster = Roster {
            rest,
            holders: 0,
            front: front.again(),
        };
        (
            Listing {
                list,
                front,
                total,
                counts: no_counts(),
            },
            roster,
        )
    }

    /// The list is a history. Takes no memory, and does nothing.
    pub fn audit(&self)
        ensures { IsHistory L.ids self.now }
    {
        let _ = &self.front;
    }

    /// The whole list, as one who has seen it. Takes no memory, and copies a number.
    pub fn front(&self) -> Front
        ensures list { result.list ≡ self.now }
        ensures book { result.book ≡ L.book }
        ensures history { IsHistory L.ids result.list }
    {
        self.front.again()
    }

    /// Enters an event that this holder made, with its outcome: it is the last of the list, and the
    /// holder has seen the list up to it. The outcome has to be the model's in the world that the
    /// list leads to. Takes no memory, constant time.
    ///
    /// `about` is what the entry is read from, in the proofs alone: `M` says which it is.
    ///
    /// It waits for ever where the list has more events than are counted here, or the holder more of
    /// its own, and where 2^62 are listed. That never comes, since only who holds this enters events;
    /// but nothing that a book can say tells so.
    pub fn enter<R: Wait, X, M: Plain<X, Noted, u64>>(
        &mut self,
        rt: &R,
        holder: &mut Holder<L>,
        about: &X,
    )
        requires state { M.state about.now ≡ None }
        requires by { (M.ask about.now).by ≡ holder.old.number }
        requires answers { Answers L.ids (clocked (led_to self.old) (M.ask about.now).event)
            (M.ask about.now).event (M.ask about.now).outcome }
        requires asked { IsAskedFor (M.ask about.now).event }
        ensures log { self.new ≡ self.old ++ M.ask about.now ∷ [] }
        ensures adds { Adds L.ids holder.old (M.ask about.now).about (M.ask about.now).event
            (M.ask about.now).outcome holder.new }
        ensures front { holder.new.front ≡ self.new }
    {
        let number = holder.number;
        let count = holder.count;
        sure(rt, self.knows(&*holder));
        sure(rt, count < MOST);
        let Listing {
            list,
            front,
            total,
            counts,
        } = self;
        let added = front.add::<X, M>(list, &mut holder.front, about);
        sure(rt, added);
        counts[number] = count + 1;
        holder.count = count + 1;
        total.add(&mut holder.share, 1);
    }

    /// Shows the holder the whole list. Takes no memory, constant time. It waits for ever where
    /// [`Listing::enter`] does.
    pub fn show<R: Wait>(&self, rt: &R, holder: &mut Holder<L>)
        ensures shows { Shows holder.old holder.new }
        ensures front { holder.new.front ≡ self.now }
    {
        sure(rt, self.knows(&*holder));
        sure(rt, self.front.begins_with(&holder.front));
        holder.front = self.front.again();
    }

    /// Whether the holder made as many events as are counted here.
    fn knows(&self, holder: &Holder<L>) -> bool
        ensures { result ≡ true → length (events_by holder.now.number self.now) ≡ made_by holder.now }
    {
        self.counts[holder.number] == holder.count
    }

    /// Whether this one has seen all of its own events.
    pub(crate) fn owns(&self, holder: &Holder<L>) -> bool
        ensures { result ≡ true → Owns self.now holder.now }
    {
        self.knows(holder) && self.front.begins_with(&holder.front)
    }

    /// Whether each number is marked of which there is an event.
    pub(crate) fn known_by(&self, marks: &[bool; MOST_HOLDERS]) -> bool
        ensures { result ≡ true → All (λ e. IsMarked marks.now e.by) self.now }
    {
        for number in 0..MOST_HOLDERS {
            if self.counts[number] > 0 && !marks[number] {
                return false;
            }
        }
        true
    }

    /// What counts the events in shares.
    pub(crate) fn into_total(self) -> ledger::Book<L>
        ensures { result.total ≡ length self }
    {
        let Listing { total, .. } = self;
        total
    }
}

/// No holder's count beyond this.
const MOST: u64 = 1 << 62;

/// No holder made an event.
fn no_counts() -> [u64; MOST_HOLDERS]
    ensures { result ≡ replicate 64 0 }
{
    [0; MOST_HOLDERS]
}

/// Returns where it is so, and else waits for ever: for what always is so, but no clause tells.
pub fn sure<R: Wait>(rt: &R, is_so: bool)
    ensures { is_so ≡ true }
{
    for _ in rt.forever() {
        if is_so {
            return;
        }
    }
    unreachable!()
}
