//! The list's word, and beginnings of the list.
ghost use Rattle.std.specs.Prelude.{◌≡◌, ◌++◌, ◌∷◌, ◌⊎◌, [], None, true, false};
ghost use mathlib.Core.List.{IsPrefix};
ghost use Rattle.event_book.specs.Rules.{IsShorter};

use logbook::{Gain, Offer, Plain, Play, Rule, Seen, Start, Word};
use std::marker::Model;

/// No more events than these are listed.
const MOST: u64 = 1 << 62;

/// An event with its outcome and whose it is, as the list has them: a value of it would say nothing,
/// and none is made.
pub struct Noted;

impl Model for Noted {
    ghost use Rattle.std.specs.Coded.{codes};
    ghost use Rattle.kv_model.specs.contracts.call.Command as commands;
    ghost use Rattle.kv_model.specs.Follows.Outcome.{memory};
    ghost use Rattle.event_book.specs.Events.{Entry, Event, entry};

    ghost Value = { Entry };

    ghost coded = { Prim.hlevel (codes, commands.the_row.coded) };

    ghost view = { λ n. entry 0 0 Event.trimming memory };
}

/// The rule of the book.
pub struct Law;

impl Rule<Noted, u64> for Law {
    ghost use Rattle.std.specs.Prelude.{[]};
    ghost use base.Fml.{ftrue};
    ghost use Rattle.event_book.specs.Rules.{IsKept};

    ghost holds = { λ cells log. IsKept cells log };

    ghost first = { [] };

    ghost hinted = { λ n log. Unit {0} };

    ghost shows = { λ log. [] };

    ghost keeps = { λ names log. ftrue };

    ghost moves = { λ ask before after answer. Unit {0} };
}

/// Callers trade nothing.
struct Nothing;

impl Gain<Noted, u64> for Nothing {
    ghost use base.Fml.{ftrue};

    ghost after = { λ names about answer. ftrue };
}

/// The step that adds an event.
struct Add;

impl Play<Noted, u64> for Add {
    ghost use Rattle.event_book.specs.Rules.{AddsEntry};

    ghost then = { AddsEntry };
}

/// The word of a list of events: how many there are.
#[derive(Drop)]
pub struct Book {
    head: Word<Noted, u64, Law>,
}

impl Model for Book {
    ghost use Rattle.std.specs.Prelude.{◌≡◌};
    ghost use Rattle.logbook.specs.Pages as pages;
    ghost use Rattle.event_book.specs.Rules.{head_of};

    ghost Value = { pages.Book };

    ghost view = { λ b. b.head.book };

    ghost invariant = { λ b. b.head ≡ head_of b.head.book };
}

/// A beginning of a list of events that was seen.
#[derive(Drop)]
pub struct Front {
    count: u64,
    seen: Seen<Noted, u64, Law>,
}

impl Model for Front {
    ghost use Rattle.std.specs.Prelude.{◌≡◌, length};
    ghost use Rattle.std.specs.Coded.{codes};
    ghost use Rattle.kv_model.specs.contracts.call.Command as commands;
    ghost use Rattle.event_book.specs.Rules.{Beginning};

    ghost Value = { Beginning };

    ghost coded = { Prim.hlevel (codes, commands.the_row.coded) };

    ghost view = { λ f. record { book = f.seen.book; list = f.seen.log } };

    ghost invariant = { λ f. f.count ≡ length f.seen.log };
}

/// A new list without an event, and the front that has seen nothing. Takes no memory.
pub fn open() -> (Book, Front)
    ensures book { result.1.book ≡ result.0 }
    ensures list { result.1.list ≡ [] }
{
    let (seen, mut first, _second) = Seen::open(Start::alone(), 0, 0);
    (
        Book {
            head: Word::tracked(0, &mut first),
        },
        Front { count: 0, seen },
    )
}

impl Front {
    /// A copy, which is a number. Takes no memory.
    pub fn again(&self) -> Front
        ensures { result ≡ self.now }
    {
        Front {
            count: self.count,
            seen: self.seen.again(),
        }
    }

    /// Of two fronts of one list one begins the other. Takes no memory, and does nothing.
    pub fn agree(&self, other: &Front)
        requires { other.now.book ≡ self.now.book }
        ensures { IsPrefix self.now.list other.now.list ⊎ IsPrefix other.now.list self.now.list }
    {
        let mut both = self.seen.again();
        both.learn(&other.seen);
    }

    /// Whether another front of the same list begins this one: one comparison of two numbers. Where
    /// it does not, it is longer, and this one begins it. Takes no memory.
    pub fn begins_with(&self, other: &Front) -> bool
        requires { other.now.book ≡ self.now.book }
        ensures begins { result ≡ true → IsPrefix other.now.list self.now.list }
        ensures shorter { result ≡ false → IsShorter self.now.list other.now.list }
    {
        let mut both = self.seen.again();
        both.learn(&other.seen);
        other.count <= self.count
    }

    /// Adds an event to all that this front has seen, where nobody else has added one meanwhile, and
    /// says whether it did. The other front, of the same list, is then as this one, which it began.
    /// Where it did not, both are as they were: somebody else has added one, or 2^62 are listed.
    /// Takes no memory, constant time, and waits for nobody.
    ///
    /// `about` is what the event is read from, in the proofs alone: `M` says which it is.
    pub fn add<X, M: Plain<X, Noted, u64>>(
        &mut self,
        book: &Book,
        other: &mut Front,
        about: &X,
    ) -> bool
        requires book { book.now ≡ self.old.book }
        requires other { other.old.book ≡ self.old.book }
        requires state { M.state about.now ≡ None }
        ensures book { self.new.book ≡ self.old.book }
        ensures list { result ≡ true → self.new.list ≡ self.old.list ++ M.ask about.now ∷ [] }
        ensures begins { result ≡ true → IsPrefix other.old.list self.old.list }
        ensures other { result ≡ true → other.new ≡ self.new }
        ensures unchanged { result ≡ false → (self.new ≡ self.old) × (other.new ≡ other.old) }
    {
        if self.count >= MOST {
            return false;
        }
        let mut both = self.seen.again();
        both.learn(&other.seen);
        let mut offer: Offer<Noted, u64, Law, Nothing> = both.plain::<Nothing, X, M>(about);
        let mut pen = both.no_pen();
        let count = self.count;
        let found = book
            .head
            .compare_exchange::<Add, Nothing>(count, count + 1, &mut both, &mut offer, &mut pen);
        if found != count {
            return false;
        }
        self.count = count + 1;
        self.seen = both.again();
        other.count = count + 1;
        other.seen = both;
        true
    }
}
