//! Which list it is, and what it is opened with.
ghost use Rattle.std.specs.Prelude.{◌≡◌, []};
ghost use Rattle.kv_model.specs.declared.ids.Ids.{Ids};
ghost use Rattle.logbook.specs.Pages.{Book as BookOf};

use crate::MOST_HOLDERS;
use crate::book::{Book, Front, open};
use std::marker::{Brand, Model};
use std::sync::ledger::{Blank, Ledger};

/// Names one list, by the ledger of its holders' shares, by its book, and by the ids that its
/// outcomes are told with. No type but `Brand` has it, and a call with `Brand` picks the names: so a
/// list and its holders live inside a function that is generic in it, and a holder of another list
/// has another type.
pub trait ListName: Ledger {
    /// The list.
    ghost book: { BookOf };
    /// What the headers of its answers name.
    ghost ids: { Ids };
}

impl ListName for Brand {
    ghost book = { record { number = 0; log_name = 0; cells_name = 0 } };

    ghost ids = { record { cluster = 0; member = 0 } };
}

/// What a list is opened with, made before the function that is generic in its name: a ledger that
/// no type stands for yet, cut into a part for each holder, and a list without an event.
#[derive(Drop)]
pub struct Opening {
    pub(crate) blank: Blank,
    pub(crate) list: Book,
    pub(crate) front: Front,
}

impl Model for Opening {
    ghost use Rattle.std.specs.Prelude.{◌≡◌, []};
    ghost use Rattle.event_book.specs.Lists.{Opened};

    ghost Value = { Opened };

    ghost view = { λ o. record {
      name = o.blank.name;
      parts = o.blank.parts;
      book = o.list;
    } };

    ghost invariant = { λ o. (o.blank.parts ≡ 64) × (o.front.book ≡ o.list)
        × (o.front.list ≡ []) };
}

impl Opening {
    /// The opening of a list of 64 holders at most. Takes no memory.
    pub fn new() -> Self
        ensures { result.parts ≡ 64 }
    {
        let (list, front) = open();
        Opening {
            blank: Blank::new(MOST_HOLDERS as u64),
            list,
            front,
        }
    }

    /// The front that has seen nothing. Takes no memory, and copies a number.
    pub fn front(&self) -> Front
        ensures book { result.book ≡ self.now.book }
        ensures list { result.list ≡ [] }
    {
        self.front.again()
    }
}
