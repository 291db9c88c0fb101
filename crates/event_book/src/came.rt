//! The holders that came back, as clauses see them.
ghost use Rattle.std.specs.Prelude.{◌≡◌, [], ◌∷◌, ◌++◌};

use crate::book::Front;
use std::marker::Model;
use std::snapshot::Snapshot;

/// The holders that came back, in order. It holds nothing, and only clauses read it.
#[derive(Drop)]
#[cycle(came)]
pub(crate) struct Came {
    last: Last,
}

#[derive(Drop)]
#[cycle(came)]
enum Last {
    Nobody,
    After(Snapshot<Came>, Snapshot<usize>, Snapshot<Front>),
}

impl Model for Came {
    ghost use Rattle.std.specs.Prelude.{List, length};
    ghost use Rattle.std.specs.Coded.{codes};
    ghost use Rattle.std.proofs.Common.{arith, length-append};
    ghost use Rattle.kv_model.specs.contracts.call.Command as commands;
    ghost use Rattle.event_book.specs.Callers.{Caller};

    ghost Value = { List Caller };

    ghost coded = { Prim.hlevel (codes, commands.the_row.coded) };

    ghost use Rattle.event_book.specs.CameBack.{came_by};

    ghost view = { λ c. came_by c.last };

    ghost size = { length };

    ghost size_decreases = { λ a h. Prim.grind (arith, length-append) };
}

impl Came {
    /// Nobody came back yet.
    pub(crate) fn nobody() -> Self
        ensures { result ≡ [] }
    {
        Came { last: Last::Nobody }
    }

    /// The holder of this number came back, which had seen this beginning of the list.
    pub(crate) fn add(&mut self, number: usize, front: &Front)
        ensures { self.new ≡ self.old ++ record { number = number; front = front.now.list } ∷ [] }
    {
        let before = Snapshot::of(self);
        *self = Came {
            last: Last::After(before, Snapshot::of(&number), Snapshot::of(front)),
        };
    }
}
