//! The texts that were taken of the lines, as clauses see them.
ghost use Rattle.std.specs.Prelude.{◌≡◌, [], ◌∷◌, ◌++◌};

use std::marker::Model;
use std::snapshot::Snapshot;

/// Each text that was taken so far, in order. It holds nothing, and only clauses read it.
#[derive(Drop)]
#[cycle(taken)]
pub(crate) struct Taken {
    last: Last,
}

#[derive(Drop)]
#[cycle(taken)]
enum Last {
    Nothing,
    After(Snapshot<Taken>, Snapshot<Vec<u8>>),
}

impl Model for Taken {
    ghost use Rattle.std.specs.Prelude.{List, ℕ, length};
    ghost use Rattle.std.specs.Coded.{coded_list, coded_ℕ};
    ghost use Rattle.std.proofs.Common.{arith, length-append};

    ghost Value = { List (List ℕ) };

    ghost coded = { coded_list (coded_list coded_ℕ) };

    ghost use Rattle.recording.specs.Texts.{taken_by};

    ghost view = { λ t. taken_by t.last };

    ghost size = { length };

    ghost size_decreases = { λ a h. Prim.grind (arith, length-append) };
}

impl Taken {
    /// Nothing was taken yet.
    pub(crate) fn new() -> Self
        ensures { result ≡ [] }
    {
        Taken {
            last: Last::Nothing,
        }
    }

    /// This text was taken, too.
    pub(crate) fn add(&mut self, text: &Vec<u8>)
        ensures { self.new ≡ self.old ++ text.now.items ∷ [] }
    {
        let before = Snapshot::of(self);
        *self = Taken {
            last: Last::After(before, Snapshot::of(text)),
        };
    }
}
