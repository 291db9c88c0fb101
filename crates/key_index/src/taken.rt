//! What is done with the revisions of a key, in their place in the map.
ghost use Rattle.std.specs.Prelude.{◌≡◌, ◌∷◌, ◌++◌, []};
ghost use Rattle.kv_model.specs.Lists.{is_empty};
ghost use Rattle.key_index.specs.KeyRevisions.{IsBehind};
ghost use Rattle.key_index.specs.Taken.{left_by, left_trimmed, trimmed};

use crate::revisions::Revisions;
use key_pages::{Cut, Growth};
use kv_model::version::Rev;
use std::alloc::{AllocError, Global};

/// One more revision of a key, which is above those that the key has.
#[derive(Drop)]
pub(crate) struct Added {
    pub(crate) alloc: Global,
    pub(crate) rev: Rev,
}

impl Growth<Revisions> for Added {
    ghost may_grow = { λ a qs. IsBehind a.rev qs };

    ghost grown = { λ a qs. qs ++ a.rev ∷ [] };

    ghost fresh = { λ a. a.rev ∷ [] };

    fn first(&self) -> Revisions {
        Revisions::one(self.rev)
    }

    fn grow(&self, value: &mut Revisions) -> Result<(), AllocError> {
        value.push(self.alloc, self.rev)
    }
}

/// Which revisions of a key go.
#[derive(Drop)]
pub(crate) enum Taken {
    /// The oldest.
    Oldest,
    /// That one.
    At(Rev),
    /// Those of a main revision at the end.
    Of(u64),
}

impl Taken {
    /// Takes them from the revisions of a key.
    fn take_from(&self, revisions: &mut Revisions)
        ensures { revisions.new ≡ left_by self.now revisions.old }
    {
        match self {
            Taken::Oldest => revisions.drop_front(),
            Taken::At(rev) => revisions.drop_at(*rev),
            Taken::Of(main) => revisions.undo(*main),
        }
    }
}

impl Cut<Revisions> for Taken {
    ghost left = { λ t qs. left_by t qs };

    ghost is_spent = { λ t qs. is_empty (left_by t qs) };

    ghost told = { λ t qs. t };

    fn cut(&mut self, value: &mut Revisions) -> bool {
        self.take_from(value);
        value.is_empty()
    }
}

/// A revision of a key that goes where the next one of the key is of a main revision up to another,
/// or where it goes anyway; and whether it went.
#[derive(Drop)]
pub(crate) struct Trimming {
    pub(crate) rev: Rev,
    pub(crate) main: u64,
    pub(crate) goes: bool,
}

impl Trimming {
    /// Takes it from the revisions of a key, where it goes.
    fn take_from(&self, revisions: &mut Revisions)
        ensures { revisions.new ≡ left_trimmed self.now revisions.old }
    {
        if self.goes {
            revisions.drop_at(self.rev);
        }
    }
}

impl Cut<Revisions> for Trimming {
    ghost left = { λ t qs. left_trimmed (trimmed t qs) qs };

    ghost is_spent = { λ t qs. is_empty (left_trimmed (trimmed t qs) qs) };

    ghost told = { λ t qs. trimmed t qs };

    fn cut(&mut self, value: &mut Revisions) -> bool {
        let followed = value.is_followed(self.rev, self.main);
        self.goes = followed || self.goes;
        self.take_from(value);
        value.is_empty()
    }
}
