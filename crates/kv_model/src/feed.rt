//! What a changing core tells those who read beside it.
ghost use Rattle.std.specs.Prelude.{◌≡◌, OnOk, OnErr, IsOk};
ghost use Rattle.kv_model.specs.Feed.{Published, published};

use crate::version::Version;
use std::alloc::AllocError;

/// One change of what is kept, as readers beside the writer take it.
#[derive(Debug, Drop)]
pub enum Op {
    /// The versions of one revision, in order, to be appended.
    Batch(Vec<Version>),
    /// The revision of an accepted compaction.
    Floor(u64),
    /// One trimming step.
    Trim,
}

/// Where a core hands each change before it stands.
pub trait Sink {
    /// That taking this operation leads from the first state to the second.
    ghost takes: { Self → Published → Self → Type 0 };

    /// What shows that taking an operation never fails, where anything does.
    ghost never_fails: { Type 0 } = { ⊥ };

    /// Takes one operation. `AllocError` comes where a growth found no memory, and then nothing has
    /// changed.
    fn take(&mut self, op: Op) -> Result<(), AllocError>
        ensures ok { OnOk result (takes self.old (published op) self.new) }
        ensures err { OnErr result (self.new ≡ self.old) }
        ensures succeeds { never_fails → IsOk result };
}

/// The sink that takes everything and keeps nothing.
#[derive(Clone, Copy, Debug, PartialEq, Eq)]
pub struct NoSink;

impl Sink for NoSink {
    ghost takes = { λ _ _ _. Unit {0} };

    ghost never_fails = { Unit {0} };

    fn take(&mut self, op: Op) -> Result<(), AllocError> {
        drop(op);
        Ok(())
    }
}
