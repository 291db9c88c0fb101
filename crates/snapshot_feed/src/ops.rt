//! The operations that were done on a copy of the tables.
ghost use Rattle.std.specs.Prelude.{◌≡◌, ◌<◌, ◌++◌, ◌∷◌, [], fold, length, true, OnOk, OnErr, MatchBool};
ghost use Rattle.kv_model.specs.Feed.{published};
ghost use Rattle.store_laws.specs.Snapshots.{absorb};

use crate::entry::take_in;
use kv_model::feed::{Op, Sink};
use range_view::Tables;
use std::alloc::{AllocError, Global};
use std::collections::VecDeque;
use std::marker::Model;

/// The operations that were done on one copy of the tables and not yet on the other, the oldest first.
#[derive(Drop)]
pub struct Ops {
    list: VecDeque<Op>,
}

impl Model for Ops {
    ghost use Rattle.std.specs.Prelude.{List, map};
    ghost use Rattle.kv_model.specs.Feed.{Published, published};

    ghost Value = { List Published };

    ghost view = { λ o. map published o.list.items };
}

impl Ops {
    /// None. What comes takes its memory from `alloc`.
    pub fn new(alloc: Global) -> Self
        ensures { result ≡ [] }
    {
        Ops {
            list: VecDeque::new(alloc),
        }
    }

    /// One more. The error is want of memory for it, and then nothing has changed. Constant time, but
    /// for the growth of the list; no version is copied.
    pub fn append(&mut self, op: Op) -> Result<(), AllocError>
        ensures ok { OnOk result (self.new ≡ self.old ++ published op ∷ []) }
        ensures err { OnErr result (self.new ≡ self.old) }
    {
        match self.list.push_back(op) {
            Ok(()) => Ok(()),
            Err(_full) => Err(AllocError),
        }
    }

    /// Whether there is none. Constant time.
    pub fn is_empty(&self) -> bool
        ensures { MatchBool result (self.now ≡ []) (0 < length self.now) }
    {
        self.list.is_empty()
    }

    /// Has the tables take in all of them, the oldest first, which are gone then; and says so. Where
    /// it says no, a growth found no memory, and those that are left are still to be taken in.
    pub(crate) fn level(&mut self, tables: &mut Tables) -> bool
        ensures level { fold absorb tables.new self.new ≡ fold absorb tables.old self.old }
        ensures all { result ≡ true → self.new ≡ [] }
    {
        while self.list.len() > 0 {
            let op = self.list.pop_front().unwrap();
            if take_in(tables, &op).is_err() {
                self.list.push_front_reserved(op);
                return false;
            }
        }
        true
    }
}

impl Sink for Ops {
    ghost use Rattle.std.specs.Prelude.{◌≡◌, ◌++◌, ◌∷◌, []};

    ghost takes = { λ f op g. g ≡ f ++ op ∷ [] };

    fn take(&mut self, op: Op) -> Result<(), AllocError> {
        self.append(op)
    }
}
