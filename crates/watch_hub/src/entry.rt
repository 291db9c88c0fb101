//! A watch as the hub keeps it.
use crate::matching::{ahead_of, first_reached, still_ahead};
use crate::walk::first_from;
use kv_model::call::Watched;
use kv_model::version::Version;
use range_view::Tables;

/// A watch that stands. Where it is not late it is behind, and holds the main revision of the first
/// version that it matches and was not told of, or it is caught up. Then what it looks at next is
/// the next revision, or a later one that it waits for.
#[derive(Drop)]
pub(crate) struct Entry {
    pub(crate) number: u64,
    /// The client's number for it.
    pub(crate) id: i64,
    pub(crate) watched: Watched,
    /// Its start was below the last compaction when it was made.
    pub(crate) late: bool,
    /// The main revision of its first undelivered match, while it is behind.
    pub(crate) first: Option<u64>,
    /// The revision that it waits for, while that is above the next one.
    pub(crate) ahead: Option<u64>,
}

impl Entry {
    ghost use Rattle.std.specs.Prelude.{◌≡◌, ◌≤◌};
    ghost use Rattle.store_laws.specs.Stands.{noted};
    ghost use Rattle.kv_model.specs.Step.{last_main};
    ghost use Rattle.watch_hub.specs.Hub.{told_to};
    ghost use Rattle.watch_hub.specs.Entries.{tracked_of};

    /// Takes note of the versions of a new revision, which is now the present one.
    pub(crate) fn note(&mut self, versions: &[Version], now: u64)
        ensures { tracked_of self.new ≡ noted versions.now now (tracked_of self.old) }
    {
        if self.late {
            return;
        }
        if self.first.is_none() {
            self.first = first_reached(versions, self.ahead, &self.watched);
        }
        self.ahead = still_ahead(now, self.ahead);
    }

    /// Moves past a revision, by what is kept.
    pub(crate) fn advance(&mut self, tables: &Tables, last: u64)
        requires { last ≤ last_main }
        ensures { tracked_of self.new
            ≡ told_to tables.now.versions tables.now.revision last (tracked_of self.old) }
    {
        self.first = first_from(tables, last + 1, &self.watched);
        self.ahead = ahead_of(tables.revision(), last + 1);
    }
}
