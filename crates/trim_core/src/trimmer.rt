//! One trimming step after another.
ghost use Rattle.std.specs.Prelude.{◌≡◌};
ghost use Rattle.store_laws.specs.Trimming.{oldest_place, trimmed};
ghost use Rattle.key_index.specs.Agrees.{Agrees};
ghost use Rattle.std.specs.Prelude.{option_copied};
ghost use Rattle.trim_core.specs.Steps.{next_version, step_of};

use crate::rule::{next_version, place_after, unindex};
use key_index::KeyIndex;
use kv_model::version::{Rev, Version};
use std::marker::Model;
use version_table::VersionTable;

/// What a trimming step did.
#[derive(Clone, Copy, Debug, PartialEq, Eq)]
pub enum Trim {
    /// The version at this revision was taken out.
    Removed(Rev),
    /// The version at this revision stays.
    Kept(Rev),
    /// No version was left to visit. So many are kept, those above the compaction too.
    Done(u64),
}

/// How far trimming has come since the last compaction: the first place in the history that it has
/// not looked at.
#[derive(Drop)]
pub struct Trimmer {
    place: Rev,
}

impl Model for Trimmer {
    ghost use Rattle.kv_model.specs.declared.version.Rev.{Rev};

    ghost Value = { Rev };

    ghost view = { λ t. t.place };
}

impl Trimmer {
    /// A trimmer that has looked at nothing. Takes no memory.
    pub fn new() -> Self
        ensures { result ≡ oldest_place }
    {
        Trimmer {
            place: Rev { main: 0, sub: 0 },
        }
    }

    /// Begins again at the oldest version, as after each compaction. Takes no memory.
    pub fn restart(&mut self)
        ensures { self.new ≡ oldest_place }
    {
        self.place = Rev { main: 0, sub: 0 };
    }

    /// The version that a step would visit next, of those at or below `compacted`, lent from the
    /// table. Takes no memory, and time logarithmic in the number of versions.
    pub fn next<'a>(&self, table: &'a VersionTable, compacted: u64) -> Option<&'a Version>
        ensures { option_copied result ≡ next_version table.now self.now compacted }
    {
        next_version(table, self.place, compacted)
    }

    /// Visits the next version at or below `compacted`, the revision of the last compaction, the
    /// oldest first. It is taken out of the table and of the index where a later version of its key
    /// is below the compaction, or where it is a tombstone below it; else it stays. Where none is
    /// left to visit, nothing changes and the answer is `Done`.
    ///
    /// The index is that of the versions in the table, and is so again. Takes no memory.
    ///
    /// The time is logarithmic in the number of versions and of keys, but for two things: where the
    /// one that goes is not the first on its page of 256 places, the versions behind it there move one
    /// place, and where it is not the oldest of its key, the revisions of that key are walked. It is the oldest where
    /// trimming began again at each compaction, and versions above it came since
    /// (`laws::removed_is_oldest`).
    pub fn step(&mut self, table: &mut VersionTable, index: &mut KeyIndex, compacted: u64) -> Trim
        requires { Agrees index.old table.old }
        ensures exact { step_of result table.new self.new ≡ trimmed table.old self.old compacted }
        ensures agrees { Agrees index.new table.new }
    {
        match next_version(table, self.place, compacted) {
            Some(version) => {
                let rev = version.rev;
                self.place = place_after(rev);
                if unindex(index, version, compacted) {
                    table.remove(rev);
                    Trim::Removed(rev)
                } else {
                    Trim::Kept(rev)
                }
            }
            None => Trim::Done(table.len() as u64),
        }
    }
}
