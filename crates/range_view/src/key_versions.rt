//! The versions of one key, one after another.
ghost use Rattle.std.specs.Prelude.{◌≡◌, ◌+◌, ◌-◌, ◌^◌, ◌<◌, [], ◌∷◌, ◌&&◌, drop, filter, nat_le};
ghost use Rattle.std.specs.Prelude.{MatchOption, IfSome};
ghost use Rattle.std.specs.List.{slice_get};
ghost use Rattle.kv_model.specs.Keys.{same_key};
ghost use Rattle.key_index.specs.KeyRevisions.{count_before};
ghost use Rattle.range_view.specs.OneKey.{held, standing_at};
ghost use Rattle.range_view.specs.Stored.{AreTied};

use bytes::Bytes;
use key_index::{KeyIndex, Revisions};
use kv_model::version::{Rev, Version};
use std::marker::Model;
use version_table::VersionTable;

/// What is left of a walk over the versions of one key, the oldest first. It goes by the key's
/// revisions in the index, and comes by no version of another key.
#[derive(Drop)]
pub struct KeyVersions<'a> {
    table: &'a VersionTable,
    revisions: Option<&'a Revisions>,
    index: usize,
}

impl<'a> Model for KeyVersions<'a> {
    ghost use Rattle.std.specs.Prelude.{List, drop};
    ghost use Rattle.kv_model.specs.declared.version.Version.{Version};
    ghost use Rattle.range_view.specs.OneKey.{held, standing_at};

    ghost Value = { List Version };

    ghost view = { λ w. standing_at w.table.now (drop w.index (held w.revisions)) };
}

impl<'a> KeyVersions<'a> {
    /// The versions of a key from a revision on, by a table and the index of its versions. Takes no
    /// memory.
    ///
    /// The time is logarithmic in the number of keys and in that of the key's revisions.
    pub fn new(table: &'a VersionTable, index: &'a KeyIndex, key: &Bytes, next: u64) -> Self
        requires { AreTied index.now table.now }
        ensures { result
            ≡ filter (λ v. nat_le next v.rev.main && same_key v.key key.now) table.now }
    {
        let revisions = index.get(key);
        KeyVersions {
            table,
            revisions,
            index: count_before(revisions, next),
        }
    }

    /// The next version, and nothing at the end. Takes no memory.
    ///
    /// The time is that of finding a version by its revision: constant where the table has one
    /// version of each main revision from its first one on, and else logarithmic in the number of
    /// versions.
    pub fn next(&mut self) -> Option<&'a Version>
        ensures { MatchOption result ((self.old ≡ []) × (self.new ≡ []))
            (λ v. self.old ≡ v.now ∷ self.new) }
    {
        match version_at(self.table, self.revisions, self.index) {
            Some(version) => {
                self.index += 1;
                Some(version)
            }
            None => None,
        }
    }
}

/// How many of a key's revisions are of an earlier main revision.
fn count_before(revisions: Option<&Revisions>, main: u64) -> usize
    ensures { result ≡ count_before main (held revisions.entry) }
{
    match revisions {
        Some(revisions) => revisions.count_before(main),
        None => 0,
    }
}

/// The revision at an index of those of a key.
fn rev_at(revisions: Option<&Revisions>, index: usize) -> Option<Rev>
    ensures value { result ≡ slice_get (held revisions.entry) index }
    ensures bound { IfSome result (λ _. index < 2 ^ 64 - 1) }
{
    match revisions {
        Some(revisions) => revisions.get(index),
        None => None,
    }
}

/// The version at the revision at an index of those of a key.
fn version_at<'a>(
    table: &'a VersionTable,
    revisions: Option<&Revisions>,
    index: usize,
) -> Option<&'a Version>
    ensures next { MatchOption result (standing_at table.now (drop index (held revisions.entry)) ≡ [])
        (λ v. standing_at table.now (drop index (held revisions.entry))
        ≡ v.now ∷ standing_at table.now (drop (index + 1) (held revisions.entry))) }
    ensures bound { IfSome result (λ _. index < 2 ^ 64 - 1) }
{
    match rev_at(revisions, index) {
        Some(rev) => table.get(rev),
        None => None,
    }
}
