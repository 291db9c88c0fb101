//! The versions that a watch matches, one after another.
ghost use Rattle.std.specs.Prelude.{◌≡◌, ◌∷◌, [], ◌&&◌, filter, nat_le};
ghost use Rattle.std.specs.Prelude.{Bool, MatchOption};
ghost use Rattle.kv_model.specs.declared.version.Version.{Version};
ghost use Rattle.store_laws.specs.Stands.{first_main_of};
ghost use Rattle.watch_hub.specs.Hub.{first_from};
ghost use Rattle.watch_hub.specs.Walks.{is_by_key, left_in};
ghost use Rattle.kv_model.specs.Lists.{is_empty};
ghost use Rattle.kv_model.specs.Watches.{matches};
ghost use Rattle.range_view.specs.Stored.{IsStored};

use crate::matching::matches;
use kv_model::call::Watched;
use kv_model::version::Version;
use range_view::{KeyVersions, Tables, Versions};
use std::marker::Model;

/// What is left of a walk over the versions that a watch matches, which rise.
#[derive(Drop)]
pub(crate) struct Walk<'a> {
    watched: &'a Watched,
    source: Source<'a>,
}

/// The versions among which a walk looks: those of one key by the index of keys, where the watch is
/// of one key, and else all.
#[derive(Drop)]
enum Source<'a> {
    Key(KeyVersions<'a>),
    All(Versions<'a>),
}

impl<'a> Model for Walk<'a> {
    ghost use Rattle.std.specs.Prelude.{List, filter};
    ghost use Rattle.kv_model.specs.declared.version.Version.{Version};
    ghost use Rattle.kv_model.specs.Watches.{matches};
    ghost use Rattle.watch_hub.specs.Walks.{left_in};

    ghost Value = { List Version };

    ghost view = { λ w. filter (matches w.watched.now) (left_in w.source) };
}

impl<'a> Walk<'a> {
    /// A walk over the versions from a revision on. It begins by halving.
    pub(crate) fn new(tables: &'a Tables, next: u64, watched: &'a Watched) -> Self
        ensures value { result
            ≡ filter (λ v. nat_le next v.rev.main && matches watched.now v) tables.now.versions }
        ensures stored { IsStored tables.now }
    {
        Walk {
            watched,
            source: source_of(tables, next, watched),
        }
    }

    /// The next version. Those that do not match are passed over.
    pub(crate) fn next(&mut self) -> Option<&'a Version>
        ensures { MatchOption result ((self.old ≡ []) × (self.new ≡ []))
            (λ v. self.old ≡ v.now ∷ self.new) }
    {
        next_match(self.watched, &mut self.source)
    }
}

/// Where a walk looks for what a watch matches from a revision on: by the index where it is of one
/// key, and else among all.
fn source_of<'a>(tables: &'a Tables, next: u64, watched: &Watched) -> Source<'a>
    ensures matched { filter (matches watched.now) (left_in result)
        ≡ filter (λ v. nat_le next v.rev.main && matches watched.now v) tables.now.versions }
    ensures by_key { is_by_key result ≡ is_empty watched.now.range.end }
    ensures stored { IsStored tables.now }
{
    if watched.range.end.is_empty() {
        return Source::Key(tables.versions_of(&watched.range.key, next));
    }
    Source::All(all_from(tables, next))
}

/// All versions from a revision on. It halves.
fn all_from(tables: &Tables, next: u64) -> Versions<'_>
    ensures from { (p : Version → Bool)
        → filter p result ≡ filter (λ v. nat_le next v.rev.main && p v) tables.now.versions }
    ensures stored { IsStored tables.now }
{
    tables.versions_from(next)
}

/// The first of the versions that are left that a watch matches. Those before it are passed over.
fn next_match<'a>(watched: &Watched, source: &mut Source<'a>) -> Option<&'a Version>
    ensures { MatchOption result ((filter (matches watched.now) (left_in source.old) ≡ [])
        × (filter (matches watched.now) (left_in source.new) ≡ []))
        (λ v. filter (matches watched.now) (left_in source.old)
        ≡ v.now ∷ filter (matches watched.now) (left_in source.new)) }
{
    while let Some(version) = next_of(source) {
        if matches(watched, version) {
            return Some(version);
        }
    }
    None
}

/// The next of the versions that are left.
fn next_of<'a>(source: &mut Source<'a>) -> Option<&'a Version>
    ensures { MatchOption result ((left_in source.old ≡ []) × (left_in source.new ≡ []))
        (λ v. left_in source.old ≡ v.now ∷ left_in source.new) }
{
    match source {
        Source::Key(versions) => versions.next(),
        Source::All(versions) => versions.next(),
    }
}

/// The main revision of the first version of a walk.
pub(crate) fn first_main(walk: Walk<'_>) -> Option<u64>
    ensures { result ≡ first_main_of walk.entry }
{
    let mut walk = walk;
    match walk.next() {
        Some(version) => Some(version.rev.main),
        None => None,
    }
}

/// The main revision of the first of the versions from a revision on that a watch matches.
///
/// For a range of one key the time is logarithmic in the number of keys and in that of the key's
/// revisions, and for each of the key's versions from the revision on up to the match at most
/// logarithmic in the number of versions. For any other it is logarithmic in the number of
/// versions, and linear in that of those from the revision on up to the match.
pub(crate) fn first_from(tables: &Tables, next: u64, watched: &Watched) -> Option<u64>
    ensures { result ≡ first_from tables.now.versions next watched.now }
{
    first_main(Walk::new(tables, next, watched))
}
