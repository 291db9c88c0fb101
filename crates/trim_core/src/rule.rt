//! Which version a trimming step visits, and whether it goes (etcd: mvcc compaction).
ghost use Rattle.std.specs.Prelude.{◌≡◌, ◌&&◌, if◌then◌else◌, List, nat_lt, option_copied};
ghost use Rattle.kv_model.specs.declared.version.Version.{Version};
ghost use Rattle.kv_model.specs.History.{is_tombstone};
ghost use Rattle.store_laws.specs.Trimming.{is_trimmed, place_after};
ghost use Rattle.version_table.specs.Rising.{IsRising};
ghost use Rattle.key_index.specs.Agrees.{Agrees};
ghost use Rattle.key_index.specs.Index.{without_revision};
ghost use Rattle.trim_core.specs.Steps.{next_version};

use key_index::KeyIndex;
use kv_model::version::{Body, Rev, Version};
use version_table::VersionTable;

/// The first place behind another one. Behind the greatest of 64-bit numbers there is none: it is
/// its own.
pub(crate) fn place_after(rev: Rev) -> Rev
    ensures { result ≡ place_after rev }
{
    if rev.sub < u64::MAX {
        Rev {
            main: rev.main,
            sub: rev.sub + 1,
        }
    } else if rev.main < u64::MAX {
        Rev {
            main: rev.main + 1,
            sub: 0,
        }
    } else {
        rev
    }
}

/// The first version that is not before a place, where it is at or below the compaction. It halves.
pub(crate) fn next_version(table: &VersionTable, place: Rev, compacted: u64) -> Option<&Version>
    ensures value { option_copied result ≡ next_version table.now place compacted }
    ensures rising { IsRising table.now }
{
    match table.first_from(place) {
        Some(version) if version.rev.main <= compacted => Some(version),
        _ => None,
    }
}

/// Whether a version is a tombstone.
fn is_tombstone(version: &Version) -> bool
    ensures { result ≡ is_tombstone version.now.body }
{
    match version.body {
        Body::Gone => true,
        Body::Put { .. } => false,
    }
}

/// Whether a version is a tombstone below the compaction.
fn is_passed_tombstone(version: &Version, compacted: u64) -> bool
    ensures { result ≡ (is_tombstone version.now.body && nat_lt version.now.rev.main compacted) }
{
    is_tombstone(version) && version.rev.main < compacted
}

/// Takes a version at or below the compaction out of the index where it goes, and tells whether it
/// does: a later one of its key is below the compaction, or it is a tombstone below it. So the last
/// one stays, and a put before one at the compaction itself, which is its previous value. It is one
/// look-up: the time is logarithmic in the number of keys and in that of the key's revisions, and
/// where the version goes and is not the oldest of its key, linear in that of its revisions.
pub(crate) fn unindex(index: &mut KeyIndex, version: &Version, compacted: u64) -> bool
    ensures told { (vs : List Version) → IsRising vs → Agrees index.old vs
        → result ≡ is_trimmed vs compacted version.now }
    ensures index { index.new ≡ if result
        then without_revision version.now.key version.now.rev index.old else index.old }
{
    let below = compacted.saturating_sub(1);
    let passed = is_passed_tombstone(version, compacted);
    index.trim(&version.key, version.rev, below, passed)
}
