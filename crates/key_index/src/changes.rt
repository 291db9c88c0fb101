//! Changes of the map from each key to its revisions. A key without revisions does not stay in it.
ghost use Rattle.std.specs.Prelude.{◌≡◌, ◌||◌, if◌then◌else◌, max, OnOk, OnErr};
ghost use Rattle.key_index.specs.KeyRevisions.{IsBehind, is_followed};
ghost use Rattle.key_index.specs.Index.{revisions, undone_at};
ghost use Rattle.key_index.specs.Index.{with_revision, with_revisions};
ghost use Rattle.key_index.specs.Index.{without_front, without_revision};

use crate::revisions::Revisions;
use crate::taken::{Added, Taken, Trimming};
use bytes::Bytes;
use key_pages::KeyPages;
use kv_model::version::Rev;
use std::alloc::{AllocError, Global};

/// Adds a revision of a key, which is above those that the key has.
fn add(
    alloc: Global,
    keys: &mut KeyPages<Revisions>,
    key: &Bytes,
    rev: Rev,
) -> Result<(), AllocError>
    requires { IsBehind rev (revisions key.now keys.old) }
    ensures ok { OnOk result (keys.new ≡ with_revision key.now rev keys.old) }
    ensures err { OnErr result (keys.new ≡ keys.old) }
{
    let added = Added { alloc, rev };
    keys.put(key, &added)
}

/// Adds a revision of a key, and raises the newest main revision to that of the added one, where it
/// is later, and to no other.
pub(crate) fn put(
    alloc: Global,
    keys: &mut KeyPages<Revisions>,
    newest: &mut u64,
    key: &Bytes,
    rev: Rev,
) -> Result<(), AllocError>
    requires { IsBehind rev (revisions key.now keys.old) }
    ensures ok { OnOk result (keys.new ≡ with_revision key.now rev keys.old) }
    ensures err { OnErr result (keys.new ≡ keys.old) }
    ensures newest { OnOk result (newest.new ≡ max newest.old rev.main) }
    ensures unraised { OnErr result (newest.new ≡ newest.old) }
{
    add(alloc, keys, key, rev)?;
    *newest = (*newest).max(rev.main);
    Ok(())
}

/// Drops what a key has of a main revision at the end.
pub(crate) fn undo(keys: &mut KeyPages<Revisions>, main: u64, key: &Bytes)
    ensures { keys.new ≡ undone_at main key.now keys.old }
{
    let mut taken = Taken::Of(main);
    keys.cut(key, &mut taken);
}

/// Drops the oldest revision of a key.
pub(crate) fn drop_front(keys: &mut KeyPages<Revisions>, key: &Bytes)
    ensures { keys.new ≡ without_front key.now keys.old }
{
    let mut taken = Taken::Oldest;
    keys.cut(key, &mut taken);
}

/// Drops a revision of a key.
pub(crate) fn drop_at(keys: &mut KeyPages<Revisions>, key: &Bytes, rev: Rev)
    ensures { keys.new ≡ without_revision key.now rev keys.old }
{
    let mut taken = Taken::At(rev);
    keys.cut(key, &mut taken);
}

/// Drops a revision of a key where the next one of the key is of a main revision up to another, or
/// where it goes anyway, and tells whether it goes.
pub(crate) fn trim(
    keys: &mut KeyPages<Revisions>,
    key: &Bytes,
    rev: Rev,
    main: u64,
    anyway: bool,
) -> bool
    ensures told { result ≡ (is_followed rev main (revisions key.now keys.old) || anyway) }
    ensures value { keys.new ≡ if result then without_revision key.now rev keys.old
        else with_revisions key.now (revisions key.now keys.old) keys.old }
{
    let mut trimming = Trimming {
        rev,
        main,
        goes: anyway,
    };
    keys.cut(key, &mut trimming);
    trimming.goes
}
