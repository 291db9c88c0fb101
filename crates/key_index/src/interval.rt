//! The keys of a walk, listed.
ghost use Rattle.std.specs.Prelude.{◌≡◌, map, IfOk, MatchOption, Some, ⊤};
ghost use Rattle.key_pages.specs.Pairs.{IsAscending, below_key};
ghost use Rattle.key_index.specs.Index.{first_same, nth_of};
ghost use Rattle.key_index.specs.Lent.{entry_of};

use crate::index::Indexed;
use crate::revisions::Revisions;
use bytes::Bytes;
use key_pages::{Walk, order};
use std::alloc::{AllocError, Global};

/// All keys of a walk. The error is want of memory.
pub(crate) fn all<'a>(
    alloc: Global,
    walk: Walk<'a, Revisions>,
) -> Result<Vec<Indexed<'a>>, AllocError>
    ensures { IfOk result (λ v. map entry_of v.items ≡ walk.entry) }
{
    let mut keys = Vec::new(alloc);
    let mut walk = walk;
    'listing: while let Some((key, revisions)) = walk.next() {
        keys.push(Indexed { key, revisions })?;
    }
    Ok(keys)
}

/// The keys of a walk that are below another key. The error is want of memory.
pub(crate) fn all_below<'a>(
    alloc: Global,
    walk: Walk<'a, Revisions>,
    end: &Bytes,
) -> Result<Vec<Indexed<'a>>, AllocError>
    ensures { IfOk result (λ v. map entry_of v.items ≡ below_key end.now walk.entry) }
{
    let mut keys = Vec::new(alloc);
    let mut walk = walk;
    'listing: while let Some((key, revisions)) = walk.next_below(end) {
        keys.push(Indexed { key, revisions })?;
    }
    Ok(keys)
}

/// The first key of a walk where it is another. The error is want of memory.
pub(crate) fn first<'a>(
    alloc: Global,
    walk: Walk<'a, Revisions>,
    one: &Bytes,
) -> Result<Vec<Indexed<'a>>, AllocError>
    ensures { IfOk result (λ v. map entry_of v.items ≡ first_same one.now walk.entry) }
{
    let mut keys = Vec::new(alloc);
    let mut walk = walk;
    if let Some((key, revisions)) = walk.next() {
        if order(one.as_slice(), key.as_slice()).is_eq() {
            keys.push(Indexed { key, revisions })?;
        }
    }
    Ok(keys)
}

/// The key of a walk before which so many stand, where there is one.
pub(crate) fn nth<'a>(walk: Walk<'a, Revisions>, count: usize) -> Option<&'a Bytes>
    ensures { MatchOption result ⊤ (λ k. nth_of count walk.entry ≡ Some k.now) }
{
    let mut walk = walk;
    let mut left = count;
    'passing: while left > 0 {
        let _ = walk.next()?;
        left -= 1;
    }
    match walk.next() {
        Some((key, _)) => Some(key),
        None => None,
    }
}
