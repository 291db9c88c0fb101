//! The key-values of the live keys of a range, copied from the list of all.
ghost use Rattle.std.specs.Prelude.{◌≡◌, IfOk, map};
ghost use Rattle.kv_model.specs.Ranges.{live};
ghost use Rattle.range_view.specs.Replies.{kv_view};
ghost use Rattle.range_view.specs.Stored.{Viewed};
ghost use Rattle.live_keys.specs.Listing as listing;
ghost use Rattle.live_keys.specs.Parts as parts;

use crate::listed::Listed;
use crate::part::{Part, part_of};
use kv_model::version::KeyRange;
use range_view::reply::KvRef;
use std::alloc::{AllocError, Global};

/// The key-values of the live keys of a range, by the list. The error is want of memory.
pub(crate) fn live_in<'a>(
    alloc: Global,
    listed: &Listed<'a>,
    range: &KeyRange,
) -> Result<Vec<KvRef<'a>>, AllocError>
    ensures { (v : Viewed) → listing.IsListed v listed.now → IfOk result (λ kvs.
        map kv_view kvs.items ≡ live v.versions v.place range.now) }
{
    let part = part_of(&listed.kvs, range);
    part_copied(alloc, &listed.kvs, part)
}

/// A part of a list. The error is want of memory.
fn part_copied<'a>(
    alloc: Global,
    kvs: &[KvRef<'a>],
    part: Part,
) -> Result<Vec<KvRef<'a>>, AllocError>
    requires { parts.IsWithin part kvs.now }
    ensures { IfOk result (λ v. v.items ≡ parts.of_part part kvs.now) }
{
    copied(alloc, &kvs[part.from..part.to])
}

/// A list once more. The error is want of memory.
fn copied<'a>(alloc: Global, kvs: &[KvRef<'a>]) -> Result<Vec<KvRef<'a>>, AllocError>
    ensures { IfOk result (λ v. v.items ≡ kvs.now) }
{
    let mut copy = Vec::with_capacity(alloc, kvs.len())?;
    for kv in kvs {
        copy.push(*kv)?;
    }
    Ok(copy)
}
