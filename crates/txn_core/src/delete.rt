//! What a delete writes at one key.
ghost use Rattle.std.specs.Prelude.{◌≡◌, IfOk};
ghost use Rattle.txn_core.specs.KeyWrites as writes;

use bytes::Bytes;
use kv_model::version::{Body, Rev, Version};
use std::alloc::{AllocError, Global};

/// The tombstone of a key at a place. The key is copied, in time linear in its length. The error is
/// want of memory.
pub fn tombstone(alloc: Global, rev: Rev, key: &[u8]) -> Result<Version, AllocError>
    ensures { IfOk result (λ v. v ≡ writes.tombstone rev.main rev.sub key.now) }
{
    Ok(Version {
        rev,
        key: Bytes::copy_from_slice(alloc, key)?,
        body: Body::Gone,
    })
}
