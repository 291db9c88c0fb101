//! What several tests are made on.
ghost use Rattle.std.specs.Prelude.{◌≡◌};

use bytes::Bytes;
use kv_model::version::{Body, Rev, Version};

pub(crate) fn tombstone(main: u64, sub: u64, key: &'static [u8]) -> Version
    ensures { result.rev ≡ record { main = main; sub = sub } }
{
    Version {
        rev: Rev { main, sub },
        key: Bytes::from_static(key),
        body: Body::Gone,
    }
}

pub(crate) fn pair(rev: Option<Rev>) -> Option<(u64, u64)> {
    match rev {
        Some(rev) => Some((rev.main, rev.sub)),
        None => None,
    }
}
