//! What the tests compare of a request that was read. None has a clause, so that a test carries
//! none of those of `read`.
use gateway_read::bad::Bad;
use gateway_read::read;
use kv_model::call::Command;
use std::alloc::{AllocError, Global};

pub(crate) const RANGE: &str = "/v3/kv/range";

pub(crate) fn command(alloc: Global, path: &str, body: &str) -> Result<Command, Bad> {
    read(alloc, path.as_bytes(), body.as_bytes())
}

/// Whether a text was made, and is the one that is expected.
pub(crate) fn is_text(text: Result<String, AllocError>, expected: &str) -> bool {
    match text {
        Ok(text) => text.as_str() == expected,
        Err(_) => false,
    }
}
