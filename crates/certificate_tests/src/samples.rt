//! Texts that were written by hand, and what the tests compare of one that was read.
use certificate_text::{Unreadable, read, write};
use std::alloc::{AllocError, Global};

/// One revision put two keys.
pub(crate) const TWO_KEYS: &str = "dump 2\nfloor 0\nrevision 2\nput 2 0 :eA== 2 1 0 :MQ==\n\
put 2 1 :eQ== 2 1 0 :Mg==\nend\nneeds 2\nrange 2 0 2\nrange 2 1 2\nend\n";

/// A key was put four times, and another once; one of the needs is unmet.
pub(crate) const UNMET: &str = "dump 2\nfloor 0\nrevision 5\nput 2 0 :YQ== 2 1 0 :MQ==\n\
put 3 0 :Yg== 3 1 0 :MQ==\nput 4 0 :YQ== 2 2 0 :MQ==\nput 5 0 :YQ== 2 3 0 :MQ==\nend\n\
needs 2\nrange 2 0 2\nrange 3 0 3\nrange 4 0 5\nrange 5 0 5\nend\n";

/// The line at which a text is unreadable; 0 for one that is read.
pub(crate) fn stops_at(alloc: Global, text: &[u8]) -> Option<u64> {
    let found = read(alloc, text);
    let line = match &found {
        Ok(_) => Some(0),
        Err(Unreadable::Line(line)) => Some(*line),
        Err(Unreadable::Memory) => None,
    };
    drop(found);
    line
}

/// The text of what a text is read as.
fn written_again(alloc: Global, text: &[u8]) -> Result<Vec<u8>, AllocError> {
    let found = read(alloc, text);
    let written = match &found {
        Ok((dump, certificate)) => write(alloc, dump, certificate),
        Err(_) => Err(AllocError),
    };
    drop(found);
    written
}

/// Whether what a text is read as is written as `expected`.
pub(crate) fn is_written_as(alloc: Global, text: &[u8], expected: &[u8]) -> bool {
    match written_again(alloc, text) {
        Ok(written) => written.as_slice() == expected,
        Err(_) => false,
    }
}

/// Whether what a text is read as prints so.
pub(crate) fn prints(alloc: Global, text: &[u8], expected: &str) -> bool {
    let found = read(alloc, text);
    let is = match &found {
        Ok((dump, certificate)) => match format!(in alloc; "{dump:?} {certificate:?}") {
            Ok(text) => text.as_str() == expected,
            Err(_) => false,
        },
        Err(_) => false,
    };
    drop(found);
    is
}
