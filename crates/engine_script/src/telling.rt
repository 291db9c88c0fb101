//! The lines that are written. Each begins with the client's share.
use json_gateway::Settled;
use kv_model::version::Rev;
use std::io::Write;
use std::{io, str};

/// A line of some words.
pub fn tell<W: Write>(w: &mut W, share: u64, words: &str) -> io::Result<()> {
    writeln!(w, "{share} {words}")
}

/// A line of a word and a number.
pub fn tell_number<W: Write>(w: &mut W, share: u64, word: &str, number: u64) -> io::Result<()> {
    writeln!(w, "{share} {word} {number}")
}

/// A line of a word and a version's revision.
pub fn tell_rev<W: Write>(w: &mut W, share: u64, word: &str, rev: Rev) -> io::Result<()> {
    writeln!(w, "{share} {word} {}.{}", rev.main, rev.sub)
}

/// The line of a lease that ended, and of the revision after that.
pub fn tell_expired<W: Write>(w: &mut W, share: u64, id: i64, revision: u64) -> io::Result<()> {
    writeln!(w, "{share} expired {id} revision {revision}")
}

/// The line of a request that was not submitted.
pub fn tell_reply<W: Write>(
    w: &mut W,
    share: u64,
    word: &str,
    settled: &Settled,
) -> io::Result<()> {
    let (status, body) = settled.wire();
    writeln!(w, "{share} {word} {status} {}", shown(body))
}

/// The line of a request that was submitted, with the revision after it.
pub fn tell_submitted<W: Write>(
    w: &mut W,
    share: u64,
    published: bool,
    revision: u64,
    settled: &Settled,
) -> io::Result<()> {
    let word = if published { "published" } else { "waiting" };
    let (status, body) = settled.wire();
    writeln!(w, "{share} {word} {revision} {status} {}", shown(body))
}

/// The bytes of a JSON text.
pub fn shown(bytes: &[u8]) -> &str {
    str::from_utf8(bytes).unwrap_or("not UTF-8")
}
