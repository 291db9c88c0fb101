//! A reader or a writer that counts.
ghost use Rattle.std.specs.Prelude.{◌≡◌, if◌then◌else◌, is_ok};
ghost use Rattle.std.specs.Io.{ReadsAtMost, WritesAtMost};
ghost use Rattle.std.specs.Io.KnownBytes.{Keeps, ReadConsumes, WriteAppends};
ghost use Rattle.http_reply.specs.Counts.{failures_of, inner_of, reads_of};
ghost use Rattle.http_reply.specs.Counts.{one_more, takes_some};

use std::io;
use std::io::{Read, Write};

/// Passes each call on to a reader or a writer, and counts the reads, those that fail too, and the
/// failures: a call that fails, and a write that takes nothing.
///
/// Both counts stop at 2^64 - 1. So a count that has risen tells that a read was made, or that a
/// call failed, as long as it stands below that.
#[derive(Debug, Drop)]
pub struct Counted<T> {
    inner: T,
    reads: u64,
    failures: u64,
}

impl<T> Counted<T> {
    /// Nothing is counted yet.
    pub fn new(inner: T) -> Counted<T>
        ensures inner { inner_of result ≡ inner }
        ensures reads { reads_of result ≡ 0 }
        ensures failures { failures_of result ≡ 0 }
    {
        Counted {
            inner,
            reads: 0,
            failures: 0,
        }
    }

    /// How many reads were made.
    pub fn reads(&self) -> u64
        ensures { result ≡ reads_of self.now }
    {
        self.reads
    }

    /// How many calls failed, and how many writes took nothing.
    pub fn failures(&self) -> u64
        ensures { result ≡ failures_of self.now }
    {
        self.failures
    }

    /// The reader or writer, lent.
    pub fn get_ref(&self) -> &T
        ensures { result.now ≡ inner_of self.now }
    {
        &self.inner
    }

    /// The reader or writer, as its calls have left it.
    pub fn into_inner(self) -> T
        ensures { result ≡ inner_of self }
    {
        let Counted { inner, .. } = self;
        inner
    }
}

impl<R: Read> Read for Counted<R> {
    ghost remaining = { λ c. R.remaining (inner_of c) };

    fn read(&mut self, buf: &mut [u8]) -> io::Result<usize>
        ensures bound { ReadsAtMost result buf.new }
        ensures bytes { ReadConsumes (R.remaining (inner_of self.old)) (R.remaining (inner_of self.new))
            result buf.new }
        ensures reads { reads_of self.new ≡ one_more (reads_of self.old) }
        ensures failures { failures_of self.new ≡ (if is_ok result then failures_of self.old else one_more (failures_of self.old)) }
    {
        self.reads = self.reads.saturating_add(1);
        let taken = self.inner.read(buf);
        if taken.is_err() {
            self.failures = self.failures.saturating_add(1);
        }
        taken
    }
}

impl<W: Write> Write for Counted<W> {
    ghost contents = { λ c. W.contents (inner_of c) };

    fn write(&mut self, buf: &[u8]) -> io::Result<usize>
        ensures bound { WritesAtMost result buf.now }
        ensures bytes { WriteAppends (W.contents (inner_of self.old)) (W.contents (inner_of self.new))
            result buf.now }
        ensures reads { reads_of self.new ≡ reads_of self.old }
        ensures failures { failures_of self.new ≡ (if takes_some result then failures_of self.old else one_more (failures_of self.old)) }
    {
        let taken = self.inner.write(buf);
        if !matches!(taken, Ok(1..)) {
            self.failures = self.failures.saturating_add(1);
        }
        taken
    }

    fn flush(&mut self) -> io::Result<()>
        ensures bytes { Keeps (W.contents (inner_of self.old)) (W.contents (inner_of self.new)) }
        ensures reads { reads_of self.new ≡ reads_of self.old }
        ensures failures { failures_of self.new ≡ (if is_ok result then failures_of self.old else one_more (failures_of self.old)) }
    {
        let flushed = self.inner.flush();
        if flushed.is_err() {
            self.failures = self.failures.saturating_add(1);
        }
        flushed
    }
}
