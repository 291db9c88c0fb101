//! A reader that counts its reads.
ghost use Rattle.std.specs.Prelude.{◌≡◌, ◌+◌, ◌-◌, ◌^◌, min};
ghost use Rattle.std.specs.Io.{ReadsAtMost};
ghost use Rattle.std.specs.Io.KnownBytes.{ReadConsumes};

use std::io;
use std::io::Read;

/// Passes reads on to a reader, and counts them, those that fail too.
#[derive(Drop)]
pub struct Counted<R> {
    reader: R,
    reads: u64,
}

impl<R: Read> Counted<R> {
    /// No read is counted yet.
    pub fn new(reader: R) -> Counted<R>
        ensures reader { result.reader ≡ reader }
        ensures reads { result.reads ≡ 0 }
    {
        Counted { reader, reads: 0 }
    }

    /// How many reads were made. The count stops at 2^64 - 1.
    pub fn reads(&self) -> u64
        ensures { result ≡ self.now.reads }
    {
        self.reads
    }

    /// Makes one read of the reader.
    pub fn read(&mut self, buf: &mut [u8]) -> io::Result<usize>
        ensures bound { ReadsAtMost result buf.new }
        ensures bytes { ReadConsumes (R.remaining self.old.reader) (R.remaining self.new.reader)
            result buf.new }
        ensures counted { self.new.reads ≡ min (self.old.reads + 1) (2 ^ 64 - 1) }
    {
        self.reads = self.reads.saturating_add(1);
        self.reader.read(buf)
    }
}
