//! The client at the other end of a connection, whose socket does not wait.
ghost use Rattle.std.specs.Prelude.{nat_eq, ◌≡◌, ◌≢◌, ◌++◌, ◌<◌, ◌≤◌, [], true, false, length, Err, IfOk, IfErr, IsErrAnd, IsOk, OnErr};
ghost use Rattle.std.specs.Io.{ReadsAtMost, WritesAtMost};
ghost use Rattle.std.specs.Io.KnownBytes.{Appends, Keeps, ReadConsumes, WriteAppends, append_known};
ghost use Rattle.std.specs.IoError.{error_kind};
ghost use Rattle.http_peer.specs.Reads.{IsDry};
ghost use Rattle.http_peer.specs.Sent.{GoesOut, KeepsRest, taken};

use crate::socket::write_now;
use crate::unsent::Unsent;
use std::alloc::AllocError;
use std::io;
use std::io::{ErrorKind, Read, Write};

/// What comes from the client of a connection, as far as it is there, by a reader that fails with
/// `WouldBlock` where nothing is.
///
/// A read that fails since nothing is there loses nothing, and `dry` tells it from one that failed. A
/// read that does not fill its room has taken all that was there, so `dry` spares the next one; where
/// more came meanwhile, or the client has ended, the reader tells so once it is asked for again.
#[derive(Drop)]
pub struct Coming<R> {
    /// Its reader.
    pub inner: R,
    /// Whether nothing more is there, as far as it is known.
    pub dry: bool,
}

impl<R: Read> Read for Coming<R> {
    ghost remaining = { λ c. R.remaining c.inner };

    fn read(&mut self, buf: &mut [u8]) -> io::Result<usize>
        ensures bound { ReadsAtMost result buf.new }
        ensures bytes { ReadConsumes (R.remaining self.old.inner) (R.remaining self.new.inner) result buf.new }
        ensures spared { self.old.dry ≡ true → (self.new.inner ≡ self.old.inner)
            × (self.new.dry ≡ true) × (buf.new ≡ buf.old)
            × IsErrAnd result (λ e. error_kind e ≡ ErrorKind.WouldBlock) }
        ensures dry { self.old.dry ≡ false
            → IsDry (λ e. error_kind e ≡ ErrorKind.WouldBlock) result (length buf.new) self.new.dry }
    {
        if self.dry {
            return Err(io::Error::from(ErrorKind::WouldBlock));
        }
        let came = self.inner.read(buf);
        self.dry = match &came {
            Ok(count) => *count > 0 && *count < buf.len(),
            Err(error) => error.kind() == ErrorKind::WouldBlock,
        };
        came
    }
}

/// What goes to the client of a connection, by a writer that fails with `WouldBlock` where it takes
/// nothing: what it does not take at once is kept, behind what was kept before, until [`Unsent::send`]
/// has it go out. So a write takes all, or it fails; where no memory is found for the rest of one of
/// which some went out, it takes those.
#[derive(Drop)]
pub struct Going<W> {
    /// Its writer.
    pub inner: W,
    /// What has not gone out.
    pub unsent: Unsent,
}

impl<W: Write> Going<W> {
    /// Has as much go out as its writer takes, as [`Unsent::send`] does: true where that was all. What has
    /// gone out with what is kept is what it was.
    pub fn send(&mut self) -> io::Result<bool>
        ensures same { Appends (append_known (W.contents self.old.inner) self.old.unsent)
            (append_known (W.contents self.new.inner) self.new.unsent) [] }
        ensures told { IfOk result (λ all. all ≡ nat_eq (length self.new.unsent) 0) }
    {
        self.unsent.send(&mut self.inner)
    }
}

impl<W: Write> Write for Going<W> {
    ghost contents = { λ g. append_known (W.contents g.inner) g.unsent };

    fn write(&mut self, buf: &[u8]) -> io::Result<usize>
        ensures bound { WritesAtMost result buf.now }
        ensures bytes { WriteAppends (append_known (W.contents self.old.inner) self.old.unsent)
            (append_known (W.contents self.new.inner) self.new.unsent) result buf.now }
        ensures goes { GoesOut (W.contents self.old.inner) (W.contents self.new.inner)
            (self.old.unsent ++ taken result buf.now) self.new.unsent }
        ensures behind { self.old.unsent ≢ [] → (self.new.inner ≡ self.old.inner)
            × (self.new.unsent ≡ self.old.unsent ++ taken result buf.now)
            × IfErr result (λ e. error_kind e ≡ ErrorKind.OutOfMemory) }
        ensures all { IfOk result (λ n. n < length buf.now → (0 < n) × (self.new.unsent ≡ [])) }
        ensures kept { OnErr result (self.new.unsent ≡ self.old.unsent) }
        ensures fault { IfErr result (λ e. error_kind e ≢ ErrorKind.WouldBlock) }
    {
        if !self.unsent.is_empty() {
            return keep_rest(&mut self.unsent, buf, Ok(0));
        }
        let made = write_now(&mut self.inner, buf);
        keep_rest(&mut self.unsent, buf, made)
    }

    /// Does nothing: what is kept waits for [`Unsent::send`].
    fn flush(&mut self) -> io::Result<()>
        ensures bytes { Keeps (append_known (W.contents self.old.inner) self.old.unsent)
            (append_known (W.contents self.new.inner) self.new.unsent) }
        ensures ok { IsOk result }
        ensures kept { (self.new.inner ≡ self.old.inner)
            × (self.new.unsent ≡ self.old.unsent) }
    {
        Ok(())
    }
}

/// Keeps what a write of some bytes did not take. Gives how many of them it took or are kept: all, or,
/// where no memory is found for the rest, those that it took. Fails with `OutOfMemory` where that is
/// none, and as the write did.
fn keep_rest(unsent: &mut Unsent, bytes: &[u8], made: io::Result<usize>) -> io::Result<usize>
    requires { WritesAtMost made bytes.now }
    ensures ok { IfOk made (λ gone. IfOk result (λ n. KeepsRest n gone bytes.now unsent.old unsent.new)) }
    ensures err { IfOk made (λ gone. OnErr result ((gone ≡ 0) × (unsent.new ≡ unsent.old))) }
    ensures memory { IfOk made (λ gone. IfErr result (λ e. error_kind e ≡ ErrorKind.OutOfMemory)) }
    ensures fault { IfErr made (λ e. (result ≡ Err e) × (unsent.new ≡ unsent.old)) }
{
    let gone = match made {
        Ok(gone) => gone,
        Err(error) => return Err(error),
    };
    if gone == bytes.len() {
        return Ok(gone);
    }
    match unsent.keep(&bytes[gone..]) {
        Ok(()) => Ok(bytes.len()),
        Err(AllocError) if gone > 0 => Ok(gone),
        Err(AllocError) => Err(io::Error::from(ErrorKind::OutOfMemory)),
    }
}
