//! A socket whose reads and writes never wait for long.
ghost use Rattle.std.specs.Prelude.{◌≡◌, ◌≢◌, ◌<◌, ◌++◌, ◌↔◌, List, ℕ, length, nat_eq, true, None, Ok, IfOk, IfErr, IsErrAnd, IsOk};
ghost use Rattle.std.specs.Io.{ReadsAtMost, WritesAtMost};
ghost use Rattle.std.specs.Io.KnownBytes.{Keeps, ReadConsumes, WriteAppends};
ghost use Rattle.std.specs.IoError.{error_kind};
ghost use Rattle.http_peer.specs.Sent.{Settles};

use crate::unsent::Unsent;
use std::io;
use std::io::{ErrorKind, Read, Write};
use std::net::TcpStream;
use std::time::Duration;

/// After so many signals in a row a read or a write counts as one that would wait.
const MOST_SIGNALS: u64 = 64;

/// How long a read or a write of a socket waits at most, in milliseconds: as short as the system can.
const WAIT: u64 = 1;

/// The most bytes of a write that may wait so long, once: a socket whose client takes what it is sent
/// takes them at once.
const MOST_WAITING: usize = 16_384;

/// Has a connection's socket wait for some milliseconds at most, and hold nothing back. Fails where the
/// system refuses the first.
pub fn open_peer(stream: &TcpStream) -> io::Result<()> {
    // Without it a reply may wait for the peer to take note of the one before.
    let _ = stream.set_nodelay(true);
    stream.set_read_timeout(Some(Duration::from_millis(WAIT)))?;
    stream.set_write_timeout(Some(Duration::from_millis(WAIT)))
}

/// The socket of a connection that was opened by `open_peer`. A read that finds nothing, and a write of
/// which the socket takes nothing, wait for some milliseconds at most and fail with `WouldBlock`. No
/// signal ends one. What comes and goes no clause says: the system has it.
#[derive(Drop)]
pub struct Socket<'p> {
    stream: &'p TcpStream,
}

impl<'p> Socket<'p> {
    /// A connection's socket, lent.
    pub fn new(stream: &'p TcpStream) -> Socket<'p> {
        Socket { stream }
    }

    /// Has as much go out as the socket takes, in some 16 writes, none of which waits: true where that
    /// was all. Fails where a write does.
    pub fn send(&self, unsent: &mut Unsent) -> io::Result<bool>
        ensures out { (out : List ℕ) × (unsent.old ≡ out ++ unsent.new) }
        ensures told { IfOk result (λ all. all ≡ nat_eq (length unsent.new) 0) }
    {
        self.stream.set_nonblocking(true)?;
        let mut stream = self.stream;
        let all = unsent.send(&mut stream);
        self.stream.set_nonblocking(false)?;
        all
    }
}

impl<'p> Read for Socket<'p> {
    fn read(&mut self, buf: &mut [u8]) -> io::Result<usize>
        ensures bound { ReadsAtMost result buf.new }
        ensures bytes { ReadConsumes None None result buf.new }
        ensures fault { IfErr result (λ e. error_kind e ≢ ErrorKind.Interrupted) }
    {
        read_once(&mut self.stream, buf)
    }
}

impl<'p> Write for Socket<'p> {
    fn write(&mut self, buf: &[u8]) -> io::Result<usize>
        ensures bound { WritesAtMost result buf.now }
        ensures bytes { WriteAppends None None result buf.now }
        ensures some { IfOk result (λ count. 0 < count) }
    {
        if buf.len() <= MOST_WAITING {
            return write_once(&mut self.stream, buf);
        }
        self.stream.set_nonblocking(true)?;
        let gone = write_once(&mut self.stream, buf);
        // What went out has gone out, also where the system does not switch it back.
        let _ = self.stream.set_nonblocking(false);
        gone
    }

    /// Does nothing: what a write took has gone out.
    fn flush(&mut self) -> io::Result<()>
        ensures bytes { Keeps None None }
        ensures ok { IsOk result }
    {
        Ok(())
    }
}

/// One read, which no signal ends: after some 64 in a row it fails with `WouldBlock`.
fn read_once<R: Read>(r: &mut R, buf: &mut [u8]) -> io::Result<usize>
    ensures bound { ReadsAtMost result buf.new }
    ensures bytes { ReadConsumes (R.remaining r.old) (R.remaining r.new) result buf.new }
    ensures fault { IfErr result (λ e. error_kind e ≢ ErrorKind.Interrupted) }
{
    let mut came = r.read(buf);
    for _ in 1..MOST_SIGNALS {
        if !was_ended(&came) {
            break;
        }
        came = r.read(buf);
    }
    unless_ended(came)
}

/// One write, which no signal ends: after some 64 in a row it fails with `WouldBlock`. One that takes
/// nothing fails with `WriteZero`.
fn write_once<W: Write>(w: &mut W, buf: &[u8]) -> io::Result<usize>
    ensures bound { WritesAtMost result buf.now }
    ensures bytes { WriteAppends (W.contents w.old) (W.contents w.new) result buf.now }
    ensures some { IfOk result (λ count. 0 < count) }
    ensures fault { IfErr result (λ e. error_kind e ≢ ErrorKind.Interrupted) }
{
    let mut gone = w.write(buf);
    for _ in 1..MOST_SIGNALS {
        if !was_ended(&gone) {
            break;
        }
        gone = w.write(buf);
    }
    match unless_ended(gone) {
        Ok(0) => Err(io::Error::from(ErrorKind::WriteZero)),
        gone => gone,
    }
}

/// Whether a signal ended a call, so that it is made again.
fn was_ended(made: &io::Result<usize>) -> bool
    ensures { (result ≡ true) ↔ IsErrAnd made.now (λ e. error_kind e ≡ ErrorKind.Interrupted) }
{
    match made {
        Ok(_) => false,
        Err(error) => error.kind() == ErrorKind::Interrupted,
    }
}

/// What a call came to, where one that a signal ended counts as one that would wait.
fn unless_ended(made: io::Result<usize>) -> io::Result<usize>
    ensures { Settles (λ e. error_kind e ≡ ErrorKind.Interrupted)
        (λ settled. IsErrAnd settled (λ e. error_kind e ≡ ErrorKind.WouldBlock)) made result }
{
    if was_ended(&made) {
        return Err(io::Error::from(ErrorKind::WouldBlock));
    }
    made
}

/// One write, as `write_once` makes it. One that would wait counts as one that takes nothing.
pub(crate) fn write_now<W: Write>(w: &mut W, buf: &[u8]) -> io::Result<usize>
    ensures bound { WritesAtMost result buf.now }
    ensures bytes { WriteAppends (W.contents w.old) (W.contents w.new) result buf.now }
    ensures fault { IfErr result (λ e. error_kind e ≢ ErrorKind.WouldBlock) }
{
    unless_waiting(write_once(w, buf))
}

/// What a write came to, where one that would wait counts as one that takes nothing.
fn unless_waiting(made: io::Result<usize>) -> io::Result<usize>
    ensures { Settles (λ e. error_kind e ≡ ErrorKind.WouldBlock) (λ settled. settled ≡ Ok 0) made result }
{
    match made {
        Err(error) if error.kind() == ErrorKind::WouldBlock => Ok(0),
        made => made,
    }
}
