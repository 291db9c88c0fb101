//! What comes from a peer, and what goes to it.
ghost use Rattle.std.specs.Io.{ReadsAtMost};

use std::alloc::Global;
use std::io;
use std::io::{ErrorKind, Read, Write};

/// What comes behind the bytes of a peer.
#[derive(Clone, Copy, Debug, PartialEq, Eq)]
pub(crate) enum Then {
    /// The end.
    Ends,
    /// A read that fails, and so does each after it.
    Fails,
    /// One letter with each read, for ever.
    Letters,
}

/// Gives some bytes with the first read and others with the second, as far as there is room, and
/// then what comes behind them.
#[derive(Drop)]
pub(crate) struct Coming<'b> {
    pub(crate) first: &'b [u8],
    pub(crate) second: &'b [u8],
    pub(crate) then: Then,
}

impl<'b> Read for Coming<'b> {
    fn read(&mut self, buf: &mut [u8]) -> io::Result<usize> {
        if self.first.is_empty() {
            self.first = self.second;
            self.second = b"";
        }
        if !self.first.is_empty() {
            return self.first.read(buf);
        }
        match self.then {
            Then::Ends => Ok(0),
            Then::Fails => Err(io::Error::from(ErrorKind::ConnectionReset)),
            Then::Letters => letter(buf),
        }
    }
}

/// One letter, where there is room for it.
fn letter(buf: &mut [u8]) -> io::Result<usize>
    ensures { ReadsAtMost result buf.new }
{
    match buf.first_mut() {
        Some(room) => {
            *room = b'a';
            Ok(1)
        }
        None => Ok(0),
    }
}

/// Takes at most so many bytes a write, and so many in all. Then a write fails, or takes nothing,
/// and after that one each would take what comes.
#[derive(Drop)]
pub(crate) struct Going {
    pub(crate) got: Vec<u8>,
    most: usize,
    good: usize,
    fails: bool,
}

impl Write for Going {
    fn write(&mut self, buf: &[u8]) -> io::Result<usize> {
        let room = self.good.saturating_sub(self.got.len());
        let most = buf.len().min(self.most).min(room);
        if most == 0 {
            self.good = usize::MAX;
            return if self.fails {
                Err(io::Error::from(ErrorKind::BrokenPipe))
            } else {
                Ok(0)
            };
        }
        self.got.extend_from_slice(&buf[..most])?;
        Ok(most)
    }

    fn flush(&mut self) -> io::Result<()> {
        Ok(())
    }
}

/// Takes whatever comes.
pub(crate) fn willing(alloc: Global) -> Going {
    narrow(alloc, usize::MAX)
}

/// Takes at most so many bytes a write.
pub(crate) fn narrow(alloc: Global, most: usize) -> Going {
    Going {
        got: Vec::new(alloc),
        most,
        good: usize::MAX,
        fails: false,
    }
}

/// Takes so many bytes, and then a write fails, or takes nothing.
pub(crate) fn short(alloc: Global, good: usize, fails: bool) -> Going {
    Going {
        got: Vec::new(alloc),
        most: usize::MAX,
        good,
        fails,
    }
}
