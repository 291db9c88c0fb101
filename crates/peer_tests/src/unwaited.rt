//! A reader and a writer that do not wait, of memory: when a reader is dry, what a writer takes in parts,
//! and how often a signal is passed over.
use http_peer::{Coming, Going, Unsent};
use std::alloc::Global;
use std::io;
use std::io::{ErrorKind, Read, Write};

/// Takes so many bytes, and then would wait.
#[derive(Drop)]
struct Narrow {
    got: Vec<u8>,
    good: usize,
}

impl Write for Narrow {
    fn write(&mut self, buf: &[u8]) -> io::Result<usize> {
        let most = buf.len().min(self.good);
        if most == 0 {
            return Err(io::Error::from(ErrorKind::WouldBlock));
        }
        self.got.extend_from_slice(&buf[..most])?;
        self.good -= most;
        Ok(most)
    }

    fn flush(&mut self) -> io::Result<()> {
        Ok(())
    }
}

/// Fails so often by a signal, and then finds nothing.
#[derive(Drop)]
struct Signals(u64);

impl Read for Signals {
    fn read(&mut self, _buf: &mut [u8]) -> io::Result<usize> {
        Err(io::Error::from(ErrorKind::WouldBlock))
    }
}

impl Write for Signals {
    fn write(&mut self, _buf: &[u8]) -> io::Result<usize> {
        if self.0 > 0 {
            self.0 -= 1;
            return Err(io::Error::from(ErrorKind::Interrupted));
        }
        Err(io::Error::from(ErrorKind::BrokenPipe))
    }

    fn flush(&mut self) -> io::Result<()> {
        Ok(())
    }
}

/// Whether two texts come out whole and in order, where a writer takes so many bytes at first and then
/// so many with each sending.
fn comes_out(alloc: Global, first: usize, more: usize) -> bool {
    let mut going = Going {
        inner: Narrow {
            got: Vec::new(alloc),
            good: first,
        },
        unsent: Unsent::new(alloc),
    };
    let one = matches!(going.write(b"abcdefgh"), Ok(8));
    if !(one && matches!(going.write(b"ijkl"), Ok(4))) {
        return false;
    }
    for _ in 0..20 {
        going.inner.good = more;
        match going.send() {
            Ok(all) => {
                if all != going.unsent.is_empty() {
                    return false;
                }
            }
            Err(_) => return false,
        }
    }
    going.unsent.is_empty() && going.inner.got.as_slice() == b"abcdefghijkl".as_slice()
}

/// How a write of a letter fails, behind so many signals.
fn fails_behind(alloc: Global, signals: u64) -> Option<ErrorKind> {
    let mut going = Going {
        inner: Signals(signals),
        unsent: Unsent::new(alloc),
    };
    match going.write(b"a") {
        Ok(_) => None,
        Err(error) => Some(error.kind()),
    }
}

/// What a read of so many bytes gives of five, and whether it is dry then; at 9, of a reader that finds nothing.
fn reads(room: usize) -> (usize, bool) {
    let mut buf = [0; 9];
    if room == 9 {
        let mut coming = Coming {
            inner: Signals(0),
            dry: false,
        };
        let count = coming.read(&mut buf).unwrap_or(99);
        return (count, coming.dry);
    }
    let mut coming = Coming {
        inner: b"abcde".as_slice(),
        dry: false,
    };
    let count = coming.read(&mut buf[..room.min(9)]).unwrap_or(99);
    (count, coming.dry)
}

#[test]
fn peers_in_memory(rt: HostRuntime) {
    let alloc = rt.alloc();
    for first in 0..13 {
        for more in 1..13 {
            assert!(rt; comes_out(alloc, first, more), "{first} {more}");
        }
    }
    assert_eq!(rt; fails_behind(alloc, 0), Some(ErrorKind::BrokenPipe));
    assert_eq!(rt; fails_behind(alloc, 63), Some(ErrorKind::BrokenPipe));
    assert_eq!(rt; fails_behind(alloc, 64), None);
    assert_eq!(rt; reads(4), (4, false));
    assert_eq!(rt; reads(5), (5, false));
    assert_eq!(rt; reads(6), (5, true));
    assert_eq!(rt; reads(0), (0, false));
    assert_eq!(rt; reads(9), (99, true));
}
