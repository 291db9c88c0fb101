//! What was to go out on a connection and has not yet.
ghost use Rattle.std.specs.Prelude.{◌≡◌, ◌≢◌, ◌≤◌, ◌++◌, [], drop, length, true, false, nat_eq, nat_lt, Ok, Err, IsOkAnd, IfOk, IfErr, OnOk, OnErr};
ghost use Rattle.std.specs.IoError.{error_kind};
ghost use Rattle.http_peer.specs.Sent.{GoesOut};

use crate::socket::write_now;
use std::alloc::{AllocError, Global};
use std::io;
use std::io::{ErrorKind, Write};
use std::marker::Model;

/// Once all has gone out the room of a longer rest is given back, in bytes.
const MOST_KEPT: usize = 65_536;

/// A rest longer than this, in bytes, is kept in so much room that the C library asks the system for it
/// alone, and gives it back as soon as it is let go (glibc's greatest `M_MMAP_THRESHOLD` is 32 MiB): else
/// a rest that was let go stays with the program. Room that no byte stands in takes no memory.
const LONG: usize = 1_048_576;

/// That room, in bytes.
const LONG_ROOM: usize = 35_651_584;

/// How many writes are made at once.
const MOST_WRITES: u64 = 16;

/// Bytes that were to go out and have not yet, in order. Contracts see the list of them.
#[derive(Drop)]
pub struct Unsent {
    alloc: Global,
    /// The first `gone` of them have gone out.
    bytes: Vec<u8>,
    gone: usize,
}

impl Model for Unsent {
    ghost use Rattle.std.specs.Prelude.{ℕ, ◌≤◌, List, drop, length};

    ghost Value = { List ℕ };

    ghost view = { λ u. drop u.gone u.bytes.items };

    ghost invariant = { λ u. u.gone ≤ length u.bytes.items };
}

impl Unsent {
    /// All has gone out. Takes no memory.
    pub fn new(alloc: Global) -> Unsent
        ensures { result ≡ [] }
    {
        Unsent {
            alloc,
            bytes: Vec::new(alloc),
            gone: 0,
        }
    }

    /// Whether all has gone out.
    pub fn is_empty(&self) -> bool
        ensures { result ≡ nat_eq (length self.now) 0 }
    {
        self.gone >= self.bytes.len()
    }

    /// Adds bytes behind those that have not gone out. `AllocError` comes where no memory was found for
    /// them, and then nothing has changed.
    pub fn keep(&mut self, bytes: &[u8]) -> Result<(), AllocError>
        ensures ok { OnOk result (self.new ≡ self.old ++ bytes.now) }
        ensures err { OnErr result (self.new ≡ self.old) }
    {
        if self.bytes.is_empty()
            && bytes.len() > LONG
            && bytes.len() < LONG_ROOM
            && let Ok(room) = Vec::with_capacity(self.alloc, LONG_ROOM)
        {
            self.bytes = room;
        }
        self.bytes.extend_from_slice(bytes)
    }

    /// Has as much go out as a writer takes, in some 16 writes: true where that was all, and else there
    /// is a rest. A write that would wait takes nothing and is no failure. Fails where a write does; what
    /// went out before it has gone out.
    pub fn send<W: Write>(&mut self, w: &mut W) -> io::Result<bool>
        ensures out { GoesOut (W.contents w.old) (W.contents w.new) self.old self.new }
        ensures told { IfOk result (λ all. all ≡ nat_eq (length self.new) 0) }
        ensures done { self.old ≡ [] → IsOkAnd result (λ all. all ≡ true) × (w.new ≡ w.old) }
        ensures fault { IfErr result (λ e. error_kind e ≢ ErrorKind.WouldBlock) }
    {
        for _ in 0..MOST_WRITES {
            if self.is_empty() {
                break;
            }
            match self.send_once(w) {
                Ok(true) => {}
                Ok(false) => return Ok(false),
                Err(error) => return Err(error),
            }
        }
        let all = self.is_empty();
        if all {
            self.clear();
        }
        Ok(all)
    }

    /// One write, which no signal ends. Says whether any byte went out.
    fn send_once<W: Write>(&mut self, w: &mut W) -> io::Result<bool>
        ensures out { GoesOut (W.contents w.old) (W.contents w.new) self.old self.new }
        ensures any { IfOk result (λ any. any ≡ nat_lt (length self.new) (length self.old)) }
        ensures stays { IfOk result (λ any. any ≡ false → self.new ≡ self.old) }
        ensures fault { IfErr result (λ e. error_kind e ≢ ErrorKind.WouldBlock) }
    {
        let made = write_now(w, &self.bytes[self.gone..]);
        self.count(made)
    }

    /// Counts what a write took of what has not gone out. Says whether it was any byte.
    fn count(&mut self, made: io::Result<usize>) -> io::Result<bool>
        requires { IfOk made (λ n. n ≤ length self.old) }
        ensures ok { IfOk made (λ n. (self.new ≡ drop n self.old) × (result ≡ Ok (nat_lt 0 n))) }
        ensures err { IfErr made (λ e. (self.new ≡ self.old) × (result ≡ Err e)) }
    {
        match made {
            Ok(count) => {
                self.gone += count;
                Ok(count > 0)
            }
            Err(error) => Err(error),
        }
    }

    /// Lets go of what has gone out.
    fn clear(&mut self)
        ensures { self.new ≡ [] }
    {
        self.gone = 0;
        if self.bytes.capacity() > MOST_KEPT {
            self.bytes = Vec::new(self.alloc);
        } else {
            self.bytes.clear();
        }
    }
}
