//! The way in of connections.
ghost use Rattle.std.specs.Prelude.{◌≡◌, ◌+◌, ◌-◌, ◌^◌, ◌≤◌, min, nat_le, OnErr, IfOk, MatchOption};

use std::io;
use std::net::{TcpListener, TcpStream};

/// The most connections of a server.
pub const MOST_CONNECTIONS: u64 = 9_223_372_036_854_775_807;

/// The way in. Behind a lock it lets in one connection at a time.
#[derive(Drop)]
pub struct Door {
    /// How many connections came in so far.
    pub taken: u64,
    /// How many may.
    pub limit: u64,
    ghost within: { taken ≤ limit },
}

impl Door {
    /// No connection came in. A limit above 2^63 - 1 counts as that.
    pub fn new(limit: u64) -> Door
        ensures taken { result.taken ≡ 0 }
        ensures limit { result.limit ≡ min limit (2 ^ 63 - 1) }
    {
        Door {
            taken: 0,
            limit: limit.min(MOST_CONNECTIONS),
        }
    }

    /// Lets no further connection in.
    pub fn shut(&mut self)
        ensures taken { self.new.taken ≡ self.old.taken }
        ensures limit { self.new.limit ≡ self.old.taken }
    {
        self.limit = self.taken;
    }

    /// Whether no further connection is let in.
    pub fn is_shut(&self) -> bool
        ensures { result ≡ nat_le self.now.limit self.now.taken }
    {
        self.taken >= self.limit
    }

    /// The next connection and its number, from 1 on in the order in which they came in; `None`
    /// where the limit is reached. Fails where the accept does, also where no connection waits at a
    /// listener that does not wait, and then nothing is counted.
    pub fn next(&mut self, listener: &TcpListener) -> io::Result<Option<(u64, TcpStream)>>
        ensures failed { OnErr result ((self.new.taken ≡ self.old.taken)
            × (self.new.limit ≡ self.old.limit)) }
        ensures counted { IfOk result (λ next. MatchOption next
            ((self.new ≡ self.old) × (self.old.taken ≡ self.old.limit))
            (λ came. (self.new.taken ≡ self.old.taken + 1) × (came.0 ≡ self.new.taken)
            × (self.new.limit ≡ self.old.limit))) }
    {
        if self.is_shut() {
            return Ok(None);
        }
        let (stream, _) = listener.accept()?;
        self.taken += 1;
        Ok(Some((self.taken, stream)))
    }
}
