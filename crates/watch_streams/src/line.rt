//! The stream of a watch between two waits.
ghost use Rattle.std.specs.Prelude.{◌≡◌, ◌++◌, not, true, IfOk, OnOk, OnErr};
ghost use Rattle.http_reply.specs.Replies.{chunk, last_chunk};
ghost use Rattle.watch_streams.specs.Lines.{Sends, aged, begun_at, closed, is_out, is_stale, with_unsent};

use http_reply::{Counted, put_chunk};
use std::alloc::{AllocError, Global};
use std::io;
use std::io::{ErrorKind, Write};
use std::marker::Model;

/// A line that is out gives the room of a longer rest back, in bytes.
const MOST_KEPT: usize = 65_536;

/// The room that a line has at least, in bytes: its last chunk wants no memory where all else is out.
const LEAST_ROOM: usize = 64;

/// The last chunk of a stream (RFC 9112, section 7.1).
const LAST_CHUNK: &[u8] = b"0\r\n\r\n";

/// The stream of a watch between two waits: the number of the watch, that of its connection, whoever
/// writes it, what has not gone out yet, and whether the stream has ended.
///
/// Contracts see the bytes that the writer is known to hold, how often it failed, the bytes that have
/// not gone out, and how often the line was looked at since its writer took a byte.
#[derive(Drop)]
pub struct Line<W: Write> {
    number: u64,
    call: u64,
    w: Counted<W>,
    /// What was to go out at last; the first `sent` bytes of it have.
    rest: Vec<u8>,
    sent: usize,
    ended: bool,
    /// How often it was looked at since its writer took a byte.
    looks: u32,
}

impl<W: Write> Model for Line<W> {
    ghost use Rattle.std.specs.Prelude.{◌≤◌, drop, length};
    ghost use Rattle.http_reply.specs.Counts.{failures_of, inner_of};
    ghost use Rattle.watch_streams.specs.Lines.{LineState};

    ghost Value = { LineState };

    ghost view = { λ l. record {
      number = l.number;
      call = l.call;
      wrote = W.contents (inner_of l.w);
      failures = failures_of l.w;
      unsent = drop l.sent l.rest.items;
      ended = l.ended;
      looks = l.looks;
    } };

    ghost invariant = { λ l. l.sent ≤ length l.rest.items };
}

impl<W: Write> Line<W> {
    /// A stream of which all that was to go out has. Fails for want of memory for the least room.
    pub fn new(alloc: Global, number: u64, call: u64, w: W) -> Result<Self, AllocError>
    where
        W: Drop,
        ensures { IfOk result (λ l. l ≡ begun_at number call (W.contents w)) }
    {
        let rest = Vec::with_capacity(alloc, LEAST_ROOM)?;
        Ok(Line {
            number,
            call,
            w: Counted::new(w),
            rest,
            sent: 0,
            ended: false,
            looks: 0,
        })
    }

    /// The number of its watch.
    pub fn number(&self) -> u64
        ensures { result ≡ self.now.number }
    {
        self.number
    }

    /// The number of its connection.
    pub fn call(&self) -> u64
        ensures { result ≡ self.now.call }
    {
        self.call
    }

    /// Whoever writes it, lent.
    pub fn writer(&self) -> &W
        ensures { W.contents result.now ≡ self.now.wrote }
    {
        self.w.get_ref()
    }

    /// Whether all has gone out. Takes no memory.
    pub fn is_out(&self) -> bool
        ensures { result ≡ is_out self.now }
    {
        self.rest[self.sent..].is_empty()
    }

    /// Whether the stream has ended: its last chunk is out, or has not gone out yet.
    pub fn has_ended(&self) -> bool
        ensures { result ≡ self.now.ended }
    {
        self.ended
    }

    /// A message is to go out, as one chunk, where all before it has. `AllocError` comes where no
    /// memory was found for it, and then nothing has changed. Copies the message once.
    pub fn put(&mut self, message: &[u8]) -> Result<(), AllocError>
        requires { is_out self.old ≡ true }
        ensures ok { OnOk result (self.new ≡ with_unsent (chunk message.now) self.old) }
        ensures err { OnErr result (self.new ≡ self.old) }
    {
        self.sent = 0;
        if let Err(full) = put_chunk(&mut self.rest, message) {
            self.rest.clear();
            return Err(full);
        }
        Ok(())
    }

    /// The stream ends: its last chunk is to go out, behind what has not. `AllocError` comes where no
    /// memory was found for it, as it may where something has not gone out, and then nothing has changed.
    pub fn end(&mut self) -> Result<(), AllocError>
        ensures ok { OnOk result (self.new
            ≡ record self.old { unsent = self.old.unsent ++ last_chunk; ended = true }) }
        ensures err { OnErr result (self.new ≡ self.old) }
    {
        self.clear();
        self.rest.extend_from_slice(LAST_CHUNK)?;
        self.ended = true;
        Ok(())
    }

    /// The stream ends, if it has not: its last chunk is to go out, behind what has not. `AllocError`
    /// comes where no memory was found for it, and then nothing has changed.
    pub fn close(&mut self) -> Result<(), AllocError>
        ensures ok { OnOk result (self.new ≡ closed self.old) }
        ensures err { OnErr result (self.new ≡ self.old) }
    {
        if self.has_ended() {
            return Ok(());
        }
        self.end()
    }

    /// Makes one write of what has not gone out, and gives how many bytes were taken. Where it fails,
    /// or takes none, nothing has changed, and the error says whether it may be made again: the writer
    /// takes nothing now, or a signal came.
    pub fn send(&mut self, alloc: Global) -> Result<usize, bool>
        ensures { Sends self.old self.new result }
    {
        match self.w.write(&self.rest[self.sent..]) {
            Ok(taken) if taken > 0 => {
                self.sent += taken;
                self.looks = 0;
                self.let_go(alloc);
                Ok(taken)
            }
            Ok(_) => Err(false),
            Err(error) => Err(may_be_made_again(&error)),
        }
    }

    /// Where all has gone out, its place is free again.
    fn clear(&mut self)
        ensures { self.new ≡ self.old }
    {
        if self.sent == self.rest.len() {
            self.rest.clear();
            self.sent = 0;
        }
    }

    /// Gives the room of a long rest back that has gone out, where there is memory for a short one.
    fn let_go(&mut self, alloc: Global)
        ensures { self.new ≡ self.old }
    {
        if self.sent == self.rest.len() && self.rest.capacity() > MOST_KEPT {
            if let Ok(rest) = Vec::with_capacity(alloc, LEAST_ROOM) {
                self.rest = rest;
                self.sent = 0;
            }
        }
    }

    /// Takes note that it was looked at, where anything has not gone out, and says whether anything has
    /// not.
    pub fn ages(&mut self) -> bool
        ensures looks { self.new ≡ aged self.old }
        ensures unsent { result ≡ not (is_out self.old) }
    {
        if self.is_out() {
            return false;
        }
        self.looks = self.looks.saturating_add(1);
        true
    }

    /// Whether its writer took no byte for so many looks.
    pub fn is_stale(&self, looks: u32) -> bool
        ensures { result ≡ is_stale looks self.now }
    {
        self.looks >= looks
    }
}

/// Whether a write that failed so may be made again.
fn may_be_made_again(error: &io::Error) -> bool {
    matches!(error.kind(), ErrorKind::WouldBlock | ErrorKind::Interrupted)
}
