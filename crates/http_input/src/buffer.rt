//! The bytes that were read and not yet used.
ghost use Rattle.std.specs.Prelude.{◌≡◌, ◌+◌, ◌*◌, ◌<◌, ◌≤◌, [], length, drop, IfOk, OnErr, OnOk};
ghost use Rattle.http_reply.specs.Counts.{failures_of, inner_of, reads_of};
ghost use Rattle.http_input.specs.Inputs.{Extends, Took, failures_after_read};

use http_reply::{Counted, Front};
use std::alloc::{AllocError, Global};
use std::io::Read;

/// The room that a buffer has at least, in bytes.
const LEAST_ROOM: usize = 16_384;

/// Bytes from `start` to `end`, and room behind them.
#[derive(Drop)]
pub(crate) struct Buffer {
    room: Vec<u8>,
    start: usize,
    end: usize,
    ghost ordered: { start ≤ end },
    ghost within: { end ≤ length room.items },
    ghost least: { 16384 ≤ length room.items },
}

impl Buffer {
    ghost use Rattle.http_input.specs.Buffers.{Filled, items, room};

    /// No bytes, in the least room. Fails for want of memory.
    pub(crate) fn new(alloc: Global) -> Result<Buffer, AllocError>
        ensures { IfOk result (λ b. items b ≡ []) }
    {
        let room = Vec::from_elem(alloc, 0, LEAST_ROOM)?;
        Ok(Buffer {
            room,
            start: 0,
            end: 0,
        })
    }

    /// The bytes.
    pub(crate) fn as_slice(&self) -> &[u8]
        ensures { result.now ≡ items self.now }
    {
        &self.room[self.start..self.end]
    }

    /// How many bytes there are.
    pub(crate) fn len(&self) -> usize
        ensures { result ≡ length (items self.now) }
    {
        self.end - self.start
    }

    /// Its room in bytes, with that of the bytes.
    pub(crate) fn room(&self) -> usize {
        self.room.len()
    }

    /// Lets the first bytes go. Takes no memory, and moves none.
    pub(crate) fn skip(&mut self, count: usize)
        requires { count ≤ length (items self.old) }
        ensures { items self.new ≡ drop count (items self.old) }
    {
        self.start += count;
    }

    /// Makes one read, for which room is made first: true where bytes came, false at the end of
    /// the input.
    ///
    /// Fails with `Front::Memory` where there was no room for a byte and no memory for more, before
    /// the read, and with `Front::Read` where the read failed.
    pub(crate) fn fill<R: Read>(&mut self, r: &mut Counted<R>) -> Result<bool, Front>
        ensures kept { Extends (items self.old) (items self.new) }
        ensures took { Took (R.remaining (inner_of r.old)) (R.remaining (inner_of r.new))
            (items self.old) (items self.new) }
        ensures filled { Filled (R.remaining (inner_of r.new)) (items self.old) (items self.new)
            result }
        ensures failures { failures_of r.new ≡ failures_after_read result (failures_of r.old) }
        ensures reads { reads_of r.new ≤ reads_of r.old + 1 }
    {
        match self.make_room() {
            Ok(()) => self.read_from(r),
            Err(AllocError) => Err(Front::Memory),
        }
    }

    /// Makes one read into the room behind the bytes.
    fn read_from<R: Read>(&mut self, r: &mut Counted<R>) -> Result<bool, Front>
        requires { 0 < room self.old }
        ensures kept { Extends (items self.old) (items self.new) }
        ensures took { Took (R.remaining (inner_of r.old)) (R.remaining (inner_of r.new))
            (items self.old) (items self.new) }
        ensures filled { Filled (R.remaining (inner_of r.new)) (items self.old) (items self.new)
            result }
        ensures failures { failures_of r.new ≡ failures_after_read result (failures_of r.old) }
        ensures reads { reads_of r.new ≤ reads_of r.old + 1 }
    {
        let end = self.end;
        match r.read(&mut self.room[end..]) {
            Ok(count) => {
                self.end = end + count;
                Ok(count > 0)
            }
            Err(_) => Err(Front::Read),
        }
    }

    /// Makes room for a byte at least: all that is not taken by the bytes, or twice as much. Fails for want
    /// of memory, and only where the bytes take all of its room.
    fn make_room(&mut self) -> Result<(), AllocError>
        ensures items { items self.new ≡ items self.old }
        ensures ok { OnOk result (0 < room self.new) }
        ensures full { OnErr result (length self.old.room.items ≤ length (items self.old)) }
    {
        self.move_to_front();
        if self.end < self.room.len() {
            return Ok(());
        }
        self.grow()
    }

    /// Moves the bytes to the front of the room.
    fn move_to_front(&mut self)
        ensures items { items self.new ≡ items self.old }
        ensures front { self.new.start ≡ 0 }
        ensures room { length self.new.room.items ≡ length self.old.room.items }
    {
        if self.start > 0 {
            let (start, end) = (self.start, self.end);
            self.room.copy_within(start..end, 0);
            self.start = 0;
            self.end = end - start;
        }
    }

    /// Makes room that is full twice as large. Fails for want of memory.
    fn grow(&mut self) -> Result<(), AllocError>
        requires { room self.old ≡ 0 }
        ensures items { items self.new ≡ items self.old }
        ensures twice { OnOk result (length self.new.room.items ≡ 2 * length self.old.room.items) }
        ensures ok { OnOk result (0 < room self.new) }
    {
        let len = self.room.len();
        self.room.resize(2 * len, 0)
    }
}
