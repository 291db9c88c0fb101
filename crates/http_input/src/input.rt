//! The requests of a connection, one after the other.
ghost use Rattle.std.specs.Prelude.{◌≡◌, ◌+◌, ◌≤◌, [], length, drop, nat_eq, IfOk};
ghost use Rattle.http_head.specs.Heads.{most_body, most_head};
ghost use Rattle.http_reply.specs.Counts.{failures_of, inner_of, reads_of};
ghost use Rattle.http_input.specs.Inputs.{Came, Extends, IsWhole, Tells, Took};
ghost use Rattle.http_input.specs.Parts as parts;
ghost use Rattle.http_input.specs.Inputs.{asked_of, empty_reads, failures_after_read, request_view};

use crate::buffer::Buffer;
use http_head::{Fault, Head, Look, look_at};
use http_reply::{Counted, Front};
use httparse::spans::{EMPTY_HEADER_SPAN, HeaderSpan};
use std::alloc::{AllocError, Global};
use std::io::Read;
use std::marker::Model;

/// A request, lent from the buffer that it was read into.
#[derive(Clone, Copy, Debug)]
pub struct Request<'b> {
    /// The method, as it stands in the request line.
    pub method: &'b [u8],
    /// The request target, as it stands there; its path is [`http_head::path_of`] of it.
    pub target: &'b [u8],
    /// The body.
    pub body: &'b [u8],
    /// Whether the connection is closed after the reply: a header line says `Connection: close`
    /// (RFC 9112, section 9.6).
    pub close: bool,
}

/// The bytes of a connection that were read and not yet used, and room for more.
///
/// Contracts see it as the list of these bytes. Its room is 16,384 bytes at least, and keeps the
/// size that the longest request took.
#[derive(Drop)]
pub struct Input {
    buffer: Buffer,
    lines: [HeaderSpan; 64],
}

impl Model for Input {
    ghost use Rattle.std.specs.Prelude.{List, ℕ};
    ghost use Rattle.http_input.specs.Buffers.{items};

    ghost Value = { List ℕ };

    ghost view = { λ i. items i.buffer };
}

impl Input {
    ghost use Rattle.http_input.specs.Buffers.{Filled};
    ghost use Rattle.http_input.specs.Inputs.{HasHead};
    ghost use Rattle.http_input.specs.Parts.{BodyCame, HeadCame, Sees, last_read};

    /// Nothing is read yet. Fails for want of memory for the least room.
    pub fn new(alloc: Global) -> Result<Input, AllocError>
        ensures { IfOk result (λ input. input ≡ []) }
    {
        let buffer = Buffer::new(alloc)?;
        Ok(Input {
            buffer,
            lines: [EMPTY_HEADER_SPAN; 64],
        })
    }

    /// The request that was read, lent. Takes no memory.
    pub fn request(&self, head: Head) -> Request<'_>
        requires { IsWhole self.now head }
        ensures { request_view result ≡ asked_of self.now head }
    {
        let bytes = self.buffer.as_slice();
        Request {
            method: head.method.of(bytes),
            target: head.target.of(bytes),
            body: &bytes[head.len..head.len + head.body],
            close: head.close,
        }
    }

    /// Lets the request go: the bytes after it are the next one's. Takes no memory.
    pub fn skip(&mut self, head: Head)
        requires { IsWhole self.old head }
        ensures { self.new ≡ drop (head.len + head.body) self.old }
    {
        self.buffer.skip(head.len + head.body);
    }

    /// Whether no byte waits. Takes no memory.
    pub fn is_empty(&self) -> bool
        ensures { result ≡ nat_eq (length self.now) 0 }
    {
        self.len() == 0
    }

    /// Its room in bytes, with that of the bytes that wait. Takes no memory.
    pub fn room(&self) -> usize {
        self.buffer.room()
    }

    /// Reads until there is a whole head; `None` where the input ends before a first byte.
    fn next_head<R: Read>(&mut self, r: &mut Counted<R>) -> Result<Option<Head>, Front>
        ensures kept { Extends self.old self.new }
        ensures took { Took (R.remaining (inner_of r.old)) (R.remaining (inner_of r.new))
            self.old self.new }
        ensures came { HeadCame (R.remaining (inner_of r.new)) self.new result }
        ensures failures { failures_of r.new ≡ failures_after_read result (failures_of r.old) }
        ensures each { reads_of r.new + length self.old
            ≤ reads_of r.old + length self.new + empty_reads result }
        ensures reads { reads_of r.new ≤ reads_of r.old + most_head }
    {
        'heads: loop {
            match self.seen() {
                Look::Head(head) => return Ok(Some(head)),
                Look::Fault(fault) => return Err(front_of(fault)),
                Look::More => {}
            }
            match self.fill(r) {
                Ok(true) => {}
                Ok(false) => {
                    if self.len() == 0 {
                        return Ok(None);
                    }
                    return Err(Front::End);
                }
                Err(front) => return Err(front),
            }
        }
    }

    /// Makes one read: true where bytes came, false at the end of the input.
    fn fill<R: Read>(&mut self, r: &mut Counted<R>) -> Result<bool, Front>
        ensures kept { Extends self.old self.new }
        ensures took { Took (R.remaining (inner_of r.old)) (R.remaining (inner_of r.new))
            self.old self.new }
        ensures filled { Filled (R.remaining (inner_of r.new)) self.old self.new result }
        ensures failures { failures_of r.new ≡ failures_after_read result (failures_of r.old) }
        ensures reads { reads_of r.new ≤ reads_of r.old + 1 }
    {
        self.buffer.fill(r)
    }

    /// How many bytes wait.
    fn len(&self) -> usize
        ensures { result ≡ length self.now }
    {
        self.buffer.len()
    }

    /// What the bytes begin with.
    fn seen(&mut self) -> Look
        ensures same { self.new ≡ self.old }
        ensures sees { Sees self.new result }
    {
        look_at(self.buffer.as_slice(), &mut self.lines)
    }

    /// Reads until the body of a head is there.
    #[tactic(auto, using(crate::proofs::Whole::extended, crate::proofs::Taking::extends_more, crate::proofs::Taking::took_trans))]
    fn read_body<R: Read>(&mut self, r: &mut Counted<R>, head: Head) -> Result<(), Front>
        requires { HasHead self.old head }
        ensures kept { Extends self.old self.new }
        ensures took { Took (R.remaining (inner_of r.old)) (R.remaining (inner_of r.new))
            self.old self.new }
        ensures came { BodyCame (R.remaining (inner_of r.new)) self.new head result }
        ensures failures { failures_of r.new ≡ failures_after_read result (failures_of r.old) }
        ensures each { reads_of r.new + length self.old
            ≤ reads_of r.old + length self.new + last_read result }
        ensures reads { reads_of r.new ≤ reads_of r.old + most_body }
    {
        let whole = head.len + head.body;
        while self.len() < whole {
            match self.fill(r) {
                Ok(true) => {}
                Ok(false) => return Err(Front::End),
                Err(front) => return Err(front),
            }
        }
        Ok(())
    }
}

/// Reads a request to the end of its body (RFC 9112, sections 2 to 6), where it is not there
/// yet; `None` where the input ends before a first byte of it. Its bytes stay: a further call
/// answers the same request, until [`Input::skip`] lets it go.
///
/// Fails, the first of these that comes:
///
/// - `Front::Head`: no head can come of the bytes, or it is of another version than HTTP/1.1,
///   or has more than 64 header lines;
/// - `Front::Length`: a whole head has a Transfer-Encoding, more than one Content-Length, or
///   one that is not 1 to 18 digits;
/// - `Front::TooLong`: there is no whole head in 8,192 bytes, or the Content-Length is above
///   1,572,864;
/// - `Front::End`: the input ends later in a request than before its first byte;
/// - `Front::Read`: a read failed, for whatever reason; it is not made again;
/// - `Front::Memory`: 16,384 bytes at least wait, and there was no memory for more room. It
///   comes before a read, so that no byte is lost.
///
/// The cost is one look at each byte of the head for each read that it came in, and at most one
/// read for each byte that came and one more; of the limits, at most 8,192 and 1,572,864. A
/// request that is there already, or comes whole with one read, takes no more reads. Memory is
/// taken only where more than 16,384 bytes wait.
pub fn next_request<R: Read>(input: &mut Input, r: &mut Counted<R>) -> Result<Option<Head>, Front>
    ensures kept { Extends input.old input.new }
    ensures took { Took (R.remaining (inner_of r.old)) (R.remaining (inner_of r.new))
        input.old input.new }
    ensures came { Came (R.remaining (inner_of r.new)) input.new result }
    ensures tells { Tells (R.remaining (inner_of r.old)) (R.remaining (inner_of r.new))
        input.old input.new result }
    ensures failures { failures_of r.new ≡ failures_after_read result (failures_of r.old) }
    ensures each { reads_of r.new + length input.old
        ≤ reads_of r.old + length input.new + empty_reads result }
    ensures reads { reads_of r.new ≤ reads_of r.old + most_head + most_body }
{
    match input.next_head(r) {
        Ok(Some(head)) => match input.read_body(r, head) {
            Ok(()) => Ok(Some(head)),
            Err(front) => Err(front),
        },
        Ok(None) => Ok(None),
        Err(front) => Err(front),
    }
}

/// The same fault, as the end of a connection.
fn front_of(fault: Fault) -> Front
    ensures { result ≡ parts.front_of fault }
{
    match fault {
        Fault::Head => Front::Head,
        Fault::Length => Front::Length,
        Fault::TooLong => Front::TooLong,
    }
}
