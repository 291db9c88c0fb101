//! Replies, and streams of messages.
ghost use Rattle.std.specs.Prelude.{◌≡◌, ◌<◌, ◌≤◌, [], codes, decimal, if◌then◌else◌, length};
ghost use Rattle.std.specs.Prelude.{◌+◌, false, IfErr, OnOk};
ghost use Rattle.std.specs.Fmt.{digits};
ghost use Rattle.http_reply.specs.Counts.{failures_of, inner_of};
ghost use Rattle.http_reply.specs.Replies as spec;
ghost use Rattle.http_reply.specs.Replies.{chunk, last_chunk, reply_bytes, stream_head};
ghost use Rattle.http_reply.specs.Replies.{connection_close};
ghost use Rattle.http_reply.specs.Sends.{Sends, failures_after};

use crate::counted::Counted;
use crate::front::Front;
use crate::hexadecimal::hexadecimal;
use crate::sending::{ReplyBuffer, put};
use itoa::Buffer;
use std::alloc::AllocError;
use std::io::Write;

/// Writes a reply (RFC 9112, section 2.1) of a status and a JSON body: the status line, the fields
/// `Content-Type`, `Content-Length` and, where the connection is closed after it,
/// `Connection: close`, an empty line and the body. The statuses are 200, 400, 404 and 500.
///
/// It is one write where the writer takes it whole. Fails with `Front::Memory` where the buffer has
/// no room for the reply and gets none: then nothing is written. Fails with `Front::Write` where a
/// write fails or takes nothing, with the number of bytes that went out: they are exactly that long
/// a beginning of the reply. Copies the body once.
pub fn write_reply<W: Write>(
    buffer: &mut ReplyBuffer,
    w: &mut Counted<W>,
    status: u16,
    body: &[u8],
    close: bool,
) -> Result<(), Front>
    ensures sent { Sends result (W.contents (inner_of w.old)) (W.contents (inner_of w.new))
        (reply_bytes (record { status = status; body = body.now }) close) }
    ensures failures { failures_of w.new ≡ failures_after result (failures_of w.old) }
    ensures memory { IfErr result (λ f. f ≡ Front.Memory → (w.new ≡ w.old)
        × (buffer.old < length (reply_bytes (record { status = status; body = body.now }) close))
        × (1024 < length (reply_bytes (record { status = status; body = body.now }) close))) }
    ensures room { buffer.old ≤ buffer.new }
{
    let (mut code, mut length) = (Buffer::new(), Buffer::new());
    let code = code.format(status).as_bytes();
    let length = length.format(body.len()).as_bytes();
    buffer.send(
        w,
        &[
            b"HTTP/1.1 ",
            code,
            b" ",
            reason(status),
            b"\r\nContent-Type: application/json\r\nContent-Length: ",
            length,
            b"\r\n",
            close_line(close),
            b"\r\n",
            body,
        ],
    )
}

/// Writes what stands before the messages of a stream, after which the connection is closed
/// (RFC 9112, section 7.1). Fails as `write_reply` does, but never for want of memory.
pub fn write_stream_head<W: Write>(
    buffer: &mut ReplyBuffer,
    w: &mut Counted<W>,
) -> Result<(), Front>
    ensures sent { Sends result (W.contents (inner_of w.old)) (W.contents (inner_of w.new))
        stream_head }
    ensures failures { failures_of w.new ≡ failures_after result (failures_of w.old) }
    ensures memory { IfErr result (λ f. f ≡ Front.Memory → (w.new ≡ w.old)
        × (buffer.old < length stream_head)
        × (1024 < length stream_head)) }
    ensures room { buffer.old ≤ buffer.new }
{
    buffer.send(
        w,
        &[
            b"HTTP/1.1 200 OK\r\nContent-Type: application/json\r\n\
            Transfer-Encoding: chunked\r\nConnection: close\r\n\r\n",
        ],
    )
}

/// Writes a message and a line feed as one chunk of a stream (RFC 9112, section 7.1). Fails as
/// `write_reply` does.
pub fn write_chunk<W: Write>(
    buffer: &mut ReplyBuffer,
    w: &mut Counted<W>,
    message: &[u8],
) -> Result<(), Front>
    ensures sent { Sends result (W.contents (inner_of w.old)) (W.contents (inner_of w.new))
        (chunk message.now) }
    ensures failures { failures_of w.new ≡ failures_after result (failures_of w.old) }
    ensures memory { IfErr result (λ f. f ≡ Front.Memory → (w.new ≡ w.old)
        × (buffer.old < length (chunk message.now))
        × (1024 < length (chunk message.now))) }
    ensures room { buffer.old ≤ buffer.new }
{
    let mut places = [0; 16];
    let length = length_of(message, &mut places);
    buffer.send(w, &[length, b"\r\n", message, b"\n\r\n"])
}

/// Puts a message and a line feed, as one chunk of a stream (RFC 9112, section 7.1), in place of what
/// a text had. Fails for want of memory. Copies the message once.
pub fn put_chunk(text: &mut Vec<u8>, message: &[u8]) -> Result<(), AllocError>
    ensures { OnOk result (text.new.items ≡ chunk message.now) }
{
    let mut places = [0; 16];
    let length = length_of(message, &mut places);
    put(text, &[length, b"\r\n", message, b"\n\r\n"])
}

/// Writes the end of a stream: the chunk of length 0, and no trailer (RFC 9112, section 7.1). Fails
/// as `write_reply` does, but never for want of memory.
pub fn write_last_chunk<W: Write>(buffer: &mut ReplyBuffer, w: &mut Counted<W>) -> Result<(), Front>
    ensures sent { Sends result (W.contents (inner_of w.old)) (W.contents (inner_of w.new))
        last_chunk }
    ensures failures { failures_of w.new ≡ failures_after result (failures_of w.old) }
    ensures memory { IfErr result (λ f. f ≡ Front.Memory → (w.new ≡ w.old)
        × (buffer.old < length last_chunk)
        × (1024 < length last_chunk)) }
    ensures room { buffer.old ≤ buffer.new }
{
    buffer.send(w, &[b"0\r\n\r\n"])
}

/// The length of a message and its line feed, in hexadecimal.
fn length_of<'a>(message: &[u8], places: &'a mut [u8; 16]) -> &'a [u8]
    ensures { result.now ≡ digits 16 false (length message.now + 1) }
{
    hexadecimal(message.len() as u64 + 1, places)
}

/// The reason phrase of a status (RFC 9110, section 15).
fn reason<'a>(status: u16) -> &'a [u8]
    ensures { result.now ≡ spec.reason status }
{
    match status {
        200 => b"OK",
        400 => b"Bad Request",
        404 => b"Not Found",
        _ => b"Internal Server Error",
    }
}

/// The field that says that the connection is closed, where it is (RFC 9112, section 9.6).
fn close_line<'a>(close: bool) -> &'a [u8]
    ensures { result.now ≡ (if close then connection_close else []) }
{
    if close { b"Connection: close\r\n" } else { b"" }
}
