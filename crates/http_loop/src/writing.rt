//! The texts of a connection, written as far as they are, and what comes after them.
ghost use Rattle.std.specs.Prelude.{◌≡◌, true};
ghost use Rattle.http_input.specs.Inputs.{request_view};
ghost use Rattle.http_reply.specs.Counts.{failures_of, inner_of};
ghost use Rattle.http_reply.specs.Replies.{refusal_bytes, reply_bytes};
ghost use Rattle.http_reply.specs.Sends.{failures_after};
ghost use Rattle.json_gateway.specs.Outcomes.{wire_response};
ghost use Rattle.http_loop.specs.Connections.{path_asked};
ghost use Rattle.http_loop.specs.Texts.{Declines, Writes, turn_of};

use http_head::path_of;
use http_input::Request;
use http_reply::{Counted, Front, ReplyBuffer, write_refusal, write_reply};
use json_gateway::Settled;
use std::io::Write;

/// Where a connection stands after a turn.
#[derive(Clone, Copy, Debug, PartialEq, Eq)]
pub enum Turn {
    /// A request was answered, and the connection stays open.
    More,
    /// A request was answered, and the connection is closed.
    Last,
    /// The input has ended before a first byte.
    End,
}

/// The path of the command that a request asks for (RFC 9110, section 9.3.3): that of its target,
/// up to a `?`, where its method is POST. Another method asks for none, and the path is empty.
/// Takes no memory.
pub fn command_path<'b>(request: &Request<'b>) -> &'b [u8]
    ensures { result.now ≡ path_asked (request_view request.now) }
{
    if request.method == b"POST".as_slice() {
        path_of(request.target)
    } else {
        b""
    }
}

/// Writes the reply to a request that ended so, and says whether the connection is closed after it,
/// as `close` does. Want of memory and a lost answer have the texts of status 500.
///
/// Fails as `http_reply::write_reply` does: with `Front::Memory` where the reply is longer than the
/// buffer and no memory was found for it, and then nothing is written; with `Front::Write` where a
/// write failed or took nothing, with the number of bytes that went out, exactly that long a
/// beginning of the reply. The body is copied once, and the reply is one write where the writer
/// takes it whole.
pub fn write_settled<W: Write>(
    buffer: &mut ReplyBuffer,
    w: &mut Counted<W>,
    settled: &Settled,
    close: bool,
) -> Result<bool, Front>
    ensures writes { Writes close (reply_bytes (wire_response settled.now) close)
        (W.contents (inner_of w.old)) (W.contents (inner_of w.new)) result }
    ensures failures { failures_of w.new ≡ failures_after result (failures_of w.old) }
{
    let (status, body) = settled.wire();
    write_reply(buffer, w, status, body, close)?;
    Ok(close)
}

/// Writes the reply that tells why a request is not read, where there is one, and gives why the
/// connection ends: the same, or why that reply was not written to its end.
pub fn decline<W: Write>(buffer: &mut ReplyBuffer, w: &mut Counted<W>, front: Front) -> Front
    ensures { Declines front (W.contents (inner_of w.old)) (W.contents (inner_of w.new))
        (failures_of w.old) (failures_of w.new) result }
{
    match refuse(buffer, w, front) {
        Ok(_) => front,
        Err(cut) => cut,
    }
}

/// Writes that reply.
fn refuse<W: Write>(
    buffer: &mut ReplyBuffer,
    w: &mut Counted<W>,
    front: Front,
) -> Result<bool, Front>
    ensures writes { Writes true (refusal_bytes front)
        (W.contents (inner_of w.old)) (W.contents (inner_of w.new)) result }
    ensures failures { failures_of w.new ≡ failures_after result (failures_of w.old) }
{
    write_refusal(buffer, w, front)?;
    Ok(true)
}

/// Where a connection stands after a request that was answered so: `true` tells that it is closed.
/// `Err` is the front that it was given.
pub fn turn_after(answered: Result<bool, Front>) -> Result<Turn, Front>
    ensures { result ≡ turn_of answered }
{
    match answered {
        Ok(true) => Ok(Turn::Last),
        Ok(false) => Ok(Turn::More),
        Err(front) => Err(front),
    }
}
