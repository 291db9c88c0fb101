//! The stream of a watch.
ghost use Rattle.std.specs.Prelude.{◌≡◌, true, IfErr};
ghost use Rattle.http_reply.specs.Counts.{failures_of, inner_of};
ghost use Rattle.http_reply.specs.Replies.{chunk, last_chunk, stream_head};
ghost use Rattle.http_reply.specs.Sends.{failures_after};
ghost use Rattle.http_loop.specs.Answered.{AreMessages, IsStream, most_messages};
ghost use Rattle.http_loop.specs.Texts.{Grows, IsOfWriting, Writes};

use crate::answering::{Answering, Told};
use http_reply::{Counted, Front, ReplyBuffer, write_chunk, write_last_chunk, write_stream_head};
use std::alloc::Global;
use std::io::Write;

/// The most messages of a stream, beside its first: each tells of a later revision than those
/// before it, or is the last one.
const MOST_MESSAGES: u128 = 18_446_744_073_709_551_616;

/// Writes the stream of a watch that was made: its head, the message that it was created as the
/// first chunk, and its messages until no further one comes; then the last chunk. Where the stream
/// goes on elsewhere no last chunk comes. The watch may stand after it: whoever calls finishes it.
pub(crate) fn stream<S, A: Answering<S>, W: Write>(
    alloc: Global,
    by: &A,
    state: &mut S,
    number: u64,
    created: &[u8],
    buffer: &mut ReplyBuffer,
    w: &mut Counted<W>,
) -> Result<bool, Front>
    ensures does { Grows (W.contents (inner_of w.old)) (W.contents (inner_of w.new))
        (λ out. IsStream S (A.Tells by.now) number created.now state.old out state.new result) }
    ensures ends { IfErr result IsOfWriting }
    ensures failures { failures_of w.new ≡ failures_after result (failures_of w.old) }
{
    match write_head(buffer, w) {
        Ok(_) => match write_message(buffer, w, created) {
            Ok(_) => write_messages(alloc, by, state, number, buffer, w),
            Err(front) => Err(front),
        },
        Err(front) => Err(front),
    }
}

/// Writes the messages of a watch until no further one comes, and the last chunk; or until the stream
/// goes on elsewhere.
fn write_messages<S, A: Answering<S>, W: Write>(
    alloc: Global,
    by: &A,
    state: &mut S,
    number: u64,
    buffer: &mut ReplyBuffer,
    w: &mut Counted<W>,
) -> Result<bool, Front>
    ensures does { Grows (W.contents (inner_of w.old)) (W.contents (inner_of w.new))
        (λ out. AreMessages S (A.Tells by.now) number most_messages state.old out state.new result) }
    ensures ends { IfErr result IsOfWriting }
    ensures failures { failures_of w.new ≡ failures_after result (failures_of w.old) }
{
    let mut left = MOST_MESSAGES;
    while left > 0 {
        match by.tell(alloc, state, number) {
            Told::Text(text) => match write_message(buffer, w, text.as_slice()) {
                Ok(_) => left -= 1,
                Err(front) => return Err(front),
            },
            Told::End => return write_end(buffer, w),
            Told::Memory => return Err(Front::Memory),
            Told::Away => return Ok(true),
        }
    }
    write_end(buffer, w)
}

/// Writes the head of a stream.
fn write_head<W: Write>(buffer: &mut ReplyBuffer, w: &mut Counted<W>) -> Result<bool, Front>
    ensures writes { Writes true stream_head
        (W.contents (inner_of w.old)) (W.contents (inner_of w.new)) result }
    ensures failures { failures_of w.new ≡ failures_after result (failures_of w.old) }
{
    write_stream_head(buffer, w)?;
    Ok(true)
}

/// Writes a message of a stream.
fn write_message<W: Write>(
    buffer: &mut ReplyBuffer,
    w: &mut Counted<W>,
    text: &[u8],
) -> Result<bool, Front>
    ensures writes { Writes true (chunk text.now)
        (W.contents (inner_of w.old)) (W.contents (inner_of w.new)) result }
    ensures failures { failures_of w.new ≡ failures_after result (failures_of w.old) }
{
    write_chunk(buffer, w, text)?;
    Ok(true)
}

/// Writes the end of a stream.
fn write_end<W: Write>(buffer: &mut ReplyBuffer, w: &mut Counted<W>) -> Result<bool, Front>
    ensures writes { Writes true last_chunk
        (W.contents (inner_of w.old)) (W.contents (inner_of w.new)) result }
    ensures failures { failures_of w.new ≡ failures_after result (failures_of w.old) }
{
    write_last_chunk(buffer, w)?;
    Ok(true)
}
