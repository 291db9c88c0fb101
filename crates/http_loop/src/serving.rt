//! The loop over a connection, over whoever answers it.
ghost use Rattle.std.specs.Prelude.{◌≡◌, ◌+◌, ◌⊎◌, [], drop, IfErr};
ghost use Rattle.http_input.specs.Inputs.{IsWhole, failures_after_read, request_view};
ghost use Rattle.http_reply.specs.Counts.{failures_of, inner_of};
ghost use Rattle.http_reply.specs.Sends.{failures_after};
ghost use Rattle.http_loop.specs.Answered.{IsAnswered, IsTold, streamed};
ghost use Rattle.http_loop.specs.Texts.{Grows, IsOfConnection, IsOfWriting};
ghost use Rattle.http_loop.specs.Turned.{NotBegun, Serves, TurnsOnce, progress};

use crate::answering::Answering;
use crate::streaming::stream;
use crate::writing::{Turn, decline, turn_after, write_settled};
use http_head::Head;
use http_input::{Input, Request, next_request};
use http_reply::{Counted, Front, ReplyBuffer};
use json_gateway::{Outcome, Settled};
use std::alloc::Global;
use std::io::{Read, Write};

/// Answers the requests of a connection (RFC 9112), at most `limit` of them, one after the other,
/// and gives the number of replies: where the input ended before a first byte of a request, at the
/// limit, or after a reply that closes the connection.
///
/// Each request that is read is answered by `by` once, of `state`, and what is written is the text of that
/// answer, in the requests' order, and nothing besides. A watch is answered by a stream (RFC 9112,
/// section 7.1): its created message, what `by` tells of it, and the last chunk; that ends the
/// connection. `by` is told of the end of each reply.
///
/// It fails with the first of these that comes, after which no further byte is written:
///
/// - `Front::Head`, `Front::Length`, `Front::TooLong`: the bytes begin with no request that is
///   answered; the reply of status 400 that says so was written.
/// - `Front::Read`: a read failed. `Front::End`: the input ended within a request.
/// - `Front::Write`: a write failed or took nothing, with the number of bytes of that text that
///   went out before; a request whose reply it was is done.
/// - `Front::Memory`: there was none for the buffers at first, for a request of which more than
///   16 KiB wait, for a reply of more than 1 KiB, or for a message of a watch. A request whose
///   reply it was is done.
///
/// A request that comes whole in one read costs one read and one write, and its body is not copied
/// before it is answered.
pub fn serve_all<S, A: Answering<S>, R: Read, W: Write>(
    alloc: Global,
    by: &A,
    state: &mut S,
    r: &mut Counted<R>,
    w: &mut Counted<W>,
    limit: u64,
) -> Result<u64, Front>
    ensures serves { NotBegun state.old state.new (W.contents (inner_of w.old)) (W.contents (inner_of w.new)) result
        ⊎ Serves S (IsAnswered S (A.Answers by.now) (A.Tells by.now) (A.Finishes by.now)) limit
        (progress state.old (R.remaining (inner_of r.old)) [] (W.contents (inner_of w.old)))
        (W.contents (inner_of w.new)) state.new result }
    ensures ends { IfErr result IsOfConnection }
    ensures reads { failures_of r.new ≡ failures_after_read result (failures_of r.old) }
    ensures writes { failures_of w.new ≡ failures_after result (failures_of w.old) }
{
    let Ok(mut input) = Input::new(alloc) else {
        return Err(Front::Memory);
    };
    let Ok(mut buffer) = ReplyBuffer::new(alloc) else {
        return Err(Front::Memory);
    };
    serve(alloc, by, state, &mut input, &mut buffer, r, w, limit)
}

/// The same, with the buffers that it takes.
fn serve<S, A: Answering<S>, R: Read, W: Write>(
    alloc: Global,
    by: &A,
    state: &mut S,
    input: &mut Input,
    buffer: &mut ReplyBuffer,
    r: &mut Counted<R>,
    w: &mut Counted<W>,
    limit: u64,
) -> Result<u64, Front>
    ensures serves { Serves S (IsAnswered S (A.Answers by.now) (A.Tells by.now) (A.Finishes by.now)) limit
        (progress state.old (R.remaining (inner_of r.old)) input.old (W.contents (inner_of w.old)))
        (W.contents (inner_of w.new)) state.new result }
    ensures ends { IfErr result IsOfConnection }
    ensures reads { failures_of r.new ≡ failures_after_read result (failures_of r.old) }
    ensures writes { failures_of w.new ≡ failures_after result (failures_of w.old) }
{
    let mut count = 0;
    while count < limit {
        match take_turn(alloc, by, state, input, buffer, r, w) {
            Ok(Turn::More) => count += 1,
            Ok(Turn::Last) => return Ok(count + 1),
            Ok(Turn::End) => return Ok(count),
            Err(front) => return Err(front),
        }
    }
    Ok(count)
}

/// One request, read and answered.
fn take_turn<S, A: Answering<S>, R: Read, W: Write>(
    alloc: Global,
    by: &A,
    state: &mut S,
    input: &mut Input,
    buffer: &mut ReplyBuffer,
    r: &mut Counted<R>,
    w: &mut Counted<W>,
) -> Result<Turn, Front>
    ensures turns { TurnsOnce S (IsAnswered S (A.Answers by.now) (A.Tells by.now) (A.Finishes by.now))
        (progress state.old (R.remaining (inner_of r.old)) input.old (W.contents (inner_of w.old)))
        (progress state.new (R.remaining (inner_of r.new)) input.new (W.contents (inner_of w.new))) result }
    ensures ends { IfErr result IsOfConnection }
    ensures reads { failures_of r.new ≡ failures_after_read result (failures_of r.old) }
    ensures writes { failures_of w.new ≡ failures_after result (failures_of w.old) }
{
    await_next(by, input);
    match next_request(input, r) {
        Ok(Some(head)) => {
            let answered = answer(alloc, by, state, &input.request(head), buffer, w);
            pass(input, head);
            turn_after(answered)
        }
        Ok(None) => Ok(Turn::End),
        Err(front) => Err(decline(buffer, w, front)),
    }
}

/// Tells whoever answers where no byte of the next request has come.
pub(crate) fn await_next<S, A: Answering<S>>(by: &A, input: &Input) {
    if input.is_empty() {
        by.awaits();
    }
}

/// Lets a request go that was answered: the bytes after it are the next one's.
pub(crate) fn pass(input: &mut Input, head: Head)
    requires { IsWhole input.old head }
    ensures { input.new ≡ drop (head.len + head.body) input.old }
{
    input.skip(head);
}

/// Has a request answered, and writes what it is answered: whether the connection is then closed.
fn answer<S, A: Answering<S>, W: Write>(
    alloc: Global,
    by: &A,
    state: &mut S,
    request: &Request<'_>,
    buffer: &mut ReplyBuffer,
    w: &mut Counted<W>,
) -> Result<bool, Front>
    ensures does { Grows (W.contents (inner_of w.old)) (W.contents (inner_of w.new))
        (λ out. IsAnswered S (A.Answers by.now) (A.Tells by.now) (A.Finishes by.now)
        state.old (request_view request.now) out state.new result) }
    ensures ends { IfErr result IsOfWriting }
    ensures writes { failures_of w.new ≡ failures_after result (failures_of w.old) }
{
    let outcome = by.answer(alloc, state, request);
    let told = reply(alloc, by, state, &outcome, request.close, buffer, w);
    by.finish(state, outcome.watch);
    told
}

/// Writes what a request is answered: its reply, or the stream of the watch that it made.
pub(crate) fn reply<S, A: Answering<S>, W: Write>(
    alloc: Global,
    by: &A,
    state: &mut S,
    outcome: &Outcome,
    close: bool,
    buffer: &mut ReplyBuffer,
    w: &mut Counted<W>,
) -> Result<bool, Front>
    ensures does { Grows (W.contents (inner_of w.old)) (W.contents (inner_of w.new))
        (λ out. IsTold S (A.Tells by.now) (streamed outcome.now.settled outcome.now.watch)
        outcome.now.settled close state.old out state.new result) }
    ensures ends { IfErr result IsOfWriting }
    ensures writes { failures_of w.new ≡ failures_after result (failures_of w.old) }
{
    match (&outcome.settled, outcome.watch) {
        (Settled::Reply(created), Some(number)) => {
            stream(alloc, by, state, number, created.body.as_slice(), buffer, w)
        }
        (settled, _) => write_settled(buffer, w, settled, close),
    }
}
