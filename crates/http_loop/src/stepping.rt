//! One step of a connection that waits between its steps: a request, read as far as it is there, and
//! answered.
ghost use Rattle.std.specs.Prelude.{◌≡◌, IfErr};
ghost use Rattle.http_input.specs.Inputs.{failures_after_read, request_view};
ghost use Rattle.http_reply.specs.Counts.{failures_of, inner_of};
ghost use Rattle.http_reply.specs.declared.front.Front.TheVariants as front;
ghost use Rattle.http_reply.specs.Sends.{failures_after};
ghost use Rattle.http_loop.specs.Stepped.{Begun, EndsWith, Finished, ReadsOn, Steps};
ghost use Rattle.http_loop.specs.Texts.{IsOfConnection, IsOfWriting};
ghost use Rattle.http_loop.specs.Turned.{progress};

use crate::answering::Answering;
use crate::serving::{await_next, pass, reply};
use crate::writing::{Turn, decline, turn_after};
use http_input::{Input, Request, next_request};
use http_reply::{Counted, Front, ReplyBuffer};
use json_gateway::Outcome;
use std::alloc::Global;
use std::io::{Read, Write};

/// The outcome of a request that was done, of which no byte was written yet.
#[derive(Debug, Drop)]
pub struct Waiting {
    /// Its outcome.
    pub outcome: Outcome,
    /// Whether the connection is closed behind its reply.
    pub close: bool,
}

/// What a step came to.
#[derive(Debug, Drop)]
pub enum Step {
    /// As a turn of [`serve_all`](crate::serve_all).
    Turned(Turn),
    /// A request was done whose answer waits for trimming, and nothing of its reply was written:
    /// [`end_wait`] writes it, once that is done.
    Waits(Waiting),
}

/// One request, read and answered, as by a turn of [`serve_all`](crate::serve_all); but for this.
///
/// - Where whoever answers says of an outcome that it waits (`Outcome::waits`), the request is let go,
///   and nothing of its reply is written yet.
/// - At `Err(Front::Read)` no byte is lost: what was read stands in the input, and a further step goes on
///   from there, so whatever answers the rest answers all. So a reader that has nothing now may fail, and
///   the step be made again.
///
/// Fails as a turn does, and for the same reasons; a request is done as soon as it has been read. It costs
/// one read where the input has no whole request, and one write where its reply does not wait.
pub fn take_step<S, A: Answering<S>, R: Read, W: Write>(
    alloc: Global,
    by: &A,
    state: &mut S,
    input: &mut Input,
    buffer: &mut ReplyBuffer,
    r: &mut Counted<R>,
    w: &mut Counted<W>,
) -> Result<Step, Front>
    ensures steps { Steps S (A.Answers by.now) (A.Tells by.now) (A.Finishes by.now)
        (progress state.old (R.remaining (inner_of r.old)) input.old (W.contents (inner_of w.old)))
        (progress state.new (R.remaining (inner_of r.new)) input.new (W.contents (inner_of w.new))) result }
    ensures dry { IfErr result (λ f. f ≡ front.Read → ReadsOn S
        (progress state.old (R.remaining (inner_of r.old)) input.old (W.contents (inner_of w.old)))
        (progress state.new (R.remaining (inner_of r.new)) input.new (W.contents (inner_of w.new)))) }
    ensures ends { IfErr result IsOfConnection }
    ensures reads { failures_of r.new ≡ failures_after_read result (failures_of r.old) }
    ensures writes { failures_of w.new ≡ failures_after result (failures_of w.old) }
{
    await_next(by, input);
    match next_request(input, r) {
        Ok(Some(head)) => {
            let begun = begin(alloc, by, state, &input.request(head), buffer, w);
            pass(input, head);
            begun
        }
        Ok(None) => Ok(Step::Turned(Turn::End)),
        Err(front) => Err(decline(buffer, w, front)),
    }
}

/// Has a request answered, and writes its reply where its outcome does not wait.
fn begin<S, A: Answering<S>, W: Write>(
    alloc: Global,
    by: &A,
    state: &mut S,
    request: &Request<'_>,
    buffer: &mut ReplyBuffer,
    w: &mut Counted<W>,
) -> Result<Step, Front>
    ensures begun { Begun S (A.Answers by.now) (A.Tells by.now) (A.Finishes by.now) (request_view request.now)
        state.old (W.contents (inner_of w.old)) state.new (W.contents (inner_of w.new)) result }
    ensures ends { IfErr result IsOfWriting }
    ensures writes { failures_of w.new ≡ failures_after result (failures_of w.old) }
{
    let outcome = by.answer(alloc, state, request);
    let waiting = Waiting {
        outcome,
        close: request.close,
    };
    if waiting.outcome.waits {
        return Ok(Step::Waits(waiting));
    }
    let turn = end_wait(alloc, by, state, &waiting, buffer, w)?;
    Ok(Step::Turned(turn))
}

/// Writes the reply of a request that was done before, and tells whoever answers of its end: what is
/// left of a turn behind its answer.
///
/// Fails as a turn does that was answered: with `Front::Write` and the number of bytes of the text that
/// went out, or with `Front::Memory`, where none was found for a reply or a message.
pub fn end_wait<S, A: Answering<S>, W: Write>(
    alloc: Global,
    by: &A,
    state: &mut S,
    waiting: &Waiting,
    buffer: &mut ReplyBuffer,
    w: &mut Counted<W>,
) -> Result<Turn, Front>
    ensures finished { Finished (W.contents (inner_of w.old)) (W.contents (inner_of w.new))
        (λ out r. EndsWith S (A.Tells by.now) (A.Finishes by.now) waiting.now.outcome waiting.now.close
        state.old out state.new r) result }
    ensures ends { IfErr result IsOfWriting }
    ensures writes { failures_of w.new ≡ failures_after result (failures_of w.old) }
{
    let outcome = &waiting.outcome;
    let told = reply(alloc, by, state, outcome, waiting.close, buffer, w);
    by.finish(state, outcome.watch);
    turn_after(told)
}
