//! Who answers the requests of a connection.
ghost use Rattle.std.specs.Prelude.{ℕ, Option};
ghost use Rattle.http_head.specs.Requests.{Asked};
ghost use Rattle.http_input.specs.Inputs.{request_view};
ghost use Rattle.json_gateway.specs.declared.outcome.Outcome.{Outcome as OutcomeOf};

use http_input::Request;
use json_gateway::Outcome;
use std::alloc::Global;

/// What the stream of a watch is told next.
#[derive(Debug, Drop)]
pub enum Told {
    /// The bytes of a JSON text.
    Text(Vec<u8>),
    /// No further text comes: the stream ends in order.
    End,
    /// No memory was found for the text: the stream is cut.
    Memory,
    /// The stream goes on elsewhere: nothing more of it is written here, and its watch stands.
    Away,
}

ghost use Rattle.http_loop.specs.declared.answering.Told.{Told as ToldOf};

/// Answers the requests of a connection, of a state `S` that stands beside it: of a store by itself,
/// or for a client of an engine that others change too.
///
/// What each call comes to is told by a relation between the state before and the state after it.
/// The loop over a connection rests on no more: it calls [`answer`](Answering::answer) once for each
/// request that it reads, in their order, [`tell`](Answering::tell) for each message of a stream,
/// and [`finish`](Answering::finish) once behind each reply.
pub trait Answering<S> {
    /// What a request comes to: its outcome.
    ghost Answers: { Self → S → Asked → OutcomeOf → S → Type 0 };
    /// What the stream of the watch of a number is told next.
    ghost Tells: { Self → S → ℕ → ToldOf → S → Type 0 };
    /// What the end of a reply comes to, of whose request this watch was made.
    ghost Finishes: { Self → S → Option ℕ → S → Type 0 };

    /// Comes before a request is read of which no byte has come. It changes nothing.
    fn awaits(&self);

    /// Does what a request asks, with all that its answer waits for.
    fn answer(&self, alloc: Global, state: &mut S, request: &Request<'_>) -> Outcome
        ensures { Answers self.now state.old (request_view request.now) result state.new };

    /// The next message of the watch of a number; where none is there yet, it may be waited for.
    fn tell(&self, alloc: Global, state: &mut S, number: u64) -> Told
        ensures { Tells self.now state.old number result state.new };

    /// Comes behind each reply, whole or not, with the watch that its request made: the watch is
    /// dropped.
    fn finish(&self, state: &mut S, watch: Option<u64>)
        ensures { Finishes self.now state.old watch state.new };
}
