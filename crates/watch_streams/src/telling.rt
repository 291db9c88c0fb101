//! What a stream is told next, by an engine.
ghost use Rattle.watch_streams.specs.Streams.{TellsNext};

use crate::line::Line;
use engine_lock::{Client, EngineName};
use http_peer::Gate;
use json_gateway::Message;
use recorded_engine::GatedEngine;
use std::io::Write;
use std::sync::Wait;

/// What came of asking what a stream is told next.
#[derive(Clone, Copy, Debug, PartialEq, Eq)]
pub enum Next {
    /// A message is to go out.
    Told,
    /// There is nothing to be told now.
    Quiet,
    /// Its watch is no more, as it is behind a message that cancels it: the last chunk is to go out.
    Ended,
    /// No memory was found for the message, and it was not told: it may be asked for again.
    Wanting,
    /// A message was told, or an end, and no memory was found to let it go out: the stream is cut.
    Cut,
    /// It was not asked: what was told before has not gone out, or the stream has ended.
    Waits,
}

/// Asks an engine, on behalf of a client, what the watch of a stream is told next, and lets that go
/// out on the stream. It does not ask while anything has not gone out, nor behind the stream's end.
///
/// It makes one event of the engine at most, with its cost, and copies the message once.
pub fn tell<L: EngineName, G: Gate, R: Wait, W: Write>(
    events: &GatedEngine<'_, L, G, R>,
    client: &mut Client<L>,
    line: &mut Line<W>,
) -> Next
    ensures { TellsNext events.now.engine.now.ids client.old line.old result client.new line.new }
{
    if !line.is_out() || line.has_ended() {
        return Next::Waits;
    }
    match events.deliver(client, line.number()) {
        Ok(Message::Text(text)) => match line.put(text.as_slice()) {
            Ok(()) => Next::Told,
            Err(_) => Next::Cut,
        },
        Ok(Message::NoWatch) => match line.end() {
            Ok(()) => Next::Ended,
            Err(_) => Next::Cut,
        },
        Ok(Message::Nothing) => Next::Quiet,
        Err(_) => Next::Wanting,
    }
}
