//! A turn of a stream: what has not gone out does, and then it is told what there is.
ghost use Rattle.std.specs.Prelude.{◌≡◌, false};
ghost use Rattle.watch_streams.specs.Turns.{IsExact, SentIs, Steps, Turned, is_cut, is_over, unsent_turn};

use crate::line::Line;
use crate::telling::{Next, tell};
use engine_lock::{Client, EngineName};
use http_peer::Gate;
use recorded_engine::GatedEngine;
use std::alloc::Global;
use std::io::Write;
use std::sync::Wait;

/// How many writes and messages a turn makes at most.
const MOST_STEPS: u64 = 16;

/// After so many looks at which its writer has taken no byte a stream is over.
const MOST_LOOKS: u32 = 10;

/// Where a stream stands after a turn.
#[derive(Clone, Copy, Debug, PartialEq, Eq)]
pub enum Turn {
    /// There is nothing to be told now, and all has gone out.
    Quiet,
    /// Its writer takes no more now.
    Blocked,
    /// No memory was found for its next message, which was not told: it may be asked for again.
    Wanting,
    /// There may be more at once.
    Again,
    /// All has gone out, its end too.
    Done,
    /// A write failed, or took nothing, or its writer took no byte for ten looks.
    Broken,
    /// No memory was found to let a message go out that was told.
    Cut,
}

impl Turn {
    /// Whether the stream is over behind the turn.
    pub fn is_over(self) -> bool
        ensures { result ≡ is_over self }
    {
        matches!(self, Turn::Done | Turn::Broken | Turn::Cut)
    }
}

/// A turn of a stream, by a client: what has not gone out does, as far as it is taken, and then it is
/// told what there is, and so on, up to 16 such steps.
///
/// What goes out is in order, each once, and nothing besides: the chunks of the messages that the
/// engine told its watch, and the last chunk where the watch is no more (`Goes`). The client's events
/// by it tell no other watch anything.
pub fn take_turn<L: EngineName, G: Gate, R: Wait, W: Write>(
    alloc: Global,
    events: &GatedEngine<'_, L, G, R>,
    client: &mut Client<L>,
    line: &mut Line<W>,
) -> Turn
    ensures turned { Turned events.now.engine.now.ids client.old line.old result client.new line.new }
    ensures exact { is_cut result ≡ false → IsExact client.old line.old client.new line.new }
{
    for _ in 0..MOST_STEPS {
        if let Some(turn) = step(alloc, events, client, line) {
            return turn;
        }
    }
    Turn::Again
}

/// One step of a turn; what the turn comes to, where no further one is to follow.
fn step<L: EngineName, G: Gate, R: Wait, W: Write>(
    alloc: Global,
    events: &GatedEngine<'_, L, G, R>,
    client: &mut Client<L>,
    line: &mut Line<W>,
) -> Option<Turn>
    ensures { Steps events.now.engine.now.ids client.old line.old result client.new line.new }
{
    match tell(events, client, line) {
        Next::Told | Next::Ended => None,
        Next::Quiet => Some(Turn::Quiet),
        Next::Wanting => Some(Turn::Wanting),
        Next::Cut => Some(Turn::Cut),
        Next::Waits => sent(alloc, line),
    }
}

/// One write of what has not gone out; what the turn comes to, where no further step is to follow.
fn sent<W: Write>(alloc: Global, line: &mut Line<W>) -> Option<Turn>
    ensures { SentIs line.old result line.new }
{
    if line.is_out() {
        return Some(Turn::Done);
    }
    match line.send(alloc) {
        Ok(_) => None,
        Err(again) => Some(unsent(again, line.is_stale(MOST_LOOKS))),
    }
}

/// What a turn comes to by a write that failed, or took nothing: whether it may be made again, and
/// whether its writer took no byte for long.
fn unsent(again: bool, is_stale: bool) -> Turn
    ensures { result ≡ unsent_turn again is_stale }
{
    if again && !is_stale {
        Turn::Blocked
    } else {
        Turn::Broken
    }
}
