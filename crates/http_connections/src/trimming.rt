//! The trimming that an answer waits for, some steps of it at a time.
ghost use Rattle.std.specs.Prelude.{◌≡◌, ◌<◌};
ghost use Rattle.http_connections.specs.Lines.{TrimsSome, lost_wait};

use crate::awaiting::Trimming;
use crate::by_engine::MOST_REFUSALS;
use engine_lock::{Client, EngineName};
use http_loop::Waiting;
use http_peer::Gate;
use json_gateway::{Outcome, Settled, Trim};
use recorded_engine::GatedEngine;
use std::sync::Wait;

/// How many trimming steps a turn makes.
const MOST_STEPS: u64 = 100;

/// How far trimming has come.
#[derive(Drop)]
pub(crate) enum Trimmed {
    /// It is done.
    Done,
    /// It was given up: 1,000 steps in a row found no memory.
    Lost,
    /// More steps are to follow; so many of the last ones found no memory.
    Left(u64),
}

/// Makes at most 100 trimming steps, of which so many before them were refused for memory in a row. Each
/// step that is not refused is an event of the client.
pub(crate) fn trim_some<L: EngineName, G: Gate, R: Wait>(
    events: &GatedEngine<'_, L, G, R>,
    client: &mut Client<L>,
    refusals: u64,
) -> Trimmed
    requires { refusals < 1000 }
    ensures { TrimsSome events.now.engine.now.ids client.old refusals result client.new }
{
    let mut refusals = refusals;
    for _ in 0..MOST_STEPS {
        match events.trim_once(client) {
            Ok(Trim::Done(_)) => return Trimmed::Done,
            Ok(_) => refusals = 0,
            Err(_) => {
                refusals += 1;
                if refusals == MOST_REFUSALS {
                    return Trimmed::Lost;
                }
            }
        }
    }
    Trimmed::Left(refusals)
}

/// The answer of a command that changed the store is lost.
pub(crate) fn lost(trimming: Trimming) -> Waiting
    ensures { result ≡ lost_wait trimming.waiting trimming.revision }
{
    let Trimming {
        waiting,
        revision,
        ..
    } = trimming;
    Waiting {
        outcome: Outcome {
            settled: Settled::Lost(revision),
            raised: waiting.outcome.raised,
            watch: waiting.outcome.watch,
            waits: false,
        },
        close: waiting.close,
    }
}
