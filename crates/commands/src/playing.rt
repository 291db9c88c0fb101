//! A script that is played: the events of its lines, made one after the other.
ghost use Rattle.std.specs.Prelude.{◌≡◌, false, IfErr, OnOk};
ghost use Rattle.kv_model.specs.Wire.{WireEvent as EventOf, WireOutcome as OutcomeOf};
ghost use Rattle.json_gateway.specs.Runs.{event_view};
ghost use Rattle.commands.specs.Controlling.{made_view};
ghost use Rattle.commands.specs.Playing as spec;
ghost use Rattle.commands.specs.Playing.{AreAllEvents, IsFirstWithout, PlaysLine, PlaysLines};
ghost use Rattle.commands.specs.Playing.{StopsLine, StopsPlaying};
ghost use Rattle.commands.specs.Script as lines;

use crate::fault::Fault;
use crate::script::{event_of, first_line};
use json_gateway::{Settled, Unexpired, WireEvent, WireOutcome};
use std::alloc::AllocError;

/// Makes the events of a script, with a state `S` that stands beside it.
pub trait Playing<S> {
    /// What an event comes to: its outcome, and the state before and after it.
    ghost Makes: { Self → S → EventOf → OutcomeOf → S → Type 0 };

    /// Makes an event. `AllocError` comes where no memory was found for it, and it was not made then.
    fn make(&self, state: &mut S, event: WireEvent<'_>) -> Result<WireOutcome, AllocError>
        ensures { Makes self.now state.old (event_view event.entry) (made_view result) state.new };
}

/// Makes the events of a script, line by line, each once. What they come to is told to nobody. Takes
/// no memory but for the events themselves.
///
/// Ends at the first line that asks for no event, with `Fault::NoEvent`, and at the first whose event
/// found no memory, with `Fault::Unplayed`, both with the number of the line, counted from 1; then
/// the events of the lines before it were made, and none behind it. An event that was made, and whose
/// answer alone found no memory, is none of these.
pub fn play<S, P: Playing<S>>(plays: &P, state: &mut S, script: &[u8]) -> Result<(), Fault>
    ensures ok { OnOk result (PlaysLines (P.Makes plays.now) (lines.line_events script.now)
        state.old state.new) }
    ensures fault { IfErr result (λ fault. StopsPlaying (P.Makes plays.now)
        (lines.line_events script.now) state.old fault state.new) }
{
    let mut number: u64 = 0;
    let mut rest = script;
    while !rest.is_empty() {
        let (line, later) = first_line(rest);
        number += 1;
        match play_line(plays, state, line, number) {
            Ok(()) => rest = later,
            Err(fault) => return Err(fault),
        }
    }
    Ok(())
}

/// Makes the event of the line of this number.
fn play_line<S, P: Playing<S>>(
    plays: &P,
    state: &mut S,
    line: &[u8],
    number: u64,
) -> Result<(), Fault>
    ensures ok { OnOk result
        (PlaysLine (P.Makes plays.now) (lines.event_of line.now) state.old state.new) }
    ensures fault { IfErr result (λ fault. StopsLine (P.Makes plays.now)
        (lines.event_of line.now) number state.old fault state.new) }
{
    let Some(event) = event_of(line) else {
        return Err(Fault::NoEvent(number));
    };
    let made = plays.make(state, event);
    if is_memory(&made) {
        return Err(Fault::Unplayed(number));
    }
    Ok(())
}

/// Whether no memory was found for an event, which then was not made.
fn is_memory(made: &Result<WireOutcome, AllocError>) -> bool
    ensures { result ≡ spec.is_memory (made_view made.now) }
{
    match made {
        Ok(WireOutcome::Posted(outcome)) => matches!(outcome.settled, Settled::Memory),
        Ok(WireOutcome::Expiry(Err(why))) => *why == Unexpired::Memory,
        Ok(WireOutcome::Delivered(told)) => told.is_err(),
        Ok(WireOutcome::Certified(shown)) => shown.is_err(),
        Ok(_) => false,
        Err(_) => true,
    }
}

/// Makes no event.
#[derive(Clone, Copy)]
struct Unmade;

impl Playing<()> for Unmade {
    ghost Makes = { λ by s e o t. spec.is_memory o ≡ false };

    fn make(&self, _state: &mut (), _event: WireEvent<'_>) -> Result<WireOutcome, AllocError> {
        Ok(WireOutcome::Clock(0))
    }
}

/// Sees to it that each line of a script asks for an event, and makes none. Takes no memory.
///
/// Fails as [`play`] does with `Fault::NoEvent`.
pub fn check_script(script: &[u8]) -> Result<(), Fault>
    ensures ok { OnOk result (AreAllEvents (lines.line_events script.now)) }
    ensures fault { IfErr result (IsFirstWithout (lines.line_events script.now)) }
{
    play(&Unmade, &mut (), script)
}
