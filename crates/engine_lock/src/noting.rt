//! What is written down of an event, once it is made. What changes nothing but the clock has no line.
ghost use Rattle.std.specs.Prelude.{◌≡◌, not};
ghost use Rattle.trim_core.specs.Told.{told_of};
ghost use Rattle.json_gateway.specs.Endings.{is_done};
ghost use Rattle.recording.specs.Lines.{IsTrimNoted, blank};
ghost use Rattle.event_script.specs.Notes.{NotesCommand, NotesEnding, NotesExpiry, NotesMessage};
ghost use Rattle.event_script.specs.Notes.{says_done};

use crate::asked::Asked;
use json_gateway::{Expiry, Message, Outcome, Refusal, Settled, Trim, Trimmed, WireEvent};
use recording::Lines;
use std::alloc::{AllocError, Global};

/// The lines of a core that nobody has used.
pub(crate) fn first_lines(alloc: Global, is_recorded: bool) -> Lines
    ensures { result ≡ blank (not is_recorded) }
{
    if is_recorded {
        Lines::new(alloc)
    } else {
        Lines::none(alloc)
    }
}

/// A command was done, with this outcome. One that was refused for memory has no line; one that no
/// request asks for ends the lines.
pub(crate) fn note_done(lines: &mut Lines, asked: &Asked<'_>, outcome: &Outcome)
    ensures { NotesCommand outcome.now.settled asked.now.request lines.old lines.new }
{
    if matches!(outcome.settled, Settled::Memory) {
        return;
    }
    match &asked.request {
        Some(event) => lines.note(event),
        None => lines.lose(),
    }
}

/// A watch was told this. One that was told nothing has no line.
pub(crate) fn note_told(lines: &mut Lines, number: u64, told: &Result<Message, AllocError>)
    ensures { NotesMessage number told.now lines.old lines.new }
{
    if let Ok(Message::Text(_)) = told {
        lines.note(&WireEvent::Deliver(number));
    }
}

/// A watch was ended, if it stood. One that did not has no line.
pub(crate) fn note_dropped(lines: &mut Lines, number: u64, stood: bool)
    ensures { NotesEnding number stood lines.old lines.new }
{
    if stood {
        lines.note(&WireEvent::Close(number));
    }
}

/// A step of expiry was made. One that ended no lease has no line.
pub(crate) fn note_expired(lines: &mut Lines, step: &Result<Expiry, Refusal>)
    ensures { NotesExpiry step.now lines.old lines.new }
{
    if let Ok(Expiry::Expired { .. }) = step {
        lines.note(&WireEvent::Expire);
    }
}

/// A trimming step was made.
pub(crate) fn note_trimmed(lines: &mut Lines, step: &Trim)
    ensures { IsTrimNoted (is_done (told_of step.now)) lines.old lines.new }
{
    lines.note_trim(matches!(step, Trim::Done(_)));
}

/// The same, of one that is told with its certificate.
pub(crate) fn note_checked(lines: &mut Lines, step: &Trimmed)
    ensures { IsTrimNoted (says_done step.now) lines.old lines.new }
{
    lines.note_trim(matches!(step, Trimmed::Done { .. }));
}
