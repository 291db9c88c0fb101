//! The replies to a script's lines, written in their order.
ghost use Rattle.std.specs.Prelude.{◌≡◌, ◌++◌, ◌∷◌, [], List, Option, Bool, ℕ, Err, true, drop};
ghost use Rattle.std.specs.Prelude.{codes, decimal, map, IfOk, IfErr};
ghost use Rattle.std.specs.Fmt.{signed_decimal};
ghost use Rattle.json_gateway.specs.Outcomes.{wire_response};
ghost use Rattle.json_gateway.specs.Runs.{command_view, event_view, expired_view, expiry_outcome};
ghost use Rattle.json_gateway.specs.Runs.{message_view, trimmed_view};
ghost use Rattle.kv_model.specs.Wire.{closed};
ghost use Rattle.commands.specs.Replies as spec;
ghost use Rattle.commands.specs.Said.{bytes_of, line_said, line_shown, one_line, replies_said};
ghost use Rattle.commands.specs.Said.{first_text, other_texts, outcomes_from, texts_from};
ghost use Rattle.commands.specs.Said.{texts_left};
ghost use Rattle.commands.specs.Faults.{is_write};
ghost use Rattle.commands.specs.Writes.{Writes};

use crate::fault::{Fault, written};
use crate::pieces::{write_bytes, write_number, write_pieces, write_rev};
use crate::said::Said;
use crate::script::Lines;
use itoa::Buffer;
use json_gateway::{Expiry, Message, Outcome, Settled, Trimmed, Unexpired, WireEvent, WireOutcome};
use std::io;
use std::io::Write;

/// Writes the replies to all lines, and hands them on. Where that fails, a front of them was
/// written, and nothing more is.
pub fn write_out<W: Write>(w: &mut W, lines: &Lines<'_>, said: &Said) -> Result<(), Fault>
    ensures replies { Writes result (W.contents w.old) (W.contents w.new)
        (replies_said lines.now.are_events.items (map event_view lines.now.events.items)
        said.now.outcomes.items (map bytes_of said.now.texts.items)) }
    ensures err { IfErr result (λ fault. is_write fault ≡ true) }
{
    written(hand_on(w, lines, said))
}

/// Writes the replies to all lines, and hands them on.
fn hand_on<W: Write>(w: &mut W, lines: &Lines<'_>, said: &Said) -> io::Result<()>
    ensures { Writes result (W.contents w.old) (W.contents w.new)
        (replies_said lines.now.are_events.items (map event_view lines.now.events.items)
        said.now.outcomes.items (map bytes_of said.now.texts.items)) }
{
    write_replies(w, lines, said)?;
    w.flush()
}

/// Where the writing of replies has come to.
#[derive(Clone, Copy)]
struct Place {
    /// The place of the next event, and of its outcome.
    event: usize,
    /// The place of the next text of what is kept.
    text: usize,
}

/// Writes a reply for each line: `bad line`, or what is said to the next event.
fn write_replies<W: Write>(w: &mut W, lines: &Lines<'_>, said: &Said) -> io::Result<()>
    ensures { Writes result (W.contents w.old) (W.contents w.new)
        (replies_said lines.now.are_events.items (map event_view lines.now.events.items)
        said.now.outcomes.items (map bytes_of said.now.texts.items)) }
{
    let mut place = Place { event: 0, text: 0 };
    for is_event in &lines.are_events {
        place = write_line(w, *is_event, &lines.events, said, place)?;
    }
    Ok(())
}

/// Writes the reply for a line: `bad line`, or what is said to the event at a place. Gives the
/// place of what comes next.
fn write_line<W: Write>(
    w: &mut W,
    is_event: bool,
    events: &[WireEvent<'_>],
    said: &Said,
    place: Place,
) -> io::Result<Place>
    ensures written { Writes result (W.contents w.old) (W.contents w.new)
        (line_said is_event (map event_view (drop place.event events.now))
        (outcomes_from said.now place) (texts_from said.now place)) }
    ensures next { IfOk result (λ next. (flags : List Bool)
        → replies_said (is_event ∷ flags) (map event_view (drop place.event events.now))
        (outcomes_from said.now place) (texts_from said.now place)
        ≡ line_said is_event (map event_view (drop place.event events.now))
        (outcomes_from said.now place) (texts_from said.now place)
        ++ replies_said flags (map event_view (drop next.event events.now))
        (outcomes_from said.now next) (texts_from said.now next)) }
{
    if !is_event {
        write_bytes(w, b"bad line\n")?;
        return Ok(place);
    }
    match events.get(place.event) {
        Some(event) => match said.outcomes.get(place.event) {
            Some(outcome) => {
                let text = write_said(w, event, outcome, &said.texts, place.text)?;
                Ok(Place {
                    event: place.event + 1,
                    text,
                })
            }
            None => Ok(place),
        },
        None => Ok(place),
    }
}

/// Writes what is said to an event: the text at a place, where its outcome shows what is kept, and
/// else its line. Gives the place of the text that comes next.
fn write_said<W: Write>(
    w: &mut W,
    event: &WireEvent<'_>,
    outcome: &WireOutcome,
    texts: &[Vec<u8>],
    place: usize,
) -> io::Result<usize>
    ensures written { Writes result (W.contents w.old) (W.contents w.new)
        (line_shown (event_view event.now) outcome.now (map bytes_of (drop place texts.now))) }
    ensures next { IfOk result (λ next. map bytes_of (drop next texts.now)
        ≡ texts_left outcome.now (map bytes_of (drop place texts.now))) }
{
    match outcome {
        WireOutcome::Certified(Ok(_)) => write_text(w, texts, place),
        other => {
            write_outcome(w, event, other)?;
            Ok(place)
        }
    }
}

/// Writes the text at a place, if there is one. Gives the place behind it.
fn write_text<W: Write>(w: &mut W, texts: &[Vec<u8>], place: usize) -> io::Result<usize>
    ensures written { Writes result (W.contents w.old) (W.contents w.new)
        (first_text (map bytes_of (drop place texts.now))) }
    ensures next { IfOk result (λ next. map bytes_of (drop next texts.now)
        ≡ other_texts (map bytes_of (drop place texts.now))) }
{
    match texts.get(place) {
        Some(text) => {
            write_bytes(w, text.as_slice())?;
            Ok(place + 1)
        }
        None => Ok(place),
    }
}

/// Writes the line of an event's outcome. What is kept has lines of its own: without them no memory
/// was found.
pub fn write_outcome<W: Write>(
    w: &mut W,
    event: &WireEvent<'_>,
    outcome: &WireOutcome,
) -> io::Result<()>
    ensures { Writes result (W.contents w.old) (W.contents w.new)
        (one_line (event_view event.now) outcome.now) }
{
    match outcome {
        WireOutcome::Posted(posted) => write_posted(w, event, posted),
        WireOutcome::Clock(clock) => write_clock(w, *clock),
        WireOutcome::Expiry(Ok(expiry)) => write_expiry(w, *expiry),
        WireOutcome::Expiry(Err(why)) => write_unexpired(w, event, *why),
        WireOutcome::Delivered(Ok(message)) => write_message(w, message),
        WireOutcome::Delivered(Err(_)) => write_out_of_memory(w, event),
        WireOutcome::Closed(stood) => write_closed(w, *stood),
        WireOutcome::Trimmed(trimmed) => write_trimmed(w, trimmed),
        WireOutcome::Certified(_) => write_out_of_memory(w, event),
    }
}

fn write_posted<W: Write>(w: &mut W, event: &WireEvent<'_>, posted: &Outcome) -> io::Result<()>
    ensures { Writes result (W.contents w.old) (W.contents w.new)
        (spec.outcome_line (event_view event.now) (command_view posted.now)) }
{
    match &posted.settled {
        Settled::Memory => write_out_of_memory(w, event),
        Settled::Reply(_) | Settled::Lost(_) => write_settled(w, &posted.settled),
    }
}

fn write_settled<W: Write>(w: &mut W, settled: &Settled) -> io::Result<()>
    ensures { Writes result (W.contents w.old) (W.contents w.new)
        (spec.response_line (wire_response settled.now)) }
{
    let (status, body) = settled.wire();
    write_response(w, status, body)
}

/// Writes that an event found no memory.
pub fn write_out_of_memory<W: Write>(w: &mut W, event: &WireEvent<'_>) -> io::Result<()>
    ensures { Writes result (W.contents w.old) (W.contents w.new)
        (spec.memory_line (event_view event.now)) }
{
    match event {
        WireEvent::Post { .. } => write_settled(w, &Settled::Memory),
        _ => write_bytes(w, b"out of memory\n"),
    }
}

fn write_clock<W: Write>(w: &mut W, clock: u64) -> io::Result<()>
    ensures { Writes result (W.contents w.old) (W.contents w.new) (spec.clock_line clock) }
{
    write_number(w, b"at ", clock)
}

fn write_expiry<W: Write>(w: &mut W, expiry: Expiry) -> io::Result<()>
    ensures { Writes result (W.contents w.old) (W.contents w.new)
        (spec.expiry_line (expired_view expiry)) }
{
    match expiry {
        Expiry::Nothing => write_bytes(w, b"nothing\n"),
        Expiry::Expired { id, revision, .. } => write_expired(w, id, revision),
    }
}

fn write_expired<W: Write>(w: &mut W, id: i64, revision: u64) -> io::Result<()>
    ensures { Writes result (W.contents w.old) (W.contents w.new)
        (codes "expired " ++ signed_decimal id ++ codes " revision " ++ decimal revision
        ++ 10 ∷ []) }
{
    let (mut lease, mut after) = (Buffer::new(), Buffer::new());
    let id = lease.format(id).as_bytes();
    let revision = after.format(revision).as_bytes();
    write_pieces(w, &[b"expired ", id, b" revision ", revision, b"\n"])
}

/// Writes why a step of expiry was refused.
fn write_unexpired<W: Write>(w: &mut W, event: &WireEvent<'_>, why: Unexpired) -> io::Result<()>
    ensures { Writes result (W.contents w.old) (W.contents w.new)
        (spec.outcome_line (event_view event.now) (expiry_outcome (Err why))) }
{
    match why {
        Unexpired::Memory => write_out_of_memory(w, event),
        Unexpired::RevisionsSpent => write_bytes(w, b"revisions are spent\n"),
    }
}

/// Writes what a watch was told.
fn write_message<W: Write>(w: &mut W, message: &Message) -> io::Result<()>
    ensures { Writes result (W.contents w.old) (W.contents w.new)
        (spec.told_line (message_view message.now)) }
{
    match message {
        Message::NoWatch => write_bytes(w, b"no watch\n"),
        Message::Nothing => write_bytes(w, b"nothing\n"),
        Message::Text(text) => write_pieces(w, &[text.as_slice(), b"\n"]),
    }
}

/// Writes whether a watch was closed.
fn write_closed<W: Write>(w: &mut W, stood: bool) -> io::Result<()>
    ensures { Writes result (W.contents w.old) (W.contents w.new)
        (spec.told_line (closed stood)) }
{
    if stood {
        write_bytes(w, b"closed\n")
    } else {
        write_bytes(w, b"no watch\n")
    }
}

/// Writes what a trimming step did, and where it is done whether there is a certificate of it.
fn write_trimmed<W: Write>(w: &mut W, trimmed: &Trimmed) -> io::Result<()>
    ensures { Writes result (W.contents w.old) (W.contents w.new)
        (spec.told_line (trimmed_view trimmed.now)) }
{
    match trimmed {
        Trimmed::Removed(rev) => write_rev(w, b"removed ", *rev),
        Trimmed::Kept(rev) => write_rev(w, b"kept ", *rev),
        Trimmed::Done { count, certificate } => write_done(w, *count, certificate.is_some()),
    }
}

/// Writes how many versions are kept, where trimming is done, and where there is no certificate
/// that they are not checked.
fn write_done<W: Write>(w: &mut W, count: u64, certified: bool) -> io::Result<()>
    ensures { Writes result (W.contents w.old) (W.contents w.new)
        (spec.done_line count certified) }
{
    if certified {
        write_count(w, count, b"\n")
    } else {
        write_count(w, count, b" unchecked\n")
    }
}

/// Writes how many versions are kept, and how the line ends.
fn write_count<W: Write>(w: &mut W, count: u64, end: &[u8]) -> io::Result<()>
    ensures { Writes result (W.contents w.old) (W.contents w.new)
        (codes "done " ++ decimal count ++ end.now) }
{
    let mut digits = Buffer::new();
    write_pieces(w, &[b"done ", digits.format(count).as_bytes(), end])
}

/// Writes a status, a space, a body and a line feed.
fn write_response<W: Write>(w: &mut W, status: u16, body: &[u8]) -> io::Result<()>
    ensures { Writes result (W.contents w.old) (W.contents w.new)
        (spec.response_line (record { status = status; body = body.now })) }
{
    let mut digits = Buffer::new();
    write_pieces(w, &[digits.format(status).as_bytes(), b" ", body, b"\n"])
}
