//! Lines of a script, for events as they are made.
ghost use Rattle.std.specs.Prelude.{◌≡◌, ◌++◌, ◌∷◌, [], ◌&&◌, MatchBool, OnErr, OnOk, false, true, map, decimal};
ghost use Rattle.json_gateway.specs.Runs.{event_view};
ghost use Rattle.kv_model.specs.Wire as kv_model_events;
ghost use Rattle.recording.specs.Lines.{IsNoted, IsTrimNoted, blank, handed, line_of, lines_of};
ghost use Rattle.recording.specs.Lines.{moment_line, within_line};

use crate::taken::Taken;
use itoa::Buffer;
use json_gateway::WireEvent;
use std::alloc::{AllocError, Global};
use std::marker::Model;

/// The lines of the events so far that were not taken yet.
#[derive(Drop)]
pub struct Lines {
    text: Vec<u8>,
    /// What was taken before, for clauses alone.
    taken: Taken,
    /// Room for the line that is written next.
    line: Vec<u8>,
    /// The greatest moment that was handed in, in milliseconds.
    clock: u64,
    /// The moment of the last `AT`, and 0 before the first.
    told: u64,
    /// Whether the last line is that of a trimming step that said Done.
    is_trimmed: bool,
    /// Whether an event found no memory for its line: no line is written any more.
    is_lost: bool,
}

impl Model for Lines {
    ghost use Rattle.recording.specs.Lines.{Written};

    ghost Value = { Written };

    ghost view = { λ l. record {
      taken = l.taken;
      text = l.text.items;
      clock = l.clock;
      told = l.told;
      is_trimmed = l.is_trimmed;
      is_lost = l.is_lost;
    } };
}

impl Lines {
    /// No event was made, at the moment 0. Takes no memory.
    pub fn new(alloc: Global) -> Self
        ensures { result ≡ blank false }
    {
        Lines::blank(alloc, false)
    }

    /// The same, of events that are not to be written down: no line ever is.
    pub fn none(alloc: Global) -> Self
        ensures { result ≡ blank true }
    {
        Lines::blank(alloc, true)
    }

    fn blank(alloc: Global, is_lost: bool) -> Self
        ensures { result ≡ blank is_lost }
    {
        Lines {
            text: Vec::new(alloc),
            taken: Taken::new(),
            line: Vec::new(alloc),
            clock: 0,
            told: 0,
            is_trimmed: false,
            is_lost,
        }
    }

    /// Takes the moment that is handed in with the next event, in milliseconds; one before an
    /// earlier one leaves the clock.
    pub fn hand_in(&mut self, now: u64)
        ensures { self.new ≡ handed self.old now }
    {
        self.clock = self.clock.max(now);
    }

    /// An event was made that has no line: none is written any more.
    pub fn lose(&mut self)
        ensures { self.new ≡ record self.old { is_lost = true } }
    {
        self.is_lost = true;
    }

    /// Writes down an event, which has just been made: its line, and before it `AT` and the clock
    /// where that has moved since the last. Where no memory is found for all of it, nothing is
    /// written, and nothing ever will be.
    ///
    /// Linear in the line.
    pub fn note(&mut self, event: &WireEvent<'_>)
        ensures { IsNoted (event_view event.now) self.old self.new }
    {
        if self.is_lost {
            return;
        }
        match self.add(event) {
            Ok(()) => {
                self.told = self.clock;
                self.is_trimmed = false;
            }
            Err(_) => self.is_lost = true,
        }
    }

    /// Appends the line of an event, and before it that of the clock where it has moved.
    fn add(&mut self, event: &WireEvent<'_>) -> Result<(), AllocError>
        ensures added { OnOk result (self.new.text
            ≡ self.old.text ++ lines_of self.old.told self.old.clock (event_view event.now)) }
        ensures same { OnErr result (self.new.text ≡ self.old.text) }
        ensures others { self.new ≡ record self.old { text = self.new.text } }
    {
        self.line.clear();
        append(&mut self.line, self.told, self.clock, event)?;
        self.text.extend_from_slice(self.line.as_slice())
    }

    /// Writes down a trimming step; one that says Done behind another is no event of its own, since
    /// nothing has happened between them.
    pub fn note_trim(&mut self, is_done: bool)
        ensures { IsTrimNoted is_done self.old self.new }
    {
        if self.has_said(is_done) {
            return;
        }
        self.note(&WireEvent::Trim);
        self.mark(is_done);
    }

    /// The last line is that of a trimming step, which said Done or not.
    fn mark(&mut self, is_done: bool)
        ensures { self.new ≡ record self.old { is_trimmed = is_done } }
    {
        self.is_trimmed = is_done;
    }

    /// Whether a trimming step says what the line before it says: that trimming is done.
    fn has_said(&self, is_done: bool) -> bool
        ensures { result ≡ (is_done && self.now.is_trimmed) }
    {
        is_done && self.is_trimmed
    }

    /// Puts the text in place of what a list had, and is left with none. Says whether it is all of
    /// it: no event's line was lost for want of memory. Constant time.
    pub fn take(&mut self, text: &mut Vec<u8>) -> bool
        ensures text { text.new.items ≡ self.old.text }
        ensures left { self.new
            ≡ record self.old { taken = self.old.taken ++ self.old.text ∷ []; text = [] } }
        ensures all { MatchBool result (self.old.is_lost ≡ false) (self.old.is_lost ≡ true) }
    {
        text.clear();
        std::mem::swap(&mut self.text, text);
        self.taken.add(text);
        !self.is_lost
    }
}

/// Appends the line of an event, and before it that of the clock where it is not the moment that was
/// told.
fn append(
    text: &mut Vec<u8>,
    told: u64,
    clock: u64,
    event: &WireEvent<'_>,
) -> Result<(), AllocError>
    ensures { OnOk result (text.new.items
        ≡ text.old.items ++ lines_of told clock (event_view event.now)) }
{
    append_moment(text, told, clock)?;
    append_line(text, event)
}

/// Appends the line of the clock, where it is not the moment that was told.
fn append_moment(text: &mut Vec<u8>, told: u64, clock: u64) -> Result<(), AllocError>
    ensures { OnOk result (text.new.items ≡ text.old.items ++ moment_line told clock) }
{
    if told == clock {
        return Ok(());
    }
    append_numbered(text, b"AT ", clock)
}

/// Appends the line of an event.
fn append_line(text: &mut Vec<u8>, event: &WireEvent<'_>) -> Result<(), AllocError>
    ensures { OnOk result (text.new.items ≡ text.old.items ++ line_of (event_view event.now)) }
{
    match event {
        WireEvent::Moment(now) => append_numbered(text, b"AT ", *now),
        WireEvent::Post { path, body } => append_post(text, path, body),
        WireEvent::Deliver(number) => append_numbered(text, b"DELIVER ", *number),
        WireEvent::Close(number) => append_numbered(text, b"CLOSE ", *number),
        WireEvent::Expire => text.extend_from_slice(b"EXPIRE\n"),
        WireEvent::Trim => text.extend_from_slice(b"TRIM\n"),
        WireEvent::Certify => text.extend_from_slice(b"CERTIFY\n"),
    }
}

/// Appends words, a number and a line feed.
fn append_numbered(text: &mut Vec<u8>, words: &[u8], number: u64) -> Result<(), AllocError>
    ensures { OnOk result (text.new.items
        ≡ text.old.items ++ words.now ++ decimal number ++ 10 ∷ []) }
{
    let mut digits = Buffer::new();
    text.extend_from_slice(words)?;
    text.extend_from_slice(digits.format(number).as_bytes())?;
    text.extend_from_slice(b"\n")
}

/// Appends the line of a request.
fn append_post(text: &mut Vec<u8>, path: &[u8], body: &[u8]) -> Result<(), AllocError>
    ensures { OnOk result (text.new.items ≡ text.old.items
        ++ line_of (kv_model_events.WireEvent.post path.now body.now)) }
{
    text.extend_from_slice(b"POST ")?;
    text.extend_from_slice(path)?;
    text.extend_from_slice(b" ")?;
    append_body(text, body)?;
    text.extend_from_slice(b"\n")
}

/// Appends a body, with a space in place of each byte that would end the line.
fn append_body(text: &mut Vec<u8>, body: &[u8]) -> Result<(), AllocError>
    ensures { OnOk result (text.new.items ≡ text.old.items ++ map within_line body.now) }
{
    text.reserve(body.len())?;
    for byte in body {
        text.push(within_line(*byte))?;
    }
    Ok(())
}

/// A byte of a line: one that would end it is a space.
fn within_line(byte: u8) -> u8
    ensures { result ≡ within_line byte }
{
    match byte {
        b'\n' | b'\r' => b' ',
        _ => byte,
    }
}
