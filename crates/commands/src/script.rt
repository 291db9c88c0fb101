//! A script: its lines, and the events that they ask for.
//!
//! A line ends at a line feed; a carriage return before that is dropped, and a last line without a
//! line feed counts. The words of a line are split at single spaces.
ghost use Rattle.std.specs.Prelude.{◌≡◌, ◌<◌, ◌≤◌, ℕ, ◌∷◌, length, map, option_map};
ghost use Rattle.std.specs.Prelude.{IfOk, MatchOption};
ghost use Rattle.std.specs.List.{position_or_len, before_first, after_first};
ghost use Rattle.std.specs.Str.Lines.{lines, strip_carriage_return};
ghost use Rattle.json_gateway.specs.Runs.{event_view};
ghost use Rattle.commands.specs.Lines.{AreLines};
ghost use Rattle.commands.specs.Script as script;

use json_gateway::WireEvent;
use memchr::memchr;
use std::alloc::{AllocError, Global};
use std::str;

/// The most bytes of a line, without its end, that can be an event.
pub const LONGEST_LINE: usize = 1_700_000;

/// The lines of a script: the events that they ask for, and of each line whether it asks for one.
#[derive(Drop)]
pub struct Lines<'a> {
    /// The events, in order.
    pub events: Vec<WireEvent<'a>>,
    /// Of each line, in order, whether it is that of an event; else it is a bad line.
    pub are_events: Vec<bool>,
}

/// The lines of a script.
///
/// The events borrow their words from the script. Fails for want of memory.
pub fn line_events(alloc: Global, text: &[u8]) -> Result<Lines<'_>, AllocError>
    ensures { IfOk result (λ ls. AreLines ls (script.line_events text.now)) }
{
    let mut events = Vec::new(alloc);
    let mut are_events = Vec::new(alloc);
    let mut rest = text;
    while !rest.is_empty() {
        let (line, later) = first_line(rest);
        match event_of(line) {
            Some(event) => {
                events.push(event)?;
                are_events.push(true)?;
            }
            None => are_events.push(false)?,
        }
        rest = later;
    }
    Ok(Lines { events, are_events })
}

/// The event that a line asks for; `None` for a bad line, one above `LONGEST_LINE` bytes or of no
/// form.
///
/// The forms are `POST path body`, `AT moment`, `DELIVER number`, `CLOSE number`, `EXPIRE`, `TRIM`
/// and `CERTIFY`. The body is the rest of the line, its spaces too, and may be missing; the path
/// may be empty. The moment is in milliseconds, and the number that of a watch: both are decimal
/// digits alone, of a number of 64 bits.
pub fn event_of(line: &[u8]) -> Option<WireEvent<'_>>
    ensures { option_map event_view result ≡ script.event_of line.now }
{
    if line.len() > LONGEST_LINE {
        return None;
    }
    let (word, rest) = cut(line, b' ');
    match rest {
        Some(rest) => event_with(word, rest),
        None => event_alone(word),
    }
}

/// What a line of one word asks for.
fn event_alone<'a>(word: &[u8]) -> Option<WireEvent<'a>>
    ensures { option_map event_view result ≡ script.event_alone word.now }
{
    if word == b"EXPIRE".as_slice() {
        Some(WireEvent::Expire)
    } else if word == b"TRIM".as_slice() {
        Some(WireEvent::Trim)
    } else if word == b"CERTIFY".as_slice() {
        Some(WireEvent::Certify)
    } else {
        None
    }
}

/// What a line's first word asks for, with the text after the space that ends it.
fn event_with<'a>(word: &[u8], rest: &'a [u8]) -> Option<WireEvent<'a>>
    ensures { option_map event_view result ≡ script.event_with word.now rest.now }
{
    if word == b"POST".as_slice() {
        return Some(post(rest));
    }
    match number_of(rest) {
        Some(number) => event_numbered(word, number),
        None => None,
    }
}

/// What a word asks for, with the number after it.
fn event_numbered<'a>(word: &[u8], number: u64) -> Option<WireEvent<'a>>
    ensures { option_map event_view result ≡ script.event_numbered word.now number }
{
    if word == b"AT".as_slice() {
        Some(WireEvent::Moment(number))
    } else if word == b"DELIVER".as_slice() {
        Some(WireEvent::Deliver(number))
    } else if word == b"CLOSE".as_slice() {
        Some(WireEvent::Close(number))
    } else {
        None
    }
}

/// The number of 64 bits that a text writes by decimal digits alone, zeros before them too.
fn number_of(text: &[u8]) -> Option<u64>
    ensures { result ≡ script.number_of text.now }
{
    match str::from_utf8(text) {
        Ok(text) => unsigned_64(text),
        Err(_) => None,
    }
}

fn unsigned_64(text: &str) -> Option<u64>
    ensures { result ≡ script.number_of text.now }
{
    if text.starts_with('+') {
        None
    } else {
        text.parse().ok()
    }
}

fn post(rest: &[u8]) -> WireEvent<'_>
    ensures { event_view result ≡ script.post_of rest.now }
{
    let (path, body) = cut(rest, b' ');
    match body {
        Some(body) => WireEvent::Post { path, body },
        None => WireEvent::Post { path, body: b"" },
    }
}

/// The first line of a text that is not empty, without its end, and the text after that.
pub fn first_line(text: &[u8]) -> (&[u8], &[u8])
    requires { 0 < length text.now }
    ensures line { lines text.now ≡ result.0.now ∷ lines result.1.now }
    ensures shorter { length result.1.now < length text.now }
{
    let (line, rest) = cut(text, b'\n');
    match rest {
        Some(rest) => (without_return(line), rest),
        None => (line, b""),
    }
}

fn without_return(line: &[u8]) -> &[u8]
    ensures { result.now ≡ strip_carriage_return line.now }
{
    let len = line.len();
    if len > 0 && line[len - 1] == b'\r' {
        &line[..len - 1]
    } else {
        line
    }
}

/// The bytes before the first `at`, and those after it where there is one.
fn cut(text: &[u8], at: u8) -> (&[u8], Option<&[u8]>)
    ensures before { result.0.now ≡ before_first (script.is at) text.now }
    ensures after { MatchOption result.1 (length text.now ≤ position_or_len (script.is at) text.now)
        (λ rest. (position_or_len (script.is at) text.now < length text.now)
        × (rest.now ≡ after_first (script.is at) text.now)) }
{
    let end = index_or_len(text, at);
    if end < text.len() {
        (&text[..end], Some(&text[end + 1..]))
    } else {
        (text, None)
    }
}

/// The index of the first `at`, and the length where there is none.
fn index_or_len(text: &[u8], at: u8) -> usize
    ensures { result ≡ position_or_len (script.is at) text.now }
{
    match memchr(at, text) {
        Some(index) => index,
        None => text.len(),
    }
}
