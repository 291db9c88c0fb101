//! Lines by which a running server is controlled, answered one at a time.
ghost use Rattle.std.specs.Prelude.{◌≡◌, ◌++◌, ℕ, List, Option, option_map, map};
ghost use Rattle.std.specs.Prelude.{true, codes, Ok, IfOk, IfErr, OnOk, OnErr, IfSome, MatchBool};
ghost use Rattle.std.specs.Str.Lines.{lines};
ghost use Rattle.std.specs.Io.KnownBytes.{Appends, IsAtEnd};
ghost use Rattle.kv_model.specs.Wire.{WireEvent as EventOf, WireOutcome as OutcomeOf};
ghost use Rattle.json_gateway.specs.Runs.{certified_outcome, event_view};
ghost use Rattle.commands.specs.Faults.{is_of_streams, is_read, is_write};
ghost use Rattle.commands.specs.Controlling as spec;
ghost use Rattle.commands.specs.Controlling.{AnswersLine, AnswersLines, IsLineOf, TakesLine};
ghost use Rattle.commands.specs.Controlling.{made_view, order_view};
ghost use Rattle.commands.specs.Writes.{AppendsFront, Writes};

use crate::fault::{Fault, written};
use crate::pieces::write_bytes;
use crate::replies::{write_out_of_memory, write_outcome};
use crate::script::{event_of, first_line};
use json_gateway::{Certified, WireEvent, WireOutcome};
use std::alloc::{AllocError, Global};
use std::io;
use std::io::{BufRead, ErrorKind, Write};

/// What a running server is asked for by a line.
#[derive(Clone, Copy, Debug, PartialEq, Eq)]
pub enum Order {
    /// `AT`: the clock is this moment, in milliseconds, from now on.
    Moment(u64),
    /// `EXPIRE`: the lease that is due first is revoked, if there is one.
    Expire,
    /// `TRIM`: one trimming step is made.
    Trim,
    /// `CERTIFY`: what is kept is shown, with its certificate.
    Certify,
}

/// Does what lines ask a running server for, with a state `S` that stands beside it.
pub trait Controlling<S> {
    /// What an order comes to: its event, its outcome, and the state before and after it.
    ghost Makes: { Self → S → EventOf → OutcomeOf → S → Type 0 };

    /// Does an order. `AllocError` comes where no memory was found for it, and it was not done then.
    fn make(&self, state: &mut S, order: Order) -> Result<WireOutcome, AllocError>
        ensures { Makes self.now state.old (order_view order) (made_view result) state.new };
}

/// Answers lines to their end, each as soon as it was read, by one line that is handed on at once:
/// the very words that a script's reply to it has, of `AT`, `EXPIRE`, `TRIM` and `CERTIFY` (its
/// text of several lines); of any other line, `POST`, `DELIVER` and `CLOSE` too, `bad line`. An
/// order that found no memory, or no memory for its text, is answered `out of memory`.
///
/// **What is written is one line for each line that was read, in order, of what that order came
/// to** (`AnswersLines`), where it is known what the reader gives and the writer holds; where it is
/// not known what the reader gives, it is so of some lines. A line ends as in a script. It stands in
/// memory whole.
///
/// Fails with `Fault::Read` where a read fails, with `Fault::Memory` where a line finds no memory,
/// with `Fault::Endless` after 2^64 - 1 lines, and with `Fault::Write` where a write fails or takes
/// nothing. Then the lines before were answered, and where it is a write, the order of this line was
/// done, and a front of its answer was written.
pub fn control<S, C: Controlling<S>, R: BufRead, W: Write>(
    alloc: Global,
    controls: &C,
    state: &mut S,
    r: &mut R,
    w: &mut W,
) -> Result<(), Fault>
    ensures ok { OnOk result ((read : List (Option EventOf)) × (text : List ℕ)
        × AnswersLines (C.Makes controls.now) read text state.old state.new
        × Appends (W.contents w.old) (W.contents w.new) text
        × IfSome (R.remaining r.old) (λ input. map spec.order_of (lines input) ≡ read)) }
    ensures cut { OnErr result ((read : List (Option EventOf)) × (text : List ℕ)
        × AnswersLines (C.Makes controls.now) read text state.old state.new
        × AppendsFront (W.contents w.old) (W.contents w.new) text
        × IfSome (R.remaining r.old) (λ input. (later : List (Option EventOf))
        × (map spec.order_of (lines input) ≡ read ++ later))) }
    ensures fault { IfErr result (λ fault. is_of_streams fault ≡ true) }
{
    let mut line = Vec::new(alloc);
    for _ in 0..u64::MAX {
        if !take_line(r, &mut line)? {
            return Ok(());
        }
        let (text, _) = first_line(line.as_slice());
        answer_line(alloc, controls, state, text, w)?;
    }
    Err(Fault::Endless)
}

/// Reads a line with its end, in place of what a buffer had, and says whether there was one.
fn take_line<R: BufRead>(r: &mut R, line: &mut Vec<u8>) -> Result<bool, Fault>
    ensures taken { IfOk result (λ more. MatchBool more
        (TakesLine (R.remaining r.old) (R.remaining r.new) line.new.items)
        (IsAtEnd (R.remaining r.old))) }
    ensures fault { IfErr result (λ fault. is_read fault ≡ true) }
{
    line.clear();
    match r.read_until(b'\n', line) {
        Ok(count) => Ok(count > 0),
        Err(error) => Err(fault_of(error)),
    }
}

/// Why a line could not be read.
fn fault_of(error: io::Error) -> Fault
    ensures { is_read result ≡ true }
{
    match error.kind() {
        ErrorKind::OutOfMemory => Fault::Memory,
        _ => Fault::Read(error),
    }
}

/// Does what a line asks for, and answers it.
fn answer_line<S, C: Controlling<S>, W: Write>(
    alloc: Global,
    controls: &C,
    state: &mut S,
    line: &[u8],
    w: &mut W,
) -> Result<(), Fault>
    ensures written { (text : List ℕ)
        × AnswersLine (C.Makes controls.now) (spec.order_of line.now) text state.old state.new
        × Writes result (W.contents w.old) (W.contents w.new) text }
    ensures fault { IfErr result (λ fault. is_write fault ≡ true) }
{
    match order_of(line) {
        Some(order) => {
            let made = controls.make(state, order);
            written(hand_on(alloc, w, order, &made))
        }
        None => written(refuse(w)),
    }
}

/// Writes that a line asks for nothing, and hands it on.
fn refuse<W: Write>(w: &mut W) -> io::Result<()>
    ensures { Writes result (W.contents w.old) (W.contents w.new) (codes "bad line\n") }
{
    write_bytes(w, b"bad line\n")?;
    w.flush()
}

/// Writes what an order came to, and hands it on.
fn hand_on<W: Write>(
    alloc: Global,
    w: &mut W,
    order: Order,
    made: &Result<WireOutcome, AllocError>,
) -> io::Result<()>
    ensures { (text : List ℕ) × IsLineOf (order_view order) (made_view made.now) text
        × Writes result (W.contents w.old) (W.contents w.new) text }
{
    write_made(alloc, w, order, made)?;
    w.flush()
}

/// Writes what an order came to.
fn write_made<W: Write>(
    alloc: Global,
    w: &mut W,
    order: Order,
    made: &Result<WireOutcome, AllocError>,
) -> io::Result<()>
    ensures { (text : List ℕ) × IsLineOf (order_view order) (made_view made.now) text
        × Writes result (W.contents w.old) (W.contents w.new) text }
{
    let event = event_by(order);
    match made {
        Ok(WireOutcome::Certified(Ok(shown))) => write_shown(alloc, w, &event, shown),
        Ok(outcome) => write_outcome(w, &event, outcome),
        Err(_) => write_out_of_memory(w, &event),
    }
}

/// Writes what is kept and its certificate; or that no memory was found for their text.
fn write_shown<W: Write>(
    alloc: Global,
    w: &mut W,
    event: &WireEvent<'_>,
    shown: &Certified,
) -> io::Result<()>
    ensures { (text : List ℕ) × IsLineOf (event_view event.now) (certified_outcome (Ok shown.now)) text
        × Writes result (W.contents w.old) (W.contents w.new) text }
{
    match certificate_text::write(alloc, &shown.dump, &shown.certificate) {
        Ok(text) => write_bytes(w, text.as_slice()),
        Err(_) => write_out_of_memory(w, event),
    }
}

/// The event of a script that an order is.
fn event_by<'a>(order: Order) -> WireEvent<'a>
    ensures { event_view result ≡ order_view order }
{
    match order {
        Order::Moment(now) => WireEvent::Moment(now),
        Order::Expire => WireEvent::Expire,
        Order::Trim => WireEvent::Trim,
        Order::Certify => WireEvent::Certify,
    }
}

/// What a line asks a running server for; `None` for a bad line.
fn order_of(line: &[u8]) -> Option<Order>
    ensures { option_map order_view result ≡ spec.order_of line.now }
{
    match event_of(line) {
        Some(event) => if_order(event),
        None => None,
    }
}

/// The order that an event is; requests and deliveries are none.
fn if_order(event: WireEvent<'_>) -> Option<Order>
    ensures { option_map order_view result ≡ spec.if_order (event_view event.entry) }
{
    match event {
        WireEvent::Moment(now) => Some(Order::Moment(now)),
        WireEvent::Expire => Some(Order::Expire),
        WireEvent::Trim => Some(Order::Trim),
        WireEvent::Certify => Some(Order::Certify),
        WireEvent::Post { .. } | WireEvent::Deliver(_) | WireEvent::Close(_) => None,
    }
}
