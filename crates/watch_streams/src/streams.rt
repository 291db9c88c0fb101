//! The streams that stand, and the client that has their watches told.
ghost use Rattle.std.specs.Prelude.{◌≡◌, ◌⊎◌, [], ◌++◌, MatchBool, MatchOption, OnErr, OnOk, option_copied};
ghost use Rattle.std.specs.BTreeMap.{keys};
ghost use mathlib.Core.List.{IsPrefix};
ghost use Rattle.kv_model.specs.Lists.{is_empty};
ghost use Rattle.watch_streams.specs.Lines.{aged, closed};
ghost use Rattle.watch_streams.specs.Ends.{AtEnd, Hears, MayTurn, Parts, Refuses, Serves};
ghost use Rattle.watch_streams.specs.Sets.{ChangesOne, LetsGo};
ghost use Rattle.watch_streams.specs.Sets.{begun, first_number, is_unsent, line_at, numbers};
ghost use Rattle.watch_streams.specs.Turns.{is_over};
ghost use Rattle.watch_streams.specs.declared.hearing.Heard.TheVariants as heard;

use crate::hearing::{Heard, Hearing};
use crate::line::Line;
use crate::turning::{Turn, take_turn};
use engine_lock::{Client, EngineName};
use http_peer::Gate;
use recorded_engine::GatedEngine;
use std::alloc::{AllocError, Global};
use std::collections::BTreeMap;
use std::io::Write;
use std::marker::Model;
use std::sync::Wait;

/// The streams that stand, each by the number of its watch, and the client of the engine that has
/// these told. That each stands by the number of its own watch is its invariant.
#[derive(Drop)]
pub struct Streams<L: EngineName, W: Write> {
    alloc: Global,
    client: Client<L>,
    lines: BTreeMap<u64, Line<W>>,
}

impl<L: EngineName, W: Write> Model for Streams<L, W> {
    ghost use Rattle.std.specs.Coded.{codes};
    ghost use Rattle.kv_model.specs.contracts.call.Command as commands;
    ghost use Rattle.snapshot_feed.specs.contracts.reader.SnapReader as reads;
    ghost use Rattle.watch_streams.specs.Sets.{AreNumbered, SetState};

    ghost Value = { SetState };

    ghost coded = { Prim.hlevel (codes, commands.the_row.coded, reads.the_row.coded) };

    ghost view = { λ s. record { client = s.client; lines = s.lines.entries } };

    ghost invariant = { λ s. AreNumbered s.lines.entries };
}

impl<L: EngineName, W: Write + Drop> Streams<L, W> {
    /// No stream. Takes no memory.
    pub fn new(alloc: Global, client: Client<L>) -> Self
        ensures { result ≡ record { client = client; lines = [] } }
    {
        Streams {
            alloc,
            client,
            lines: BTreeMap::new(alloc),
        }
    }

    /// The client is handed back.
    pub fn into_client(self) -> Client<L>
        ensures { result ≡ self.client }
    {
        let Streams { client, .. } = self;
        client
    }

    /// Whether none stands.
    pub fn is_empty(&self) -> bool
        ensures { result ≡ is_empty self.now.lines }
    {
        self.lines.is_empty()
    }

    /// The stream of a watch, if it stands.
    pub fn get(&self, number: u64) -> Option<&Line<W>>
        ensures { option_copied result ≡ line_at number self.now }
    {
        self.lines.get(&number)
    }

    /// The first of the numbers of the streams that stand.
    pub fn first(&self) -> Option<u64>
        ensures { result ≡ first_number self.now }
    {
        match self.lines.first_key_value() {
            Some((number, _)) => Some(*number),
            None => None,
        }
    }

    /// Adds the numbers of the streams that stand to a list, in rising order. `AllocError` comes at the
    /// first for which no memory was found there; those before it were added.
    pub fn numbers(&self, list: &mut Vec<u64>) -> Result<(), AllocError>
        ensures ok { OnOk result (list.new.items ≡ list.old.items ++ numbers self.now) }
        ensures err { OnErr result (IsPrefix list.new.items (list.old.items ++ numbers self.now)) }
    {
        add_keys(&self.lines, list)
    }

    /// Takes note that the stream of a watch was looked at, where anything has not gone out of it, and
    /// says whether anything has not.
    pub fn ages(&mut self, number: u64) -> bool
        ensures one { ChangesOne aged number self.old self.new }
        ensures unsent { result ≡ is_unsent number self.old }
    {
        if let Some(line) = self.lines.get_mut(&number) {
            return line.ages();
        }
        false
    }

    /// A stream begins behind its head and its created message, which have gone out. `AllocError`
    /// comes where no memory was found for it; then it does not stand, and its watch does.
    pub fn begin(&mut self, number: u64, call: u64, w: W) -> Result<(), AllocError>
        ensures ok { OnOk result (self.new ≡ begun number call (W.contents w) self.old) }
        ensures err { OnErr result (self.new ≡ self.old) }
    {
        let line = Line::new(self.alloc, number, call, w)?;
        self.lines.insert(number, line)?;
        Ok(())
    }

    /// Ends the watch of a stream that could not begin.
    pub fn refuse<G: Gate, R: Wait>(&mut self, events: &GatedEngine<'_, L, G, R>, number: u64)
        ensures { Refuses events.now.engine.now.ids number self.old self.new }
    {
        let _ = events.drop_watch(&mut self.client, number);
    }

    /// A turn of a stream; none where no such stream stands. Where the stream is over behind it, it is
    /// let go, and its watch is ended.
    pub fn turn<G: Gate, R: Wait>(
        &mut self,
        events: &GatedEngine<'_, L, G, R>,
        number: u64,
    ) -> Option<Turn>
        ensures { MatchOption result (self.new ≡ self.old)
            (λ t. Serves events.now.engine.now.ids number self.old t self.new) }
    {
        match self.turn_once(events, number) {
            Some(turn) => Some(self.leave_behind(events, number, turn)),
            None => None,
        }
    }

    /// A turn of a stream, which is kept.
    fn turn_once<G: Gate, R: Wait>(
        &mut self,
        events: &GatedEngine<'_, L, G, R>,
        number: u64,
    ) -> Option<Turn>
        ensures { MayTurn events.now.engine.now.ids number self.old result self.new }
    {
        match self.lines.get_mut(&number) {
            Some(line) => Some(take_turn(self.alloc, events, &mut self.client, line)),
            None => None,
        }
    }

    /// Lets a stream go that is over behind a turn; gives the turn.
    fn leave_behind<G: Gate, R: Wait>(
        &mut self,
        events: &GatedEngine<'_, L, G, R>,
        number: u64,
        turn: Turn,
    ) -> Turn
        ensures turn { result ≡ turn }
        ensures behind { MatchBool (is_over turn)
            (LetsGo events.now.engine.now.ids number self.old self.new) (self.new ≡ self.old) }
    {
        if turn.is_over() {
            self.let_go(events, number);
        }
        turn
    }

    /// Hears the client of a stream: where it has left, the stream ends in order, as far as its client
    /// takes that at once, and its watch is ended. It takes no other stream for it, and ends none whose
    /// client is there.
    pub fn hear<G: Gate, R: Wait, H: Hearing<W>>(
        &mut self,
        events: &GatedEngine<'_, L, G, R>,
        ears: &H,
        number: u64,
    ) -> Heard
        ensures { Hears events.now.engine.now.ids (H.Left ears.now number) number self.old result
            self.new }
    {
        match self.hear_at(ears, number) {
            Heard::Left => {
                self.part(events, number);
                Heard::Left
            }
            Heard::More => Heard::More,
            Heard::Nothing => Heard::Nothing,
        }
    }

    /// What the client of a stream has sent.
    fn hear_at<H: Hearing<W>>(&self, ears: &H, number: u64) -> Heard
        ensures { result ≡ heard.Left → H.Left ears.now number }
    {
        match self.lines.get(&number) {
            Some(line) => ears.heard(number, line.writer()),
            None => Heard::Nothing,
        }
    }

    /// A stream ends in order, as far as its client takes that at once, and its watch is ended.
    fn part<G: Gate, R: Wait>(&mut self, events: &GatedEngine<'_, L, G, R>, number: u64)
        ensures { Parts events.now.engine.now.ids number self.old self.new }
    {
        let _ = self.close(number);
        let _ = self.turn_once(events, number);
        self.let_go(events, number);
    }

    /// Where the server ends, a stream is to end in order, if there is memory for that; says whether
    /// the server ends.
    pub fn close_at_end<H: Hearing<W>>(&mut self, ears: &H, number: u64) -> bool
        ensures { AtEnd (H.Ends ears.now) result
            (ChangesOne closed number self.old self.new ⊎ (self.new ≡ self.old)) self.old self.new }
    {
        if ears.ends() {
            let _ = self.close(number);
            return true;
        }
        false
    }

    /// Where the server ends, a stream is let go, and its watch is ended; says whether the server ends.
    pub fn end_at_end<G: Gate, R: Wait, H: Hearing<W>>(
        &mut self,
        events: &GatedEngine<'_, L, G, R>,
        ears: &H,
        number: u64,
    ) -> bool
        ensures { AtEnd (H.Ends ears.now) result
            (LetsGo events.now.engine.now.ids number self.old self.new) self.old self.new }
    {
        let is_over = ears.ends();
        if !is_over {
            return false;
        }
        self.let_go(events, number);
        true
    }

    /// Ends the watch of a stream, and lets the stream go.
    fn let_go<G: Gate, R: Wait>(&mut self, events: &GatedEngine<'_, L, G, R>, number: u64)
        ensures { LetsGo events.now.engine.now.ids number self.old self.new }
    {
        let _ = self.lines.remove(&number);
        let _ = events.drop_watch(&mut self.client, number);
    }

    /// A stream ends in order, if it stands and has not ended: its last chunk is to go out, behind what
    /// has not. `AllocError` comes where no memory was found for that, and then nothing has changed.
    fn close(&mut self, number: u64) -> Result<(), AllocError>
        ensures ok { OnOk result (ChangesOne closed number self.old self.new) }
        ensures err { OnErr result (self.new ≡ self.old) }
    {
        if let Some(line) = self.lines.get_mut(&number) {
            return line.close();
        }
        Ok(())
    }
}

/// Adds the keys of a map to a list, in rising order, up to the first that finds no memory there.
fn add_keys<V>(map: &BTreeMap<u64, V>, list: &mut Vec<u64>) -> Result<(), AllocError>
    ensures ok { OnOk result (list.new.items ≡ list.old.items ++ keys map.now) }
    ensures err { OnErr result (IsPrefix list.new.items (list.old.items ++ keys map.now)) }
{
    for key in map.keys() {
        if list.push(*key).is_err() {
            return Err(AllocError);
        }
    }
    Ok(())
}
