//! The turns of a connection: what a thread does once it has it.
ghost use Rattle.std.specs.Prelude.{◌≡◌, ◌⊎◌, ℕ, List, [], Option, Ok, IfSome};
ghost use Rattle.std.specs.Io.KnownBytes.{Appends, append_known};
ghost use Rattle.http_connections.specs.declared.life.Stage.TheVariants as stage;
ghost use Rattle.http_connections.specs.declared.turns.After.TheVariants as after;
ghost use Rattle.http_connections.specs.Lines.{EndsWait, Goes, IsAway, IsBehind, IsHeld, sight, stage_of};

use crate::awaiting::Trimming;
use crate::by_worker::{ByWorker, Serving};
use crate::crowd::Crowd;
use crate::life::{Life, Stage};
use crate::trimming::{Trimmed, lost};
use engine_lock::EngineName;
use http_input::Input;
use http_loop::{Step, Turn, Waiting, end_wait, take_step};
use http_peer::{Clock, Coming, Gate, Going, Unsent};
use http_reply::{Counted, Front, ReplyBuffer};
use std::alloc::Global;
use std::io::{Read, Write};
use std::sync::Wait;
use std::sync::atomic::{AtomicBool, Ordering};
use std::{io, mem, time};

/// What a connection wants behind its turns.
#[derive(Clone, Copy, PartialEq, Eq)]
pub enum After {
    /// That something more comes.
    Reads,
    /// That its client takes more.
    Writes,
    /// A further turn, behind others.
    Again,
    /// That the stream of the watch of this number is looked after elsewhere.
    Away(u64),
    /// Nothing: it is over.
    Over,
}

/// How many turns a connection has before others that are ready.
const MOST_TURNS: u64 = 16;

/// How many it has where there are no more connections than threads, before its thread looks whether
/// anything else is ready.
const MOST_STAYED: u64 = 64;

/// What a connection's bytes come from, and what its replies go to.
#[derive(Drop)]
pub struct Wire<In, Out> {
    pub r: In,
    pub w: Out,
}

/// What some turns of a connection came to.
#[derive(Drop)]
struct Turned<In, Out> {
    /// How far it is.
    stage: Stage,
    /// What it wants then.
    after: After,
    wire: Wire<In, Out>,
}

/// What a visit to a connection came to.
#[derive(Drop)]
pub struct Visited<In, Out> {
    /// What the connection wants then.
    pub after: After,
    pub wire: Wire<In, Out>,
}

/// What a reading of a connection came to.
#[derive(Drop)]
struct Reading<In, Out> {
    /// How far it is.
    stage: Stage,
    /// Whether no request was there whole.
    is_dry: bool,
    wire: Wire<In, Out>,
}

/// By what a connection is given its turns.
#[derive(Drop)]
pub struct Turning<'t, L: EngineName, G, C, R> {
    pub alloc: Global,
    pub by: ByWorker<'t, L, G, C, R>,
    pub crowd: &'t Crowd,
    /// Whether the server ends.
    pub ended: &'t AtomicBool,
}

impl<'t, L, G, C, R> Turning<'t, L, G, C, R>
where
    L: EngineName,
    G: Gate,
    C: Clock,
    R: Wait + time::Clock,
{
    /// Gives a connection its turns, by a client that takes note first of all that the connection knows of.
    /// `is_wet` tells whether something can be read.
    ///
    /// However the connection came as far as it stands, it has come as far as it stands behind the visit
    /// (`Goes`), and the events that were made for the client meanwhile are exactly those by which its
    /// requests were answered, each about the connection: there is none besides.
    pub fn visit<In: Read, Out: Write>(
        &self,
        serving: &mut Serving<L>,
        buffer: &mut ReplyBuffer,
        input: &mut Input,
        life: &mut Life<L>,
        wire: Wire<In, Out>,
        is_wet: bool,
    ) -> Visited<In, Out>
        requires { life.old.call ≡ self.now.by.by.call }
        ensures goes { Goes self.now.by.by.events.engine.now.ids L.recorded (C.Tells self.now.by.by.clock.now) life.old.call
            serving.old.client serving.new.client (sight life.old.stage life.old.known (In.remaining wire.r) input.old (append_known (Out.contents wire.w) life.old.unsent))
            (sight life.new.stage life.new.known (In.remaining result.wire.r) input.new
            (append_known (Out.contents result.wire.w) life.new.unsent)) }
        ensures away { IsAway result.after life.new.stage }
        ensures call { life.new.call ≡ life.old.call }
    {
        serving.client.know(&life.known);
        let stage = mem::replace(&mut life.stage, Stage::Closing);
        let unsent = mem::replace(&mut life.unsent, Unsent::new(self.alloc));
        let wire = Wire {
            r: Coming {
                inner: wire.r,
                dry: !is_wet,
            },
            w: Going {
                inner: wire.w,
                unsent,
            },
        };
        let turned = self.turns(serving, buffer, input, stage, wire);
        let Wire { r, w } = turned.wire;
        let wire = Wire {
            r: r.inner,
            w: w.inner,
        };
        life.unsent = w.unsent;
        life.stage = turned.stage;
        life.known = serving.client.known();
        Visited {
            after: turned.after,
            wire,
        }
    }

    /// At most 16 turns of a connection, or 64 where there are no more connections than threads, and what
    /// it wants then. No request is read while anything has not gone out.
    fn turns<In: Read, Out: Write>(
        &self,
        serving: &mut Serving<L>,
        buffer: &mut ReplyBuffer,
        input: &mut Input,
        stage: Stage,
        wire: Wire<Coming<In>, Going<Out>>,
    ) -> Turned<Coming<In>, Going<Out>>
        ensures goes { Goes self.now.by.by.events.engine.now.ids L.recorded (C.Tells self.now.by.by.clock.now) self.now.by.by.call
            serving.old.client serving.new.client (sight stage serving.old.client.reader.known (In.remaining wire.r.inner) input.old
            (append_known (Out.contents wire.w.inner) wire.w.unsent))
            (sight result.stage serving.new.client.reader.known (In.remaining result.wire.r.inner) input.new
            (append_known (Out.contents result.wire.w.inner) result.wire.w.unsent)) }
        ensures away { IsAway result.after result.stage }
    {
        let mut stage = stage;
        let mut wire = wire;
        let mut stays = false;
        for count in 0..MOST_STAYED {
            if count >= MOST_TURNS && !self.crowd.are_few() {
                break;
            }
            let turned = self.turn(serving, buffer, input, stage, wire);
            stage = turned.stage;
            wire = turned.wire;
            match turned.after {
                After::Again => stays = true,
                After::Reads if stays && input.is_empty() && self.crowd.are_few() => {
                    wire.r.dry = false;
                    stays = false;
                }
                after => return wire.turned(stage, after),
            }
        }
        wire.turned(stage, After::Again)
    }

    /// One turn, once all has gone out that is to.
    fn turn<In: Read, Out: Write>(
        &self,
        serving: &mut Serving<L>,
        buffer: &mut ReplyBuffer,
        input: &mut Input,
        stage: Stage,
        wire: Wire<Coming<In>, Going<Out>>,
    ) -> Turned<Coming<In>, Going<Out>>
        ensures goes { Goes self.now.by.by.events.engine.now.ids L.recorded (C.Tells self.now.by.by.clock.now) self.now.by.by.call
            serving.old.client serving.new.client (sight stage serving.old.client.reader.known (In.remaining wire.r.inner) input.old
            (append_known (Out.contents wire.w.inner) wire.w.unsent))
            (sight result.stage serving.new.client.reader.known (In.remaining result.wire.r.inner) input.new
            (append_known (Out.contents result.wire.w.inner) result.wire.w.unsent)) }
        ensures away { IsAway result.after result.stage }
    {
        let (wants, wire) = sent(wire);
        if let Some(after) = wants {
            return wire.turned(stage, after);
        }
        self.due(serving, buffer, input, stage, wire)
    }

    /// What is next for a connection of which all has gone out.
    fn due<In: Read, Out: Write>(
        &self,
        serving: &mut Serving<L>,
        buffer: &mut ReplyBuffer,
        input: &mut Input,
        stage: Stage,
        wire: Wire<Coming<In>, Out>,
    ) -> Turned<Coming<In>, Out>
        ensures goes { Goes self.now.by.by.events.engine.now.ids L.recorded (C.Tells self.now.by.by.clock.now) self.now.by.by.call
            serving.old.client serving.new.client (sight stage serving.old.client.reader.known (In.remaining wire.r.inner) input.old (Out.contents wire.w))
            (sight result.stage serving.new.client.reader.known (In.remaining result.wire.r.inner) input.new (Out.contents result.wire.w)) }
        ensures away { IsAway result.after result.stage }
    {
        match stage {
            Stage::Reading if self.is_over(input) => wire.turned(Stage::Reading, After::Over),
            Stage::Reading => {
                let reading = self.read(serving, buffer, input, wire);
                let after = if reading.is_dry {
                    After::Reads
                } else {
                    After::Again
                };
                reading.wire.turned(reading.stage, after)
            }
            Stage::Trimming(trimming) => {
                let (stage, wire) = self.trim(trimming, serving, buffer, wire);
                wire.turned(stage, After::Again)
            }
            Stage::Streaming(number) => {
                wire.turned(Stage::Streaming(number), After::Away(number))
            }
            Stage::Closing => wire.turned(Stage::Closing, After::Over),
        }
    }

    /// Whether a connection ends here, since the server does and no byte of a next request has come.
    fn is_over(&self, input: &Input) -> bool {
        input.is_empty() && self.ended.load(Ordering::SeqCst)
    }

    /// A request is read, as far as it is there, and answered.
    fn read<In: Read, Out: Write>(
        &self,
        serving: &mut Serving<L>,
        buffer: &mut ReplyBuffer,
        input: &mut Input,
        wire: Wire<Coming<In>, Out>,
    ) -> Reading<Coming<In>, Out>
        ensures goes { Goes self.now.by.by.events.engine.now.ids L.recorded (C.Tells self.now.by.by.clock.now) self.now.by.by.call
            serving.old.client serving.new.client (sight stage.Reading serving.old.client.reader.known (In.remaining wire.r.inner) input.old (Out.contents wire.w))
            (sight result.stage serving.new.client.reader.known (In.remaining result.wire.r.inner) input.new (Out.contents result.wire.w)) }
    {
        serving.begin(self.by.by.call);
        let mut r = Counted::new(wire.r);
        let mut w = Counted::new(wire.w);
        let stepped = take_step(self.alloc, &self.by, serving, input, buffer, &mut r, &mut w);
        let wire = Wire {
            r: r.into_inner(),
            w: w.into_inner(),
        };
        let is_dry = wire.r.dry;
        Reading {
            is_dry: is_dry && matches!(stepped, Err(Front::Read)),
            stage: stage_behind(stepped, is_dry, serving),
            wire,
        }
    }

    /// Some trimming steps of an answer that waits for them; the reply is written once trimming is done,
    /// or given up.
    fn trim<In, Out: Write>(
        &self,
        trimming: Trimming,
        serving: &mut Serving<L>,
        buffer: &mut ReplyBuffer,
        wire: Wire<In, Out>,
    ) -> (Stage, Wire<In, Out>)
        ensures goes { (left : Option (List ℕ)) → (pending : List ℕ)
            → Goes self.now.by.by.events.engine.now.ids L.recorded (C.Tells self.now.by.by.clock.now) self.now.by.by.call
            serving.old.client serving.new.client (sight (stage.Trimming trimming) serving.old.client.reader.known left pending (Out.contents wire.w))
            (sight result.0 serving.new.client.reader.known left pending (Out.contents result.1.w)) }
        ensures reader { result.1.r ≡ wire.r }
    {
        serving.begin(self.by.by.call);
        match serving.trim(&self.by.by.events, trimming.refusals) {
            Trimmed::Done => self.end_wait(&trimming.waiting, serving, buffer, wire),
            Trimmed::Lost => self.end_wait(&lost(trimming), serving, buffer, wire),
            Trimmed::Left(refusals) => {
                let left = Trimming {
                    waiting: trimming.waiting,
                    revision: trimming.revision,
                    refusals,
                };
                (Stage::Trimming(left), wire)
            }
        }
    }

    /// Writes the reply of a request that was done before: how far the connection is then.
    fn end_wait<In, Out: Write>(
        &self,
        waiting: &Waiting,
        serving: &mut Serving<L>,
        buffer: &mut ReplyBuffer,
        wire: Wire<In, Out>,
    ) -> (Stage, Wire<In, Out>)
        ensures ends { EndsWait self.now.by.by.events.engine.now.ids waiting.now serving.old
            (Out.contents wire.w) serving.new (Out.contents result.1.w) result.0 }
        ensures reader { result.1.r ≡ wire.r }
    {
        let Wire { r, w } = wire;
        let mut w = Counted::new(w);
        let stage = match end_wait(self.alloc, &self.by, serving, waiting, buffer, &mut w) {
            Ok(turn) => stage_after(turn, serving.handed),
            Err(_) => Stage::Closing,
        };
        (
            stage,
            Wire {
                r,
                w: w.into_inner(),
            },
        )
    }
}

impl<In, Out> Wire<In, Out> {
    /// With what some turns came to.
    fn turned(self, stage: Stage, after: After) -> Turned<In, Out>
        ensures { result ≡ record { stage = stage; after = after; wire = self } }
    {
        Turned {
            stage,
            after,
            wire: self,
        }
    }
}

/// Has as much go out as its client takes; what a connection then wants, where that was not all.
fn sent<In, Out: Write>(wire: Wire<In, Going<Out>>) -> (Option<After>, Wire<In, Going<Out>>)
    ensures wants { IfSome result.0 (λ a. (a ≡ after.Writes) ⊎ (a ≡ after.Over)) }
    ensures reader { result.1.r ≡ wire.r }
    ensures same { Appends (append_known (Out.contents wire.w.inner) wire.w.unsent)
        (append_known (Out.contents result.1.w.inner) result.1.w.unsent) [] }
{
    let Wire { r, w } = wire;
    let mut w = w;
    let wants = wants_behind(w.send());
    (wants, Wire { r, w })
}

/// What a connection wants behind a sending that did not end well with all; `None` where it did.
fn wants_behind(sent: io::Result<bool>) -> Option<After>
    ensures { IfSome result (λ a. (a ≡ after.Writes) ⊎ (a ≡ after.Over)) }
{
    match sent {
        Ok(true) => None,
        Ok(false) => Some(After::Writes),
        Err(_) => Some(After::Over),
    }
}

/// How far a connection is behind a step. A read that failed since nothing more is there ends nothing.
fn stage_behind<L: EngineName>(
    stepped: Result<Step, Front>,
    is_dry: bool,
    serving: &Serving<L>,
) -> Stage
    ensures { IsBehind stepped is_dry serving.now.handed serving.now.revision result }
{
    match stepped {
        Ok(Step::Turned(turn)) => stage_after(turn, serving.handed),
        Ok(Step::Waits(waiting)) => held(waiting, serving.revision),
        Err(Front::Read) if is_dry => Stage::Reading,
        Err(_) => Stage::Closing,
    }
}

/// How far a connection is whose answer waits for trimming.
fn held(waiting: Waiting, revision: u64) -> Stage
    ensures { IsHeld waiting revision result }
{
    Stage::Trimming(Trimming {
        waiting,
        revision,
        refusals: 0,
    })
}

/// How far a connection is behind a request that was answered, whose watch's stream goes on elsewhere
/// where there is one.
fn stage_after(turn: Turn, handed: Option<u64>) -> Stage
    ensures { result ≡ stage_of (Ok turn) handed }
{
    match (turn, handed) {
        (Turn::More, _) => Stage::Reading,
        (Turn::Last, Some(number)) => Stage::Streaming(number),
        (Turn::Last, None) => Stage::Closing,
        (Turn::End, _) => Stage::Closing,
    }
}
