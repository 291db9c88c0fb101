//! A worker: it gives one connection after the other its turns, whichever is ready.
ghost use Rattle.std.specs.Prelude.{◌≡◌};
ghost use Rattle.std.specs.Io.KnownBytes.{append_known};
ghost use Rattle.http_connections.specs.Lines.{Goes, IsAway, sight};
ghost use Rattle.http_connections.specs.declared.turns.After.TheVariants as after;
ghost use Rattle.http_input.specs.Spares.{pending_of};

use crate::crew::Seat;
use crate::line::Line;
use crate::lines::Next;
use crate::shared::Shared;
use engine_lock::{Client, EngineName};
use http_connections::{After, ByEngine, ByWorker, Life, Serving, Stage, Turning, Visited, Wire};
use http_input::{Input, Spare};
use http_peer::{Clock, Gate, Sign, Socket, Wish, open_peer};
use http_reply::ReplyBuffer;
use http_streams::{Handed, Waking};
use recorded_engine::GatedEngine;
use std::alloc::Global;
use std::io::{ErrorKind, Read, Write};
use std::net::TcpStream;
use std::sync::Wait;
use std::sync::atomic::Ordering;
use std::time;

/// How many connections come in before others have turns.
const MOST_ACCEPTS: u64 = 16;

/// A buffer that a longer reply took gives its room back, in bytes.
const MOST_KEPT: usize = 262_144;

/// What a thread serves connections with.
#[derive(Drop)]
struct Worker<'s, L: EngineName, G, C, R> {
    rt: &'s R,
    alloc: Global,
    shared: &'s Shared<'s, L, G, C>,
    serving: Serving<L>,
    /// Where replies are laid out; none where no memory was found for it yet.
    buffer: Option<ReplyBuffer>,
    /// An input of which nothing is left, for a connection that has none.
    spare: Spare,
    /// Its place among the threads.
    seat: Seat,
}

/// What came of an accept.
enum Came {
    /// A connection of this number.
    One(u64, TcpStream),
    /// None waits.
    Nobody,
    /// No further one is let in.
    Shut,
    /// The system has no place for one.
    Full,
}

/// Gives connections their turns, whichever is ready, until the server has ended. Hands the client back,
/// with the events that it made.
pub fn keep_working<L, G, C, R>(
    rt: &R,
    alloc: Global,
    shared: &Shared<'_, L, G, C>,
    client: Client<L>,
) -> Client<L>
where
    L: EngineName,
    G: Gate,
    C: Clock,
    R: Wait + time::Clock,
{
    let mut worker = Worker {
        rt,
        alloc,
        shared,
        serving: Serving::new(alloc, client),
        buffer: None,
        spare: Spare::new(alloc),
        seat: shared.lines.join(),
    };
    let mut next = Next::Nothing;
    for _ in rt.forever() {
        next = match next {
            Next::Nothing => shared.lines.next(rt, &mut worker.seat),
            Next::Over => break,
            Next::Listener => worker.let_in(),
            Next::Line(place, sign) => worker.visit(place, sign),
        };
    }
    let Worker { serving, .. } = worker;
    serving.client
}

impl<'s, L, G, C, R> Worker<'s, L, G, C, R>
where
    L: EngineName,
    G: Gate,
    C: Clock,
    R: Wait + time::Clock,
{
    /// Lets connections in that wait at the listener, and asks for it again where more may come.
    fn let_in(&mut self) -> Next {
        let lines = &self.shared.lines;
        for _ in 0..MOST_ACCEPTS {
            match self.next() {
                Came::One(call, stream) => self.begin(call, stream),
                Came::Nobody => break,
                Came::Shut => {
                    lines.shut();
                    return Next::Nothing;
                }
                Came::Full => {
                    lines.park_listener();
                    return Next::Nothing;
                }
            }
        }
        lines.ask_listener();
        Next::Nothing
    }

    /// The next connection that waits.
    fn next(&self) -> Came {
        let mut door = self.shared.door.lock(self.rt);
        if self.shared.ended.load(Ordering::SeqCst) {
            door.shut();
        }
        match door.next(self.shared.listener) {
            Ok(Some((call, stream))) => {
                self.shared.lines.crowd.came();
                Came::One(call, stream)
            }
            Ok(None) => Came::Shut,
            Err(error) => match error.kind() {
                ErrorKind::WouldBlock | ErrorKind::Interrupted | ErrorKind::ConnectionAborted => {
                    Came::Nobody
                }
                _ => Came::Full,
            },
        }
    }

    /// A connection begins, and is asked for. Where no memory or no place is found for it, it ends.
    fn begin(&mut self, call: u64, stream: TcpStream) {
        let refused = self.added(call, stream);
        if refused {
            self.shared.lines.went();
        }
    }

    /// The same; says whether it was refused.
    fn added(&mut self, call: u64, stream: TcpStream) -> bool {
        if open_peer(&stream).is_err() {
            return true;
        }
        let known = self.serving.client.known();
        let line = Line::new(self.alloc, call, stream, known);
        match Box::new(self.alloc, line) {
            Ok(line) => self.shared.lines.add(self.rt, self.alloc, line).is_some(),
            Err(_) => true,
        }
    }

    /// Takes the connection at a place, gives it its turns, and asks for it again. None is there where
    /// another thread had it first, which asks for it behind its turns. Gives what is to be done next.
    fn visit(&mut self, place: usize, sign: Sign) -> Next {
        let lines = &self.shared.lines;
        let Some(line) = lines.take(self.rt, place) else {
            return Next::Nothing;
        };
        let mut line = line;
        if sign == Sign::End {
            line.is_awaited = false;
        }
        let (after, next) = self.stay(&mut line, sign != Sign::Room);
        let left = match after {
            After::Reads => lines.ask(self.rt, line, Wish::Coming),
            After::Writes => lines.ask(self.rt, line, Wish::Write),
            After::Again => lines.ask(self.rt, line, Wish::Either),
            After::Away(number) => {
                self.hand_on(line, number);
                None
            }
            After::Over => Some(line),
        };
        if let Some(line) = left {
            self.end(line);
        }
        next
    }

    /// Gives a connection its turns, and further ones as long as there are no more connections than
    /// threads and nothing else is ready. So a thread keeps one connection where there are few, which
    /// costs less than to find it anew. Gives what is ready else, too.
    fn stay(&mut self, line: &mut Line<L>, is_wet: bool) -> (After, Next) {
        let lines = &self.shared.lines;
        let mut is_wet = is_wet;
        for _ in self.rt.forever() {
            let wire = Wire {
                r: Socket::new(&line.stream),
                w: Socket::new(&line.stream),
            };
            let visited = self.served(&mut line.input, &mut line.life, wire, is_wet);
            let after = visited.after;
            line.freshen();
            if after != After::Again || !lines.crowd.are_few() {
                return (after, Next::Nothing);
            }
            match lines.next_now(&self.seat) {
                Next::Nothing => is_wet = true,
                next => return (after, next),
            }
        }
        unreachable!()
    }

    /// Gives a connection its turns, with what had come of it and was not answered, of which it keeps what
    /// is left. Where no memory is found for a buffer or an input it is over.
    ///
    /// Of any reader and writer that tell their bytes: all that it reads is the reader's, and all that goes
    /// out, or is still to, is the writer's (`Goes`). So nothing of another connection comes here, nor does
    /// anything of this one get to another.
    fn served<In: Read, Out: Write>(
        &mut self,
        came: &mut Option<Box<Input>>,
        life: &mut Life<L>,
        wire: Wire<In, Out>,
        is_wet: bool,
    ) -> Visited<In, Out>
        ensures goes { Goes self.old.shared.now.engine.now.ids L.recorded (C.Tells self.old.shared.now.clock.now) life.old.call
            self.old.serving.client self.new.serving.client
            (sight life.old.stage life.old.known (In.remaining wire.r) (pending_of came.old) (append_known (Out.contents wire.w) life.old.unsent))
            (sight life.new.stage life.new.known (In.remaining result.wire.r) (pending_of came.new)
            (append_known (Out.contents result.wire.w) life.new.unsent)) }
        ensures away { IsAway result.after life.new.stage }
        ensures call { life.new.call ≡ life.old.call }
        ensures shared { self.new.shared ≡ self.old.shared }
    {
        let Some(buffer) = next_buffer(self.alloc, &mut self.buffer) else {
            return over(wire);
        };
        let Some(input) = self.spare.take(came.take()) else {
            return over(wire);
        };
        let (mut buffer, mut input) = (buffer, input);
        let visited = self.turns(&mut buffer, &mut input, life, wire, is_wet);
        keep_buffer(&mut self.buffer, buffer);
        *came = self.spare.keep(input);
        visited
    }

    /// Gives a connection its turns. Its client reads nothing older than was read for it before.
    fn turns<In: Read, Out: Write>(
        &mut self,
        buffer: &mut ReplyBuffer,
        input: &mut Input,
        life: &mut Life<L>,
        wire: Wire<In, Out>,
        is_wet: bool,
    ) -> Visited<In, Out>
        ensures goes { Goes self.old.shared.now.engine.now.ids L.recorded (C.Tells self.old.shared.now.clock.now) life.old.call
            self.old.serving.client self.new.serving.client
            (sight life.old.stage life.old.known (In.remaining wire.r) input.old (append_known (Out.contents wire.w) life.old.unsent))
            (sight life.new.stage life.new.known (In.remaining result.wire.r) input.new
            (append_known (Out.contents result.wire.w) life.new.unsent)) }
        ensures away { IsAway result.after life.new.stage }
        ensures call { life.new.call ≡ life.old.call }
        ensures shared { self.new.shared ≡ self.old.shared }
    {
        let shared = self.shared;
        let gate = Waking::new(shared.gate, &shared.handing, false);
        let turning = Turning {
            alloc: self.alloc,
            by: ByWorker {
                by: ByEngine {
                    events: GatedEngine {
                        rt: self.rt,
                        engine: shared.engine,
                        gate: &gate,
                    },
                    clock: shared.clock,
                    call: life.call,
                },
            },
            crowd: &shared.lines.crowd,
            ended: &shared.ended,
        };
        turning.visit(&mut self.serving, buffer, input, life, wire, is_wet)
    }

    /// A connection is over: its socket is closed, and the watch of a stream is ended that did not get
    /// away.
    fn end(&mut self, line: Box<Line<L>>) {
        let line = Box::into_inner(line);
        let call = line.life.call;
        let watch = match &line.life.stage {
            Stage::Streaming(number) => Some(*number),
            _ => None,
        };
        drop(line);
        if let Some(number) = watch {
            self.end_watch(call, number);
        }
        self.shared.lines.went();
    }

    /// Hands the stream of a watch over that has begun on a connection. Where no memory is found for
    /// that, the watch is ended, and the connection.
    fn hand_on(&mut self, line: Box<Line<L>>, number: u64) {
        let line = Box::into_inner(line);
        self.shared.lines.remove(&line);
        let Line { life, stream, .. } = line;
        let call = life.call;
        let handed = Handed {
            call,
            number,
            stream,
        };
        if self.shared.handing.hand(self.rt, handed).is_err() {
            self.end_watch(call, number);
        }
        self.shared.lines.went();
    }

    /// Ends the watch of a stream, behind which the gate is told that its reply has ended.
    fn end_watch(&mut self, call: u64, number: u64) {
        let events = self.shared.events(self.rt);
        let _ = events.drop_watch(&mut self.serving.client, number);
        self.shared.gate.after(call);
    }
}

/// A connection is over of which nothing was read or written.
fn over<In, Out>(wire: Wire<In, Out>) -> Visited<In, Out>
    ensures after { result.after ≡ after.Over }
    ensures wire { result.wire ≡ wire }
{
    Visited {
        after: After::Over,
        wire,
    }
}

/// Where replies are laid out: what was kept of that, or a new one; `None` where no memory is found for it.
fn next_buffer(alloc: Global, kept: &mut Option<ReplyBuffer>) -> Option<ReplyBuffer> {
    match kept.take() {
        Some(buffer) => Some(buffer),
        None => ReplyBuffer::new(alloc).ok(),
    }
}

/// Keeps where replies are laid out, but for one that a longer reply took.
fn keep_buffer(kept: &mut Option<ReplyBuffer>, buffer: ReplyBuffer) {
    if buffer.room() <= MOST_KEPT {
        *kept = Some(buffer);
    }
}
