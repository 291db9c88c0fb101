//! The thread that looks after the streams that have begun.
ghost use Rattle.std.specs.Prelude.{◌≡◌, [], IfOk, ⊤};

use crate::around::{Around, Looked};
use crate::handing::{Handed, Handing, WOKEN};
use engine_lock::{Client, EngineName};
use http_peer::Gate;
use mio::net::TcpStream;
use mio::{Events, Interest, Poll, Token};
use std::alloc::{AllocError, Global};
use std::io::{ErrorKind, Read};
use std::net::Net;
use std::sync::Wait;
use std::sync::atomic::{AtomicBool, Ordering};
use std::time::{Duration, Instant};
use std::{io, mem, time};
use watch_streams::{Heard, Hearing, Streams, Turn};

/// How many sockets are found ready at once.
const MOST_READY: usize = 256;

/// How many streams a round has room for: each may come by three ways.
const ROOM: usize = 4096;

/// How long a wait is at most, in milliseconds: then all streams are looked at.
const LOOK: u64 = 1000;

/// How long a wait is at most where a message found no memory, or the server ends.
const SOON: u64 = 10;

/// How many such waits streams have to end in order, once the server ends.
const MOST_ROUNDS: u64 = 200;

/// How many bytes are thrown away at once.
const WASTE: usize = 4096;

/// How many reads throw bytes away before others come.
const MOST_WASTED: u64 = 256;

/// How many streams are looked at in a round: more than can stand, and than a round has room for.
const MOST_AT_ONCE: u64 = 65_536;

/// The streams that have a turn in a round.
#[derive(Drop)]
struct Round {
    /// Of which a client may have sent something, or left.
    wet: Vec<u64>,
    /// Of which something may be told, or go out.
    due: Vec<u64>,
}

impl Round {
    /// None. Fails for want of memory.
    fn new(alloc: Global) -> Result<Round, AllocError>
        ensures { IfOk result (λ round. (round.wet.items ≡ []) × (round.due.items ≡ [])) }
    {
        Ok(Round {
            wet: Vec::with_capacity(alloc, ROOM)?,
            due: Vec::with_capacity(alloc, ROOM)?,
        })
    }

    fn is_empty(&self) -> bool {
        self.wet.is_empty() && self.due.is_empty()
    }
}

/// What the thread waits with.
#[derive(Drop)]
pub struct Watching {
    poll: Poll,
    ready: Events,
    now: Round,
    next: Round,
    /// The streams that are looked at once a second.
    all: Vec<u64>,
}

impl Watching {
    /// All that a thread waits with, and by what it is woken. Fails where the system has no more files,
    /// or for want of memory.
    pub fn new<R: Net>(rt: &R, alloc: Global) -> io::Result<(Watching, Handing)> {
        let poll = Poll::new(rt)?;
        let handing = Handing::new(alloc, &poll)?;
        match Watching::with_room(alloc, poll) {
            Ok(watching) => Ok((watching, handing)),
            Err(AllocError) => Err(io::Error::from(ErrorKind::OutOfMemory)),
        }
    }

    fn with_room(alloc: Global, poll: Poll) -> Result<Watching, AllocError> {
        Ok(Watching {
            poll,
            ready: Events::with_capacity(alloc, MOST_READY)?,
            now: Round::new(alloc)?,
            next: Round::new(alloc)?,
            all: Vec::with_capacity(alloc, ROOM)?,
        })
    }

    /// Waits for the sockets, and notes which have a turn in this round; says whether it was woken.
    fn wait(&mut self, most: Duration) -> bool {
        mem::swap(&mut self.now, &mut self.next);
        let _ = self.poll.poll(&mut self.ready, Some(most));
        let mut woken = false;
        for event in self.ready.iter() {
            if event.token() == WOKEN {
                woken = true;
            } else {
                let number = event.token().0 as u64;
                let _ = self.now.wet.push(number);
                let _ = self.now.due.push(number);
            }
        }
        woken
    }
}

/// Hears the clients of streams at their sockets.
#[derive(Drop)]
struct Sockets<'s> {
    /// Whether the server ends.
    ended: &'s AtomicBool,
}

impl<'s> Hearing<TcpStream> for Sockets<'s> {
    ghost Left = { λ _ _. ⊤ };

    ghost Ends = { λ _. ⊤ };

    fn heard(&self, _number: u64, client: &TcpStream) -> Heard {
        heard_of(client)
    }

    fn ends(&self) -> bool {
        self.ended.load(Ordering::SeqCst)
    }
}

/// The streams that stand, and what is shared with the other threads. Streams end by their turns, and where
/// the sockets say that a client has left or that the server ends: `watch_streams` knows no other way.
#[derive(Drop)]
struct Keeper<'s, L: EngineName, G, K, R> {
    rt: &'s R,
    around: &'s Around<'s, L, G, K>,
    ears: Sockets<'s>,
    watching: Watching,
    streams: Streams<L, TcpStream>,
    /// Whether a message found no memory.
    wanting: bool,
    /// Whether the server ends.
    ending: bool,
    /// When all streams were looked at last.
    looked: Option<Instant>,
}

/// Looks after the streams that are handed over until no further one is and all have ended; once the
/// server ends they end in order. Hands the client back.
pub fn keep_streams<L: EngineName, G: Gate, K: Looked, R: Wait + time::Clock>(
    rt: &R,
    alloc: Global,
    around: &Around<'_, L, G, K>,
    watching: Watching,
    client: Client<L>,
) -> Client<L> {
    let mut keeper = Keeper {
        rt,
        ears: Sockets {
            ended: around.ended,
        },
        around,
        watching,
        streams: Streams::new(alloc, client),
        wanting: false,
        ending: false,
        looked: Instant::now(rt).ok(),
    };
    for _ in rt.forever() {
        keeper.round();
        let is_closed = keeper.around.handing.is_closed();
        if keeper.around.ended.load(Ordering::SeqCst) {
            keeper.end_all();
        } else if is_closed {
            keeper.take_handed();
        }
        if is_closed && keeper.streams.is_empty() {
            break;
        }
    }
    let Keeper { streams, .. } = keeper;
    streams.into_client()
}

impl<'s, L: EngineName, G: Gate, K: Looked, R: Wait + time::Clock> Keeper<'s, L, G, K, R> {
    /// Waits, and gives each stream its turn of which something may be there.
    fn round(&mut self) {
        let most = self.most_wait();
        let woken = self.watching.wait(most);
        if woken {
            self.take_handed();
        }
        if self.is_time_to_look() {
            self.look();
        } else if woken || self.wanting {
            self.find_behind();
        }
        self.wanting = false;
        self.hear_wet();
        self.turn_due();
    }

    /// How long the next wait is at most.
    fn most_wait(&self) -> Duration {
        if !self.watching.next.is_empty() {
            return Duration::ZERO;
        }
        if self.wanting || self.ending {
            return Duration::from_millis(SOON);
        }
        Duration::from_millis(LOOK)
    }

    /// Whether a second has gone since all streams were looked at.
    fn is_time_to_look(&mut self) -> bool {
        let now = Instant::now(self.rt).ok();
        let is_time = match (self.looked, now) {
            (Some(looked), Some(now)) => {
                now.saturating_duration_since(looked) >= Duration::from_millis(LOOK)
            }
            _ => true,
        };
        if is_time {
            self.looked = now;
        }
        is_time
    }

    /// Takes those that were handed over, and has their sockets watched.
    fn take_handed(&mut self) {
        for _ in 0..MOST_AT_ONCE {
            let Some(handed) = self.around.handing.take(self.rt) else {
                return;
            };
            let (call, number) = (handed.call, handed.number);
            if self.begin(handed) {
                let _ = self.watching.now.wet.push(number);
                let _ = self.watching.now.due.push(number);
            } else {
                let events = self.around.events(self.rt);
                self.streams.refuse(&events, number);
                self.let_go(call);
            }
        }
    }

    /// A stream begins; says whether it could.
    fn begin(&mut self, handed: Handed) -> bool {
        let Handed {
            call,
            number,
            stream,
        } = handed;
        if stream.set_nonblocking(true).is_err() {
            return false;
        }
        let mut stream = TcpStream::from_std(stream);
        let both = Interest::READABLE | Interest::WRITABLE;
        let registry = self.watching.poll.registry();
        if registry
            .register(&mut stream, Token(number as usize), both)
            .is_err()
        {
            return false;
        }
        self.streams.begin(number, call, stream).is_ok()
    }

    /// Those whose watches are behind have a turn.
    fn find_behind(&mut self) {
        let engine = self.around.engine;
        let _ = engine.take_news();
        engine.behind(self.rt, &mut self.watching.now.due);
    }

    /// Once a second each is looked at of which something has not gone out: those that take nothing end.
    /// So is what else is to be looked at then.
    fn look(&mut self) {
        self.around.others.look(self.rt);
        self.find_behind();
        let _ = self.streams.numbers(&mut self.watching.all);
        for _ in 0..MOST_AT_ONCE {
            let Some(number) = self.watching.all.pop() else {
                return;
            };
            if self.streams.ages(number) {
                let _ = self.watching.now.due.push(number);
            }
        }
    }

    /// What clients have sent is thrown away; those that have left have their streams ended.
    fn hear_wet(&mut self) {
        for _ in 0..MOST_AT_ONCE {
            let Some(number) = self.watching.now.wet.pop() else {
                return;
            };
            let call = self.call_of(number);
            let events = self.around.events(self.rt);
            match self.streams.hear(&events, &self.ears, number) {
                Heard::Nothing => {}
                Heard::More => {
                    let _ = self.watching.next.wet.push(number);
                }
                Heard::Left => self.let_go(call),
            }
        }
    }

    /// Each stream has its turn, once its last chunk is to go out where the server ends.
    fn turn_due(&mut self) {
        for _ in 0..MOST_AT_ONCE {
            let Some(number) = self.watching.now.due.pop() else {
                return;
            };
            let call = self.call_of(number);
            let events = self.around.events(self.rt);
            if self.ending {
                let _ = self.streams.close_at_end(&self.ears, number);
            }
            match self.streams.turn(&events, number) {
                None | Some(Turn::Quiet | Turn::Blocked) => {}
                Some(Turn::Wanting) => self.wanting = true,
                Some(Turn::Again) => {
                    let _ = self.watching.next.due.push(number);
                }
                Some(Turn::Done | Turn::Broken | Turn::Cut) => self.let_go(call),
            }
        }
    }

    /// The number of a stream's connection; 0 where no such stream stands.
    fn call_of(&self, number: u64) -> u64 {
        match self.streams.get(number) {
            Some(line) => line.call(),
            None => 0,
        }
    }

    /// The connection of this number has ended.
    fn let_go(&self, call: u64) {
        if call > 0 {
            self.around.gate.after(call);
        }
    }

    /// The server ends: each stream ends in order, as far as its client takes it within two seconds.
    fn end_all(&mut self) {
        self.ending = true;
        self.take_handed();
        let _ = self.streams.numbers(&mut self.watching.now.due);
        self.turn_due();
        for _ in 0..MOST_ROUNDS {
            if self.streams.is_empty() {
                return;
            }
            self.round();
        }
        for _ in 0..MOST_AT_ONCE {
            let Some(number) = self.streams.first() else {
                return;
            };
            let call = self.call_of(number);
            let events = self.around.events(self.rt);
            let _ = self.streams.end_at_end(&events, &self.ears, number);
            self.let_go(call);
        }
    }
}

/// Throws away what a client has sent, a mebibyte at most.
fn heard_of(stream: &TcpStream) -> Heard {
    let mut waste = [0; WASTE];
    let mut stream = stream;
    for _ in 0..MOST_WASTED {
        match stream.read(&mut waste) {
            Ok(0) => return Heard::Left,
            Ok(_) => {}
            Err(error) => match error.kind() {
                ErrorKind::WouldBlock => return Heard::Nothing,
                ErrorKind::Interrupted => {}
                _ => return Heard::Left,
            },
        }
    }
    Heard::More
}
