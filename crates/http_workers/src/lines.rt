//! The connections of a server, and the threads that wait for them.
use crate::crew::{Crew, Seat};
use crate::line::Line;
use crate::slots::{Ages, Slots};
use engine_lock::EngineName;
use http_connections::Crowd;
use http_peer::{Ready, Set, Sign, Wish, open_listener};
use http_streams::Looked;
use std::alloc::Global;
use std::io;
use std::io::ErrorKind;
use std::net::{Net, TcpListener};
use std::os::fd::{AsRawFd, RawFd};
use std::sync::Wait;
use std::sync::atomic::{AtomicBool, Ordering};

/// The name of the listener in the set. No socket has this number.
const LISTENER: u64 = u64::MAX - 1;

/// Looked at once a second, a connection of which the client has taken no byte for ten is over.
const AGES: Ages = Ages {
    unsent: 10,
    unread: None,
};

/// Where the server ends it is looked at each 20 ms: a request that has begun to come is waited for
/// while no second passes without a byte of it, and a reply while no ten seconds do.
const LAST_AGES: Ages = Ages {
    unsent: 500,
    unread: Some(50),
};

/// What is there for a thread to do.
#[derive(Clone, Copy)]
pub(crate) enum Next {
    /// Nothing, for now.
    Nothing,
    /// Nothing more: the server has ended.
    Over,
    /// To let a connection in.
    Listener,
    /// To give the connection at this place its turns, and what is known of its socket.
    Line(usize, Sign),
}

/// The connections that stand, the set by which threads wait for them, and how many there are. Each is
/// at its place, and asked for; or a thread has it.
#[derive(Drop)]
pub struct Lines<L: EngineName> {
    set: Set,
    slots: Slots<L>,
    listener: RawFd,
    /// How many connections have come in and not ended.
    pub(crate) crowd: Crowd,
    /// Which of the threads look out, and which stand by.
    crew: Crew,
    /// Whether no further one comes in.
    shut: AtomicBool,
    /// Whether the listener is not asked for until a connection ends, since an accept found no place.
    parked: AtomicBool,
}

impl<L: EngineName> Lines<L> {
    /// No connection has come in at a listener, which waits for nothing from then on. So many threads are to
    /// serve them, of which at most `most` look out at once, those not counted that are held. Fails where the
    /// system has no more files, or for want of memory.
    pub fn new<R: Net>(
        rt: &R,
        alloc: Global,
        listener: &TcpListener,
        workers: u64,
        most: u64,
    ) -> io::Result<Lines<L>> {
        let set = Set::new(rt)?;
        let Ok(slots) = Slots::new(alloc) else {
            return Err(io::Error::from(ErrorKind::OutOfMemory));
        };
        let Ok(crew) = Crew::new(alloc, workers, most) else {
            return Err(io::Error::from(ErrorKind::OutOfMemory));
        };
        open_listener(listener)?;
        let listener = listener.as_raw_fd();
        if !set.add(listener, LISTENER, Wish::Read) {
            return Err(io::Error::from(ErrorKind::OutOfMemory));
        }
        Ok(Lines {
            set,
            slots,
            listener,
            crowd: Crowd::new(most),
            crew,
            shut: AtomicBool::new(false),
            parked: AtomicBool::new(false),
        })
    }

    /// A thread comes that is to give connections their turns.
    pub(crate) fn join(&self) -> Seat {
        self.crew.join()
    }

    /// Waits until something is ready, or stands by until there is something to wait for. Of what comes on a
    /// connection that a thread has another may be told, which leaves word at its place.
    pub(crate) fn next<R: Wait>(&self, rt: &R, seat: &mut Seat) -> Next {
        self.crew.wait(rt, seat);
        let ready = self.set.next();
        self.crew.visit(seat);
        self.next_of(ready)
    }

    /// The same, without waiting, of a thread that begins a further visit.
    pub(crate) fn next_now(&self, seat: &Seat) -> Next {
        self.crew.visit(seat);
        self.next_of(self.set.next_now())
    }

    /// What is there to do where this is ready.
    fn next_of(&self, ready: Ready) -> Next {
        match ready {
            Ready::Nothing => Next::Nothing,
            Ready::Over => Next::Over,
            Ready::Socket(LISTENER, _) => Next::Listener,
            Ready::Socket(name, sign) => match usize::try_from(name) {
                Ok(place) => Next::Line(place, sign),
                Err(_) => Next::Nothing,
            },
        }
    }

    /// Asks for the listener again.
    pub(crate) fn ask_listener(&self) {
        let _ = self.set.ask(self.listener, LISTENER, Wish::Read);
    }

    /// The listener is asked for again once a connection ends, or a second has gone: an accept found no
    /// place.
    pub(crate) fn park_listener(&self) {
        self.parked.store(true, Ordering::SeqCst);
    }

    /// Asks for the listener again where it is parked.
    fn unpark_listener(&self) {
        if self.parked.load(Ordering::SeqCst) && self.parked.swap(false, Ordering::SeqCst) {
            self.ask_listener();
        }
    }

    /// A connection has ended, or is looked after elsewhere, once its socket is let go.
    pub(crate) fn went(&self) {
        let was_last = self.crowd.went();
        self.unpark_listener();
        if was_last && self.shut.load(Ordering::SeqCst) {
            self.end();
        }
    }

    /// All threads end.
    fn end(&self) {
        self.set.end();
        self.crew.end();
    }

    /// No further connection comes in: once all have ended, so do the threads.
    pub fn shut(&self) {
        self.shut.store(true, Ordering::SeqCst);
        if self.is_empty() {
            self.end();
        }
    }

    /// Whether no connection stands.
    pub fn is_empty(&self) -> bool {
        self.crowd.is_empty()
    }

    /// The connection at a place, which nobody else has from then on.
    pub(crate) fn take<R: Wait>(&self, rt: &R, place: usize) -> Option<Box<Line<L>>> {
        self.slots.take(rt, place)
    }

    /// Puts a connection that has come in at its place, and asks for it. Hands it back where there is
    /// no place for it, or the system refuses it.
    pub(crate) fn add<R: Wait>(
        &self,
        rt: &R,
        alloc: Global,
        line: Box<Line<L>>,
    ) -> Option<Box<Line<L>>> {
        let place = line.place();
        if !self.slots.has_room(rt, alloc, place) {
            return Some(line);
        }
        self.stand(rt, place, line, Wish::Coming, true)
    }

    /// Puts a connection at its place again, and asks for it, where that is not done already. Hands it back
    /// where the system refuses.
    pub(crate) fn ask<R: Wait>(
        &self,
        rt: &R,
        line: Box<Line<L>>,
        wish: Wish,
    ) -> Option<Box<Line<L>>> {
        let place = line.place();
        self.stand(rt, place, line, wish, false)
    }

    /// Puts a connection at its place before it is asked for, since another thread may have it as soon
    /// as it is; `is_new` says that its socket is not in the set yet. One of which what comes is told
    /// anyway is not asked for, unless somebody was told of it meanwhile.
    fn stand<R: Wait>(
        &self,
        rt: &R,
        place: usize,
        line: Box<Line<L>>,
        wish: Wish,
        is_new: bool,
    ) -> Option<Box<Line<L>>> {
        let Ok(socket) = RawFd::try_from(place) else {
            return Some(line);
        };
        let mut line = line;
        let is_told = line.is_awaited && wish == Wish::Coming;
        line.is_awaited = wish == Wish::Coming;
        if let Some(line) = self.slots.put(rt, place, line) {
            return Some(line);
        }
        let name = place as u64;
        let has_news = self.slots.take_news(place);
        if is_told {
            if has_news {
                let _ = self.set.ask(socket, name, wish);
            }
            return None;
        }
        let is_asked = if is_new {
            self.set.add(socket, name, wish)
        } else {
            self.set.ask(socket, name, wish)
        };
        if is_asked {
            return None;
        }
        self.slots.take(rt, place)
    }

    /// A connection is looked after elsewhere.
    pub(crate) fn remove(&self, line: &Line<L>) {
        if let Ok(socket) = RawFd::try_from(line.place()) {
            self.set.remove(socket);
        }
    }

    /// Looks at each connection where the server ends, each 20 ms.
    pub fn look_at_end<R: Wait>(&self, rt: &R) {
        self.slots.age(rt, LAST_AGES);
    }
}

impl<L: EngineName> Looked for Lines<L> {
    /// Once a second each connection is looked at, and the listener, so that nothing rests on a
    /// thread's being told.
    fn look<R: Wait>(&self, rt: &R) {
        self.slots.age(rt, AGES);
        self.unpark_listener();
    }
}
