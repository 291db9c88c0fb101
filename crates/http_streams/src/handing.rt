//! Streams that begin, handed from the workers to the thread that looks after them, and how that is woken.
use http_peer::{Gate, Takes};
use mio::{Poll, Token, Waker};
use std::alloc::{AllocError, Global};
use std::io;
use std::net::TcpStream;
use std::sync::atomic::{AtomicBool, Ordering};
use std::sync::{Mutex, Wait};

/// By which the waker is named. No watch has this number.
pub(crate) const WOKEN: Token = Token(0);

/// A stream of which the head and the created message have gone out.
#[derive(Drop)]
pub struct Handed {
    /// The number of its connection.
    pub call: u64,
    /// The number of its watch.
    pub number: u64,
    pub stream: TcpStream,
}

/// The streams that begin, and the waker of the thread that takes them.
#[derive(Drop)]
pub struct Handing {
    inbox: Mutex<Vec<Handed>>,
    waker: Waker,
    /// Whether no further one is handed over.
    closed: AtomicBool,
}

impl Handing {
    /// Nothing was handed over yet; who waits at `poll` is woken.
    pub(crate) fn new(alloc: Global, poll: &Poll) -> io::Result<Handing> {
        Ok(Handing {
            inbox: Mutex::new(Vec::new(alloc)),
            waker: Waker::new(poll.registry(), WOKEN)?,
            closed: AtomicBool::new(false),
        })
    }

    /// Hands a stream over. `AllocError` comes where no memory was found for it.
    pub fn hand<R: Wait>(&self, rt: &R, handed: Handed) -> Result<(), AllocError> {
        let mut inbox = self.inbox.lock(rt);
        let came = inbox.push(handed);
        drop(inbox);
        if came.is_err() {
            return Err(AllocError);
        }
        self.wake();
        Ok(())
    }

    /// One of those that were handed over.
    pub(crate) fn take<R: Wait>(&self, rt: &R) -> Option<Handed> {
        self.inbox.lock(rt).pop()
    }

    /// No further one is handed over.
    pub fn close(&self) {
        self.closed.store(true, Ordering::SeqCst);
        self.wake();
    }

    /// Whether no further one is handed over.
    pub(crate) fn is_closed(&self) -> bool {
        self.closed.load(Ordering::SeqCst)
    }

    /// Wakes the thread that looks after the streams.
    pub fn wake(&self) {
        let _ = self.waker.wake();
    }
}

/// A gate by which whoever made a change wakes the streams: behind the reply to its request, or at
/// once.
#[derive(Drop)]
pub struct Waking<'g, G> {
    gate: &'g G,
    handing: &'g Handing,
    at_once: bool,
    stirred: AtomicBool,
}

impl<'g, G> Waking<'g, G> {
    /// Over a gate. `at_once` is for changes that no request asks for.
    pub fn new(gate: &'g G, handing: &'g Handing, at_once: bool) -> Self {
        Waking {
            gate,
            handing,
            at_once,
            stirred: AtomicBool::new(false),
        }
    }
}

impl<'g, G: Gate> Gate for Waking<'g, G> {
    fn before(&self, call: u64) {
        self.gate.before(call);
    }

    fn after(&self, call: u64) {
        if self.stirred.load(Ordering::SeqCst) && self.stirred.swap(false, Ordering::SeqCst) {
            self.handing.wake();
        }
        self.gate.after(call);
    }

    fn awaits(&self, call: u64) {
        self.gate.awaits(call);
    }

    fn has_left(&self, call: u64) -> bool {
        self.gate.has_left(call)
    }

    fn changed(&self) {
        if self.at_once {
            self.handing.wake();
        } else {
            self.stirred.store(true, Ordering::SeqCst);
        }
        self.gate.changed();
    }

    fn is_recorded(&self) -> bool {
        self.gate.is_recorded()
    }

    fn recorded<T: Takes>(&self, lines: &T) {
        self.gate.recorded(lines);
    }
}
