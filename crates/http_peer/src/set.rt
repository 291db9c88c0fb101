//! A set of sockets, of which several threads find out which are ready.
use libc::net as c;
use mio::{Poll, Token, Waker};
use os::EpollEvent;
use std::io;
use std::io::ErrorKind;
use std::net::Net;
use std::os::fd::{AsRawFd, RawFd};

/// What is waited for at a socket.
#[derive(Clone, Copy, Debug, PartialEq, Eq)]
pub enum Wish {
    /// That something can be read, or that its client has ended.
    Read,
    /// The same, each time that something comes or the client ends, until something else is asked for.
    Coming,
    /// That something can be written.
    Write,
    /// One of the two.
    Either,
}

/// What the system is asked for by a wish: once, so that one thread alone is told; but for what comes,
/// each time that some does.
fn asked(wish: Wish) -> u32 {
    match wish {
        Wish::Read => c::EPOLLIN | c::EPOLLRDHUP | c::EPOLLONESHOT,
        Wish::Coming => c::EPOLLIN | c::EPOLLRDHUP | c::EPOLLET,
        Wish::Write => c::EPOLLOUT | c::EPOLLONESHOT,
        Wish::Either => c::EPOLLIN | c::EPOLLRDHUP | c::EPOLLOUT | c::EPOLLONESHOT,
    }
}

/// Sockets that any number of threads wait for at once. Each has a name. A socket that was asked for
/// is told once, to one of the threads, as soon as its wish is met, also where it is met already; then
/// it is not told before it is asked for again. No name is 2^64 - 1. One of which the connection is broken meets any wish.
/// One that was asked for by [`Wish::Coming`] is told again without being asked for, each time that more comes or its
/// client ends, maybe to another thread while the first is still at it: whoever has read all that there was waits for
/// the next. That a client has ended is told with what came before, and not once more.
///
/// What is in the set, and what it tells, no clause says: the system has it.
#[derive(Drop)]
pub struct Set {
    poll: Poll,
    /// A set of its own, which nobody waits for, so that it stays ready once `bell` was rung: the
    /// system tells every thread that waits for the set that this is in, and again and again.
    over: Poll,
    bell: Waker,
}

/// The name of `over` in the set.
const OVER: u64 = u64::MAX;

/// What a thread finds ready.
#[derive(Clone, Copy, Debug, PartialEq, Eq)]
pub enum Ready {
    /// Nothing: a signal came, or none is ready.
    Nothing,
    /// The set has ended.
    Over,
    /// The socket of this name, and what of it.
    Socket(u64, Sign),
}

/// What is known of a socket that is ready.
#[derive(Clone, Copy, Debug, PartialEq, Eq)]
pub enum Sign {
    /// Something can be written, and that alone was seen.
    Room,
    /// Something can be read.
    Bytes,
    /// Its client has ended, or the connection is broken; something may be there to be read, too.
    End,
}

/// What of a socket the system has told.
fn sign_of(events: u32) -> Sign {
    if events & !(c::EPOLLOUT | c::EPOLLIN) != 0 {
        Sign::End
    } else if events & c::EPOLLIN != 0 {
        Sign::Bytes
    } else {
        Sign::Room
    }
}

impl Set {
    /// An empty set. Fails where the system has no more files.
    pub fn new<R: Net>(rt: &R) -> io::Result<Set> {
        let over = Poll::new(rt)?;
        let bell = Waker::new(over.registry(), Token(0))?;
        let set = Set {
            poll: Poll::new(rt)?,
            over,
            bell,
        };
        let file = set.over.as_raw_fd();
        if !set.control(c::EPOLL_CTL_ADD, file, c::EPOLLIN, OVER) {
            return Err(io::Error::from(ErrorKind::OutOfMemory));
        }
        Ok(set)
    }

    /// Ends the set: from then on each wait of each thread tells so.
    pub fn end(&self) {
        let _ = self.bell.wake();
    }

    /// Puts a socket into the set, and asks for it. Says whether it did.
    pub fn add(&self, socket: RawFd, name: u64, wish: Wish) -> bool {
        self.control(c::EPOLL_CTL_ADD, socket, asked(wish), name)
    }

    /// Asks for a socket of the set again. Says whether it did.
    pub fn ask(&self, socket: RawFd, name: u64, wish: Wish) -> bool {
        self.control(c::EPOLL_CTL_MOD, socket, asked(wish), name)
    }

    /// Takes a socket out of the set. One that is closed is out of it by that.
    pub fn remove(&self, socket: RawFd) {
        let _ = self.control(c::EPOLL_CTL_DEL, socket, 0, 0);
    }

    fn control(&self, order: i32, socket: RawFd, events: u32, name: u64) -> bool {
        os::epoll_ctl(self.poll.as_raw_fd(), order, socket, events, name) == 0
    }

    /// Waits until a socket is ready, and gives its name: of one alone, so that another that is ready
    /// does not wait behind it.
    pub fn next(&self) -> Ready {
        self.ready_within(-1)
    }

    /// The same, without waiting: nothing where none is ready.
    pub fn next_now(&self) -> Ready {
        self.ready_within(0)
    }

    /// The same, within so many milliseconds; without an end where they are below 0.
    fn ready_within(&self, millis: i32) -> Ready {
        let mut ready = [EpollEvent { events: 0, data: 0 }];
        if os::epoll_wait(self.poll.as_raw_fd(), &mut ready, millis) == 0 {
            return Ready::Nothing;
        }
        match ready[0].data {
            OVER => Ready::Over,
            name => Ready::Socket(name, sign_of(ready[0].events)),
        }
    }
}

/// Has as many connections wait at a listener as the system allows, and no accept of it wait. Fails
/// where the system refuses that.
pub fn open_listener(listener: &std::net::TcpListener) -> io::Result<()> {
    let _ = c::listen(listener.as_raw_fd(), i32::MAX);
    listener.set_nonblocking(true)
}
