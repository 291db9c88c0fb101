//! A connection between two waits, with its socket.
ghost use Rattle.std.specs.Prelude.{◌≡◌};

use crate::slots::Ages;
use engine_lock::{EngineName, Known};
use http_connections::{Life, Stage};
use http_input::Input;
use std::alloc::Global;
use std::net::{Shutdown, TcpStream};
use std::os::fd::AsRawFd;

/// A connection between two waits: who is at its other end, what has come and was not answered, and how
/// far it is.
#[derive(Drop)]
pub(crate) struct Line<L: EngineName> {
    pub(crate) stream: TcpStream,
    /// What has come and was not answered; none where nothing has, so that a connection that is idle
    /// takes some hundred bytes.
    pub(crate) input: Option<Box<Input>>,
    pub(crate) life: Life<L>,
    /// How often it was looked at since a byte came or went.
    looks: u32,
    /// Whether a thread is told of what comes without being asked to, and nothing was told of it that
    /// would not be told again.
    pub(crate) is_awaited: bool,
}

impl<L: EngineName> Line<L> {
    /// A connection of which no byte has come, whose client knows of this front. Takes no memory.
    pub(crate) fn new(alloc: Global, call: u64, stream: TcpStream, known: Known<L>) -> Self {
        Line {
            stream,
            input: None,
            life: Life::new(alloc, call, known),
            looks: 0,
            is_awaited: false,
        }
    }

    /// The number that the system gives its socket, which is that of its place, too.
    pub(crate) fn place(&self) -> usize {
        usize::try_from(self.stream.as_raw_fd()).unwrap_or(usize::MAX)
    }

    /// A byte may have come or gone.
    pub(crate) fn freshen(&mut self)
        ensures { self.new ≡ record self.old { looks = 0 } }
    {
        self.looks = 0;
    }

    /// Looks at it, where no thread has it, and ends its socket where it has been looked at too often
    /// since a byte came or went: whoever is told of that ends the connection. Where the server ends, so
    /// does one of which no byte of a next request has come, at once.
    pub(crate) fn age(&mut self, ages: Ages) {
        self.looks = self.looks.saturating_add(1);
        if !self.life.unsent.is_empty() {
            if self.looks >= ages.unsent {
                self.cut(Shutdown::Both);
            }
            return;
        }
        let Some(unread) = ages.unread else {
            return;
        };
        if !matches!(self.life.stage, Stage::Reading) {
            return;
        }
        if self.input.is_none() {
            self.cut(Shutdown::Read);
        } else if self.looks >= unread {
            self.cut(Shutdown::Both);
        }
    }

    fn cut(&self, how: Shutdown) {
        let _ = self.stream.shutdown(how);
    }
}
