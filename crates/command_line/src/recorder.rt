//! `serve --record`: the events of a server, put into a file as the lines of a script.
ghost use Rattle.std.specs.Prelude.{◌≡◌, true, OnOk, OnErr};
ghost use Rattle.std.specs.Io.KnownBytes.{Appends};
ghost use Rattle.commands.specs.Writes.{AppendsFront};

use commands::{Fault, write_bytes};
use engine_lock::locked;
use http_front::{Gate, Takes};
use std::alloc::Global;
use std::io;
use std::io::{ErrorKind, Write};
use std::sync::{Mutex, Wait};

/// Is told where a recording ends before its server does.
pub trait Tells {
    /// No further line is written, for this reason.
    fn tell(&self, fault: &Fault);
}

/// What writes the lines.
#[derive(Drop)]
struct Writing<W> {
    out: W,
    /// The lines that are written next.
    text: Vec<u8>,
    is_open: bool,
}

/// A gate that holds no request back, and has the events of its server written down: each line is
/// in the writer before the reply to the request whose event it is.
///
/// Where a write fails, or no memory was found for a line, no further one is written, whoever is to
/// know is told why, and the server goes on. What is written then are the lines up to there, and of
/// a write that failed a beginning.
#[derive(Drop)]
pub struct Recording<'x, R, W, T> {
    rt: &'x R,
    writing: Mutex<Writing<W>>,
    tells: T,
}

impl<'x, R: Wait, W: Write, T: Tells> Recording<'x, R, W, T> {
    /// Nothing is written yet. Takes no memory.
    pub fn new(rt: &'x R, alloc: Global, out: W, tells: T) -> Self {
        Recording {
            rt,
            writing: Mutex::new(Writing {
                out,
                text: Vec::new(alloc),
                is_open: true,
            }),
            tells,
        }
    }

    /// Writes the lines that were not written yet.
    fn write_on<L: Takes>(&self, lines: &L) {
        let mut writing = locked(self.rt, &self.writing);
        if !writing.is_open {
            return;
        }
        let is_all = lines.take(&mut writing.text);
        if let Err(error) = writing.write(is_all) {
            writing.is_open = false;
            drop(writing);
            self.tells.tell(&Fault::Record(error));
        }
    }
}

impl<W: Write> Writing<W> {
    /// Writes the lines that are next. Fails where a write fails, and where they are not all: a front
    /// of them was written then.
    fn write(&mut self, is_all: bool) -> io::Result<()>
        ensures written { OnOk result (Appends (W.contents self.old.out)
            (W.contents self.new.out) self.old.text.items) }
        ensures cut { OnErr result (AppendsFront (W.contents self.old.out)
            (W.contents self.new.out) self.old.text.items) }
        ensures all { OnOk result (is_all ≡ true) }
        ensures text { self.new.text ≡ self.old.text }
    {
        write_bytes(&mut self.out, self.text.as_slice())?;
        if is_all {
            Ok(())
        } else {
            Err(io::Error::from(ErrorKind::OutOfMemory))
        }
    }
}

impl<'x, R: Wait, W: Write, T: Tells> Gate for Recording<'x, R, W, T> {
    fn before(&self, _call: u64) {}

    fn after(&self, _call: u64) {}

    fn is_recorded(&self) -> bool {
        true
    }

    fn recorded<L: Takes>(&self, lines: &L) {
        self.write_on(lines);
    }
}
