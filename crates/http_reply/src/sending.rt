//! Texts that go out by one write, where the writer takes them whole.
ghost use Rattle.std.specs.Prelude.{◌≡◌, ◌<◌, ◌≤◌, length, IfErr, OnErr, OnOk};
ghost use Rattle.std.specs.Prelude.{vec_capacity};
ghost use Rattle.http_reply.specs.Counts.{failures_of, inner_of};
ghost use Rattle.http_reply.specs.Sends.{Sends, failures_after, joined};

use crate::counted::Counted;
use crate::front::Front;
use std::alloc::{AllocError, Global};
use std::io::Write;
use std::marker::Model;

/// The room that a buffer has at least, in bytes.
const LEAST_ROOM: usize = 1024;

/// Where the replies of a connection are laid out, so that each goes out by one write. It keeps the
/// room that the longest of them took.
///
/// Contracts see its room in bytes, which is 1,024 at least: what fits there takes no memory.
#[derive(Debug, Drop)]
pub struct ReplyBuffer {
    text: Vec<u8>,
}

impl Model for ReplyBuffer {
    ghost use Rattle.std.specs.Prelude.{ℕ, ◌≤◌, vec_capacity};

    ghost Value = { ℕ };

    ghost view = { λ b. vec_capacity b.text };

    ghost invariant = { λ b. 1024 ≤ vec_capacity b.text };
}

impl ReplyBuffer {
    /// A buffer with the least room. Fails for want of memory.
    pub fn new(alloc: Global) -> Result<ReplyBuffer, AllocError> {
        Ok(ReplyBuffer {
            text: Vec::with_capacity(alloc, LEAST_ROOM)?,
        })
    }

    /// Its room in bytes.
    pub fn room(&self) -> usize
        ensures { result ≡ self.now }
    {
        self.text.capacity()
    }

    /// Writes the pieces, one after the other, as one text.
    pub(crate) fn send<W: Write>(
        &mut self,
        w: &mut Counted<W>,
        pieces: &[&[u8]],
    ) -> Result<(), Front>
        ensures sent { Sends result (W.contents (inner_of w.old)) (W.contents (inner_of w.new))
            (joined pieces.now) }
        ensures failures { failures_of w.new ≡ failures_after result (failures_of w.old) }
        ensures memory { IfErr result (λ f. f ≡ Front.Memory
            → (w.new ≡ w.old) × (self.old < length (joined pieces.now))
            × (1024 < length (joined pieces.now))) }
        ensures room { self.old ≤ self.new }
    {
        match put(&mut self.text, pieces) {
            Ok(()) => write_text(w, self.text.as_slice()),
            Err(AllocError) => Err(Front::Memory),
        }
    }
}

/// Makes a text of the pieces. Fails for want of memory, where the text has no room for them.
pub(crate) fn put(text: &mut Vec<u8>, pieces: &[&[u8]]) -> Result<(), AllocError>
    ensures ok { OnOk result (text.new.items ≡ joined pieces.now) }
    ensures full { OnErr result (vec_capacity text.old < length (joined pieces.now)) }
    ensures capacity { vec_capacity text.old ≤ vec_capacity text.new }
{
    text.clear();
    for piece in pieces {
        text.extend_from_slice(piece)?;
    }
    Ok(())
}

/// Calls write until all of the text is out. Fails with `Front::Write` at the first write that
/// fails or takes nothing, and makes no further one.
fn write_text<W: Write>(w: &mut Counted<W>, text: &[u8]) -> Result<(), Front>
    ensures sent { Sends result (W.contents (inner_of w.old)) (W.contents (inner_of w.new)) text.now }
    ensures failures { failures_of w.new ≡ failures_after result (failures_of w.old) }
    ensures room { IfErr result (λ f. f ≡ Front.Memory → ⊥) }
{
    let mut sent = 0;
    while sent < text.len() {
        match w.write(&text[sent..]) {
            Ok(count) if count > 0 => sent += count,
            _ => return Err(Front::Write(sent as u64)),
        }
    }
    Ok(())
}
