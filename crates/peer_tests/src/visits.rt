//! A connection that is served in visits, by one client and then another: its bytes come in two parts,
//! split at each place, and its replies go out in parts.
ghost use Rattle.std.specs.Prelude.{◌≡◌, false};

use crate::sides::{Impatient, ONES, Still};
use crate::texts::{PUT, PUT_REPLY, REPLIES, REQUESTS};
use engine_lock::{Client, Engine, EngineName, Opening};
use http_connections::{After, ByEngine, ByWorker, Crowd, Life, Serving, Turning, Wire};
use http_front::GatedEngine;
use http_input::Input;
use http_reply::ReplyBuffer;
use std::alloc::Global;
use std::io::{ErrorKind, Read, Write};
use std::marker::Brand;
use std::sync::Wait;
use std::sync::atomic::AtomicBool;
use std::{io, time};

/// How often a connection is visited at most.
const MOST_VISITS: u64 = 600;

/// Gives its bytes, and then nothing for now.
#[derive(Drop)]
struct Part<'b> {
    bytes: &'b [u8],
}

impl<'b> Read for Part<'b> {
    fn read(&mut self, buf: &mut [u8]) -> io::Result<usize> {
        if self.bytes.is_empty() {
            return Err(io::Error::from(ErrorKind::WouldBlock));
        }
        self.bytes.read(buf)
    }
}

/// Takes so many bytes, and no more for now.
#[derive(Drop)]
struct Taking {
    got: Vec<u8>,
    most: usize,
}

impl Write for Taking {
    fn write(&mut self, buf: &[u8]) -> io::Result<usize> {
        let most = buf.len().min(self.most);
        if most == 0 {
            return Err(io::Error::from(ErrorKind::WouldBlock));
        }
        self.most -= most;
        self.got.extend_from_slice(&buf[..most])?;
        Ok(most)
    }

    fn flush(&mut self) -> io::Result<()> {
        Ok(())
    }
}

/// A physical Compact, which is answered once what it lets go is trimmed.
const COMPACT: &[u8] = b"POST /v3/kv/compaction HTTP/1.1\r\nHost: t\r\nContent-Length: 32\r\n\r\n\
    {\"revision\":\"2\",\"physical\":true}";

/// The put twice, and the Compact: what is sent, and what is answered.
fn sent_and_answered(alloc: Global) -> (Vec<u8>, Vec<u8>) {
    let mut sent = Vec::new(alloc);
    let mut answered = Vec::new(alloc);
    for _ in 0..2 {
        let _ = sent.extend_from_slice(&REQUESTS[..PUT]);
    }
    let _ = sent.extend_from_slice(COMPACT);
    let _ = answered.extend_from_slice(&REPLIES[..PUT_REPLY]);
    for _ in 0..2 {
        let _ = answered.extend_from_slice(&REPLIES[..PUT_REPLY - 4]);
        let _ = answered.extend_from_slice(b"3\"}}");
    }
    (sent, answered)
}

/// A connection, and the two clients that serve it in turn.
#[derive(Drop)]
struct Served<L: EngineName> {
    clients: [Serving<L>; 2],
    buffer: ReplyBuffer,
    input: Input,
    life: Life<L>,
    w: Taking,
}

impl<L: EngineName> Served<L> {
    fn new<R: Wait>(rt: &R, alloc: Global, engine: &mut Engine<L>) -> Option<Self> {
        match engine.client(rt) {
            Ok(one) => Served::beside(rt, alloc, engine, one),
            Err(_) => None,
        }
    }

    fn beside<R: Wait>(
        rt: &R,
        alloc: Global,
        engine: &mut Engine<L>,
        one: Client<L>,
    ) -> Option<Self> {
        match engine.client(rt) {
            Ok(other) => Served::by(alloc, one, other),
            Err(_) => {
                drop(one);
                None
            }
        }
    }

    fn by(alloc: Global, one: Client<L>, other: Client<L>) -> Option<Self> {
        match ReplyBuffer::new(alloc) {
            Ok(buffer) => Served::through(alloc, one, other, buffer),
            Err(_) => {
                drop(one);
                drop(other);
                None
            }
        }
    }

    fn through(
        alloc: Global,
        one: Client<L>,
        other: Client<L>,
        buffer: ReplyBuffer,
    ) -> Option<Self> {
        match Input::new(alloc) {
            Ok(input) => {
                let known = other.known();
                Some(Served {
                    clients: [Serving::new(alloc, one), Serving::new(alloc, other)],
                    buffer,
                    input,
                    life: Life::new(alloc, 1, known),
                    w: Taking {
                        got: Vec::new(alloc),
                        most: 0,
                    },
                })
            }
            Err(_) => {
                drop(one);
                drop(other);
                drop(buffer);
                None
            }
        }
    }

    /// What its client took.
    fn taken(self) -> Vec<u8> {
        let Served {
            clients,
            buffer,
            input,
            life,
            w,
        } = self;
        drop(clients);
        drop(buffer);
        drop(input);
        drop(life);
        w.got
    }
}

/// The connection is visited by one of the clients, and gives these bytes, of which it takes so many.
fn visit<L: EngineName, R: Wait + time::Clock>(
    turning: &Turning<'_, L, Impatient, Still, R>,
    served: Served<L>,
    client: usize,
    bytes: &[u8],
    most: usize,
) -> Option<(Served<L>, After)> {
    let Served {
        clients,
        buffer,
        input,
        life,
        w,
    } = served;
    let (mut clients, mut buffer, mut input, mut life, mut w) = (clients, buffer, input, life, w);
    if life.call != turning.by.by.call {
        return None;
    }
    w.most = most;
    let wire = Wire {
        r: Part { bytes },
        w,
    };
    let serving = clients.get_mut(client)?;
    let visited = turning.visit(serving, &mut buffer, &mut input, &mut life, wire, true);
    let served = Served {
        clients,
        buffer,
        input,
        life,
        w: visited.wire.w,
    };
    Some((served, visited.after))
}

/// The bytes of a part: those before a place, those from it on, and none.
fn part_of(bytes: &[u8], place: usize, part: usize) -> Option<&[u8]> {
    match part {
        0 => bytes.get(..place),
        1 => bytes.get(place..),
        _ => bytes.get(..0),
    }
}

/// What went out of a connection whose bytes come in two parts, split at a place, and whose client takes
/// so many bytes a visit; `None` where something found no memory, or a visit ends it.
fn goes_out<L: EngineName, R: Wait + time::Clock>(
    turning: &Turning<'_, L, Impatient, Still, R>,
    served: Served<L>,
    bytes: &[u8],
    place: usize,
    most: usize,
) -> Option<Vec<u8>> {
    let mut served = served;
    let (mut part, mut is_new) = (0, true);
    for count in 0..MOST_VISITS {
        let given = if is_new { part } else { 2 };
        let came = part_of(bytes, place, given)?;
        let (then, after) = visit(turning, served, count as usize % 2, came, most)?;
        served = then;
        is_new = matches!(after, After::Reads);
        match after {
            After::Reads if part == 1 => return Some(served.taken()),
            After::Reads => part = 1,
            After::Writes | After::Again => {}
            After::Over | After::Away(_) => break,
        }
    }
    drop(served);
    None
}

/// Whether all is answered of a connection whose bytes come split at a place: by a row of how many bytes
/// its client takes a visit, and what it is to get.
fn is_answered<L: EngineName, R: Wait + time::Clock>(
    rt: &R,
    alloc: Global,
    opening: Opening,
    sent: &[u8],
    place: usize,
    row: (usize, &[u8]),
) -> bool
    requires name { opening.name ≡ L.Ledger.name }
    requires parts { opening.parts ≡ L.Ledger.parts }
    requires book { opening.book ≡ L.ListName.book }
    requires recorded { L.recorded ≡ false }
    requires ids { L.ListName.ids ≡ record { cluster = 1; member = 1 } }
{
    let mut engine = Engine::<L>::new(alloc, opening, ONES);
    let Some(served) = Served::new(rt, alloc, &mut engine) else {
        return false;
    };
    let crowd = Crowd::new(2);
    crowd.came();
    let ended = AtomicBool::new(false);
    let turning = Turning {
        alloc,
        by: ByWorker {
            by: ByEngine {
                events: GatedEngine {
                    rt,
                    engine: &engine,
                    gate: &Impatient,
                },
                clock: &Still,
                call: 1,
            },
        },
        crowd: &crowd,
        ended: &ended,
    };
    match goes_out(&turning, served, sent, place, row.0) {
        Some(got) => {
            let is = got.as_slice() == row.1;
            drop(got);
            is
        }
        None => false,
    }
}

/// The same, over an engine of its own.
fn comes_to<R: Wait + time::Clock>(
    rt: &R,
    alloc: Global,
    sent: &[u8],
    place: usize,
    row: (usize, &[u8]),
) -> bool {
    match Opening::new(alloc, rt) {
        Ok(opening) => is_answered::<Brand, R>(rt, alloc, opening, sent, place, row),
        Err(_) => false,
    }
}

/// The first place at which these requests, split there, come to something else, where the client takes so
/// many bytes a visit.
fn first_wrong<R: Wait + time::Clock>(rt: &R, alloc: Global, most: usize) -> Option<usize> {
    let (sent, wanted) = sent_and_answered(alloc);
    for place in 0..=sent.len() {
        if !comes_to(rt, alloc, &sent, place, (most, wanted.as_slice())) {
            return Some(place);
        }
    }
    None
}

#[test]
fn visits_by_two_clients(rt: HostRuntime) {
    let alloc = rt.alloc();
    assert_eq!(rt; first_wrong(&rt, alloc, usize::MAX), None);
    assert_eq!(rt; first_wrong(&rt, alloc, 40), None);
}
