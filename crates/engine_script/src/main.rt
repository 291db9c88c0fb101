//! `engine_script`: a script through an engine with one client, for tests alone.
//!
//! It reads a script on standard input, of the lines that `etcd_one replay` takes but `CERTIFY`, and
//! makes the event of each through an [`Engine`]: a request by `submit`, and a serializable Range by
//! the client's own reader; `DELIVER` by `deliver`, `CLOSE` by `drop_watch`, `TRIM` by `trim_once`
//! and `EXPIRE` by `expire_once`. `AT` says the moment that is handed in from there on. A physical
//! Compact makes no trimming steps.
//!
//! It writes a line for each, which begins with the client's share after it. Of a request that was
//! submitted there follow `published`, or `waiting` where readers do not see all that was done, the
//! revision after it, the status and the body; of a serializable Range `beside`, of a request that
//! asks for nothing `unread`, each with status and body. The others have the words of `replay`. The
//! last line is `closed at revision` and the core's revision, once the engine gave it back.
//!
//! For example, where `{..}` stands for a body:
//!
//! ```text
//! POST /v3/kv/put {"key":"YQ==","value":"MQ=="}              1 published 2 200 {..}
//! POST /v3/kv/range {"key":"YQ==","serializable":true}       1 beside 200 {..}
//! TRIM                                                       1 done 1
//!                                                            closed at revision 2
//! ```
//!
//! It ends with status 2 where its input or its output fails, or memory is wanting before the first
//! event; then it writes nothing. From there on it takes no memory but for the events themselves, so
//! `tests/allocations_engine` refuses each of its allocations in turn.
#![tactic(auto)]

ghost use Rattle.std.specs.Prelude.{◌≡◌, false};

mod events;
mod lines;
mod telling;

use engine_lock::{Client, Engine, EngineName, Opening};
use events::answer_lines;
use json_gateway::Ids;
use std::alloc::Global;
use std::io;
use std::io::{ErrorKind, Read, Write};
use std::marker::Brand;
use std::process::ExitCode;
use std::rt::Runtime;
use std::sync::Wait;

/// The cluster and the member that answer.
const IDS: Ids = Ids {
    cluster: 1,
    member: 1,
};

fn main(rt: HostRuntime) -> ExitCode {
    match run(&rt) {
        Ok(()) => ExitCode::SUCCESS,
        Err(_) => ExitCode::from(2),
    }
}

/// Answers standard input on standard output.
fn run<R: Runtime + AllocGlobal + Wait>(rt: &R) -> io::Result<()> {
    let mut script = Vec::new(rt.alloc());
    rt.reader().read_to_end(&mut script)?;
    answer_script(rt, rt.alloc(), &script, &mut io::writer(rt))
}

/// Answers a script, where there is memory for an engine.
fn answer_script<R: Wait, W: Write>(
    rt: &R,
    alloc: Global,
    script: &[u8],
    w: &mut W,
) -> io::Result<()> {
    match Opening::new(alloc, rt) {
        Ok(opening) => answer_on::<Brand, R, W>(rt, alloc, opening, script, w),
        Err(_) => Err(io::Error::from(ErrorKind::OutOfMemory)),
    }
}

/// Answers a script on a new engine, and closes it with its one client.
fn answer_on<L: EngineName, R: Wait, W: Write>(
    rt: &R,
    alloc: Global,
    opening: Opening,
    script: &[u8],
    w: &mut W,
) -> io::Result<()>
    requires name { opening.name ≡ L.Ledger.name }
    requires parts { opening.parts ≡ L.Ledger.parts }
    requires book { opening.book ≡ L.ListName.book }
    requires recorded { L.recorded ≡ false }
    requires ids { L.ListName.ids ≡ record { cluster = 1; member = 1 } }
{
    match Vec::with_capacity(alloc, 1) {
        Ok(clients) => {
            let engine = Engine::<L>::new(alloc, opening, IDS);
            answer_by(rt, alloc, engine, clients, script, w)
        }
        Err(_) => {
            drop(opening);
            Err(io::Error::from(ErrorKind::OutOfMemory))
        }
    }
}

/// Answers a script by a client of an engine, and closes that.
fn answer_by<L: EngineName, R: Wait, W: Write>(
    rt: &R,
    alloc: Global,
    engine: Engine<L>,
    clients: Vec<Client<L>>,
    script: &[u8],
    w: &mut W,
) -> io::Result<()> {
    let mut engine = engine;
    match engine.client(rt) {
        Ok(client) => answer_with(rt, alloc, engine, clients, client, script, w),
        Err(_) => {
            drop(clients);
            drop(engine);
            Err(io::Error::from(ErrorKind::Other))
        }
    }
}

/// The same by this one, for which the list of clients has room.
fn answer_with<L: EngineName, R: Wait, W: Write>(
    rt: &R,
    alloc: Global,
    engine: Engine<L>,
    clients: Vec<Client<L>>,
    client: Client<L>,
    script: &[u8],
    w: &mut W,
) -> io::Result<()> {
    let (mut clients, mut client) = (clients, client);
    let answered = answer_lines(rt, alloc, &engine, &mut client, script, w);
    drop(clients.push(client));
    let closed = closed_at(rt, engine, clients);
    answered?;
    match closed {
        Some(revision) => writeln!(w, "closed at revision {revision}"),
        None => writeln!(w, "not closed"),
    }
}

/// The revision of the core that an engine gives back for these clients.
fn closed_at<L: EngineName, R: Wait>(
    rt: &R,
    engine: Engine<L>,
    clients: Vec<Client<L>>,
) -> Option<u64> {
    match engine.close(rt, clients) {
        Ok(core) => {
            let revision = core.status().revision;
            drop(core);
            Some(revision)
        }
        Err(fault) => {
            drop(fault);
            None
        }
    }
}
