//! One connection, from its first byte to its end.
ghost use Rattle.std.specs.Prelude.{◌≡◌, ◌⊎◌, [], IfErr};
ghost use Rattle.http_input.specs.Inputs.{failures_after_read};
ghost use Rattle.http_reply.specs.Counts.{failures_of, inner_of};
ghost use Rattle.http_reply.specs.Sends.{failures_after};
ghost use Rattle.http_loop.specs.Answered.{IsAnswered};
ghost use Rattle.http_loop.specs.Texts.{IsOfConnection};
ghost use Rattle.http_loop.specs.Turned.{NotBegun, Serves, progress};
ghost use Rattle.engine_lock.specs.Locked.{Caller, naming};
ghost use Rattle.http_connections.specs.Engines.{Answers, Finishes, Gets, Tells};

use crate::by_engine::ByEngine;
use engine_lock::{Client, Engine, EngineName};
use http_loop::serve_all;
use http_peer::{Clock, Gate};
use http_reply::{Counted, Front};
use recorded_engine::GatedEngine;
use std::alloc::Global;
use std::io::{Read, Write};
use std::sync::Wait;
use std::time;

/// Answers the requests of a connection one after the other, each by one `submit` to the engine, or,
/// a Range, by a reading beside it, and gives the number of its replies. It ends at the input's end
/// before a request, after a request with `Connection: close`, and after a watch.
///
/// What it writes is, in order, the texts of exactly the outcomes of the events that were made for this
/// client in the list of all events, or of what the client read beside the engine, one for each request
/// of the bytes that were read: none is skipped and none answered twice; what is no command is refused
/// without the engine; a physical Compact is answered behind a step that said that trimming is done, or
/// is lost after 1,000 refusals in a row; a stream is the message that its watch was created and then
/// what that watch was told, which is ended behind it (`specs/Engines.antt`, over `Conn` of
/// `http_loop`). There is nothing besides. Where the reader does not tell its bytes, as a socket,
/// this is so of some bytes.
///
/// `call` is the number of the connection: each event that is made for the client meanwhile is about
/// it in the list, and no event of the client is left out there (`Gets`). The gate is told of it before
/// the first byte of each request, before the request is handed to the engine, and after its reply. The clock is read for
/// each request. The gate is told of each event; where it has them written down, only a serializable
/// Range is read beside the engine. A watch rests for 20 ms where it is told nothing, and ends where
/// the gate says then that its client has left.
///
/// Fails and costs as [`serve_all`] does, which it is over an engine.
pub fn work<L, G, C, R, In, Out>(
    rt: &R,
    alloc: Global,
    engine: &Engine<L>,
    client: &mut Client<L>,
    gate: &G,
    clock: &C,
    call: u64,
    r: &mut Counted<In>,
    w: &mut Counted<Out>,
) -> Result<u64, Front>
where
    L: EngineName,
    G: Gate,
    C: Clock,
    R: Wait + time::Clock,
    In: Read,
    Out: Write,
    ensures serves { NotBegun (naming client.old call) client.new
        (Out.contents (inner_of w.old)) (Out.contents (inner_of w.new)) result
        ⊎ Serves Caller (IsAnswered Caller (Answers engine.now.ids L.recorded (C.Tells clock.now)) (Tells engine.now.ids (G.Left gate.now call))
        (Finishes engine.now.ids)) 18446744073709551615
        (progress (naming client.old call) (In.remaining (inner_of r.old)) [] (Out.contents (inner_of w.old)))
        (Out.contents (inner_of w.new)) client.new result }
    ensures gives { Gets (naming client.old call) client.new }
    ensures reader { failures_of r.new ≡ failures_after_read result (failures_of r.old) }
    ensures writer { failures_of w.new ≡ failures_after result (failures_of w.old) }
    ensures fault { IfErr result IsOfConnection }
{
    let events = GatedEngine { rt, engine, gate };
    let by = ByEngine {
        events,
        clock,
        call,
    };
    client.set_about(call);
    serve_all(alloc, &by, client, r, w, u64::MAX)
}
