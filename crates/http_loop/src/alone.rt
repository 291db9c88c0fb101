//! A connection over a core by itself.
ghost use Rattle.std.specs.Prelude.{◌≡◌, ◌<◌, ◌^◌, ◌⊎◌, []};
ghost use Rattle.http_input.specs.Inputs.{failures_after_read, request_view};
ghost use Rattle.http_reply.specs.Counts.{failures_of, inner_of};
ghost use Rattle.http_reply.specs.Sends.{failures_after};
ghost use Rattle.http_loop.specs.Served as served;
ghost use Rattle.http_loop.specs.Served.{Leaves, Stands, ids_alone};
ghost use Rattle.http_loop.specs.Connections.{IsAnswered, Standing};
ghost use Rattle.http_loop.specs.Turned.{NotBegun, Serves, progress};

use crate::answering::{Answering, Told};
use crate::serving::serve_all;
use crate::writing::command_path;
use http_input::Request;
use http_reply::{Counted, Front};
use json_gateway::{Ids, Message, Outcome, message, post_and_trim};
use request_core::store::Core;
use std::alloc::Global;
use std::io::{Read, Write};

/// The ids of a server by itself.
const ALONE: Ids = Ids {
    cluster: 1,
    member: 1,
};

/// Answers of a core that nobody else changes.
#[derive(Clone, Copy, Drop)]
struct Alone;

impl Answering<Core> for Alone {
    ghost Answers = { λ _. served.Answers };

    ghost Tells = { λ _. served.Tells };

    ghost Finishes = { λ _. served.Finishes };

    /// Nobody is to be told.
    fn awaits(&self) {}

    /// Does what a request asks, as member 1 of cluster 1, and makes the trimming steps that its
    /// answer waits for.
    fn answer(&self, alloc: Global, state: &mut Core, request: &Request<'_>) -> Outcome {
        let outcome = post_and_trim(alloc, state, command_path(request), request.body, &ALONE);
        fit(state);
        outcome
    }

    /// The next message of a watch. There is none where it is caught up or has ended: nobody else
    /// changes the store.
    fn tell(&self, alloc: Global, state: &mut Core, number: u64) -> Told {
        match message(alloc, state, number, &ALONE) {
            Ok(Message::Text(text)) => Told::Text(text),
            Ok(Message::Nothing | Message::NoWatch) => Told::End,
            Err(_) => Told::Memory,
        }
    }

    /// Drops the watch that a request made.
    fn finish(&self, state: &mut Core, watch: Option<u64>) {
        if let Some(number) = watch {
            let _ = state.cancel(number);
        }
    }
}

/// The revision of a core is a number of 64 bits.
fn fit(core: &Core)
    ensures { core.now.store.revision < 2 ^ 64 }
{
    let _revision = core.status().revision;
}

/// Answers the requests of a connection (RFC 9112), at most `limit` of them, one after the other,
/// as member 1 of cluster 1, and gives the number of replies: where the input ended before a first
/// byte of a request, at the limit, or after a reply that closes the connection.
///
/// A watch is answered by a stream (RFC 9112, section 7.1): its created message, its messages until
/// a delivery tells nothing or cancels it, and the last chunk; that ends the connection. Whatever
/// way out there is, the watch is dropped. A Compact that is `physical` is answered once trimming
/// is done.
///
/// It fails as [`serve_all`] does, which it is over a core, and costs as that does.
pub fn serve_alone<R: Read, W: Write>(
    alloc: Global,
    core: &mut Core,
    r: &mut Counted<R>,
    w: &mut Counted<W>,
    limit: u64,
) -> Result<u64, Front>
    ensures serves { (s : Standing) → Stands core.old s
        → NotBegun core.old core.new (W.contents (inner_of w.old)) (W.contents (inner_of w.new)) result
        ⊎ Leaves core.new (λ t. Serves Standing (IsAnswered ids_alone) limit
        (progress s (R.remaining (inner_of r.old)) [] (W.contents (inner_of w.old)))
        (W.contents (inner_of w.new)) t result) }
    ensures reads { failures_of r.new ≡ failures_after_read result (failures_of r.old) }
    ensures writes { failures_of w.new ≡ failures_after result (failures_of w.old) }
{
    serve_all(alloc, &Alone, core, r, w, limit)
}
