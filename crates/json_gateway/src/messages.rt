//! What a watch is told next, from a number to bytes.
ghost use Rattle.std.specs.Prelude.{◌≡◌, true, false, IfOk, OnOk, OnErr};
ghost use Rattle.kv_model.specs.Answers.{message_text};
ghost use Rattle.kv_model.specs.Wire.{deliver as model_deliver, no_watch, tell_message, wire_step};
ghost use Rattle.kv_model.specs.World.{World};
ghost use Rattle.request_core.specs.Answers.{is_memory};
ghost use Rattle.request_core.specs.State.{with_watches};
ghost use Rattle.store_laws.specs.Stands.{StandsFor};
ghost use Rattle.watch_hub.specs.Messages.{delivery_view};
ghost use Rattle.json_gateway.specs.Runs.{message_view};

use crate::outcome::Message;
use gateway_text::{cancelled_text, events_text};
use kv_model::ids::Ids;
use kv_model::refusal::Refusal;
use request_core::store::Core;
use std::alloc::{AllocError, Global};
use watch_hub::Delivery;

/// Tells the watch of a number what it is told next (the etcd documentation's WatchResponse), and
/// moves it past that: it stays as it was where it is caught up, and it ends where it is
/// told that it is cancelled. The header has the core's revision, and `watch_id` is the client's
/// number for the watch.
///
/// The text is made first: where no memory is found for the list of the events or for the text,
/// that is `AllocError`, and the core is as it was, so that the same message comes at the next
/// call. Of a core nothing but its watches changes, and no changing call is counted.
///
/// The time is that of `Core::deliver` and `Core::advance`, and linear in the text.
pub fn message(
    alloc: Global,
    core: &mut Core,
    number: u64,
    ids: &Ids,
) -> Result<Message, AllocError>
    ensures told { IfOk result (λ m. (w : World) → StandsFor core.old.store w
        → message_view m ≡ (wire_step ids.now w (model_deliver number)).0) }
    ensures stands { OnOk result ((w : World) → StandsFor core.old.store w
        → StandsFor core.new.store (wire_step ids.now w (model_deliver number)).1) }
    ensures unchanged { OnErr result (core.new ≡ core.old) }
    ensures others { core.new ≡ with_watches core.new.store.watches core.old }
{
    match next_message(alloc, core, number, ids) {
        Ok(told) => {
            core.advance(number);
            Ok(told)
        }
        Err(error) => Err(error),
    }
}

/// What the watch of a number is told next.
fn next_message(alloc: Global, core: &Core, number: u64, ids: &Ids) -> Result<Message, AllocError>
    ensures { IfOk result (λ m. (w : World) → StandsFor core.now.store w
        → message_view m ≡ (wire_step ids.now w (model_deliver number)).0) }
{
    let id = core.watch_id(number).unwrap_or(0);
    match core.deliver(number) {
        Ok(delivery) => text_of(alloc, core.status().revision, id, &delivery, ids),
        Err(refusal) => untold(refusal),
    }
}

/// The text of a delivery at a revision, to the client's number for the watch.
fn text_of(
    alloc: Global,
    revision: u64,
    id: i64,
    delivery: &Delivery<'_>,
    ids: &Ids,
) -> Result<Message, AllocError>
    ensures { IfOk result (λ m. message_view m
        ≡ tell_message true (message_text ids.now revision id (delivery_view delivery.now))) }
{
    match delivery {
        Delivery::Nothing => Ok(Message::Nothing),
        Delivery::Events(events) => {
            Ok(Message::Text(events_text(alloc, revision, id, events, ids)?))
        }
        Delivery::Cancelled(compacted) => Ok(Message::Text(cancelled_text(
            alloc, revision, id, *compacted, ids,
        )?)),
    }
}

/// What is told where the core has no delivery.
fn untold(refusal: Refusal) -> Result<Message, AllocError>
    ensures told { IfOk result (λ m.
        (message_view m ≡ no_watch) × (is_memory refusal ≡ false)) }
    ensures wanted { OnErr result (is_memory refusal ≡ true) }
{
    match refusal {
        Refusal::Memory => Err(AllocError),
        _ => Ok(Message::NoWatch),
    }
}
