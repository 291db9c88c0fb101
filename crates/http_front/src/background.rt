//! What goes on beside the connections: trimming, and leases that end.
ghost use Rattle.std.specs.Prelude.{◌≡◌, ℕ, Result};
ghost use Rattle.trim_core.specs.declared.trimmer.Trim.{Trim as TrimOf};
ghost use Rattle.kv_model.specs.declared.refusal.Refusal.{Refusal as RefusalOf};
ghost use Rattle.request_core.specs.declared.answer.Expiry.{Expiry as ExpiryOf};
ghost use Rattle.engine_lock.specs.Entering.{MayTrim, SubmitsExpiry};
ghost use Rattle.http_front.specs.Background.{has_ended, is_last};

use engine_lock::{Client, EngineName};
use http_peer::{Clock, Gate};
use http_streams::Waking;
use http_workers::Shared;
use json_gateway::{Expiry, Refusal, Trim};
use recorded_engine::GatedEngine;
use std::sync::Wait;
use std::sync::atomic::Ordering;
use std::time::Duration;
use std::{thread, time};

/// How long trimming rests once it is done, in milliseconds.
const TRIM_REST: u64 = 20;

/// How long expiry rests once no lease is due, in milliseconds.
const EXPIRY_REST: u64 = 100;

/// Makes trimming steps until the server has ended, and rests where one says that it is done, or is
/// refused for memory. Hands the client back, with the events that it made.
pub(crate) fn keep_trimming<L: EngineName, G: Gate, C, R: Wait + time::Clock>(
    rt: &R,
    shared: &Shared<'_, L, G, C>,
    client: Client<L>,
) -> Client<L> {
    let events = shared.events(rt);
    let mut client = client;
    for _ in rt.forever() {
        if shared.ended.load(Ordering::SeqCst) {
            break;
        }
        if make_trim_step(&events, &mut client) {
            thread::sleep(rt, Duration::from_millis(TRIM_REST));
        }
    }
    client
}

/// Makes a trimming step, and tells whether no other is to follow at once: it says that trimming is
/// done, or it was refused.
fn make_trim_step<L: EngineName, G: Gate, R: Wait>(
    events: &GatedEngine<'_, L, G, R>,
    client: &mut Client<L>,
) -> bool
    ensures { (step : Result TrimOf RefusalOf)
        × MayTrim events.now.engine.now.ids client.old step client.new × (result ≡ is_last step) }
{
    ends_round(events.trim_once(client))
}

/// Whether no other step is to follow this one at once.
fn ends_round(step: Result<Trim, Refusal>) -> bool
    ensures { result ≡ is_last step }
{
    match step {
        Ok(Trim::Removed(_) | Trim::Kept(_)) => false,
        Ok(Trim::Done(_)) | Err(_) => true,
    }
}

/// Makes steps of expiry until the server has ended, and rests where one finds no lease that is
/// due, or is refused. Hands the client back, with the events that it made.
pub(crate) fn keep_expiring<L: EngineName, G: Gate, C: Clock, R: Wait + time::Clock>(
    rt: &R,
    shared: &Shared<'_, L, G, C>,
    client: Client<L>,
) -> Client<L> {
    let waking = Waking::new(shared.gate, &shared.handing, true);
    let events = GatedEngine {
        rt,
        engine: shared.engine,
        gate: &waking,
    };
    let mut client = client;
    for _ in rt.forever() {
        if shared.ended.load(Ordering::SeqCst) {
            break;
        }
        if !make_expiry_step(&events, shared.clock, &mut client) {
            thread::sleep(rt, Duration::from_millis(EXPIRY_REST));
        }
    }
    client
}

/// Makes a step of expiry, and tells whether a lease has ended by it.
fn make_expiry_step<L: EngineName, G: Gate, C: Clock, R: Wait>(
    events: &GatedEngine<'_, L, G, R>,
    clock: &C,
    client: &mut Client<L>,
) -> bool
    ensures { (now : ℕ) × C.Tells clock.now now × (step : Result ExpiryOf RefusalOf)
        × SubmitsExpiry events.now.engine.now.ids client.old now step client.new × (result ≡ has_ended step) }
{
    ended_lease(events.expire_once(client, clock.now()))
}

/// Whether a lease has ended by this step.
fn ended_lease(step: Result<Expiry, Refusal>) -> bool
    ensures { result ≡ has_ended step }
{
    matches!(step, Ok(Expiry::Expired { .. }))
}
