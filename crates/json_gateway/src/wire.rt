//! Runs of events, from bytes to bytes.
ghost use Rattle.std.specs.List.{AllByRecursion};
ghost use Rattle.std.specs.Prelude.{◌≡◌, map, IfOk, if◌then◌else◌};
ghost use Rattle.kv_model.specs.declared.ids.Ids.{Ids};
ghost use Rattle.request_core.specs.Answers.{is_memory};
ghost use Rattle.store_laws.specs.Stands.{StandsFor};
ghost use Rattle.kv_model.specs.Headline.{IsRun};
ghost use Rattle.kv_model.specs.Wire.{close as model_close, deliver as model_deliver};
ghost use Rattle.kv_model.specs.Wire.{expire as model_expire, post as model_post};
ghost use Rattle.kv_model.specs.Wire.{trim as model_trim, certify as model_certify};
ghost use Rattle.json_gateway.specs.Endings.{is_done};
ghost use Rattle.trim_core.specs.Told.{told_of};
ghost use Rattle.kv_model.specs.World.{World};

use crate::certifying::{certified, trimmed};
use crate::commands::post_by;
use crate::messages::message;
use crate::outcome::{Certified, Message, Outcome, Trimmed};
use gateway_read::Reading;
use kv_model::ids::Ids;
use kv_model::refusal::Refusal;
use range_view::tables::Trim;
use request_core::answer::Expiry;
use request_core::store::Core;
use std::alloc::{AllocError, Global};

/// What happens to a store.
#[derive(Clone, Copy, Debug)]
pub enum WireEvent<'a> {
    /// The clock is read, in milliseconds.
    Moment(u64),
    /// A request comes: a POST of this body to this path.
    Post { path: &'a [u8], body: &'a [u8] },
    /// The lease that is due first is revoked, if there is one.
    Expire,
    /// The watch of this number is told what comes next for it.
    Deliver(u64),
    /// The watch of this number ends.
    Close(u64),
    /// One trimming step is made.
    Trim,
    /// What is kept is shown, with its certificate.
    Certify,
}

/// What an event was answered.
#[derive(Debug, Drop)]
pub enum WireOutcome {
    /// What a request was.
    Posted(Outcome),
    /// The store's clock, in milliseconds: the greatest moment so far, at most 2^62.
    Clock(u64),
    /// What a step of expiry did, or why it did nothing.
    Expiry(Result<Expiry, Unexpired>),
    /// What a watch was told, or that no memory was found for it: then it has not gone on.
    Delivered(Result<Message, AllocError>),
    /// Whether a watch that had the number was closed.
    Closed(bool),
    /// What a trimming step did.
    Trimmed(Trimmed),
    /// What is kept, or that no memory was found to show it.
    Certified(Result<Certified, AllocError>),
}

/// Why a lease that is due was not revoked. Nothing has changed then.
#[derive(Clone, Copy, Debug, PartialEq, Eq)]
pub enum Unexpired {
    /// No memory was found.
    Memory,
    /// The lease has keys, and no revision is left to delete them in.
    RevisionsSpent,
}

/// The outcomes of a run, one for each event, in order.
#[derive(Debug, Drop)]
pub struct WireRun {
    pub outcomes: Vec<WireOutcome>,
}

ghost use Rattle.json_gateway.specs.Outcomes.{IsBare};
ghost use Rattle.json_gateway.specs.Runs.{IsBareIn, command_view, event_view, outcome_view};
ghost use Rattle.json_gateway.specs.Steps.{Steps, TrimsAll, TrimsWhere};

/// Runs events on a fresh store. **Each outcome's bytes are those of the model of the whole
/// history, while the history is trimmed to the fewest versions that still give them**, whatever
/// the events are: `IsRun` of the model says so. Before and after each event what is kept answers
/// every question from the compaction on as the whole history does. A trimming step takes out a
/// version only where no least list has it, and where it is done, the one least list is kept; the
/// certificate that it is told with passes its check, and each of its needs is one in the whole
/// history. `Certify` shows what is kept.
///
/// An event that found no memory counts as not made, and an answer may be lost only where its
/// change stands; a moment, a trimming step and the close of a watch find their memory always.
/// A Compact that is `physical` is answered once trimming is done. An outcome without
/// an answer, and a refusal, tell neither a revision nor a watch. `AllocError` comes before the
/// first event, where there is no room for the outcomes.
pub fn run_wire(alloc: Global, events: &[WireEvent<'_>], ids: &Ids) -> Result<WireRun, AllocError>
    ensures run { IfOk result (λ run.
        IsRun ids.now (map event_view events.now) (map outcome_view run.outcomes.items)) }
    ensures bare { IfOk result (λ run. AllByRecursion IsBareIn run.outcomes.items) }
{
    let mut outcomes = Vec::with_capacity(alloc, events.len())?;
    let mut core = Core::new(alloc);
    let mut reading = Reading::new(alloc);
    for event in events {
        let outcome = step(alloc, &mut reading, &mut core, event, ids);
        outcomes.push(outcome).unwrap();
    }
    Ok(WireRun { outcomes })
}

/// One event on a core.
fn step(
    alloc: Global,
    reading: &mut Reading,
    core: &mut Core,
    event: &WireEvent<'_>,
    ids: &Ids,
) -> WireOutcome
    ensures bare { IsBareIn result }
    ensures steps { (w : World) → StandsFor core.old.store w
        → Steps ids.now w (event_view event.now) (outcome_view result) core.old core.new }
{
    match event {
        WireEvent::Moment(now) => WireOutcome::Clock(core.moment(*now)),
        WireEvent::Post { path, body } => step_post(alloc, reading, core, path, body, ids),
        WireEvent::Expire => step_expire(core),
        WireEvent::Deliver(number) => step_deliver(alloc, core, *number, ids),
        WireEvent::Close(number) => step_close(core, *number),
        WireEvent::Trim => step_trim(alloc, core),
        WireEvent::Certify => step_certify(core),
    }
}

/// A request on a core, as an event of a run.
fn step_post(
    alloc: Global,
    reading: &mut Reading,
    core: &mut Core,
    path: &[u8],
    body: &[u8],
    ids: &Ids,
) -> WireOutcome
    ensures bare { IsBareIn result }
    ensures steps { (w : World) → StandsFor core.old.store w
        → Steps ids.now w (model_post path.now body.now) (outcome_view result) core.old core.new }
{
    WireOutcome::Posted(post_and_trim_by(alloc, reading, core, path, body, ids))
}

/// Does what a request asks on a core, as [`post`] does, and makes the trimming steps that its
/// answer waits for (the etcd documentation's CompactionRequest: physical). The outcome is that of
/// a request in a run.
pub fn post_and_trim(alloc: Global, core: &mut Core, path: &[u8], body: &[u8], ids: &Ids) -> Outcome
    ensures bare { IsBare result }
    ensures steps { (w : World) → StandsFor core.old.store w
        → Steps ids.now w (model_post path.now body.now) (command_view result) core.old core.new }
{
    post_and_trim_by(alloc, &mut Reading::new(alloc), core, path, body, ids)
}

/// The same, by what is kept from one body to the next.
fn post_and_trim_by(
    alloc: Global,
    reading: &mut Reading,
    core: &mut Core,
    path: &[u8],
    body: &[u8],
    ids: &Ids,
) -> Outcome
    ensures bare { IsBare result }
    ensures steps { (w : World) → StandsFor core.old.store w
        → Steps ids.now w (model_post path.now body.now) (command_view result) core.old core.new }
{
    let outcome = post_by(alloc, reading, core, path, body, ids);
    trim_where(core, outcome.waits);
    outcome
}

/// Makes trimming steps until one is done, where an answer waits for it.
fn trim_where(core: &mut Core, waits: bool)
    ensures { TrimsWhere waits core.old core.new }
{
    if waits {
        trim_all(core);
    }
}

/// Makes trimming steps until one is done: the one least list is left.
fn trim_all(core: &mut Core)
    ensures { TrimsAll core.old core.new }
{
    loop {
        if is_done(core.trim_step()) {
            return;
        }
    }
}

/// Whether a trimming step found nothing to visit.
fn is_done(trim: Trim) -> bool
    ensures { result ≡ is_done (told_of trim) }
{
    match trim {
        Trim::Done(_) => true,
        Trim::Removed(_) | Trim::Kept(_) => false,
    }
}

/// A step of expiry on a core, as an event of a run.
fn step_expire(core: &mut Core) -> WireOutcome
    ensures bare { IsBareIn result }
    ensures steps { (ids : Ids) (w : World) → StandsFor core.old.store w
        → Steps ids w model_expire (outcome_view result) core.old core.new }
{
    match core.expire() {
        Ok(expiry) => WireOutcome::Expiry(Ok(expiry)),
        Err(refusal) => WireOutcome::Expiry(Err(why_unexpired(refusal))),
    }
}

/// A delivery to a watch of a core, as an event of a run.
fn step_deliver(alloc: Global, core: &mut Core, number: u64, ids: &Ids) -> WireOutcome
    ensures bare { IsBareIn result }
    ensures steps { (w : World) → StandsFor core.old.store w
        → Steps ids.now w (model_deliver number) (outcome_view result) core.old core.new }
{
    WireOutcome::Delivered(message(alloc, core, number, ids))
}

/// The end of a watch of a core, as an event of a run.
fn step_close(core: &mut Core, number: u64) -> WireOutcome
    ensures bare { IsBareIn result }
    ensures steps { (ids : Ids) (w : World) → StandsFor core.old.store w
        → Steps ids w (model_close number) (outcome_view result) core.old core.new }
{
    WireOutcome::Closed(core.cancel(number).is_ok())
}

/// A trimming step on a core, as an event of a run.
fn step_trim(alloc: Global, core: &mut Core) -> WireOutcome
    ensures bare { IsBareIn result }
    ensures steps { (ids : Ids) (w : World) → StandsFor core.old.store w
        → Steps ids w model_trim (outcome_view result) core.old core.new }
{
    let trim = core.trim_step();
    WireOutcome::Trimmed(trimmed(alloc, core, trim))
}

/// What a core keeps, as an event of a run.
fn step_certify(core: &Core) -> WireOutcome
    ensures bare { IsBareIn result }
    ensures steps { (ids : Ids) (w : World) → StandsFor core.now.store w
        → Steps ids w model_certify (outcome_view result) core.now core.now }
{
    WireOutcome::Certified(certified(core))
}

/// Why a lease was not revoked, by the core's refusal, which is one of these two.
pub fn why_unexpired(refusal: Refusal) -> Unexpired
    ensures { result ≡ (if is_memory refusal then Unexpired.Memory else Unexpired.RevisionsSpent) }
{
    match refusal {
        Refusal::Memory => Unexpired::Memory,
        _ => Unexpired::RevisionsSpent,
    }
}
