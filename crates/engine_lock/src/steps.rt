//! One event on a core: what it tells is the model's, and what was done on its tables is just what the
//! model changes.
ghost use Rattle.std.specs.Prelude.{◌≡◌, is_ok, is_some, true, false, cond, List, ◌++◌, None, Ok, Err, IfOk, IfErr, OnErr, OnOk};
ghost use Rattle.kv_model.specs.Commands.{call_of};
ghost use Rattle.kv_model.specs.Follows.Outcome.{said};
ghost use Rattle.kv_model.specs.Wire.{WireTold, is_physical_call, trim_told};
ghost use Rattle.kv_model.specs.Feed.{Published};
ghost use Rattle.kv_model.specs.Wire as events;
ghost use Rattle.kv_model.specs.World.{World, at_moment};
ghost use Rattle.kv_model.specs.declared.ids.Ids.{Ids as IdsOf};
ghost use Rattle.kv_model.specs.declared.refusal.Refusal.TheVariants.{Memory, NoWatch};
ghost use Rattle.store_laws.specs.Stands.{StandsFor};
ghost use Rattle.trim_core.specs.Told.{told_of};
ghost use Rattle.request_core.specs.Commands.{TrimsOnce};
ghost use Rattle.range_view.specs.Stored.{Stored};
ghost use Rattle.request_core.specs.Apart.{CanJoin, joined};
ghost use Rattle.request_core.specs.State.{CoreState, tables_of};
ghost use Rattle.json_gateway.specs.Outcomes.{IsBare, is_accepted};
ghost use Rattle.json_gateway.specs.Runs.{certified_outcome, command_view, delivery_outcome, trimmed_view};
ghost use Rattle.json_gateway.specs.Steps.{Steps};
ghost use Rattle.event_book.specs.Asking.{IsAsked};
ghost use Rattle.event_book.specs.Events.{Event};
ghost use Rattle.event_script.specs.Notes.{step_outcome};
ghost use Rattle.engine_lock.specs.Entering.{MakesExpiry, raises_revision};
ghost use Rattle.engine_lock.specs.Fits.{MakesOn, StepsIn};

use crate::asked::Asked;
use json_gateway::{
    Certified, Expiry, Ids, Message, Outcome, Refusal, Settled, Trim, Trimmed, certifying, message,
    perform_to,
};
use kv_model::feed::Op;
use request_core::store::{Core, Rest};
use snapshot_feed::Ops;
use std::alloc::{AllocError, Global};

/// Hands in a moment, and tells the clock. Readers are told of nothing.
pub(crate) fn moved(core: &mut Core, now: u64) -> u64
    ensures stands { (w : World) → StandsFor core.old.store w
        → StandsFor core.new.store (at_moment w now) }
    ensures tables { tables_of core.new ≡ tables_of core.old }
    ensures makes { (ids : IdsOf) → (fed : List Published) → MakesOn ids (Event.moment now)
        (said (WireTold.clock result)) core.old core.new fed fed }
    ensures steps { (ids : IdsOf) → StepsIn ids (events.WireEvent.moment now)
        (said (WireTold.clock result)) core.old core.new }
{
    core.moment(now)
}

/// Hands in a moment to what a core is besides its tables, and tells the clock.
pub(crate) fn moved_apart(rest: &mut Rest, now: u64) -> u64
    ensures stands { (t : Stored) → (w : World) → StandsFor (joined t rest.old).store w
        → StandsFor (joined t rest.new).store (at_moment w now) }
    ensures can { (t : Stored) → CanJoin t rest.old → CanJoin t rest.new }
    ensures makes { (ids : IdsOf) → (t : Stored) → (fed : List Published) → MakesOn ids
        (Event.moment now) (said (WireTold.clock result)) (joined t rest.old) (joined t rest.new)
        fed fed }
    ensures steps { (ids : IdsOf) → (t : Stored) → StepsIn ids (events.WireEvent.moment now)
        (said (WireTold.clock result)) (joined t rest.old) (joined t rest.new) }
{
    rest.moment(now)
}

/// Does a command on a core.
pub(crate) fn performed(
    alloc: Global,
    core: &mut Core,
    ops: &mut Ops,
    asked: &Asked<'_>,
    ids: &Ids,
) -> Outcome
    ensures makes { (now : _) → (fed : List Published) → MakesOn ids.now
        (Event.command now asked.now) (command_view result) core.old core.new
        (fed ++ ops.old) (fed ++ ops.new) }
    ensures asked { IsAsked asked.now }
    ensures bare { IsBare result }
    ensures ready { is_accepted result.settled ≡ false → result.waits ≡ false }
    ensures waits { (w : World) → StandsFor core.old.store w → is_accepted result.settled ≡ true
        → result.waits ≡ is_physical_call w (Ok (call_of asked.now.command)) }
{
    perform_to(alloc, core, asked.command(), ids, ops)
}

/// What a command comes to that nothing was done for, since memory was wanting before it.
pub(crate) fn wanting(asked: &Asked<'_>) -> Outcome
    ensures makes { (ids : IdsOf) → (now : _) → (core : CoreState) → (fed : List Published)
        → MakesOn ids (Event.command now asked.now) (command_view result) core core fed fed }
    ensures asked { IsAsked asked.now }
    ensures bare { IsBare result }
    ensures ready { result.waits ≡ false }
    ensures refused { is_accepted result.settled ≡ false }
{
    let _told = asked.command();
    Outcome {
        settled: Settled::Memory,
        raised: None,
        watch: None,
        waits: false,
    }
}

/// Makes a step of expiry on a core.
pub(crate) fn expired(core: &mut Core, ops: &mut Ops) -> Result<Expiry, Refusal>
    ensures makes { MakesExpiry core.old core.new result }
    ensures on { (ids : IdsOf) → (now : _) → (fed : List Published) → MakesOn ids
        (Event.expiry now) (step_outcome result) core.old core.new
        (fed ++ ops.old) (fed ++ ops.new) }
{
    core.expire_to(ops)
}

/// Tells a watch of a core what it is told next, and moves it past that.
pub(crate) fn told(
    alloc: Global,
    core: &mut Core,
    number: u64,
    ids: &Ids,
) -> Result<Message, AllocError>
    ensures { (fed : List Published) → MakesOn ids.now (Event.delivery number)
        (delivery_outcome result) core.old core.new fed fed }
{
    message(alloc, core, number, ids)
}

/// Ends a watch of a core.
pub(crate) fn dropped(core: &mut Core, number: u64) -> Result<(), Refusal>
    ensures makes { (ids : IdsOf) → (fed : List Published) → MakesOn ids (Event.ending number)
        (said (WireTold.closed (is_ok result))) core.old core.new fed fed }
    ensures missing { IfErr result (λ e. e ≡ NoWatch) }
{
    core.cancel(number)
}

/// Ends a watch, of what a core is besides its tables.
pub(crate) fn dropped_apart(rest: &mut Rest, number: u64) -> Result<(), Refusal>
    ensures can { (t : Stored) → CanJoin t rest.old → CanJoin t rest.new }
    ensures makes { (ids : IdsOf) → (t : Stored) → (fed : List Published) → MakesOn ids
        (Event.ending number) (said (WireTold.closed (is_ok result)))
        (joined t rest.old) (joined t rest.new) fed fed }
    ensures missing { IfErr result (λ e. e ≡ NoWatch) }
{
    rest.cancel(number)
}

/// Makes a trimming step on a core, which is noted before. `Memory` comes where that finds none, and
/// then nothing has changed.
pub(crate) fn trimmed(core: &mut Core, ops: &mut Ops) -> Result<Trim, Refusal>
    ensures trims { IfOk result (λ t. TrimsOnce core.old core.new t) }
    ensures makes { IfOk result (λ t. (ids : IdsOf) → (fed : List Published) → MakesOn ids
        Event.trimming (said (trim_told (told_of t) None)) core.old core.new
        (fed ++ ops.old) (fed ++ ops.new)) }
    ensures refused { IfErr result (λ e. e ≡ Memory) }
    ensures unchanged { OnErr result ((core.new ≡ core.old) × (ops.new ≡ ops.old)) }
{
    if ops.append(Op::Trim).is_err() {
        return Err(Refusal::Memory);
    }
    Ok(core.trim_step())
}

/// The same, told with the certificate of what is kept where it is done.
pub(crate) fn trimmed_and_checked(
    alloc: Global,
    core: &mut Core,
    ops: &mut Ops,
) -> Result<Trimmed, Refusal>
    ensures makes { IfOk result (λ t. (ids : IdsOf) → (fed : List Published) → MakesOn ids
        Event.trimming (said (trimmed_view t)) core.old core.new
        (fed ++ ops.old) (fed ++ ops.new)) }
    ensures steps { IfOk result (λ t. (ids : IdsOf) → StepsIn ids events.WireEvent.trim
        (said (trimmed_view t)) core.old core.new) }
    ensures refused { IfErr result (λ e. e ≡ Memory) }
    ensures unchanged { OnErr result ((core.new ≡ core.old) × (ops.new ≡ ops.old)) }
{
    let step = trimmed(core, ops)?;
    Ok(certifying::trimmed(alloc, core, step))
}

/// What a core keeps, and its certificate.
pub(crate) fn certified(core: &Core) -> Result<Certified, AllocError>
    ensures makes { (ids : IdsOf) → (fed : List Published) → MakesOn ids Event.certificate
        (certified_outcome result) core.now core.now fed fed }
    ensures steps { (ids : IdsOf) → StepsIn ids events.WireEvent.certify (certified_outcome result)
        core.now core.now }
{
    certifying::certified(core)
}

/// Whether an outcome tells that the revision rose.
pub(crate) fn is_raised(outcome: &Outcome) -> bool
    ensures { result ≡ is_some outcome.now.raised }
{
    outcome.raised.is_some()
}

/// Whether a step of expiry raised the revision.
pub(crate) fn has_raised(step: &Result<Expiry, Refusal>) -> bool
    ensures { result ≡ raises_revision step.now }
{
    match step {
        Ok(Expiry::Expired { raised, .. }) => *raised,
        _ => false,
    }
}
