//! How a core grows: versions of the next revision go to a sink, are kept, and noted by watches.
ghost use Rattle.kv_model.specs.Feed.{Published};
ghost use Rattle.store_laws.specs.Stands.{noted};
ghost use Rattle.range_view.specs.Stored.{AreOf, IsUpTo};
ghost use Rattle.kv_model.specs.Step.{last_main};
ghost use Rattle.request_core.specs.Writing.{AreNext};
ghost use Rattle.kv_model.specs.History.{end_of, value_at};
ghost use Rattle.lease_keys.specs.Holding.{ArePut, ArePartlyPut, AreSettled, AreTakenBack};
ghost use Rattle.range_view.specs.Stored.{IsStored};
ghost use Rattle.request_core.specs.State.{newest};
ghost use Rattle.std.specs.Prelude.{◌≡◌, ◌≢◌, ◌+◌, ◌-◌, ◌<◌, [], map, OnOk, OnErr};

use super::Core;
use kv_model::feed::{Op, Sink};
use kv_model::version::Version;
use lease_keys::LeaseKeys;
use range_view::Versions;
use range_view::revision::end_of;
use range_view::tables::Tables;
use std::alloc::AllocError;
use watch_hub::WatchHub;

impl Core {
    ghost use Rattle.request_core.specs.State.{IsTold, noted_above, with_any, with_unnoted};
    ghost use Rattle.request_core.specs.State.{with_versions};

    /// Appends the versions of the next revision, where there are some, once the sink has taken
    /// them.
    pub(super) fn append_any<S: Sink>(
        &mut self,
        versions: Vec<Version>,
        sink: &mut S,
    ) -> Result<(), AllocError>
        requires room { versions.items ≢ [] → self.old.store.revision < last_main }
        requires next { versions.items ≢ [] → AreNext self.old.store.revision versions.items }
        ensures ok { OnOk result (self.new ≡ with_any self.old versions.items) }
        ensures told { OnOk result (IsTold S.takes versions.items sink.old sink.new) }
        ensures err { OnErr result ((self.new ≡ self.old) × (sink.new ≡ sink.old)) }
    {
        if versions.is_empty() {
            return Ok(());
        }
        self.append(versions, sink)
    }

    /// Appends the versions of the next revision, once the sink has taken them, and the watches
    /// take note of them.
    pub(super) fn append<S: Sink>(
        &mut self,
        versions: Vec<Version>,
        sink: &mut S,
    ) -> Result<(), AllocError>
        requires room { self.old.store.revision < last_main }
        requires next { AreNext self.old.store.revision versions.items }
        ensures ok { OnOk result (self.new ≡ with_versions self.old versions.items) }
        ensures told { OnOk result (S.takes sink.old (Published.batch versions.items) sink.new) }
        ensures err { OnErr result ((self.new ≡ self.old) × (sink.new ≡ sink.old)) }
    {
        let before = self.revision();
        match self.append_unnoted(versions, sink) {
            Ok(()) => {
                self.note_above(before);
                Ok(())
            }
            Err(full) => Err(full),
        }
    }

    /// Appends the versions of the next revision, once the sink has taken them. The index of leases
    /// then has what the keys hold now; where that fails, what they held before.
    fn append_unnoted<S: Sink>(
        &mut self,
        versions: Vec<Version>,
        sink: &mut S,
    ) -> Result<(), AllocError>
        requires room { self.old.store.revision < last_main }
        requires next { AreNext self.old.store.revision versions.items }
        ensures ok { OnOk result (self.new ≡ with_unnoted self.old versions.items) }
        ensures told { OnOk result (S.takes sink.old (Published.batch versions.items) sink.new) }
        ensures err { OnErr result ((self.new ≡ self.old) × (sink.new ≡ sink.old)) }
    {
        let main = self.tables.revision() + 1;
        self.tables.append(&versions)?;
        if let Err(full) = take_newest(&mut self.keys, versions, sink) {
            take_back(&mut self.keys, &self.tables);
            self.tables.retract(main);
            return Err(full);
        }
        settle(&mut self.keys, &self.tables);
        Ok(())
    }

    /// The present revision, up to which versions are kept.
    fn revision(&self) -> u64
        ensures value { result ≡ self.now.store.revision }
        ensures upto { IsUpTo self.now.store.revision self.now.store.versions }
    {
        self.tables.revision()
    }

    /// The watches take note of the versions above a revision, which is the one before the present
    /// one. Takes no memory, so it comes once the sink has taken them.
    fn note_above(&mut self, before: u64)
        requires { before + 1 ≡ self.old.store.revision }
        ensures { self.new ≡ noted_above before self.old }
    {
        if self.hub.is_empty() {
            return;
        }
        let now = self.tables.revision();
        note_all(&mut self.hub, self.tables.versions_from(now), before, now);
    }
}

/// Adds the pairs of the versions of the present revision to the index of leases, and then has the
/// sink take their batch.
fn take_newest<S: Sink>(
    keys: &mut LeaseKeys,
    versions: Vec<Version>,
    sink: &mut S,
) -> Result<(), AllocError>
    ensures ok { OnOk result (ArePut versions.items keys.old keys.new) }
    ensures told { OnOk result (S.takes sink.old (Published.batch versions.items) sink.new) }
    ensures err { OnErr result
        (ArePartlyPut versions.items keys.old keys.new × (sink.new ≡ sink.old)) }
{
    if let Err(full) = keys.add_all(&versions) {
        return Err(full);
    }
    sink.take(Op::Batch(versions))
}

/// The index of leases loses what it has only for versions of the present revision, which are to
/// go.
fn take_back(keys: &mut LeaseKeys, tables: &Tables)
    ensures { AreTakenBack (newest tables.now)
        (value_at tables.now.versions (end_of (tables.now.revision - 1))) keys.old keys.new }
{
    let revision = tables.revision();
    let place = end_of(revision.saturating_sub(1));
    keys.take_back(&tables.view_at(place), tables.versions_from(revision));
}

/// The index of leases loses what the versions of the present revision replaced.
fn settle(keys: &mut LeaseKeys, tables: &Tables)
    ensures settled { AreSettled (newest tables.now)
        (value_at tables.now.versions (end_of (tables.now.revision - 1)))
        (value_at tables.now.versions (end_of tables.now.revision)) keys.old keys.new }
    ensures stored { IsStored tables.now }
{
    let revision = tables.revision();
    if keys.is_empty() {
        return;
    }
    let place = end_of(revision.saturating_sub(1));
    keys.settle(
        &tables.view_at(place),
        &tables.view(),
        tables.versions_from(revision),
    );
}

/// The watches take note of the versions of the present revision, so many at a time as lie side by
/// side. Up to the last of them it is the revision before that has come: so a watch that waits for
/// the one after the present one still waits.
fn note_all(hub: &mut WatchHub, versions: Versions<'_>, before: u64, now: u64)
    requires next { before + 1 ≡ now }
    requires newest { AreOf now versions }
    ensures { hub.new
        ≡ record hub.old { watches = map (noted versions.entry now) hub.old.watches } }
{
    let mut versions = versions;
    while let Some(slice) = versions.next_slice() {
        hub.note(slice, before);
    }
    hub.note(&[], now);
}
