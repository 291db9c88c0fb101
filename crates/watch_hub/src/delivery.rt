//! What a watch is told next, and how it moves past that (the etcd documentation's Watch).
ghost use Rattle.std.specs.Prelude.{◌≡◌, ◌≤◌, ◌⊎◌, Some, None, is_some, true, option_map};
ghost use Rattle.std.specs.Prelude.{IfOk, IfErr};
ghost use Rattle.kv_model.specs.declared.refusal.Refusal.TheVariants.{Memory, NoWatch};
ghost use Rattle.kv_model.specs.Step.{last_main};
ghost use Rattle.watch_hub.specs.Delivering.{IsWithin, course_at, course_of, delivered};
ghost use Rattle.watch_hub.specs.Delivering.{delivery_due, taken_by, told_at};
ghost use Rattle.watch_hub.specs.Hub.{NumbersAscend, pending_of, tracked_at};
ghost use Rattle.watch_hub.specs.Messages.{course_view, delivery_view};
ghost use Rattle.watch_hub.specs.Views.{pending_view};

use crate::hub::{Pending, WatchHub};
use crate::message::{Event, last_revision, message};
use crate::walk::Walk;
use kv_model::refusal::Refusal;
use range_view::Tables;
use std::alloc::{AllocError, Global};

/// What a watch is told next. It lends from what is kept.
#[derive(Debug, Drop)]
pub enum Delivery<'a> {
    /// It is caught up.
    Nothing,
    /// Of whole revisions, in order, each once; of one at least.
    Events(Vec<Event<'a>>),
    /// It ends, since what it had still to be told of is below the last compaction, whose revision
    /// this is.
    Cancelled(u64),
}

/// What a delivery leaves of a watch.
#[derive(Clone, Copy)]
pub(crate) enum Course {
    /// It stays as it was.
    Waits,
    /// It ends.
    Ends,
    /// It was told of all up to a revision.
    Passes(u64),
}

impl WatchHub {
    /// What the watch of a number is told next. It changes nothing: a delivery that was told is
    /// followed by `go_on`.
    ///
    /// The refusals: `NoWatch` where no watch has the number, `Memory` where the list of the events
    /// found none.
    ///
    /// The time is logarithmic in the number of versions, linear in that of those from the watch's
    /// first match on up to the end of the message, and for each event with a previous value
    /// logarithmic in the number of keys and of versions. For a range of one key no version of
    /// another key is looked at: the time is logarithmic in the number of keys, and for each of the
    /// key's versions up to the end of the message at most logarithmic in that of all versions.
    pub fn deliver<'a>(
        &'a self,
        alloc: Global,
        tables: &'a Tables,
        number: u64,
    ) -> Result<Delivery<'a>, Refusal>
        ensures told { IfOk result (λ d. delivery_view d
            ≡ told_at tables.now.versions tables.now.compacted
            (option_map pending_of (tracked_at self.now.watches number))) }
        ensures refused { IfErr result (λ e.
            ((e ≡ NoWatch) × (tracked_at self.now.watches number ≡ None))
            ⊎ ((e ≡ Memory) × (is_some (tracked_at self.now.watches number) ≡ true))) }
    {
        let pending = match self.pending(number) {
            Ok(pending) => pending,
            Err(refusal) => return Err(refusal),
        };
        match delivery_due(alloc, tables, pending) {
            Ok(delivery) => Ok(delivery),
            Err(_) => Err(Refusal::Memory),
        }
    }

    /// The watch of a number moves past what `deliver` tells: it stays as it was where that is
    /// nothing, it ends where it is cancelled, and else it was told of all up to the last revision
    /// of the message. Where no watch has the number, nothing changes. Takes no memory.
    ///
    /// The time is that of `deliver` without previous values, and of `advance` or `cancel`.
    pub fn go_on(&mut self, tables: &Tables, number: u64)
        requires { tables.now.revision ≤ last_main }
        ensures ascending { NumbersAscend self.old.watches }
        ensures left { self.new
            ≡ record self.old {
              watches = delivered tables.now.versions tables.now.revision
                  tables.now.compacted number self.old.watches;
            } }
    {
        let course = self.course(tables, number);
        self.take(tables, number, course);
    }

    /// How the watch of a number goes on.
    fn course(&self, tables: &Tables, number: u64) -> Course
        ensures course { course_view result
            ≡ course_at tables.now.versions tables.now.compacted
            (option_map pending_of (tracked_at self.now.watches number)) }
        ensures within { IsWithin tables.now.revision (course_view result) }
        ensures ascending { NumbersAscend self.now.watches }
    {
        match self.pending(number) {
            Ok(pending) => course_of(tables, pending),
            Err(_) => Course::Waits,
        }
    }

    /// The watch of a number goes on so.
    fn take(&mut self, tables: &Tables, number: u64, course: Course)
        requires fits { tables.now.revision ≤ last_main }
        requires within { IsWithin tables.now.revision (course_view course) }
        ensures { self.new
            ≡ record self.old {
              watches = taken_by tables.now.versions tables.now.revision number
                  self.old.watches (course_view course);
            } }
    {
        match course {
            Course::Waits => {}
            Course::Ends => {
                let _ = self.cancel(number);
            }
            Course::Passes(last) => self.advance(tables, number, last),
        }
    }
}

/// What is told of what is held of a watch.
fn delivery_due<'a>(
    alloc: Global,
    tables: &'a Tables,
    pending: Pending<'a>,
) -> Result<Delivery<'a>, AllocError>
    ensures { IfOk result (λ d. delivery_view d
        ≡ delivery_due tables.now.versions tables.now.compacted (pending_view pending.entry)) }
{
    let compacted = tables.compacted();
    if pending.late {
        return Ok(Delivery::Cancelled(compacted));
    }
    match pending.first {
        Some(first) if first < compacted => Ok(Delivery::Cancelled(compacted)),
        Some(first) => {
            let walk = Walk::new(tables, first, pending.watched);
            Ok(Delivery::Events(message(alloc, tables, pending.watched, walk)?))
        }
        None => Ok(Delivery::Nothing),
    }
}

/// How a watch moves past what it is told next.
fn course_of(tables: &Tables, pending: Pending<'_>) -> Course
    ensures course { course_view result
        ≡ course_of tables.now.versions tables.now.compacted (pending_view pending.entry) }
    ensures within { IsWithin tables.now.revision (course_view result) }
{
    if pending.late {
        return Course::Ends;
    }
    match pending.first {
        Some(first) if first < tables.compacted() => Course::Ends,
        Some(first) => {
            let walk = Walk::new(tables, first, pending.watched);
            Course::Passes(last_revision(walk))
        }
        None => Course::Waits,
    }
}
