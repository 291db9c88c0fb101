//! The core and the feed of its readers, who have the two copies of the tables between them: the core's
//! are its own, or they are the copy that readers are shown.
ghost use Rattle.std.specs.Prelude.{◌≡◌, ◌<◌, [], length, MatchBool, IfErr, IfOk};
ghost use Rattle.kv_model.specs.World.{opening as first_world};
ghost use Rattle.kv_model.specs.declared.refusal.Refusal.TheVariants.{NoPlace};
ghost use Rattle.store_laws.specs.Snapshots.{blank as first_tables, store_of};
ghost use Rattle.store_laws.specs.Stands.{StandsFor};
ghost use Rattle.event_book.specs.Publishing.{published_by};
ghost use Rattle.request_core.specs.State.{tables_of};
ghost use Rattle.snapshot_feed.specs.Showing.{IsShown};
ghost use Rattle.snapshot_feed.specs.States.{unused};
ghost use Rattle.engine_lock.specs.Copied.{CanOwn, IsParted, appended, is_apart, owning};

mod events;

use core::mem::replace_with;
use event_book::Front;
use json_gateway::Refusal;
use request_core::answer::Status;
use request_core::store::{Core, Rest};
use snapshot_feed::{Feed, Lent, Ops, SnapReader};
use std::alloc::Global;
use std::marker::Model;
use std::sync::Wait;

/// A core with tables of its own and what was done on them since readers were last shown some, or what
/// it is besides those that readers are shown.
#[derive(Drop)]
pub(crate) enum Hold {
    Whole(Core, Ops),
    Apart(Rest),
}

/// The core and the feed of its readers. What changes its tables takes the spare copy of the feed as
/// the core's own; once that is shown, the core's tables are the ones that readers are shown. So there
/// are two copies of the tables, and a change is made twice.
#[derive(Drop)]
pub(crate) struct Copies {
    hold: Hold,
    feed: Feed,
}

impl Model for Copies {
    ghost use Rattle.std.specs.Prelude.{◌≡◌};
    ghost use Rattle.std.specs.Coded.{codes};
    ghost use Rattle.kv_model.specs.contracts.call.Command as commands;
    ghost use Rattle.engine_lock.specs.Copied.{Copied, IsHeld, copied};

    ghost Value = { Copied };

    ghost coded = { Prim.hlevel (codes, commands.the_row.coded) };

    ghost view = { λ c. copied c.hold c.feed };

    ghost invariant = { λ c. IsHeld c.hold c.feed };
}

impl Hold {
    /// Whether the core has no tables of its own.
    fn is_apart(&self) -> bool
        ensures { result ≡ is_apart self.now }
    {
        match self {
            Hold::Whole(_, _) => false,
            Hold::Apart(_) => true,
        }
    }

    /// With these tables as its own, where it has none.
    fn with(self, lent: Lent) -> (Self, ())
        requires { CanOwn lent self }
        ensures { result.0 ≡ owning lent self }
    {
        match self {
            Hold::Apart(rest) => (Hold::Whole(rest.join(lent.tables), lent.ops), ()),
            Hold::Whole(core, ops) => (Hold::Whole(core, ops), ()),
        }
    }

    /// Without tables of its own, and those.
    fn without(self, _by: ()) -> (Self, Option<Lent>)
        ensures { IsParted self result.0 result.1 }
    {
        match self {
            Hold::Whole(core, ops) => {
                let (tables, rest) = core.part();
                (Hold::Apart(rest), Some(Lent { tables, ops }))
            }
            Hold::Apart(rest) => (Hold::Apart(rest), None),
        }
    }
}

impl Copies {
    /// A new core, to which nothing was done, with a feed to which nothing was done.
    pub(crate) fn new(alloc: Global, feed: Feed) -> Self
        requires { feed ≡ unused feed.book }
        ensures core { StandsFor result.core.store first_world }
        ensures tables { tables_of result.core ≡ first_tables }
        ensures appended { appended result.feed ≡ [] }
        ensures book { result.feed.book ≡ feed.book }
    {
        let (_blank, rest) = Core::new(alloc).part();
        Copies {
            hold: Hold::Apart(rest),
            feed,
        }
    }

    /// A reader beside the lock. `NoPlace` comes where the feed has no place for one.
    pub(crate) fn reader(&mut self) -> Result<SnapReader, Refusal>
        ensures book { IfOk result (λ r. r.reads.book ≡ self.old.feed.book) }
        ensures full { IfErr result (λ e. e ≡ NoPlace) }
        ensures same { self.new ≡ self.old }
    {
        self.feed.reader()
    }

    /// The core's numbers.
    pub(crate) fn status(&self) -> Status
        ensures revision { result.revision ≡ self.now.core.store.revision }
        ensures compacted { result.compacted ≡ self.now.core.store.compacted }
    {
        match &self.hold {
            Hold::Whole(core, _) => core.status(),
            Hold::Apart(rest) => rest.status(self.feed.tables()),
        }
    }

    /// The front of what readers are shown.
    pub(crate) fn told(&self) -> Front
        ensures book { result.book ≡ self.now.feed.book }
        ensures list { result.list ≡ self.now.feed.published }
        ensures shown { IsShown result.list }
    {
        self.feed.told()
    }

    /// Whether all that was appended is shown.
    pub(crate) fn is_settled(&self) -> bool
        ensures { MatchBool result (self.now.feed.pending ≡ [])
            (0 < length self.now.feed.pending) }
    {
        match &self.hold {
            Hold::Whole(_, ops) => ops.is_empty(),
            Hold::Apart(_) => true,
        }
    }

    /// Has the core have tables of its own: where it has none, the spare copy is lent to it, unless
    /// that found no memory for what it lacked. It waits for readings as [`Feed::lend`] does.
    fn own<R: Wait>(&mut self, rt: &R)
        ensures { self.new ≡ self.old }
    {
        let Copies { hold, feed } = self;
        if !hold.is_apart() {
            return;
        }
        if let Some(lent) = feed.lend(rt) {
            replace_with(&mut *hold, lent, Hold::with);
        }
    }

    /// Shows readers the core's own tables, where it has some, at this front of the list of all events.
    /// Waits for nobody, and takes no memory.
    pub(crate) fn show<R: Wait>(&mut self, rt: &R, front: &Front)
        requires book { front.now.book ≡ self.old.feed.book }
        requires all { published_by front.now.list ≡ appended self.old.feed }
        requires shown { IsShown front.now.list }
        requires stored { store_of (appended self.old.feed) ≡ tables_of self.old.core }
        ensures core { self.new.core ≡ self.old.core }
        ensures settled { self.new.feed.pending ≡ [] }
        ensures appended { appended self.new.feed ≡ appended self.old.feed }
        ensures book { self.new.feed.book ≡ self.old.feed.book }
    {
        let Copies { hold, feed } = self;
        if let Some(lent) = replace_with(&mut *hold, (), Hold::without) {
            feed.show(rt, lent, front);
        }
    }

    /// The core. What readers were shown is let go, which waits for their readings.
    pub(crate) fn finish<R: Wait>(self, rt: &R) -> Core
        ensures { result ≡ self.core }
    {
        let Copies { hold, feed } = self;
        let shown = feed.close(rt);
        match hold {
            Hold::Whole(core, _) => core,
            Hold::Apart(rest) => rest.join(shown),
        }
    }

    /// Whether a watch fell behind since this was asked last.
    pub(crate) fn take_news(&mut self) -> bool
        ensures { self.new ≡ self.old }
    {
        match &mut self.hold {
            Hold::Whole(core, _) => core.take_news(),
            Hold::Apart(rest) => rest.take_news(),
        }
    }

    /// Adds the numbers of the watches that are behind to a list.
    pub(crate) fn behind(&self, numbers: &mut Vec<u64>) {
        match &self.hold {
            Hold::Whole(core, _) => core.behind(numbers),
            Hold::Apart(rest) => rest.behind(numbers),
        }
    }
}
