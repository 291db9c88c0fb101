//! The roster of an engine's clients, beside the lock.
ghost use Rattle.std.specs.Prelude.{◌≡◌, ◌+◌, ◌≤◌, [], IfNone, IfSome, OnSome};

use crate::opening::EngineName;
use event_book::{Holder, Roster, sure};
use std::sync::{Mutex, Wait};

/// The roster of an engine's clients, which threads may share, and of which nobody can make a holder
/// who has it by `&` alone: so no call by a shared engine makes a client. How many were made stands
/// beside it, since no clause sees what is in a mutex.
#[derive(Drop)]
pub(crate) struct Kept<L: EngineName> {
    roster: Mutex<Roster<L>>,
    pub(crate) made: usize,
}

impl<L: EngineName> Kept<L> {
    /// This roster.
    pub(crate) fn of(roster: Roster<L>) -> Self
        ensures { result.made ≡ roster }
    {
        let made = roster.holders();
        Kept {
            roster: Mutex::new(roster),
            made,
        }
    }

    /// One more holder, which has seen nothing of the list yet. None comes after 64.
    ///
    /// It waits for ever where the roster made others than are counted here. That never comes, since
    /// only this module has it; but what is in a mutex no clause sees.
    pub(crate) fn holder<R: Wait>(&mut self, rt: &R) -> Option<Holder<L>>
        ensures front { IfSome result (λ h. h.front ≡ []) }
        ensures number { IfSome result (λ h. h.number ≡ self.old.made) }
        ensures counted { OnSome result (self.new.made ≡ self.old.made + 1) }
        ensures full { IfNone result ((64 ≤ self.old.made) × (self.new.made ≡ self.old.made)) }
    {
        let mut roster = self.roster.lock(rt);
        sure(rt, roster.holders() == self.made);
        let holder = roster.holder();
        self.made = roster.holders();
        holder
    }

    /// The roster. It waits for ever where [`Kept::holder`] does.
    pub(crate) fn into_roster<R: Wait>(self, rt: &R) -> Roster<L>
        ensures { result ≡ self.made }
    {
        let roster = self.roster.into_inner();
        sure(rt, roster.holders() == self.made);
        roster
    }
}
