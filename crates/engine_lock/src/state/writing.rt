//! The lines under the lock are taken.
ghost use Rattle.std.specs.Prelude.{◌≡◌, ◌++◌, ◌∷◌, []};
ghost use Rattle.engine_lock.specs.Takings.{TakesLines};
ghost use Rattle.event_script.specs.Taking.{taken_next};

use super::State;
use crate::opening::EngineName;
use crate::taken::Taken;
use event_book::sure;
use std::sync::Wait;

impl<L: EngineName> State<L> {
    /// Up to which event the lines were taken, for whoever is to take them.
    pub(crate) fn taken(&self) -> Taken<L>
        ensures { result ≡ self.now.taken }
    {
        self.taken.again()
    }

    /// Puts the lines that were not taken yet in place of what a list had: all of them, which are
    /// taken then. Says whether none is missing.
    ///
    /// It waits for ever where the lines were taken up to another event than is said. That never
    /// comes, since both go on here alone; but nothing that a book can say tells so.
    pub(crate) fn take_lines<R: Wait>(
        &mut self,
        rt: &R,
        taken: &mut Taken<L>,
        text: &mut Vec<u8>,
    ) -> bool
        ensures takes { TakesLines L.ListName.ids taken.old taken.new text.new.items result }
        ensures text { text.new.items ≡ self.old.lines.text }
        ensures taken { taken.new ≡ taken_next self.old.taken result self.old.log }
        ensures same { self.new ≡ record self.old {
          lines = record self.old.lines {
            taken = self.old.lines.taken ++ self.old.lines.text ∷ [];
            text = [];
          };
          taken = taken.new;
        } }
    {
        sure(rt, self.taken.is(taken));
        let is_whole = self.lines.take(text);
        self.taken.take_on(is_whole, self.listing.front());
        *taken = self.taken.again();
        is_whole
    }
}
