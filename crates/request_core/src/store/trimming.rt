//! Trimming: what a Compact left over is taken out, one version at a time.
ghost use Rattle.std.specs.Prelude.{◌≡◌};

use super::Core;
use range_view::tables::Trim;

impl Core {
    ghost use Rattle.request_core.specs.Commands.{LeavesBy, TrimsOnce};
    ghost use Rattle.request_core.specs.State.{counted, has_removed};
    ghost use Rattle.trim_core.specs.Told.{told_of};

    /// Makes one trimming step (etcd: mvcc compaction): the next version at or below the last
    /// compaction is visited, the oldest first, and taken out where no answer needs it any more:
    /// where a later version of its key is below the compaction, or where it is a tombstone below
    /// it. Where none is left to visit, nothing changes, and the answer is `Done` with the number of
    /// versions that are kept.
    ///
    /// `TrimsOnce` says what was done. The step is the rule's, and a step that takes a version out
    /// is a changing call (`told`, `left`). It visits the next version of those that were to be
    /// visited, so that after as many steps it is done (`visit`). And in each world that the core
    /// stood for it still stands for that world, and no least list has what goes, some least list
    /// has what stays, and what is kept at the end is the one least list (`trims`).
    ///
    /// Takes no memory and always succeeds. The time is logarithmic in the number of versions and
    /// of keys, but for the versions behind the one that goes on its page, which move one place.
    pub fn trim_step(&mut self) -> Trim
        ensures { TrimsOnce self.old self.new result }
    {
        let trim = self.trim_tables();
        self.count_trim(trim);
        trim
    }

    /// The step, before it is counted.
    fn trim_tables(&mut self) -> Trim
        ensures { LeavesBy self.old self.new (told_of result) }
    {
        self.tables.trim_step()
    }

    /// A step that took a version out is a changing call.
    fn count_trim(&mut self, trim: Trim)
        ensures { self.new ≡ counted (has_removed (told_of trim)) self.old }
    {
        if let Trim::Removed(_) = trim {
            self.stamp = self.stamp.wrapping_add(1);
        }
    }
}
