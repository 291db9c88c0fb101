//! Which watches have something to be told.
ghost use Rattle.std.specs.Prelude.{◌≡◌};

use super::State;
use crate::opening::EngineName;

impl<L: EngineName> State<L> {
    /// Whether a watch fell behind since this was asked last.
    pub(crate) fn take_news(&mut self) -> bool
        ensures { self.new ≡ self.old }
    {
        self.copies.take_news()
    }

    /// Adds the numbers of the watches that are behind to a list.
    pub(crate) fn behind(&self, numbers: &mut Vec<u64>) {
        self.copies.behind(numbers);
    }
}
