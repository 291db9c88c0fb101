//! Which watches have something to be told: hints for whoever looks after their streams. No clause rests
//! on them, since a delivery tells the truth.
ghost use Rattle.std.specs.Prelude.{◌≡◌};

use super::{Engine, locked};
use crate::opening::EngineName;
use crate::state::State;
use std::sync::Wait;
use std::sync::atomic::{AtomicBool, Ordering};

/// How many words are as long as a line of memory.
const LINE: usize = 8;

/// Whether a watch fell behind since somebody asked, apart from all that is written under the lock: so
/// whoever looks at it takes no line of memory from the thread that has the lock.
#[derive(Drop)]
pub(crate) struct News {
    before: [u64; LINE],
    fell: AtomicBool,
    behind: [u64; LINE],
}

impl News {
    /// No watch fell behind yet.
    pub(crate) fn none() -> Self {
        News {
            before: [0; LINE],
            fell: AtomicBool::new(false),
            behind: [0; LINE],
        }
    }
}

impl<L: EngineName> Engine<L> {
    /// Whether a watch that was caught up fell behind by a command or a step of expiry since this was
    /// asked last. A hint, of which no clause tells. Constant time, and waits for nobody.
    pub fn take_news(&self) -> bool {
        self.news.fell.load(Ordering::SeqCst) && self.news.fell.swap(false, Ordering::SeqCst)
    }

    /// Adds the numbers of the watches that are behind to a list, in rising order: each has something
    /// to be told. Where the list finds no memory, they are the first of them. A hint, of which no
    /// clause tells. One holding of the lock, linear in the number of the watches.
    pub fn behind<R: Wait>(&self, rt: &R, numbers: &mut Vec<u64>) {
        locked(rt, &self.state).behind(numbers);
    }

    /// Takes note of a watch that fell behind by what was just done.
    pub(crate) fn note_news(&self, state: &mut State<L>)
        ensures { state.new ≡ state.old }
    {
        if state.take_news() {
            self.news.fell.store(true, Ordering::SeqCst);
        }
    }
}
