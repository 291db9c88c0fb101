//! What has come of a connection and was not answered, from one visit to the next.
ghost use Rattle.std.specs.Prelude.{◌≡◌, None, IfSome, IfNone};
ghost use Rattle.http_input.specs.Spares.{IsSpare, pending_of};

use crate::input::Input;
use std::alloc::Global;

/// An input that a longer request took gives its room back, in bytes.
const MOST_ROOM: usize = 16_384;

/// An input of which nothing is left, if there is one, for a connection of which nothing waits: so one that
/// is idle takes none.
#[derive(Drop)]
pub struct Spare {
    alloc: Global,
    input: Option<Box<Input>>,
    ghost empty: { IsSpare input },
}

impl Spare {
    /// There is none yet. Takes no memory.
    pub fn new(alloc: Global) -> Spare {
        Spare { alloc, input: None }
    }

    /// What has come of a connection and was not answered: what was kept of it, or an input of which nothing
    /// is left. `None` where no memory is found for one.
    pub fn take(&mut self, kept: Option<Box<Input>>) -> Option<Box<Input>>
        ensures input { IfSome result (λ input. input.value ≡ pending_of kept) }
        ensures none { IfNone result (kept ≡ None) }
    {
        if let Some(input) = kept {
            return Some(input);
        }
        if let Some(input) = self.input.take() {
            return Some(input);
        }
        match Input::new(self.alloc) {
            Ok(input) => Box::new(self.alloc, input).ok(),
            Err(_) => None,
        }
    }

    /// Keeps an input of which nothing is left for another connection. What is left of one is kept with its
    /// own: that is given back.
    pub fn keep(&mut self, input: Box<Input>) -> Option<Box<Input>>
        ensures { pending_of result ≡ input.value }
    {
        if !input.is_empty() {
            return Some(input);
        }
        if input.room() <= MOST_ROOM {
            self.input = Some(input);
        }
        None
    }
}
