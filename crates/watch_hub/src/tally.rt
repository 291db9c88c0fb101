//! How far a message goes.
ghost use Rattle.std.specs.Prelude.{◌≡◌};
ghost use Rattle.watch_hub.specs.Messages.{counted, cut_at, first_tally, has_room};

/// The greatest number of events in a message of more than one revision.
const MOST_EVENTS: u64 = 1000;

/// The events of a message while they are counted: whole revisions, as many as have room, and at
/// least the first.
#[derive(Clone, Copy)]
pub(crate) struct Tally {
    /// How many events there are, at most as many as a message takes.
    events: u64,
    /// The last revision before the present one, which is whole; the present one, where it is the
    /// first.
    whole: u64,
    /// The revision of the last event.
    current: u64,
}

impl Tally {
    /// The first event, which is of this revision.
    pub(crate) fn first(main: u64) -> Self
        ensures { result ≡ first_tally main }
    {
        Tally {
            events: 1,
            whole: main,
            current: main,
        }
    }

    /// Whether there is room for one event more, of this revision. Of the first revision there
    /// always is.
    pub(crate) fn has_room(&self, main: u64) -> bool
        ensures { result ≡ has_room self.now main }
    {
        self.events < MOST_EVENTS || (main == self.current && self.whole == self.current)
    }

    /// Counts one event more, of this revision.
    pub(crate) fn add(&mut self, main: u64)
        ensures { self.new ≡ counted self.old main }
    {
        if self.events < MOST_EVENTS {
            self.events += 1;
        }
        if main != self.current {
            self.whole = self.current;
            self.current = main;
        }
    }

    /// The last revision that is whole, where the next event, of this revision, has no room.
    pub(crate) fn cut_at(&self, main: u64) -> u64
        ensures { result ≡ cut_at self.now main }
    {
        if main == self.current {
            self.whole
        } else {
            self.current
        }
    }

    /// The revision of the last event.
    pub(crate) fn current(&self) -> u64
        ensures { result ≡ self.now.current }
    {
        self.current
    }
}
