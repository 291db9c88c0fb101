//! What a server asks of whoever runs it: when a request may go on, what time it is, and whether a
//! client has left; and whether its events are written down.
ghost use Rattle.std.specs.Prelude.{◌≡◌, ℕ, Bool, List, true, ⊤};

/// Is told of each request of a server. A test holds requests back by it.
pub trait Gate {
    /// What it is that the client of a connection of this number has left.
    ghost Left: { Self → ℕ → Type 0 } = { λ _ _. ⊤ };

    /// Comes before the request of a connection of this number is handed to the engine.
    fn before(&self, call: u64);

    /// Comes after its reply, or after the attempt to write it.
    fn after(&self, call: u64);

    /// Comes before a request of the connection is read of which no byte has come.
    fn awaits(&self, _call: u64) {}

    /// Whether the client of the connection has left. A stream asks it while it rests, and ends
    /// where it has.
    fn has_left(&self, _call: u64) -> bool
        ensures { result ≡ true → Left self.now _call }
    {
        false
    }

    /// Comes behind an event by which a watch fell behind, when the engine is held no more: there is
    /// something to be told. A hint, of which no clause tells.
    fn changed(&self) {}

    /// Whether the events are to be written down that the server makes. It says the same at each
    /// call.
    fn is_recorded(&self) -> bool {
        false
    }

    /// Comes behind each event that may have been written down, when the engine is held no more, and
    /// before the event's reply: the lines may be taken.
    fn recorded<T: Takes>(&self, _lines: &T) {}
}

/// Has the lines of the events that a server has made.
pub trait Takes {
    /// What a text is that was taken, where this says whether no line is missing.
    ghost Gives: { Self → List ℕ → Bool → Type 0 };

    /// Puts the lines that were not taken yet in place of what a list had. Says whether they are all:
    /// where they are not, none will come.
    fn take(&self, text: &mut Vec<u8>) -> bool
        ensures { Gives self.now text.new.items result };
}

/// Holds no request back.
#[derive(Clone, Copy, Debug, Drop)]
pub struct OpenGate;

impl Gate for OpenGate {
    fn before(&self, _call: u64) {}

    fn after(&self, _call: u64) {}
}

/// Tells the moments by which leases end.
pub trait Clock {
    /// Which moment it tells.
    ghost Tells: { Self → ℕ → Type 0 } = { λ _ _. ⊤ };

    /// The moment, in milliseconds. One before an earlier one counts as that.
    fn now(&self) -> u64
        ensures { Tells self.now result };
}
