//! What is done with the value of one key.
ghost use Rattle.std.specs.Prelude.{◌≡◌, Bool, OnOk, OnErr};

use std::alloc::AllocError;

/// What a key gets: a first value, or more of what it has.
pub trait Growth<V> {
    ghost may_grow: { Self → V → Type 0 };

    ghost grown: { Self → V → V };

    ghost fresh: { Self → V };

    /// The value of a key that has none yet. Takes no memory.
    fn first(&self) -> V
        ensures { result ≡ fresh self.now };

    /// Adds to the value of a key. The error is want of memory, and the value is then as it was.
    fn grow(&self, value: &mut V) -> Result<(), AllocError>
        requires { may_grow self.now value.old }
        ensures ok { OnOk result (value.new ≡ grown self.now value.old) }
        ensures err { OnErr result (value.new ≡ value.old) };
}

/// What is taken from the value of a key.
pub trait Cut<V> {
    ghost left: { Self → V → V };

    ghost is_spent: { Self → V → Bool };

    ghost told: { Self → V → Self };

    /// Takes from a value, and tells whether nothing is left: the key goes then. What else there is
    /// to tell it keeps in itself. Takes no memory.
    fn cut(&mut self, value: &mut V) -> bool
        ensures value { value.new ≡ left self.old value.old }
        ensures spent { result ≡ is_spent self.old value.old }
        ensures told { self.new ≡ told self.old value.old };
}
