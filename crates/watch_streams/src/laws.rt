//! Laws of streams, each the contract of a function that does nothing.
ghost use Rattle.watch_streams.specs.Lives.{AreWhole};

/// What goes out of a stream over its whole life, with what has not gone out yet, is just what the
/// client's events meanwhile tell its watch, in order, each once, whatever turns other streams have.
pub fn streams_are_whole()
    ensures { AreWhole }
{}
