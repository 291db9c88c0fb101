//! Laws of a recording, each the contract of a function that does nothing.
ghost use Rattle.command_line.specs.ReadBack.{IsEachReadBack, AreReadBack, IsRecordingReadBack};
ghost use Rattle.command_line.specs.ReadBack.{IsRecordingScript};

/// The line of each event is read as that event.
pub fn event_read_back()
    ensures { IsEachReadBack }
{}

/// The text of events, one after the other, is read as those events, whatever follows it: so is a
/// recording that a failed write cut off, up to its last whole line.
pub fn text_read_back()
    ensures { AreReadBack }
{}

/// All that an engine has written down of the list of its events, read as a script, asks for events
/// that lead to the world of that list, in order; where a line was lost, to that of a beginning of it.
/// `IsWritten` of `event_script` says what is written down.
pub fn recording_read_back()
    ensures { IsRecordingReadBack }
{}

/// Each line of it asks for an event: a server goes on from what another one has written down.
pub fn recording_is_script()
    ensures { IsRecordingScript }
{}
