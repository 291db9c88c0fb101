//! Laws of scripts, each the contract of a function that does nothing.
ghost use Rattle.event_script.specs.Leading.{ScriptGrows, ScriptLeads, WrittenLeads};
ghost use Rattle.event_script.specs.Writing.{StaysWritten};

/// The script of a history whose commands had their requests is the lines of events that lead to
/// the world of the list.
pub fn script_leads()
    ensures { ScriptLeads }
{}

/// The script of a beginning of a list begins the script of the list.
pub fn script_grows()
    ensures { ScriptGrows }
{}

/// What was written down under a lock is the script of a beginning of the list, which leads where that
/// leads: of the whole list, where no line was lost.
pub fn written_leads()
    ensures { WrittenLeads }
{}

/// What was written down under a lock stays what the script says, with each event that is made and
/// noted, and where texts are taken.
pub fn stays_written()
    ensures { StaysWritten }
{}
