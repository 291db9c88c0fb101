//! Laws of trimming steps, each the contract of a function that does nothing.
ghost use Rattle.trim_core.specs.Steps.{RemovedIsOldest, FewerStayTrimmed};

/// Where trimming has left nothing behind it that goes, the version that a step takes out is the
/// oldest of its key. So it goes from the front of the key's revisions, and none of them is walked.
pub fn removed_is_oldest()
    ensures { RemovedIsOldest }
{}

/// Where versions are dropped, as those of a revision that is taken back, trimming has still left
/// nothing behind it that goes.
pub fn fewer_stay_trimmed()
    ensures { FewerStayTrimmed }
{}
