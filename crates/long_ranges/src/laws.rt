//! Why a Range can be read in parts, each the contract of a function that does nothing.
ghost use Rattle.long_ranges.specs.Laws.{LaterSaysTheSame, PartsMakeTheWhole, RevisionsRise};

/// What the keys of a range held at the end of a revision they hold there behind whatever came later.
pub fn later_says_the_same()
    ensures { LaterSaysTheSame }
{}

/// No revision is taken back.
pub fn revisions_rise()
    ensures { RevisionsRise }
{}

/// What is live in a range is what is live below one of its keys, and then what is from that key on.
pub fn parts_make_the_whole()
    ensures { PartsMakeTheWhole }
{}
