//! Laws of trimming, each the contract of a function that does nothing.
ghost use Rattle.store_laws.specs.ByRule.{RuleMakesRun};
ghost use Rattle.store_laws.specs.TrimmingLaws.{SettledIsLeast, LeastIsOne, SettledIsCertified};
ghost use Rattle.store_laws.specs.TrimmingLaws.{PassingIsLeast, TrimmedStepsWell, DoneIsTrimmed};
ghost use Rattle.store_laws.specs.TrimmingLaws.{TrimmingIsByUse};
ghost use Rattle.store_laws.specs.TrimmingLaws.{TrimmingStartsOver, TrimmingGoesOn, GoodStaysGood};

/// What answers as the whole history does, and has nothing left to take out, is a least list.
pub fn settled_is_least()
    ensures { SettledIsLeast }
{}

/// There is one least list.
pub fn least_is_one()
    ensures { LeastIsOne }
{}

/// Where nothing is left to take out, the certificate passes its check, and each of its needs is
/// one.
pub fn settled_is_certified()
    ensures { SettledIsCertified }
{}

/// A certificate that passes its check gives each listed version its claimed need in the list, and
/// no shorter part of the list answers as it does: by any test that tells the previous values that
/// are claimed.
pub fn passing_is_least()
    ensures { PassingIsLeast }
{}

/// Of the versions at or below a compaction those go that are neither the last of their key at or
/// below it, nor the last put of their key below it where the key has a version at it; and the
/// tombstones below it.
pub fn trimming_is_by_use()
    ensures { TrimmingIsByUse }
{}

/// A trimming step by the rule keeps what answers, and is one that a run may make.
pub fn trimmed_steps_well()
    ensures { TrimmedStepsWell }
{}

/// Where a step by the rule says that it is done, a least list is kept and nothing is left to
/// visit.
pub fn done_is_trimmed()
    ensures { DoneIsTrimmed }
{}

/// A Compact starts trimming over: all that is kept at or below it is to be visited.
pub fn trimming_starts_over()
    ensures { TrimmingStartsOver }
{}

/// Versions above the compaction change nothing of what trimming has still to visit.
pub fn trimming_goes_on()
    ensures { TrimmingGoesOn }
{}

/// What answers from a compaction on answers from a later one on.
pub fn good_stays_good()
    ensures { GoodStaysGood }
{}

/// Events that find memory, with trimming by the rule, make a run.
pub fn rule_makes_run()
    ensures { RuleMakesRun }
{}
