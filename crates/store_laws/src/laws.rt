//! Laws of the definitions, each the contract of a function that does nothing.
ghost use Rattle.store_laws.specs.Laws.{DressGoesOn, LiveKeysAreByValue, KeysAscend};
ghost use Rattle.store_laws.specs.Laws.{CollidesIsSymmetric, NothingAfterDelete, FirstAfterDelete};
ghost use Rattle.store_laws.specs.Laws.{EmptyRangeIsEmpty, LastPutIsLeast};
ghost use Rattle.store_laws.specs.Laws.{EmptyRunIsRun, OpeningIsSound, BlankStands, FeedGoesOn};
ghost use Rattle.store_laws.specs.Growth.{HistoryGoesOn, LaterIsNotSeen, LastIsPresent};
ghost use Rattle.store_laws.specs.Growth.{GoodHoldsTheSame, GoodAnswersTheSame, GoodGoesOn};
ghost use Rattle.store_laws.specs.Growth.{GoodAddsTheSame, CommandRaisesByOne, ExpiryRaisesByOne};
ghost use Rattle.store_laws.specs.Growth.{ExpiryTellsRaise, StoreGoesOn, StoreAnswersRange};
ghost use Rattle.store_laws.specs.Growth.{StoreRefusesRange, StoreTellsPut, PutIsBatch};
ghost use Rattle.store_laws.specs.Growth.{StoreTellsDelete, DeletesAreBatch};

/// A version follows from the last one of its key.
pub fn dress_goes_on()
    ensures { DressGoesOn }
{}

/// What is live at a place depends on what each key holds there.
pub fn live_keys_are_by_value()
    ensures { LiveKeysAreByValue }
{}

pub fn keys_ascend()
    ensures { KeysAscend }
{}

pub fn collides_is_symmetric()
    ensures { CollidesIsSymmetric }
{}

pub fn nothing_after_delete()
    ensures { NothingAfterDelete }
{}

pub fn first_after_delete()
    ensures { FirstAfterDelete }
{}

pub fn empty_range_is_empty()
    ensures { EmptyRangeIsEmpty }
{}

pub fn last_put_is_least()
    ensures { LastPutIsLeast }
{}

pub fn empty_run_is_run()
    ensures { EmptyRunIsRun }
{}

pub fn opening_is_sound()
    ensures { OpeningIsSound }
{}

pub fn blank_stands()
    ensures { BlankStands }
{}

pub fn feed_goes_on()
    ensures { FeedGoesOn }
{}

/// A history goes on with the changes of the next revision.
pub fn history_goes_on()
    ensures { HistoryGoesOn }
{}

/// What stands behind a place is not seen from it.
pub fn later_is_not_seen()
    ensures { LaterIsNotSeen }
{}

/// At the end of its last revision a key holds what it holds at last.
pub fn last_is_present()
    ensures { LastIsPresent }
{}

/// A command raises the revision by one or not at all, and what is told of the revision says which.
pub fn command_raises_by_one()
    ensures { CommandRaisesByOne }
{}

/// A step of expiry raises the revision by one or not at all.
pub fn expiry_raises_by_one()
    ensures { ExpiryRaisesByOne }
{}

/// A step of expiry tells whether the revision rose.
pub fn expiry_tells_raise()
    ensures { ExpiryTellsRaise }
{}

/// A good part holds at each kept revision what the whole history holds.
pub fn good_holds_the_same()
    ensures { GoodHoldsTheSame }
{}

/// A good part answers every Range as the whole history does.
pub fn good_answers_the_same()
    ensures { GoodAnswersTheSame }
{}

/// A good part stays good as it and the history grow by one command.
pub fn good_goes_on()
    ensures { GoodGoesOn }
{}

/// A good part and the whole history grow by the same versions.
pub fn good_adds_the_same()
    ensures { GoodAddsTheSame }
{}

/// A store that stands for a world does so with the changes of one more command, of which its
/// watches take note.
pub fn store_goes_on()
    ensures { StoreGoesOn }
{}

/// A Range that is not refused is answered from the store.
pub fn store_answers_range()
    ensures { StoreAnswersRange }
{}

/// A Range is refused as the store tells.
pub fn store_refuses_range()
    ensures { StoreRefusesRange }
{}

/// A Put is refused, answered and made as the store tells.
pub fn store_tells_put()
    ensures { StoreTellsPut }
{}

/// A Put with a key is a change of the next revision.
pub fn put_is_batch()
    ensures { PutIsBatch }
{}

/// A DeleteRange is refused, answered and made as the store tells.
pub fn store_tells_delete()
    ensures { StoreTellsDelete }
{}

/// The deletes of at most 2^64 live keys are the changes of the next revision.
pub fn deletes_are_batch()
    ensures { DeletesAreBatch }
{}
