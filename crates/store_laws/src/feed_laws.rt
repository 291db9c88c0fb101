//! Laws of what is published to readers, each the contract of a function that does nothing.
ghost use Rattle.store_laws.specs.FeedLaws.{CommandIsPublished, ExpiryIsPublished};
ghost use Rattle.store_laws.specs.FeedLaws.{CommandIsOneChange, ExpiryIsOneChange};
ghost use Rattle.store_laws.specs.FeedLaws.{CommandIsOfRevision, ExpiryIsOfRevision};
ghost use Rattle.store_laws.specs.FeedLaws.{CommandIsStored, ExpiryIsStored};
ghost use Rattle.store_laws.specs.FeedLaws.{ReaderStoresPart};

/// What a command publishes leads from its world to the world after it.
pub fn command_is_published()
    ensures { CommandIsPublished }
{}

/// What an expiry step publishes leads from its world to the world after it.
pub fn expiry_is_published()
    ensures { ExpiryIsPublished }
{}

/// A command publishes one operation or none.
pub fn command_is_one_change()
    ensures { CommandIsOneChange }
{}

/// An expiry step publishes one operation or none.
pub fn expiry_is_one_change()
    ensures { ExpiryIsOneChange }
{}

/// A reader stores some of the versions that were published.
pub fn reader_stores_part()
    ensures { ReaderStoresPart }
{}

/// A command that raises the revision publishes one batch, all of it of the revision that it raised
/// to; another publishes the floor of an accepted Compact, or nothing.
pub fn command_is_of_revision()
    ensures { CommandIsOfRevision }
{}

/// A step of expiry that raises the revision publishes one batch, all of it of the revision that it
/// raised to; another publishes none.
pub fn expiry_is_of_revision()
    ensures { ExpiryIsOfRevision }
{}

/// What is kept after a command is what was kept before it, with what the command publishes.
pub fn command_is_stored()
    ensures { CommandIsStored }
{}

/// What is kept after a step of expiry is what was kept before it, with what the step publishes.
pub fn expiry_is_stored()
    ensures { ExpiryIsStored }
{}
