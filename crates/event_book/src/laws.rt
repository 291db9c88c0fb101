//! Laws of what readers beside the lock are told, of what a holder was given by several calls, and of
//! what events raise the revision by, each the contract of a function that does nothing.
ghost use Rattle.event_book.specs.GivingLaws.{AddsOne, GivesBoth, GivesTheirs, ShowsNone};
ghost use Rattle.event_book.specs.PublishingLaws.{PublishedSays, PublishedMore, PublishedPrefix, RefusedIsUntold};
ghost use Rattle.event_book.specs.RaisingLaws.{RaisedAdds, RaisedAll, RaisedShows, RiseCommand, RiseExpiry};

/// What is told of all events says what the world that they lead to is, but for its leases and
/// watches.
pub fn published_says()
    ensures { PublishedSays }
{}

/// One event more tells just its change in the world behind those before it.
pub fn published_more()
    ensures { PublishedMore }
{}

/// What is told of a beginning of a list begins what is told of the list.
pub fn published_prefix()
    ensures { PublishedPrefix }
{}

/// A command that the model refuses tells nothing.
pub fn refused_is_untold()
    ensures { RefusedIsUntold }
{}

/// By a call that enters an event its holder was given just this one.
pub fn adds_one()
    ensures { AddsOne }
{}

/// By a call that shows a holder the list it was given nothing.
pub fn shows_none()
    ensures { ShowsNone }
{}

/// By two calls a holder was given what the first gave, and then what the second gave.
pub fn gives_both()
    ensures { GivesBoth }
{}

/// Of what a holder was given, those about what it names by a number are those of them that are.
pub fn gives_theirs()
    ensures { GivesTheirs }
{}

/// A call that enters an event raises its holder's share of the revision by what that event does.
pub fn raised_adds()
    ensures { RaisedAdds }
{}

/// A call that shows a holder the list raises nothing.
pub fn raised_shows()
    ensures { RaisedShows }
{}

/// A command that was made raises the revision by one where it tells that it did, and else not.
pub fn rise_command()
    ensures { RiseCommand }
{}

/// A step of expiry that was made raises the revision by one where it tells that it did, and else not.
pub fn rise_expiry()
    ensures { RiseExpiry }
{}

/// Where all holders came back, the revision is 1 and what the events of each raised it by.
pub fn raised_all()
    ensures { RaisedAll }
{}
