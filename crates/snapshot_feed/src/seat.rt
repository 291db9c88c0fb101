//! A reader's seat at the tables.
ghost use Rattle.std.specs.Prelude.{◌≡◌, suc, true, false, IfSome, MatchBool};
ghost use mathlib.Core.List.{IsPrefix};
ghost use Rattle.logbook.specs.Pages.{Book};
ghost use Rattle.snapshot_feed.specs.Shown.{IsOf};
ghost use Rattle.snapshot_feed.specs.Seats.{is_in, known_to, sight_of, MayRead, IsWithin};
ghost use Rattle.left_right.specs.Sides.{view};

use crate::entry::ReadTables;
use crate::rule::{Sees, Shown, Sight};
use left_right::reader::{Reader, Reading};

pub type FeedReader = Reader<ReadTables, Sight, Shown>;

pub type FeedReading = Reading<ReadTables, Sight, Shown>;

/// A reader, or its reading.
pub enum Seat {
    Out(FeedReader),
    In(FeedReading),
}

impl Drop for Seat {
    fn drop(self) {
        match self {
            Seat::Out(reader) => drop(reader),
            Seat::In(reading) => drop(reading.leave()),
        }
    }
}

impl Seat {
    /// The reader of a seat, which leaves where it reads.
    fn into_reader(self) -> FeedReader
        ensures { view result.place ≡ sight_of self }
    {
        match self {
            Seat::Out(reader) => reader,
            Seat::In(reading) => reading.leave(),
        }
    }
}

/// The seat with the tables left.
pub fn left(seat: Seat, _by: ()) -> (Seat, ())
    ensures known { sight_of result.0 ≡ sight_of seat }
    ensures out { is_in result.0 ≡ false }
{
    (Seat::Out(seat.into_reader()), ())
}

/// The seat within the tables that are shown now, and whether it is: it is not where the writer is
/// gone.
pub fn entered(seat: Seat, _by: ()) -> (Seat, bool)
    ensures knows { (b : Book) → IsOf b (known_to seat) → MatchBool result.1
        (MayRead b result.0) (IsOf b (known_to result.0) × (is_in result.0 ≡ false)) }
    ensures looks { MatchBool result.1
        ((sight_of result.0).looks ≡ suc (sight_of seat).looks)
        ((sight_of result.0).looks ≡ (sight_of seat).looks) }
{
    let reader = seat.into_reader();
    match reader.enter_as::<Sees>() {
        Ok(reading) => (Seat::In(reading), true),
        Err(reader) => (Seat::Out(reader), false),
    }
}
