//! A list of events, its holders, and its end.
ghost use Rattle.std.specs.Prelude.{◌≡◌, [], ◌∷◌};

use event_book::{Holder, ListName, Listing, Noted, Opening, Roster};
use logbook::Plain;
use std::marker::Brand;
use std::sync::Wait;

/// A trimming step of the holder of a number.
struct Steps;

impl Plain<usize, Noted, u64> for Steps {
    ghost use Rattle.std.specs.Prelude.{None};
    ghost use Rattle.kv_model.specs.Follows.Outcome.{said};
    ghost use Rattle.kv_model.specs.Wire.WireTold.{untold};
    ghost use Rattle.event_book.specs.Events.{Event, entry};

    ghost ask = { λ n. entry n 0 Event.trimming (said untold) };

    ghost state = { λ n. None };
}

fn step<L: ListName, R: Wait>(rt: &R, listing: &mut Listing<L>, holder: &mut Holder<L>) {
    let number = holder.number();
    listing.enter::<R, usize, Steps>(rt, holder, &number);
}

/// The number of each of two holders, how many events each made, and whether the first has then seen
/// all of the list, before it is shown to it and behind that.
#[derive(Debug, Drop, PartialEq, Eq)]
struct Found {
    numbers: (usize, usize),
    made: (u64, u64),
    seen: (bool, bool),
}

/// The first makes an event, and the second makes two.
fn two<L: ListName, R: Wait>(
    rt: &R,
    listing: &mut Listing<L>,
    first: &mut Holder<L>,
    second: &mut Holder<L>,
) -> Found {
    step(rt, listing, first);
    step(rt, listing, second);
    step(rt, listing, second);
    let before = first.front().begins_with(&listing.front());
    listing.show(rt, first);
    Found {
        numbers: (first.number(), second.number()),
        made: (first.made(), second.made()),
        seen: (before, first.front().begins_with(&listing.front())),
    }
}

/// The end of a list of two holders, and how many came back.
fn end<L: ListName, R: Wait>(
    rt: &R,
    listing: Listing<L>,
    roster: Roster<L>,
    first: Holder<L>,
    second: Holder<L>,
) -> usize
    requires { roster ≡ 2 }
{
    let holders = roster.holders();
    let mut back = roster.returned();
    back.add(rt, &listing, first);
    back.add(rt, &listing, second);
    back.finish(rt, listing);
    holders
}

/// What two holders find, and how many came back.
fn listed<L: ListName, R: Wait>(rt: &R, opening: Opening) -> Option<(Found, usize)>
    requires name { opening.name ≡ L.Ledger.name }
    requires parts { opening.parts ≡ L.Ledger.parts }
    requires book { opening.book ≡ L.book }
{
    let (mut listing, mut roster) = Listing::<L>::new(opening);
    let Some(mut first) = roster.holder() else {
        return None;
    };
    let Some(mut second) = roster.holder() else {
        return None;
    };
    let found = two(rt, &mut listing, &mut first, &mut second);
    Some((found, end(rt, listing, roster, first, second)))
}

fn run_listed<R: Wait>(rt: &R) -> Option<(Found, usize)> {
    listed::<Brand, R>(rt, Opening::new())
}

#[test]
fn a_list_ends_where_its_holders_came_back(rt: HostRuntime) {
    let expected = Found {
        numbers: (0, 1),
        made: (1, 2),
        seen: (false, true),
    };
    assert_eq!(rt; run_listed(&rt), Some((expected, 2)));
}

/// How many holders there are.
fn holders<L: ListName>(opening: Opening) -> usize
    requires name { opening.name ≡ L.Ledger.name }
    requires parts { opening.parts ≡ L.Ledger.parts }
    requires book { opening.book ≡ L.book }
{
    let (_listing, mut roster) = Listing::<L>::new(opening);
    for _ in 0..66 {
        drop(roster.holder());
    }
    roster.holders()
}

fn run_holders() -> usize {
    holders::<Brand>(Opening::new())
}

#[test]
fn there_are_64_holders(rt: HostRuntime) {
    assert_eq!(rt; run_holders(), 64);
}
