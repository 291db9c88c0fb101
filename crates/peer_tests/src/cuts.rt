//! A put and a watch whose bytes are cut, fail, or come in two reads, at each place.
use crate::peers::{Coming, Then, willing};
use crate::sides::Side;
use crate::texts::{ALL, PUT, PUT_REPLY, REPLIES, REQUESTS};
use crate::wanted::{Wanted, comes_to};
use http_reply::Front;
use std::alloc::Global;
use std::sync::Wait;
use std::time;

/// What so many bytes come to, behind which is the end.
fn cut(count: usize) -> Wanted<'static> {
    if count < PUT {
        Wanted {
            ended: if count == 0 { Ok(0) } else { Err(Front::End) },
            revision: 1,
            goes: b"",
        }
    } else if count < ALL {
        Wanted {
            ended: if count == PUT { Ok(1) } else { Err(Front::End) },
            revision: 2,
            goes: &REPLIES[..PUT_REPLY],
        }
    } else {
        WHOLE
    }
}

/// What so many bytes come to, behind which a read fails. Behind the watch none is made.
fn failed(count: usize) -> Wanted<'static> {
    if count < ALL {
        Wanted {
            ended: Err(Front::Read),
            ..cut(count)
        }
    } else {
        WHOLE
    }
}

/// What they come to that are not cut.
const WHOLE: Wanted<'static> = Wanted {
    ended: Ok(2),
    revision: 2,
    goes: REPLIES,
};

/// The first count of bytes that come to something else, where the end is behind them, or a read
/// that fails.
fn first_wrong<R: Wait + time::Clock>(
    rt: &R,
    alloc: Global,
    side: Side,
    then: Then,
) -> Option<usize> {
    for count in 0..=ALL {
        let coming = Coming {
            first: &REQUESTS[..count],
            second: b"",
            then,
        };
        let wanted = if then == Then::Fails {
            failed(count)
        } else {
            cut(count)
        };
        if !comes_to(rt, alloc, side, coming, willing(alloc), &wanted) {
            return Some(count);
        }
    }
    None
}

/// The first place at which the requests, split into two reads, come to something else.
fn first_wrong_split<R: Wait + time::Clock>(rt: &R, alloc: Global, side: Side) -> Option<usize> {
    for place in 1..ALL {
        let coming = Coming {
            first: &REQUESTS[..place],
            second: &REQUESTS[place..],
            then: Then::Ends,
        };
        if !comes_to(rt, alloc, side, coming, willing(alloc), &WHOLE) {
            return Some(place);
        }
    }
    None
}

#[test]
fn requests_that_are_cut(rt: HostRuntime) {
    let alloc = rt.alloc();
    assert_eq!(rt; first_wrong(&rt, alloc, Side::Core, Then::Ends), None);
    assert_eq!(rt; first_wrong(&rt, alloc, Side::Engine, Then::Ends), None);
}

#[test]
fn reads_that_fail(rt: HostRuntime) {
    let alloc = rt.alloc();
    assert_eq!(rt; first_wrong(&rt, alloc, Side::Core, Then::Fails), None);
    assert_eq!(rt; first_wrong(&rt, alloc, Side::Engine, Then::Fails), None);
}

#[test]
fn requests_that_come_in_two_reads(rt: HostRuntime) {
    let alloc = rt.alloc();
    assert_eq!(rt; (REQUESTS.len(), REPLIES.len()), (196, 556));
    assert_eq!(rt; first_wrong_split(&rt, alloc, Side::Core), None);
    assert_eq!(rt; first_wrong_split(&rt, alloc, Side::Engine), None);
}
