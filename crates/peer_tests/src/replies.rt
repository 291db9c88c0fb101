//! A put's reply and a watch's stream to a writer that takes them in part.
use crate::peers::{Coming, Then, narrow, short};
use crate::sides::Side;
use crate::texts::{ALL_REPLIES, LENGTHS, PUT_REPLY, REPLIES, REQUESTS};
use crate::wanted::{Wanted, comes_to};
use http_reply::Front;
use std::alloc::Global;
use std::sync::Wait;
use std::time;

/// How many bytes of a text went out, where of all of them so many did.
fn of_the_last(count: usize) -> usize {
    let mut left = count;
    for length in LENGTHS {
        if left < length {
            return left;
        }
        left -= length;
    }
    left
}

/// Both requests, in one read.
fn requests() -> Coming<'static> {
    Coming {
        first: REQUESTS,
        second: b"",
        then: Then::Ends,
    }
}

/// The first count of bytes that go out, behind which a write fails, or takes nothing, where it
/// comes to something else than a failed write behind so many bytes of that text.
fn first_wrong_cut<R: Wait + time::Clock>(
    rt: &R,
    alloc: Global,
    side: Side,
    fails: bool,
) -> Option<usize> {
    for count in 0..ALL_REPLIES {
        let wanted = Wanted {
            ended: Err(Front::Write(of_the_last(count) as u64)),
            revision: 2,
            goes: &REPLIES[..count],
        };
        let going = short(alloc, count, fails);
        if !comes_to(rt, alloc, side, requests(), going, &wanted) {
            return Some(count);
        }
    }
    None
}

/// The first count of bytes that a writer takes at most at once to which not all goes out.
fn first_wrong_width<R: Wait + time::Clock>(rt: &R, alloc: Global, side: Side) -> Option<usize> {
    let wanted = Wanted {
        ended: Ok(2),
        revision: 2,
        goes: REPLIES,
    };
    for most in 1..=PUT_REPLY {
        if !comes_to(rt, alloc, side, requests(), narrow(alloc, most), &wanted) {
            return Some(most);
        }
    }
    None
}

#[test]
fn writes_that_fail(rt: HostRuntime) {
    let alloc = rt.alloc();
    assert_eq!(rt; first_wrong_cut(&rt, alloc, Side::Core, true), None);
    assert_eq!(rt; first_wrong_cut(&rt, alloc, Side::Engine, true), None);
}

#[test]
fn writes_that_take_nothing(rt: HostRuntime) {
    let alloc = rt.alloc();
    assert_eq!(rt; first_wrong_cut(&rt, alloc, Side::Core, false), None);
    assert_eq!(rt; first_wrong_cut(&rt, alloc, Side::Engine, false), None);
}

#[test]
fn replies_that_go_in_parts(rt: HostRuntime) {
    let alloc = rt.alloc();
    assert_eq!(rt; first_wrong_width(&rt, alloc, Side::Core), None);
    assert_eq!(rt; first_wrong_width(&rt, alloc, Side::Engine), None);
}
