//! What a connection is to come to.
use crate::peers::{Coming, Going};
use crate::sides::{End, Side, answered};
use http_reply::{Counted, Front};
use std::alloc::Global;
use std::sync::Wait;
use std::time;

/// What a connection is to come to: how it ends, the store's revision then, and what went out. Its
/// watch stands no more.
#[derive(Clone, Copy, Debug)]
pub(crate) struct Wanted<'w> {
    pub(crate) ended: Result<u64, Front>,
    pub(crate) revision: u64,
    pub(crate) goes: &'w [u8],
}

/// Whether a connection comes to that, and of its reads and writes just the one failed that its end
/// tells of.
pub(crate) fn comes_to<R: Wait + time::Clock>(
    rt: &R,
    alloc: Global,
    side: Side,
    coming: Coming<'_>,
    going: Going,
    wanted: &Wanted<'_>,
) -> bool {
    let mut r = Counted::new(coming);
    let mut w = Counted::new(going);
    let end = answered(rt, alloc, side, &mut r, &mut w);
    let failures = (r.failures(), w.failures());
    let going = w.into_inner();
    let is_sent = going.got.as_slice() == wanted.goes;
    drop(going);
    is_sent && is_end(end, wanted) && failures == failures_of(wanted.ended)
}

/// Whether that is how the connection ended.
fn is_end(end: Option<End>, wanted: &Wanted<'_>) -> bool {
    end == Some(End {
        ended: wanted.ended,
        revision: wanted.revision,
        is_watched: false,
    })
}

/// How many reads and how many writes failed of a connection that ends so.
fn failures_of(ended: Result<u64, Front>) -> (u64, u64) {
    match ended {
        Err(Front::Read) => (1, 0),
        Err(Front::Write(_)) => (0, 1),
        _ => (0, 0),
    }
}
