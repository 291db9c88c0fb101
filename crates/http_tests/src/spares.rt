//! What has come of a connection and was not answered, from one visit to the next.
use http_input::{Spare, next_request};
use http_reply::Counted;
use std::alloc::Global;

/// Whether an input of which two bytes wait stays with its connection, and one of which nothing waits
/// serves another; `None` where no memory was found.
fn kept_and_spared(alloc: Global) -> Option<[bool; 4]> {
    let mut spare = Spare::new(alloc);
    let mut input = spare.take(None)?;
    let begins_empty = input.is_empty();
    let mut reader = Counted::new(b"GE".as_slice());
    let is_cut = next_request(&mut input, &mut reader).is_err();
    let kept = spare.keep(input)?;
    let own = spare.take(Some(kept))?;
    let is_own = !own.is_empty();
    let other = spare.take(None)?;
    let is_spared = other.is_empty() && spare.keep(other).is_none();
    Some([begins_empty, is_cut, is_own, is_spared])
}

#[test]
fn inputs_between_two_visits(rt: HostRuntime) {
    assert_eq!(rt; kept_and_spared(rt.alloc()), Some([true; 4]));
}
