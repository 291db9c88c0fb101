//! More watches than may stand at once, each left by its client.
use crate::sides::first_left;

/// At most 1,024 watches stand at once.
#[test]
fn watches_whose_clients_leave(rt: HostRuntime) {
    assert_eq!(rt; first_left(&rt, rt.alloc(), 1025), None);
}
