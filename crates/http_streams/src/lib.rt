//! The thread of a server that looks after the streams of watches that have begun.
//!
//! Whoever serves a connection hands its stream over once the head and the created message have gone out
//! ([`Handing::hand`]). The thread ([`keep_streams`]) waits for all their sockets at once, and gives each
//! its turns, as `watch_streams` proves them: where something may be told, or go out, or has come. It is
//! woken where a change was made ([`Waking`], a gate), and looks at all once a second.
#![tactic(auto)]

mod around;
mod handing;
mod streaming;

pub use around::{Around, Looked};
pub use handing::{Handed, Handing, Waking};
pub use streaming::{Watching, keep_streams};
