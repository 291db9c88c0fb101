//! The threads of a server that give connections their turns.
//!
//! Each thread ([`keep_working`]) waits for whatever is ready ([`Lines`]): a connection that waits at the
//! listener, which it lets in, or a connection of which something has come, or of which more can go out. It
//! takes that from its place, gives it its turns (`http_connections`), and puts it back. So no client keeps
//! a thread, and no connection is kept by one. No more of them look out at once than have a core each, but
//! for those that are held (`crew.rt`). What the threads share is [`Shared`].
#![tactic(auto)]

mod crew;
mod line;
mod lines;
mod shared;
mod slots;
mod workers;

pub use lines::Lines;
pub use shared::Shared;
pub use workers::keep_working;
