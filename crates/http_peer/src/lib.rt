//! The clients of a server, as it sees them, and what it asks of whoever runs it.
//!
//! A [`Gate`] holds requests back for tests, is told where a request is waited for, and knows
//! whether a client has left, and whether events are written down; a [`Clock`] tells the moments by
//! which leases end. A [`Door`] lets connections in one at a time, and counts them. [`Coming`] reads and
//! [`Going`] writes by a reader or writer that does not wait, as a [`Socket`]: what it does not take is
//! [`Unsent`]. A [`Set`] tells the threads of a server which sockets are ready, each to one of them.
//!
//! Proved is that connections have the numbers 1, 2, 3 and so on, in the order in which they came in,
//! and none more than the limit; and, of any reader and writer that tells its bytes, that none is lost,
//! made or moved on its way: what a writer has and then what is unsent grows by just what is written.
//! What a socket takes and gives, and what is done at which moment, no clause says; a caller is
//! `http_front`:
//!
//! ```text
//! let (call, stream) = door.next(&listener)?;          // under a lock, which is free again then
//! set.add(socket, name, Wish::Read);
//! let name = set.next();                               // any thread
//! take_step(.., Coming { inner: Socket::new(&stream), dry }, Going { inner: Socket::new(&stream), unsent })
//! Socket::new(&stream).send(unsent)                    // until it is true
//! set.ask(socket, name, Wish::Read);
//! ```
//!
//! Which sockets are ready is tested alone, in `tests/http`.
#![tactic(auto)]

mod door;
mod gate;
mod peer;
mod set;
mod socket;
mod unsent;

pub use door::{Door, MOST_CONNECTIONS};
pub use gate::{Clock, Gate, OpenGate, Takes};
pub use peer::{Coming, Going};
pub use set::{Ready, Set, Sign, Wish, open_listener};
pub use socket::{Socket, open_peer};
pub use unsent::Unsent;
