//! A connection of HTTP/1.1 and whoever answers it: from the bytes that come to the bytes that go
//! (RFC 9112).
//!
//! The loop over a connection stands once, in [`serve_all`], over a trait, [`Answering`]: each
//! request that is read is answered once, and what is written is the text of that answer, in the
//! requests' order, and nothing besides (`Conn` in `specs/Answered.antt`). It says so too where a
//! read, a write or memory failed: which replies went out, and of which text exactly how long a
//! beginning.
//!
//! A connection that waits between its requests goes by single steps, [`take_step`].
//!
//! A core of `request_core` is one who answers. Over it the loop is [`serve_alone`]: what is
//! written is what the model of the whole history answers the bytes that were read, however the
//! reads cut them, and the core then stands for the model's world (`Conn` in
//! `specs/Connections.antt`; `proofs/Worlds.antt` leads from the one `Conn` to the other).
//!
//! For example, on a fresh store, where `H` is the header with revision 2:
//!
//! ```text
//! POST /v3/kv/put {"key":"Zm9v","value":"YmFy"}      HTTP/1.1 200 OK, {"header":H}
//! GET /v3/kv/range                                   HTTP/1.1 404 Not Found, no such path
//! POST /v3/watch {"create_request":{"key":"Zm9v",    a stream of two chunks and the last one: the
//!     "start_revision":"2"}}                         watch was created, and the put; the connection
//!                                                    is closed, and the watch is dropped
//! POST /v3/kv/put, Content-Length: 1x                HTTP/1.1 400 Bad Request, and it is closed
//! ```
//!
//! The tests stand in the crate `server_tests`, in `src/rows.rt`.
#![tactic(auto)]

mod alone;
mod answering;
pub mod laws;
mod serving;
mod stepping;
mod streaming;
mod writing;

pub use alone::serve_alone;
pub use answering::{Answering, Told};
pub use serving::serve_all;
pub use stepping::{Step, Waiting, end_wait, take_step};
pub use writing::{Turn, command_path};
