//! HTTP/1.1 in front of a store: the requests of a connection and their replies, one connection
//! over a core by itself, and a server with threads over an engine of `engine_lock`.
//!
//! [`serve_alone`] answers a connection over a core: what is written is what the model of the whole
//! history answers the bytes that were read. [`work`] answers one over an engine that other threads
//! change too: it writes the texts of exactly the outcomes of the events that were made for its client,
//! one for each request that was read, or of what that client read beside the engine, and nothing besides
//! (`http_connections`). Both are the one loop of
//! `http_loop`. [`pool`] accepts the connections of a listener, of which any of some threads gives any
//! its turns that is ready, beside a thread that trims and one that ends leases; when all have ended it
//! closes the engine and gives its core, which stands for the world that the history of all that was done
//! leads to, or the fault is one of servers.
//!
//! A [`Gate`] holds requests back for tests, is told where a request is waited for, and knows
//! whether a client has left; a [`Clock`] tells the moments by which leases end. A connection
//! that waits is a value (`Life` of `http_connections`), and no client keeps a worker.
//!
//! [`pool_directed`] serves without the two threads beside the connections, until somebody ends it
//! ([`Directing`]).
//!
//! [`pool_begun`] and `pool_directed` are given an engine that has [`Begun`], with the client by which
//! events were made before; a request of those is [`post`].
//!
//! Where the gate says so, the engine writes its events down as the lines of a script, and the gate is
//! told behind each event, and may take them ([`GatedEngine`], [`Takes`]).
//!
//! Threads are started in one small function (`start` of `threads.rt`): what a thread asks of its
//! closure, that it may cross, is proved where little else is known.
//!
//! The tests stand in the crate `server_tests`.
#![tactic(auto)]

mod background;
mod begun;
mod directed;
mod duties;
mod threads;

pub use begun::{Begun, Limits};
pub use directed::{Directing, pool_directed};
pub use http_connections::{post, work};
pub use http_head::Head;
pub use http_input::{Input, Request, next_request};
pub use http_loop::serve_alone;
pub use http_peer::{Clock, Gate, MOST_CONNECTIONS, OpenGate, Takes};
pub use http_reply::{Counted, Front, ReplyBuffer, write_chunk, write_reply};
pub use recorded_engine::GatedEngine;
pub use threads::{pool, pool_begun};
