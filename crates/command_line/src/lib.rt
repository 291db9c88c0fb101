//! The words of the command line of `etcd_one`, and the server that they ask for.
//!
//! What the words ask for is the contract of [`arguments`], in `command_words`, whose names are given
//! on here. The contract of [`serve_on`] is that it writes one line, which tells the revision of the store,
//! once the server has ended, and where that fails a front of the line. That of [`serve_by`] is besides
//! that the server has begun with the events of a script's lines, in order, each made once. For example:
//!
//! ```text
//! etcd_one serve --listen x --connections 1    one connection is served; closed at revision 2
//! ```
//!
//! What a server does is told by
//! `http_front`. [`serve_on`] runs one by itself, [`serve_controlled`] one that lines on an input
//! direct, and a [`Recording`] is the gate by which [`serve_by`] and `serve_controlled` have the
//! events of one written down. These two [`Start`] with the store that a script leads to.
//!
//! The tests stand in the crate `server_tests`, in `src/streams.rt` and `src/serving.rt`.
#![tactic(auto)]

mod control;
mod from;
pub mod laws;
mod recorder;
mod serving;

pub use command_words::{Advice, Args, Serve, advise, arguments};
pub use control::serve_controlled;
pub use from::{Start, Starts, Unheard};
pub use http_front::{Gate, OpenGate};
pub use recorder::{Recording, Tells};
pub use serving::{serve_by, serve_on};
