//! A core under a lock, for any number of threads, and the list of all events that are made on it.
//!
//! An [`Engine`] has a core of `request_core` behind a lock, and beside it the list of all events
//! (`event_book`), which exists in the proofs alone. One holding of the lock makes one event, and
//! enters it in the list with its outcome: [`Engine::submit`] hands in a moment and does a command,
//! [`Engine::expire_once`] hands in a moment and makes a step of expiry, and [`Engine::deliver`],
//! [`Engine::drop_watch`], [`Engine::trim_once`], [`Engine::moment`], [`Engine::certificate`] and
//! [`Engine::trim_checked`] are an event each. Each is made for a [`Client`], and no event is
//! anybody's but the client's to whom the call belongs.
//!
//! The one contract of all calls is `Enters` in `specs/Entering.antt`: the list grew by events of
//! others, and then by just this one; its outcome is the model's in the world that the events before
//! it lead to; and the client has now seen the list up to it. What the lock keeps is `IsLocked` in
//! `specs/Fits.antt`: the core stands for the world that the list leads to. So all answers that all
//! clients are given are of one history, each at its event. For example, where `a` and `b` are two
//! clients:
//!
//! ```text
//!                             core                       the list                  seen by a, b
//! new                         revision 1                 []
//! client, client                                                                   [], []
//! submit of a: put a = 1      revision 2, raised         [put]                     [put], []
//! submit of b: range a        revision 2                 [put, range]              [put], all
//! catch_up of a               revision 2                 [put, range, moment]      all, [put, range]
//! close with a                Missing: b did not come back
//! close with a, b             the core, at revision 2, and the list: each event is of a or of b
//! ```
//!
//! [`Engine::close`] asks for all clients, and gives back a core that stands for the world of the
//! whole list, which is a history; each event is of one of the clients, and each client has seen all
//! of its own (`Closes`). A client may name what its next events are about ([`Client::set_about`]),
//! as one that serves many connections does.
//!
//! Beside the lock a client reads what was published ([`Client::enter`] or [`Client::read`], and
//! [`Client::range`]), and waits for nobody. Readers are told of just what the events publish, and
//! [`Engine::submit`] tells its client of it, so that each later reading of that client begins with
//! it.
//!
//! Where it is asked for, the events are written down under the lock ([`Engine::recorded`],
//! [`Engine::take_lines`]), as the lines of a script: what was taken so far is the script of the list
//! up to an event, or of a beginning of it where a line found no memory (`specs/Takings.antt`).
//!
//! Which engine a client is of is told by its type: `L` names the list, the ledger of the clients'
//! shares and the ids ([`EngineName`]). It is picked where a function generic in `L` is called with
//! `Brand`, and engine and clients live inside that function.
//!
//! The tests stand in the crate `engine_tests`.
#![tactic(auto)]

pub mod asked;
mod client;
mod closing;
mod copies;
pub mod engine;
mod kept;
mod known;
mod making;
mod noting;
pub mod opening;
mod state;
mod steps;
mod taken;

pub use asked::Asked;
pub use client::Client;
pub use closing::CloseFault;
pub use engine::{Engine, Submitted, locked};
pub use known::Known;
pub use opening::{EngineName, Opening};
pub use taken::Taken;

/// How many clients one engine makes in its life.
pub const MOST_CLIENTS: u64 = 64;
