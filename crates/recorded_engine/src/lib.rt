//! An engine, and the gate of a server, which is told of each of its events that may have a line.
//!
//! Each call of [`GatedEngine`] makes one event by the call of the engine that its comment names, with
//! that call's contract. Behind each event that may have a line the gate is told, which may take the
//! lines where the engine writes them down ([`engine_lock::Engine::recorded`]). Whoever has an engine
//! and its gate makes each such event by this, so that no line waits for long. A moment and a
//! certificate have no line of their own, and the gate is not told of them. For example, of a command
//! on behalf of a client:
//!
//! ```text
//! let events = GatedEngine { rt, engine, gate };
//! let submitted = events.submit_request(&mut client, now, &Asked::by(&command, path, body));
//! ```
//!
//! The contract is that of each event by itself. What the lines are is said in `engine_lock`.
#![tactic(auto)]

mod gated;

pub use gated::GatedEngine;
