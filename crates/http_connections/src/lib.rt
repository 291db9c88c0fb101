//! One connection over an engine: what it is answered, from its first byte to its end.
//!
//! [`work`] answers a connection by one client of an engine, to its end, on the thread that calls it: it
//! writes the texts of exactly the outcomes of the events that were made for this client, one for each
//! request that was read, or of what the client read beside the engine, and nothing besides
//! (`specs/Engines.antt`).
//!
//! [`Turning::visit`] gives a connection its turns that waits between them: what stands of it then is a
//! value ([`Life`]), and any client may serve it next. What it is answered over its whole life is the same
//! (`Lives` of `specs/Lines.antt`), and the events that are made for it are exactly those that it asked
//! for ([`Serving`] says by which client).
//!
//! [`post`] makes the event that a request of a script asks for.
#![tactic(auto)]

mod awaiting;
mod beside;
mod by_engine;
mod by_worker;
mod connection;
mod crowd;
mod life;
mod stopped_clock;
mod trimming;
mod turns;

pub use awaiting::Trimming;
pub use by_engine::{ByEngine, post};
pub use by_worker::{ByWorker, Serving};
pub use connection::work;
pub use crowd::Crowd;
pub use life::{Life, Stage};
pub use stopped_clock::StoppedClock;
pub use turns::{After, Turning, Visited, Wire};
