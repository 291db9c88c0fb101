//! Streams of watches that wait: each is a value, of which one thread looks after many.
//!
//! A [`Line`] is a stream between two waits: the number of its watch, whoever writes it, the part of
//! what was to be written that has not gone out, and whether it has ended. [`Streams`] are the lines
//! that stand, with the client of the engine that has their watches told. What a turn of a stream
//! writes is exact (`IsExact` in `specs/Turns.antt`), and turns compose, whatever other streams have
//! between them ([`streams_are_whole`]): **what went out of a stream since it began, with what has not
//! gone out yet, is exactly the chunks of the messages that the engine told its watch since then, in
//! order, each once, and the last chunk where it has ended.** So no message of one goes to another,
//! none is told twice, none is lost while another waits to go out.
//!
//! A stream ends behind a turn that says so ([`Turn::is_over`]), where whoever hears its client says
//! that this has left, or where it says that the server ends ([`Hearing`]); its watch is then ended.
//!
//! Whom a wait wakes no clause says; who waits is `http_front`:
//!
//! ```text
//! streams.begin(number, call, writer);         // behind its head and its created message
//! streams.turn(&events, number)                // what is there to be told, or to go out
//! streams.hear(&events, &ears, number)         // whether its client has left
//! ```
#![tactic(auto)]

mod hearing;
mod laws;
mod line;
mod streams;
mod telling;
mod turning;

pub use hearing::{Heard, Hearing};
pub use laws::streams_are_whole;
pub use line::Line;
pub use streams::Streams;
pub use telling::{Next, tell};
pub use turning::{Turn, take_turn};
