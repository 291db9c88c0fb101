//! The events of a store, written down in the order in which they are made, as the lines of a script.
//!
//! Whoever makes the events has [`Lines`]: it hands in the moment ([`Lines::hand_in`]), makes an
//! event, and says which one it was ([`Lines::note`]). Somebody takes the text now and then
//! ([`Lines::take`]), and puts it where it is kept.
//!
//! The one contract is what is written: of each event the line of a script that asks for it
//! (`line_of` in `specs/Lines.antt`), and before it an `AT` where the clock has moved since the
//! last. So a script of all the lines makes the same events at the same moments. For example:
//!
//! ```text
//! hand_in(100), note(Post /v3/kv/put {..})      AT 100
//!                                               POST /v3/kv/put {..}
//! hand_in(90), note(Deliver 1)                  DELIVER 1
//! hand_in(250), nothing noted
//! hand_in(250), note(Expire)                    AT 250
//!                                               EXPIRE
//! ```
//!
//! `engine_lock` notes the events under its lock, and says there that the core stands for the world
//! which they lead to. `tests/recorded` plays what a server has written down again.
#![tactic(auto)]

mod lines;
mod taken;

pub use lines::Lines;
