//! One list of all events of an engine, which only grows, and beginnings of it.
//!
//! The list exists in the proofs alone. What a program holds is the list's word, a [`Book`], which
//! counts the events, and [`Front`]s: beginnings of the list that somebody has seen, each a number
//! beside a token without bytes. An entry of the list is one event with its outcome, and whose it
//! is: the number of the [`Holder`] by which it was entered, and a number that this holder names,
//! as that of a connection. Each list is a history (`IsHistory` in `specs/Events.antt`): each
//! outcome is the model's in the world behind the events before it.
//!
//! A [`Listing`] stands under the lock of an engine, beside the core that stands for the world
//! which the list leads to. Who makes an event on that core enters it there, by a [`Holder`] of its
//! own. What that says is one record, `Adds` in `specs/Callers.antt`: the list grew by events of
//! others, and then by just this one, and the holder has seen it up to it. A [`Roster`] stands
//! beside the engine and makes holders, so nobody to whom it is not lent can make one. At the end it
//! is a [`Returned`], to which the holders come back. For example, where `a` and `b` are two holders:
//!
//! ```text
//!                          list                       seen by a, b
//! new                      []
//! holder, holder           []                         [], []
//! enter of a: put a = 1    [put]                      [put], []
//! enter of b: range a      [put, range]               [put], [put, range]
//! show of a                [put, range]               both, both
//! add of a, of b           [put, range]               they came back
//! finish                   they made two events, which are all
//! ```
//!
//! What readers beside the lock are told of a list is `published_by` in `specs/Publishing.antt`; the
//! functions of [`laws`] say what that is, by their contracts alone.
//!
//! Which list it is, and by which ids its outcomes are told, is told by a type: `L` is a
//! [`ListName`], picked where a function generic in it is called with `Brand`.
#![tactic(auto)]

mod book;
mod came;
mod holder;
pub mod laws;
mod listing;
mod naming;
mod returned;
mod roster;

pub use book::{Book, Front, Noted, open};
pub use holder::Holder;
pub use listing::{Listing, sure};
pub use naming::{ListName, Opening};
pub use returned::Returned;
pub use roster::Roster;

/// How many holders one list has in its life, at most.
pub const MOST_HOLDERS: usize = 64;
