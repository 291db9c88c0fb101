//! What an entry of the list of all events is read from.

use crate::asked::Asked;
use event_book::Noted;
use json_gateway::{Certified, Expiry, Message, Outcome, Refusal, Trim, Trimmed};
use logbook::Plain;
use std::alloc::AllocError;

/// An event that was made on the core, and what it came to.
#[derive(Drop)]
pub(crate) enum Made<'a> {
    /// A moment was handed in alone, and the clock is that.
    Moment(u64, u64),
    /// A command was done at a moment.
    Command(u64, &'a Asked<'a>, &'a Outcome),
    /// A step of expiry was made at a moment.
    Expiry(u64, &'a Result<Expiry, Refusal>),
    /// The watch of a number was told this.
    Delivery(u64, &'a Result<Message, AllocError>),
    /// The watch of a number was ended, if it stood.
    Ending(u64, bool),
    /// A trimming step was made.
    Trimming(&'a Trim),
    /// A trimming step was made, which is told with its certificate.
    Checked(&'a Trimmed),
    /// What is kept was shown with its certificate.
    Certificate(&'a Result<Certified, AllocError>),
}

/// The same, with the number of the client that made it, and the number that this names.
#[derive(Drop)]
pub(crate) struct Making<'a> {
    pub(crate) by: usize,
    pub(crate) about: u64,
    pub(crate) made: Made<'a>,
}

/// How an entry is read.
pub(crate) struct Makings;

impl<'a> Plain<Making<'a>, Noted, u64> for Makings {
    ghost use Rattle.std.specs.Prelude.{None};
    ghost use Rattle.engine_lock.specs.Makings.{entry_made};

    ghost ask = { λ m. entry_made m };

    ghost state = { λ m. None };
}
