//! The leases that are granted, and the clock.
//!
//! A lease has an ID, a time to live in seconds, and a deadline in milliseconds of a clock that is
//! handed in and only goes forward. The one contract is that of [`LeaseBook`]: its value is the
//! list of the leases, ascending by ID, and the clock, and each call is the model's on both. What
//! is due is only told: `request_core` takes such a lease out with its keys, in a step of expiry.
//!
//! For example, three leases are granted while the clock stands at 1,000:
//!
//! ```text
//! grant ttl 10, id 7     lease 7, deadline 11,000
//! grant ttl 0, id 0      lease 1, deadline 2,000, the least free ID above 0; 1 s at least
//! grant ttl 1, id -3     lease -3, deadline 2,000
//! moment 1,999           due: none
//! moment 2,000           due: -3, of equal deadlines the least ID comes first
//! revoke -3              due: 1
//! keep_alive 1           deadline 3,000, from the clock on, though it was due
//! moment 1,500           the clock stays; due: none
//! time_left 7            9 of 10 s
//! ```
//!
//! Only tested is that calls which may find no memory succeed where there is ample: in the crate
//! `table_tests`, in `src/leases.rt`.
#![tactic(auto)]

pub mod book;
mod entry;
mod tree;

pub use book::{Granted, LeaseBook, TimeLeft};
