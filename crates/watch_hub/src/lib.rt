//! The watches of a store (etcd: Watch): what each still waits for.
//!
//! The one contract is that of [`WatchHub`]: its value is the list of the watches that stand, in
//! the order in which they were made, and how many were made so far; each call is a function on
//! such lists. A watch that is behind holds the main revision of the first version that it matches
//! and was not told of; one that is caught up holds none. A watch that is late, since its start was
//! compacted when it was made, is told that alone. [`Pending`] is what a delivery needs of a watch;
//! the versions that it tells of are read in `range_view`'s tables.
//!
//! For example, where the key a was put at the revisions 2, 3 and 4, with the first undelivered
//! match of each watch behind its number:
//!
//! ```text
//! create a from 0       1: none                    caught up; 0 means the next revision, 5
//! create a from 3       1: none, 2: 3              behind
//! create a from 6       1: none, 2: 3, 3: none     caught up, and waits for 6
//! note a put at 5       1: 5,    2: 3, 3: none     2 is behind already, 3 waits on
//! advance 2 to 3        1: 5,    2: 4, 3: none     2 was told of all up to 3
//! cancel 1              2: 4, 3: none              no later watch gets the number 1
//! ```
//!
//! Only tested is that calls which may find no memory succeed where there is ample: in the crate
//! `store_tests`, in `src/watches.rt`.
#![tactic(auto)]

mod bounds;
pub mod delivery;
mod entries;
mod entry;
mod guards;
pub mod hub;
mod matching;
pub mod message;
mod noting;
mod tally;
mod walk;

pub use delivery::Delivery;
pub use hub::{Pending, WatchHub};
pub use message::Event;
