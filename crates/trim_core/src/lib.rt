//! Trimming: what a compaction left over is taken out, one version at a time.
//!
//! The one contract is [`Trimmer::step`]: over a table of versions and the index of their keys it
//! is the rule's step (`trimmed` of `store_laws`), in every state, and the index is then again that
//! of the table. `range_view` takes such a step between two requests (`Tables::trim_step`). The
//! laws in [`laws`] say what the steps before it make of one: they have no part in its contract.
//!
//! For example, `a` was put at 2 and deleted at 3, `b` was put at 4, and the store was compacted
//! at 4:
//!
//! ```text
//! kept                            step       place after it
//! 2 put a, 3 gone a, 4 put b      Removed 2  2.1   a later version of a, that of 3, is below 4
//! 3 gone a, 4 put b               Removed 3  3.1   a tombstone below the compaction
//! 4 put b                         Kept 4     4.1   b's last version
//! 4 put b                         Done 1           no version from 4.1 on is at or below 4
//! ```
//!
//! The tests stand in the crate `store_tests`, in `src/trims.rt`.
#![tactic(auto)]

pub mod laws;
mod rule;
mod trimmer;

pub use trimmer::{Trim, Trimmer};
