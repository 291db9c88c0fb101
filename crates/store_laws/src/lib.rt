//! Laws of the model: what a store that keeps only some of the versions says of the whole history,
//! and why trimming is right.
//!
//! `specs/Stands.antt` says when a store stands for a world of the model: its versions answer each
//! question from the last compaction on as the whole history does. `specs/Trimming.antt` has the
//! rule by which versions go. A law is the contract of a function that does nothing ([`laws`],
//! [`plan_laws`], [`feed_laws`], [`trimming_laws`]). The one that the others lead to is
//! [`trimming_laws::rule_makes_run`]: a run that trims by the rule is a run of the headline. The
//! crates above cite the lemmas of `proofs/` that stand behind them: `trim_core` that its step is
//! the rule's, `request_core` that what it keeps still answers.
//!
//! For example, where `a` was put at 2 and 3 and the store was compacted at 4:
//!
//! ```text
//! 2 put a    goes: a later version of a is below the compaction
//! 3 put a    stays: a Range of a at 4 is answered by it alone
//! ```
//!
//! Nothing is only tested.
#![tactic(auto)]

pub mod feed_laws;
pub mod laws;
pub mod plan_laws;
pub mod trimming_laws;
