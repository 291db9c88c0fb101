//! Certificates: for each version that a store keeps a question that no list without it answers in
//! the same way.
//!
//! [`Dump::of`] shows what a store keeps, and [`make`] writes its certificate, a claim for each of
//! the versions. [`check`] judges the two for somebody who trusts neither. The one contract is that
//! of its yes: each version of the dump has the need that is claimed for it, among the dump's own
//! versions, and no list of fewer versions answers each question from the floor to the revision as
//! they do. A question is a Range at a revision, or a watch of one revision. A no is the first
//! fault, in the order of [`NeedFault`], and stands in what was judged.
//!
//! For example, `a` was put at 2, 4 and 5, `b` at 3, and nothing is compacted:
//!
//! ```text
//! versions    claims that pass     others, and what is said of them
//! 2 put a     a Range of a at 2
//! 3 put b     a Range of b at 3    no claim here         no need 3.0
//! 4 put a     a Range of a at 4    a Range of a at 5     need unmet 4.0: version 5 answers it
//! 5 put a     a Range of a at 5    a Range of a at 6     need unmet 5.0: above the revision
//!                                  one claim more        extra
//! ```
//!
//! A tombstone is needed by a watch of its own revision. After a compaction at 4 and trimming, 3 and
//! 4 have the needs of Ranges at 4, the oldest that may be asked, and version 2 that of a watch of
//! `a` at 4, which tells it as the value before version 4. After one at 5 version 2 is gone.
//!
//! Only tested is that calls which may find no memory succeed where there is ample: in the crate
//! `certificate_tests`.
#![tactic(auto)]

pub mod certificate;
mod checking;
pub mod dump;
pub mod fault;
mod making;
mod nexts;
mod older;

pub use certificate::{Certificate, Claim, Need};
pub use checking::{Least, check};
pub use dump::Dump;
pub use fault::NeedFault;
pub use making::make;
pub use older::needs_are_needs_by_either_test;
