//! Transactions (etcd: Txn): what they are refused for, which operations run, what they make and
//! what they are answered; and what one put or delete writes, alone or within a transaction.
//!
//! The one contract is that of [`plan`]: a transaction is decided on the state before it alone,
//! each compare too, and the versions that it makes are numbered in the order of its document.
//! [`check`] comes before it, and refuses what the request itself shows; [`replies`] comes after
//! it, and reads the answers in the tables that have the versions.
//!
//! For example, at revision 4, where a holds 1, b holds 2 and c holds 3, with a revision written as
//! main.sub:
//!
//! ```text
//! compare  the value of a is 1             holds
//! success  put a 9                         makes a at 5.0
//!          range a                         makes nothing; answers 9, what the put left
//!          delete b to d                   makes tombstones of b at 5.1 and of c at 5.2
//!          txn
//!            compare  the value of b is 2  holds, for what it was at revision 4 counts
//!            success  put e 4              makes e at 5.3
//! failure  put a 8                         does not run, and does not clash with success
//! ```
//!
//! A second put of a on success, or a delete of a range with a in it, would be `DuplicateKey`.
//!
//! Only tested is that calls which may find no memory succeed where there is ample: in the crate
//! `store_tests`, in `src/checks.rt` and `src/plans.rt`; those of answers are rows of
//! `tests/rows.d`, and many Ranges between the changes of a transaction `many_answers` of
//! `tests/rows`. Which way a Range is answered is cost alone, and no clause says it.
#![tactic(auto)]

mod changes;
mod checking;
mod clash;
mod compare;
mod delete;
mod deleted;
mod emptied;
mod fault;
mod keys;
mod known;
mod planning;
mod put;
mod reply;
pub mod step;
mod touched;

pub use checking::check;
pub use clash::{opposite_branches_do_not_clash, puts_are_alone};
pub use delete::tombstone;
pub use planning::plan;
pub use put::{held_refusal, put_fault, put_version};
pub use reply::replies;
