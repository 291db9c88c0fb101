//! What a store of keys with revisions is, and what it answers.
//!
//! The data types stand here: requests ([`call`]), versions ([`version`]), refusals ([`refusal`]).
//! Their meaning stands in `specs/`: `Step` says what each command does to the whole history, and
//! `Headline` what a run of the program promises. Each crate above states its contracts by these
//! words: `request_core` that a command does what `Step` says, `json_gateway` that a run is one of
//! `Headline`. `specs/Sample*.antt` and `specs/Texts.antt` are worked rows, which the check
//! computes. For example, a put of `a` on an empty store, another one, and a delete:
//!
//! ```text
//! history     a=1 at 2.0, a=2 at 3.0, a gone at 4.0      each change, for ever
//! a at 3      2, created at 2, modified at 3, version 2  by counting the puts since the last delete
//! a at 4      nothing
//! ```
//!
//! No code of the store stands here, and nothing is only tested: those who use a type test it.
#![tactic(auto)]

pub mod call;
pub mod feed;
pub mod ids;
pub mod refusal;
pub mod span;
pub mod version;

pub use call::{
    Command, Compare, DeleteRequest, Operand, Operation, PutRequest, RangeQuery, Relation,
    SortOrder, SortTarget, Txn, Watched,
};
pub use feed::{NoSink, Op, Sink};
pub use ids::Ids;
pub use refusal::Refusal;
pub use span::Span;
pub use version::{Body, KeyRange, Rev, Version};
