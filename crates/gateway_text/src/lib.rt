//! The bodies of the JSON gateway's answers and refusals, written straight into bytes: no tree of
//! values is built.
//!
//! The one contract is that of each `.._text` function: the bytes are `success_response` of
//! `kv_model`, the compact text of the answer's value, for every reply, revision and numbers of the
//! member. A body that fails was not given, and fails for want of memory alone. `json_gateway` picks
//! the function for each reply, and the [`Wording`] for each refusal. [`RangeText`] makes a Range's
//! body, the same bytes, of key-values that come in parts. For example, with member 2 of cluster 1
//! at revision 5, a Put that replaced nothing is told as
//!
//! ```text
//! put_text(alloc, 5, None, &ids)
//! {"header":{"cluster_id":"1","member_id":"2","raft_term":"1","revision":"5"}}
//! ```
//!
//! A member at its default, as a count of 0, is left out, and numbers of 64 bits are strings.
//! Within, a body is a list of JSON tokens ([`json_text`]): each `write_..` function appends those
//! of one value, and the text of the tokens is the body.
//!
//! Only tested is that calls which may find no memory succeed where there is ample: in the crate
//! `gateway_tests`, in `src/texts.rt`.
#![tactic(auto)]

mod answers;
mod header;
mod json_text;
mod key_value;
mod leases;
mod range_parts;
mod refusal_bodies;
mod refusals;
mod transactions;
mod watches;

pub use answers::{delete_text, put_text, range_text};
pub use leases::{granted_text, leases_text, renewed_text, revoked_text, time_left_text};
pub use range_parts::{RangeText, room_of};
pub use refusal_bodies::refusal_body;
pub use refusals::{Wording, lost_text, memory_text, refusal_text, refusal_wording};
pub use transactions::txn_text;
pub use watches::{cancelled_text, created_text, events_text};
