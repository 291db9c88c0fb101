//! Requests as bytes, answers as bytes: the JSON gateway over a core.
//!
//! The one contract is that of [`run_wire`]: for every list of events, each outcome is what the
//! model of the whole history tells, byte for byte, but where memory was wanting. [`perform`],
//! [`post`] and [`message`] say it of one command, of one request and of one delivery, for each
//! world that the core stands for, and `commands` calls [`run_wire`] with the events of a script.
//! For example, on a fresh store, as member 1 of cluster 1, where `{..}` is
//! `{"cluster_id":"1","member_id":"1","raft_term":"1","revision":"2"}`:
//!
//! ```text
//! Moment 1000                                      Clock 1000
//! Post /v3/kv/put {"key":"YQ==","value":"MQ=="}    200 {"header":{..}}, raised to revision 2
//! Post /v3/kv/put {"value":"MQ=="}                 400, the key is missing; nothing is raised
//! Post /v3/kv/range {"key":"YQ=="}                 200 {"count":"1","header":{..},"kvs":[{..
//! Post /v3/watch {"create_request":{"key":"YQ==",  200 {"result":{"created":true,"header":{..}}},
//!     "start_revision":"2"}}                       and the number of the watch is 1
//! Deliver 1                                        {"result":{"events":[{"kv":{..}}],"header":{..}}}
//! Deliver 1                                        Nothing, since the watch is caught up
//! Close 1                                          Closed
//! Deliver 1                                        NoWatch
//! Expire                                           Nothing, since no lease is due
//! Trim                                             Done, with 1 version and its certificate
//! Certify                                          the version 2.0, needed by a Range at 2
//! ```
//!
//! A request goes from [`read`] of `gateway_read` over `Core::apply` and `Core::answer` of
//! `request_core` to [`text`], which calls the function of `gateway_text` for each kind of answer.
//! How it ended is [`Settled`]: answered, be it by a refusal; without memory, and then nothing has
//! changed; or lost, where the change stands and its answer found no memory.
//!
//! [`message`] makes the text of what a watch is told next from `Core::deliver`, and then has the
//! watch go on by `Core::advance`: a delivery that finds no memory is not made. [`Message`] is what
//! it was told.
//!
//! Only tested is that calls which may find no memory succeed where there is ample: in the crate
//! `gateway_tests`, in `src/gateway.rt` and `src/messages.rt`.
#![tactic(auto)]

pub mod certifying;
pub mod commands;
pub mod messages;
pub mod outcome;
pub mod wire;

pub use commands::{declined, dismissed, perform, perform_to, post, text};
pub use gateway_read::bad::Bad;
pub use gateway_read::read;
pub use gateway_text::{RangeText, range_text, room_of};
pub use kv_model::ids::Ids;
pub use kv_model::refusal::Refusal;
pub use messages::message;
pub use outcome::{Certified, Message, Outcome, Reply, ReplyBody, Settled, Trimmed};
pub use range_view::tables::Trim;
pub use request_core::answer::Expiry;
pub use request_core::store::Core;
pub use wire::{Unexpired, WireEvent, WireOutcome, WireRun, post_and_trim, run_wire};
pub use witness_core::{Certificate, Claim, Dump, Need};
