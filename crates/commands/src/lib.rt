//! The commands `replay` and `check` of `etcd_one`, from a reader to a writer.
//!
//! The one contract is that of [`replay`]: what it writes is what the model of the whole history
//! answers to the script, line by line, and where a write fails a front of that. It cuts the script
//! into the events of one run (`script`), hands them to `run_wire` of `json_gateway`, and writes
//! the outcomes (`replies`). That of [`check`] is that its one line is what the definitions say of
//! the text (`judging`). For example, on a fresh store, where `{..}` stands for a header:
//!
//! ```text
//! AT 1000                                               at 1000
//! POST /v3/kv/put {"key":"YQ==","value":"MQ=="}         200 {"header":{..}}
//! POST /v3/watch {"create_request":{"key":"YQ=="}}      200 {"result":{"created":true,..}}
//! DELIVER 1                                             nothing
//! CLOSE 1                                               closed
//! POST /v3/lease/grant {"TTL":"1","ID":"7"}             200 {"ID":"7","TTL":"1","header":{..}}
//! PUT a 1                                               bad line
//! EXPIRE                                                nothing
//! AT 2000                                               at 2000
//! EXPIRE                                                expired 7 revision 2
//! TRIM                                                  done 1
//! CERTIFY                                               dump 2
//!                                                       ..
//! ```
//!
//! [`control`] answers lines one at a time, of a server that runs ([`Controlling`]): those of `AT`,
//! `EXPIRE`, `TRIM` and `CERTIFY`, in the words that a script's replies have.
//!
//! [`read_script`], [`check_script`] and [`play`] are for a server that goes on from a script: its
//! text, whether each line of it asks for an event, and these made one after the other ([`Playing`]).
//!
//! [`Fault`] says why the program ends before its work is done, a server too, and [`write_number`]
//! writes a line that ends in a number, whole or up to a failed write.
//!
//! The tests stand in the crate `server_tests`, in `src/streams.rt`, and in `tests/rows.d`.
#![tactic(auto)]

mod controlling;
mod counted;
mod fault;
mod input;
mod judging;
mod pieces;
mod playing;
mod replaying;
mod replies;
mod said;
mod script;

pub use controlling::{Controlling, Order, control};
pub use fault::{Fault, fault_of_words};
pub use http_reply::Front;
pub use input::read_script;
pub use json_gateway::Ids;
pub use judging::{Verdict, check};
pub use pieces::{write_bytes, write_number};
pub use playing::{Playing, check_script, play};
pub use replaying::{replay, replay_by};
