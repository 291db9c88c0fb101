//! The words of the command line of `etcd_one`: what they ask for, and what is told of those that ask for nothing.
//!
//! The one contract is that of [`arguments`]: what it gives is what the words ask for. `check` is
//! taken alone, and want of memory is all that refuses it; `replay` and `serve` are taken with their
//! options, each number within its range; any other words are bad arguments, with memory and
//! without. For example:
//!
//! ```text
//! etcd_one replay                              Args::Replay, cluster and member 1
//! etcd_one replay --member-id 4                Args::Replay, cluster 1 and member 4
//! etcd_one replay --                           Fault::Arguments
//! etcd_one serve --listen x                    Args::Serve, 8 workers, cluster and member 1
//! etcd_one serve --listen x --workers 33       Fault::Arguments
//! ```
//!
//! Of words that are refused as bad [`advise`] says what is told of them: the commands with their
//! options and ranges where help is asked for, the version, the option whose number is out of its
//! range, or that there is no address.
//!
//! The words of `replay` and `check` are read by `filters`, those of `replay` with options by
//! `replaying`, and those of `serve` by `words`. The server that they ask for stands in
//! `command_line`, which needs an engine and nothing of how the words are read: so both are proved
//! side by side.
//!
//! The tests stand in the crate `server_tests`, in `src/streams.rt`.
#![tactic(auto)]

mod advice;
mod filters;
mod replaying;
mod words;

pub use advice::{Advice, advise};
pub use words::{Args, Serve, arguments};
