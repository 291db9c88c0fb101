//! What the lines of a list of events are, and that they lead where the list leads.
//!
//! An engine makes events under its lock, enters each in its list (`event_book`), and notes its line
//! (`recording`). The script of a list is a function of the list: `script_of` in
//! `specs/Scripts.antt` goes down it as an engine does, where each line finds memory. What stands
//! under the lock is that script (`IsWritten`), or that of a beginning, where a line was lost. The
//! lemmas of `proofs/Writing.antt` say of each event that it stays so, by what is noted of it
//! (`specs/Notes.antt`). For example:
//!
//! ```text
//! the list                                        its script
//! moment 100                                      nothing
//! command 90: put, answered                       AT 100, POST /v3/kv/put {..}
//! command 120: put, without memory                nothing
//! expiry 120: a lease ended                       AT 120, EXPIRE
//! trimming: Done; trimming: Done                  TRIM, and nothing
//! ```
//!
//! The functions of [`laws`] say by their contracts alone what a script is: the lines of events that
//! lead to the world of the list.
#![tactic(auto)]

pub mod laws;
