//! The calls of an engine, with ample memory: what no clause can say of them. They stand in a crate
//! above, for the tests of a crate have it proved once more. What many threads meet, beside readers and
//! beside trimming, is judged on the program, by `tests/linear` and `tests/control`. It has nothing but
//! tests.
#![tactic(auto)]

#[cfg(test)]
mod calls;
#[cfg(test)]
mod lock_replies;
#[cfg(test)]
mod read_back;
#[cfg(test)]
mod rows;
#[cfg(test)]
mod texts;
#[cfg(test)]
mod written;
