//! What is kept and what needs it, judged and as text: each public call of `witness_core` and
//! `certificate_text` once on its happy path, with ample memory, which no clause can say of them.
//! They stand in one crate above, for the tests of a crate have it proved once more. It has nothing
//! but tests.
#![tactic(auto)]

#[cfg(test)]
mod certificates;
#[cfg(test)]
mod dumps;
#[cfg(test)]
mod fixtures;
#[cfg(test)]
mod samples;
#[cfg(test)]
mod texts;
#[cfg(test)]
mod unreadable;
