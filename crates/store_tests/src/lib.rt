//! The public calls of a store over its tables (reads, trimming, transactions, watches, a core),
//! each once on its happy path, with ample memory: what no clause can say of them; and a core beside
//! a sink that refuses. Those of the
//! tables stand in `table_tests`. They stand in one crate above, for the tests of a crate have it
//! proved once more. It has nothing but tests.
#![tactic(auto)]

#[cfg(test)]
mod checks;
#[cfg(test)]
mod cores;
#[cfg(test)]
mod fixtures;
#[cfg(test)]
mod plans;
#[cfg(test)]
mod sinks;
#[cfg(test)]
mod trims;
#[cfg(test)]
mod views;
#[cfg(test)]
mod watches;
