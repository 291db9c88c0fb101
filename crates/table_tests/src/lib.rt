//! The public calls of the tables of a store (the versions, the index of keys, the leases and their
//! keys), of a feed over them, and of a list of events, each once on its happy path, with ample memory:
//! what no clause can say of them. They stand in one crate above, for the tests of a crate have it
//! proved once more. It has nothing but tests.
#![tactic(auto)]

#[cfg(test)]
mod events;
#[cfg(test)]
mod feeds;
#[cfg(test)]
mod fixtures;
#[cfg(test)]
mod index;
#[cfg(test)]
mod keys_of_leases;
#[cfg(test)]
mod leases;
#[cfg(test)]
mod pages;
#[cfg(test)]
mod sorted_map;
#[cfg(test)]
mod spans;
#[cfg(test)]
mod table;
#[cfg(test)]
mod trimming;
