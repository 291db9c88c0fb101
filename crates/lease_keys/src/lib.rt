//! The keys that are attached to each lease, so that those of one lease are found without a walk
//! over all keys.
//!
//! [`LeaseKeys`] is seen as pairs of a lease and a key. Beside a store it is kept in three steps, as
//! the versions of a revision come: [`LeaseKeys::add_all`] adds the pairs that they put, which alone
//! takes memory; where the revision is taken back, [`LeaseKeys::take_back`] takes these out again;
//! and where it stands, [`LeaseKeys::settle`] takes out what it replaced. Each is exact in every
//! state, and together they keep the index just what it is to be (`AreJust` of `specs`): it has the
//! pair of a lease and a key exactly where the key's last put names that lease and the key is live.
//! Then [`LeaseKeys::live`] answers the live keys whose last put names a lease. `request_core`
//! keeps one beside its tables, and asks it at a revoke, an expiry and a time to live.
//!
//! For example:
//!
//! ```text
//! put a under 7, b under 7      7: a b             live 7 is a b
//! put a under 8, added          7: a b    8: a     live 7 is b, live 8 is a
//!   taken back                  7: a b             live 7 is a b
//!   or settled                  7: b      8: a     live 7 is b, live 8 is a
//! delete b, settled             8: a               a lease without keys has no entry
//! ```
//!
//! Only tested is that calls which may find no memory succeed where there is ample, in the crate
//! `table_tests`, in `src/keys_of_leases.rt`, and that memory is given back (`tests/lease_keys`).
#![tactic(auto)]

mod index;
mod set;
mod unused;
mod walk;

pub use index::LeaseKeys;
