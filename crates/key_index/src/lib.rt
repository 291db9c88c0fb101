//! The index of keys: the revisions of each key, in order (etcd: the tree index, `key_index.go`).
//!
//! Of a key the index has the revisions of its puts and of its tombstones, rising. The one contract
//! is that of [`KeyIndex`]: its value is the list of its keys, ascending, each with its revisions,
//! and each call is a function on such lists. `range_view` keeps an index beside a table of
//! versions and asks it at which revision to read a key; `trim_core` takes revisions out of both.
//!
//! For example, `foo` is put at 2.0 and 3.0, deleted at 4.0, put again at 5.0 and deleted at 6.0,
//! with a revision written as main.sub. A tombstone, (t), ends a generation of the key, and the put
//! after it begins the next one. etcd keeps the generations apart; here they stand one behind
//! another in one list, and the versions say which revisions are tombstones:
//!
//! ```text
//! generations            {2.0, 3.0, 4.0(t)} {5.0, 6.0(t)}
//! list                   2.0 3.0 4.0 5.0 6.0
//! at 1.9                 none, which is before the first put
//! at 3.7                 3.0, the last one that is not after it
//! at 4.5                 4.0, whose version is a tombstone: foo holds nothing there
//! after 3.0              4.0, the first one after it
//! count_before 4         2, as 2.0 and 3.0 are of an earlier main
//! get 2                  4.0, with two before it
//! remove 2.0             3.0 4.0 5.0 6.0, as a trimming step does after a compaction at 3
//! retract 6 of foo       3.0 4.0 5.0, since no key has a revision of a later main
//! retract 4 of foo       3.0 4.0 5.0: 5.0 is of a later one
//! drop_front             4.0 5.0
//! ```
//!
//! A key without revisions is not in the index.
//!
//! Only tested is that calls which may find no memory succeed where there is ample: in the crate
//! `table_tests`, in `src/index.rt`.
#![tactic(auto)]

mod changes;
pub mod index;
mod interval;
pub mod revisions;
mod taken;

pub use index::{Indexed, KeyIndex};
pub use revisions::Revisions;
