//! What a store keeps, and reads of it that lend.
//!
//! A store keeps the versions of its keys in a table that rises by revision, and an index from each
//! key to its revisions. [`Tables`] holds both, with the revision of the last compaction, the
//! present one and the place that trimming has come to. Its value is the plain record of these,
//! without the index, and each call is a function on it: the versions of the next revision are
//! added all or none, the present revision is taken back, a compaction is noted, a trimming step is
//! made. A [`View`] borrows the tables at a place in the history. The one contract is its
//! [`View::range`]: its reply is the model's (`range_reply` of `kv_model`) of the versions that are
//! kept, for each option of a Range, and it lends keys and values and copies none.
//!
//! For example, `a` was put at 2 and 4, `b` at 3, and nothing is compacted:
//!
//! ```text
//! versions                          2 put a=1, 3 put b=1, 4 put a=2, at revision 4
//! view().get a                      a=2, created at 2, modified at 4, version 2
//! view_at(3.0).get a                a=1: its last version that is not after 3.0
//! view().range a..c limit 1         a=2, count 2, more
//! versions_of a from 3              4 put a=2; of a from 2 2 put a=1 before it
//! view().range a at revision 3      a=1
//! view().range a at revision 5      refused: Future(4)
//! compact(4), view().range a at 3   refused: Compacted(4)
//! ```
//!
//! Only tested is that calls which may find no memory succeed where there is ample: in the crate
//! `store_tests`, in `src/views.rt`.
#![tactic(auto)]

mod filter;
mod growth;
pub mod key_versions;
mod order;
pub mod reply;
pub mod revision;
mod select;
pub mod tables;
pub mod view;

pub use key_versions::KeyVersions;
pub use reply::{KvRef, RangeReply};
pub use tables::{Tables, Versions};
pub use view::View;
