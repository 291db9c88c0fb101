//! The versions that are kept, in the order in which they were made.
//!
//! A version is what one change left of a key, and its revision is two numbers: `main`, which each
//! change of the store raises, and `sub`, which tells apart the versions of one transaction. The
//! one contract is that of [`VersionTable`]: its value is the list of its versions, which rises by
//! revision, and each call is a function on such lists. `range_view` keeps a table and an index of
//! its keys, and `trim_core` takes versions out of both.
//!
//! The versions stand in pages of 256 places. What is taken out moves the versions behind it on its
//! own page alone, and none where it is the first there; its place is not used again, and a page that
//! has no version left is freed. For example, with a revision written as main.sub, a page in brackets,
//! and four places to a page:
//!
//! ```text
//! push 2.0, 3.0, 3.1, 5.0, 6.0, 7.0   [2.0 3.0 3.1 5.0] [6.0 7.0]    each is above those before it
//! get 3.1                             its page is found by galloping, and its place by halving
//! next_from 4.0                       5.0, the first revision that is not before 4.0
//! remove 3.0                          [2.0 3.1 5.0] [6.0 7.0]: its place is not used again
//! next_from 5.1                       6.0: the last version of the first page is before 5.1
//! retract 6                           nothing goes: 7 is newer
//! retract 7                           [2.0 3.1 5.0] [6.0]
//! remove 2.0, 3.1, 5.0                [6.0]
//! ```
//!
//! Only tested is that calls which may find no memory succeed where there is ample: in the crate
//! `table_tests`, in `src/table.rt` and `src/pages.rt`.
#![tactic(auto)]

mod galloping;
mod growth;
mod halving;
mod page;
mod pages;
pub mod table;
mod walk;

pub use table::VersionTable;
pub use walk::Versions;
