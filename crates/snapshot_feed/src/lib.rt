//! Reads beside the writer: a feed of what a store publishes, and its readers.
//!
//! A [`Feed`] keeps two copies of a store's tables in `left_right`, one of which is shown. The store
//! changes the other: [`Feed::lend`] lends it, with all that is shown, [`Ops`] has what is done on it,
//! and [`Feed::show`] shows all of that at once. The copy that was shown before is then the spare one,
//! and what it lacks is done on it as it is lent the next time. Readers take the copy that is shown with
//! [`SnapReader::enter`], and wait for nobody. A reading that is not left keeps the writer waiting as the
//! copy that it reads is to be lent.
//!
//! Each copy stands at a [`Front`] of the list of all events (`event_book`), and is what the
//! operations make of the empty tables that readers are told of those events. What is shown is shown
//! with the front that tells all of it, so nothing is shown but changes of events that are listed. A
//! reader answers each Range as the model does in the world that a front of the list leads to, which
//! begins with all that the reader has seen and was told of. That is the contract of
//! [`SnapReader::range`], over [`SnapReader::enter`] and [`SnapReader::learn`].
//!
//! No version is copied: keys and values are shared by count.
//!
//! For example, `a` is put at 2 and shown, and then at 3:
//!
//! ```text
//! lend                                    the spare copy, which is empty as the other
//! it takes a put at 2, and is shown       a reader that enters shows a=1 at revision 2
//! lend                                    the other copy, which takes the put at 2 now
//! it takes a put at 3                     whoever enters shows revision 2 still
//! it is shown                             a reader that is inside shows 2 until it enters again, then 3
//! ```
//!
//! Only tested is that calls which may find no memory succeed where there is ample: in the crate
//! `table_tests`, in `src/feeds.rt`.
#![tactic(auto)]

pub mod entry;
pub mod feed;
pub mod ops;
pub mod reader;
mod rule;
mod seat;
mod writer;

pub use event_book::Front;
pub use feed::Feed;
pub use ops::Ops;
pub use reader::SnapReader;
pub use writer::Lent;
