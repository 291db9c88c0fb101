//! A sorted map in pages: keys in order, each with its value, side by side in pages.
//!
//! The one contract is that of [`KeyPages`]: its value is the list of its keys, ascending, each with
//! its value, and each call is a function on such lists, as those of the ordered map of the standard
//! library are. A page has at most 64 keys. Where keys come ascending each page is filled before the
//! next one begins; a full page among others is split in half.
//!
//! Only tested is that calls which may find no memory succeed where there is ample: in the crate
//! `table_tests`, in `src/sorted_map.rt`.
#![tactic(auto)]

mod change;
mod changes;
mod comparing;
mod heads;
mod look_up;
mod map;
mod page;
mod walk;

pub use change::{Cut, Growth};
pub use comparing::order;
pub use map::KeyPages;
pub use walk::Walk;
