//! Ranges of many keys, read in parts beside the lock.
//!
//! While a client's reading lasts, a writer waits for it; so a Range of 100,000 keys, whose text takes
//! tens of milliseconds, would have all writers wait. [`read_in_parts`] reads it 128 keys at a time, each
//! part in a reading of its own, and all at the revision of the first. The one contract is that its text
//! is that of the model's answer (`range_reply` of `kv_model`) in the world of the first reading,
//! whatever was put and deleted meanwhile (`ReadsInParts`). Why that is so [`laws`] says: at the end of a
//! revision that has happened nothing changes later, and what is live in a range is what is live below
//! one of its keys, and then what is live from that on.
//!
//! For example, of the keys a to z, with 8 of them to a part, at revision 27:
//!
//! ```text
//! reading 1             the revision is 27; it is not refused
//! readings 2 to 5       a up to i, i up to q, q up to y, and y on have 8, 8, 8 and 2 live keys at 27: 26
//! reading 6             the text begins with 26, and has a to h
//! m is deleted at 28    a later reading finds m still, at 27
//! readings 7 to 9       i to p, q to x, y and z, and the end
//! ```
//!
//! Were the store compacted at 28 before reading 7, that would be refused, and the Range is read whole.
//!
//! Only tested is that calls which may find no memory succeed where there is ample, and that a Range
//! goes on to its end in parts of some 128 keys: no clause says how many keys a part has. Both through
//! the program, in the scripts `allocations_served` and `long_ranges` of `tests`.
#![tactic(auto)]

mod begin;
mod gathered;
pub mod laws;
mod part;
mod parts;
mod text;

pub use begin::may_be_parted;
pub use gathered::Unparted;
pub use part::is_long;
pub use parts::read_in_parts;
