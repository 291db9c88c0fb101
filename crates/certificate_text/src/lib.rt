//! The text of a dump and of what its versions are needed for: written in format 2, and read in
//! formats 1 and 2.
//!
//! The one contract: [`write`] gives the text of what it is handed, and [`read`] gives what a text
//! is of, or the number of the first line at which no text goes on. `commands` calls both, for the
//! script's line `CERTIFY` and for `check`. `specs/Texts.antt` says what the text is, line by line.
//! On its lines stand, with fields parted by one space and each line ended by a line feed:
//!
//! ```text
//! dump 2
//! floor 3
//! revision 4
//! put 2 0 :eA== 2 1 0 :MQ==
//! gone 3 0 :eA==
//! put 4 0 :eQ== 4 1 0 :MQ==
//! end
//! needs 2
//! prev 2 0 3
//! watch 3 0 3
//! range 4 0 4
//! end
//! ```
//!
//! Format 1 has `dump 1` and `needs 1` in the place of `dump 2` and `needs 2`, and no line `prev`.
//!
//! Only tested is that calls which may find no memory succeed where there is ample: in the crate
//! `certificate_tests`.
#![tactic(auto)]

mod fields;
mod line;
mod numbers;
mod reading;
mod stop;
mod writing;

pub use reading::{Unreadable, read};
pub use writing::write;
