//! Ranges of keys whose live keys a transaction has deleted, and what of another range lies beside
//! them: so a delete, or a read of what a delete has left, walks no key twice.
//!
//! The one contract is that of [`live_beside`]: of the key-values of a range's live keys it leaves
//! out only some that the swept ranges cover (`AreBut` in `specs/Swept.antt`). [`add`] covers no key
//! that neither the range nor those before it have, and what it adds to stays in order (`AreInOrder`
//! in `specs/Ends.antt`).
//!
//! For example, where a transaction deletes b to f, and then a to z, of the keys a, c, e and g:
//!
//! ```text
//! add b to f                  swept: b to f
//! live_beside of a to z       walks a to b, passes over b to f, walks f to z: a and g
//! add a to z                  swept: a to z, for b to f lies within it
//! live_beside of c to d       walks nothing
//! ```
//!
//! Only tested is that calls which may find no memory succeed where there is ample: through the
//! transactions of `txn_core`, in the crate `store_tests`, in `src/plans.rt`. Which keys are walked
//! is cost alone, and no clause says it.
#![tactic(auto)]

mod stretch;
mod swept;

pub use swept::{add, live_beside};
