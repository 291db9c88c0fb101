//! The core of the store: one command, what it does, and what is answered to it.
//!
//! A [`store::Core`] keeps the versions, the leases and the clock. The one contract is that of
//! `Core::apply`: in each world of the model that the core stands for, an accepted command does
//! what the model does, and the core then stands for the world after it (`Does` in
//! `specs/Commands.antt`); a refused one is refused as the model refuses it, and leaves the core
//! as it was (`Refuses`). An accepted command gives a receipt, of which `Core::answer` reads the
//! answer: so memory that is wanting for an answer is told apart from memory that is wanting for
//! a change.
//!
//! For example, two puts of one key on a new core:
//!
//! ```text
//! new                   revision 1, stamp 0
//! apply a put of a, 1   fault      none: it has a key, keeps nothing, and names no lease
//!                       version    2.0 of a: 1, created in 2, its first version
//!                       append     a sink takes the batch of 2.0; then revision 2
//!                       receipt    stamp 1, revision 2, raised to 2, todo: a put of a
//! answer                           revision 2
//! apply a put of a, 2,  version    3.0 of a: 2, created in 2, its second version
//! with prev_kv          receipt    stamp 2, revision 3, raised to 3, todo: a put of a, and
//!                                  what it held before
//! answer                           revision 3, and 2.0 of a: 1, which the key held at the end of 2
//! apply a range of a    receipt    stamp 2, revision 3, not raised, todo: the range
//! answer                           revision 3, and 3.0 of a: 2
//! apply a range of a,   refused    Future(3), and the core is as it was
//! at revision 9
//! ```
//!
//! Only tested is that calls which may find no memory succeed where there is ample, those of the last
//! revisions too: in the crate `store_tests`, in `src/cores.rt`.
#![tactic(auto)]

pub mod answer;
pub mod store;
mod writing;

pub use answer::{Answer, Expiry, Receipt, Status, Todo};
pub use store::{Core, LAST_MAIN, Rest};
