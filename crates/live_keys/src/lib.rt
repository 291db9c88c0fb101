//! The live keys of a range at a place, whether compares hold of them, and what Ranges of them are
//! answered: so a transaction with thousands of compares or Ranges of whole ranges does not walk
//! them thousands of times.
//!
//! Each call says what the model says, whichever way it is answered: [`LiveKeys::holds`] of a
//! compare (`holds` of `kv_model`), [`LiveKeys::range`] of a Range (`range_reply`), and
//! [`LiveKeys::live`] of the keys of a range. The first ranges are walked. Once that has cost about
//! as much as a list of all live keys would, the list is made, and kept with what is known of it: a
//! range is a part of it, found by two halvings; the least and the greatest of a field come from a
//! tree over the list; whether an operand is among a part, from its places in the order of the
//! field; and the first of a Range in another order than that of the keys, from the list in that
//! order. Each of these is made when it is worth it. [`LiveKeys::replace`] goes on to another place
//! with the list, in which a part is exchanged, and drops the rest.
//!
//! For example, where a holds 3, b holds 1 and c holds 2, once the list is made:
//!
//! ```text
//! the values from b on are not 3     the part of b and c; the one place of 3 is before it: holds
//! the values of all are above 0      the least of all is 1: holds
//! the values from a on equal 3       the least is 1: does not hold
//! the value of d is not 1            one key is looked up; what is not there has no value, and so
//!                                    does not hold
//! how many there are from b on       the length of the part of b and c: 2
//! the first of all by value          b, and there are more
//! b is deleted                       its part, b alone, is exchanged by nothing: a and c are left
//! ```
//!
//! Only tested is that calls which may find no memory succeed where there is ample: through the
//! transactions of `txn_core`, in `many_compares` of `tests/rows`. Which way a call is answered is
//! cost alone, and no clause says it.
#![tactic(auto)]

mod compare;
mod extremes;
mod field;
mod keys;
mod lending;
mod listed;
mod order;
mod part;
mod ranking;
mod replies;
mod tree;

pub use keys::LiveKeys;
