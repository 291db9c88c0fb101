//! One connection over a store, a server's threads, and the program's arguments and streams: what
//! no clause can say of `http_front`, `commands` and `command_line`, that they succeed
//! with ample memory, that two connections are answered side by side, and the bytes of requests and
//! replies from outside. They stand in a crate above, for the tests of a crate have it proved once
//! more. The worked rows of scripts and certificates are run on the program, by `tests/rows`. It has
//! nothing but tests.
#![tactic(auto)]

#[cfg(test)]
mod ends;
#[cfg(test)]
mod held;
#[cfg(test)]
mod rows;
#[cfg(test)]
mod serving;
#[cfg(test)]
mod streams;
#[cfg(test)]
mod texts;
#[cfg(test)]
mod trimmed;
