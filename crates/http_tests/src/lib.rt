//! The public calls of `http_head`, `http_input` and `http_reply`: what no clause can say of them, that they
//! succeed with ample memory, and the bytes of requests and of replies from outside (RFC 9112).
//! They stand in a crate above, for the tests of a crate have it proved once more. It has nothing
//! but tests.
#![tactic(auto)]

#[cfg(test)]
mod counts;
#[cfg(test)]
mod heads;
#[cfg(test)]
mod inputs;
#[cfg(test)]
mod limits;
#[cfg(test)]
mod replies;
#[cfg(test)]
mod spares;
