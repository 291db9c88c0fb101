//! The public calls from a request's bytes to an answer's bytes, with ample memory: what no clause
//! can say of them. They stand in a crate above, for the tests of a crate have it proved once more;
//! what bodies are refused for is in `tests/rows.d`. It has nothing but tests.
#![tactic(auto)]

#[cfg(test)]
mod faults;
#[cfg(test)]
mod gateway;
#[cfg(test)]
mod kept;
#[cfg(test)]
mod messages;
#[cfg(test)]
mod parts;
#[cfg(test)]
mod reading;
#[cfg(test)]
mod texts;
#[cfg(test)]
mod values;
