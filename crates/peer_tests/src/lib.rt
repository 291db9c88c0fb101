//! Peers that cut, stall or lie: what comes of one connection over a core by itself and over an
//! engine, where its bytes are cut, fail or are split at each place, where its replies are taken in
//! part, where it sends what is no request, or no end of it, and where a thousand watches are left
//! by their clients. Readers and writers are of memory, and are counted. How streams stand and end is
//! seen on the program, by `tests/streams` and `tests/stream_ends`. It has nothing but tests.
#![tactic(auto)]

#[cfg(test)]
mod cuts;
#[cfg(test)]
mod hostile;
#[cfg(test)]
mod leaving;
#[cfg(test)]
mod lines;
#[cfg(test)]
mod peers;
#[cfg(test)]
mod replies;
#[cfg(test)]
mod sides;
#[cfg(test)]
mod texts;
#[cfg(test)]
mod unwaited;
#[cfg(test)]
mod visits;
#[cfg(test)]
mod wanted;
