//! The requests of one HTTP/1.1 connection, read one after the other into a buffer that is kept
//! (RFC 9112).
//!
//! The one contract is that of [`next_request`]: in place of the bytes that were to come
//! there is the request that RFC 9112 reads from them and the bytes behind it, or it is told why
//! there is none; however the reads cut them, no byte is lost. The bytes of a request stay in the
//! buffer: [`Input::request`] lends them, and [`Input::skip`] moves past them. Between two visits to a
//! connection of which nothing waits its input may serve another ([`Spare`]).
//!
//! For example, where a connection's bytes are `POST /v3/kv/put HTTP/1.1`, `Content-Length: 29`,
//! an empty line, 29 bytes of body and then 10 bytes more:
//!
//! ```text
//! next_request    Ok(Some(head))    one read, where all of them came in one
//! request(head)   POST, /v3/kv/put and the 29 bytes, lent
//! skip(head)      the 10 bytes are left
//! next_request    Err(End)          where the input ends behind them
//! ```
//!
//! Only tested is that calls which may find no memory succeed where there is ample: in the crate
//! `http_tests`, in `src/inputs.rt` and `src/spares.rt`.
#![tactic(auto)]

mod buffer;
mod input;
mod spare;

pub use input::{Input, Request, next_request};
pub use spare::Spare;
