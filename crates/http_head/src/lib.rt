//! The head of an HTTP/1.1 request, read with `httparse` from bytes: where its method and target
//! stand, how long its body is, and whether it closes the connection (RFC 9112).
//!
//! The one contract is that of [`look_at`]: at the first 8,192 bytes there is a head, or more bytes
//! are wanted, or a fault is named that RFC 9112 and this server's limits give these bytes. What a
//! connection's bytes are as requests is defined here too, in `specs/Requests.antt`. No call
//! takes memory.
//!
//! For example:
//!
//! ```text
//! POST /v3/kv/put HTTP/1.1, Content-Length: 29     a head; 29 bytes of body follow it
//! POST /v3/kv/put HTTP/1.1, no empty line          more bytes are wanted
//! GET / HTTP/1.0                                   Fault::Head
//! Content-Length: 1x                               Fault::Length
//! Content-Length: 1572865                          Fault::TooLong
//! ```
//!
//! The tests stand in the crate `http_tests`, in `src/heads.rt` and `src/limits.rt`.
#![tactic(auto)]

mod head;
mod length;
mod marks;
mod target;

pub use head::{Fault, Head, Look, look_at};
pub use length::MOST_BODY;
pub use target::path_of;

/// The most bytes of a head, its last line end among them.
pub const MOST_HEAD: usize = 8_192;

/// The most header lines of a head.
pub const MOST_LINES: usize = 64;
