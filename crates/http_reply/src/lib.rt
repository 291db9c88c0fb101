//! Replies of HTTP/1.1 (RFC 9112): how they are laid out, and written to a counted writer.
//!
//! The one contract is that of [`write_reply`] and [`write_chunk`]: what goes out is the text that
//! the specification lays out, whole, or exactly the counted beginning of it where a write fails.
//! [`Counted`] passes a reader's or writer's calls on and counts them, and [`Front`] says why a
//! connection ends before its requests do. `http_loop` writes each reply by them. For example, of a
//! refusal behind which the connection is closed:
//!
//! ```text
//! HTTP/1.1 400 Bad Request
//! Content-Type: application/json
//! Content-Length: 62
//! Connection: close
//!
//! {"code":3,"error":"http: bad head","message":"http: bad head"}
//! ```
//!
//! Only tested is that calls which may find no memory succeed where there is ample: in the crate
//! `http_tests`, in `src/replies.rt` and `src/counts.rt`.
#![tactic(auto)]

mod counted;
mod front;
mod hexadecimal;
mod refusals;
mod replies;
mod sending;

pub use counted::Counted;
pub use front::Front;
pub use refusals::write_refusal;
pub use replies::{put_chunk, write_chunk, write_last_chunk, write_reply, write_stream_head};
pub use sending::ReplyBuffer;
