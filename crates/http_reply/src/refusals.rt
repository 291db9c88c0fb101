//! Replies to requests that are not read.
ghost use Rattle.std.specs.Prelude.{◌≡◌, ◌<◌, ◌≤◌, [], length, IfErr, MatchOption, true};
ghost use Rattle.http_reply.specs.Counts.{failures_of, inner_of};
ghost use Rattle.http_reply.specs.Replies.{refusal_bytes, reply_bytes};
ghost use Rattle.http_reply.specs.Sends.{Sends, failures_after};

use crate::counted::Counted;
use crate::front::Front;
use crate::replies::write_reply;
use crate::sending::ReplyBuffer;
use std::io::Write;

/// Writes the reply that tells why a request is not read, after which the connection is closed: of
/// status 400 and code 3 for `Front::Head`, `Front::Length` and `Front::TooLong`. The others have
/// none, and nothing is written. Fails as `write_reply` does.
pub fn write_refusal<W: Write>(
    buffer: &mut ReplyBuffer,
    w: &mut Counted<W>,
    front: Front,
) -> Result<(), Front>
    ensures sent { Sends result (W.contents (inner_of w.old)) (W.contents (inner_of w.new))
        (refusal_bytes front) }
    ensures failures { failures_of w.new ≡ failures_after result (failures_of w.old) }
    ensures memory { IfErr result (λ f. f ≡ Front.Memory → (w.new ≡ w.old)
        × (buffer.old < length (refusal_bytes front))
        × (1024 < length (refusal_bytes front))) }
    ensures room { buffer.old ≤ buffer.new }
{
    match refusal_body(front) {
        Some(body) => write_reply(buffer, w, 400, body, true),
        None => Ok(()),
    }
}

/// The body of that reply.
fn refusal_body<'a>(front: Front) -> Option<&'a [u8]>
    ensures { MatchOption result (refusal_bytes front ≡ []) (λ body. refusal_bytes front
        ≡ reply_bytes (record { status = 400; body = body.now }) true) }
{
    match front {
        Front::Head => Some(
            b"{\"code\":3,\"error\":\"http: bad head\",\"message\":\"http: bad head\"}",
        ),
        Front::Length => Some(
            b"{\"code\":3,\"error\":\"http: bad length\",\"message\":\"http: bad length\"}",
        ),
        Front::TooLong => Some(
            b"{\"code\":3,\"error\":\"http: too long\",\"message\":\"http: too long\"}",
        ),
        _ => None,
    }
}
