//! A head at the front of bytes.
ghost use Rattle.std.specs.Prelude.{◌≡◌, ◌≤◌, length};
ghost use Rattle.http_head.specs.Heads as heads;
ghost use Rattle.httparse.specs.Spans.{IsRequestOf, IsRequestWithin};
ghost use Rattle.http_head.specs.Looks.{Looks};

use crate::MOST_HEAD;
use crate::length::{NoLength, body_length};
use crate::marks::marks_of;
use httparse::Status;
use httparse::spans::{HeaderSpan, RequestSpans, Span, parse_request};

/// Why bytes begin with no request that is answered.
#[derive(Clone, Copy, Debug, PartialEq, Eq)]
pub enum Fault {
    /// No head can come of these bytes, or it has more than 64 header lines, or another version
    /// than HTTP/1.1.
    Head,
    /// The head has a Transfer-Encoding, more than one Content-Length, or one that is not 1 to 18
    /// decimal digits.
    Length,
    /// There is no whole head in 8,192 bytes, or the Content-Length is above 1,572,864.
    TooLong,
}

/// A whole head: where its parts stand in the bytes that it was read from.
#[derive(Clone, Copy, Debug, PartialEq, Eq)]
pub struct Head {
    /// The method.
    pub method: Span,
    /// The request target.
    pub target: Span,
    /// How many bytes the head takes, its empty line among them: the body begins after them.
    pub len: usize,
    /// How many bytes the body takes.
    pub body: usize,
    /// Whether a header line says `Connection: close`.
    pub close: bool,
}

/// What the first bytes of a connection are.
#[derive(Clone, Copy, Debug, PartialEq, Eq)]
pub enum Look {
    /// They begin with a whole head.
    Head(Head),
    /// They may become one.
    More,
    /// They begin with none that is answered.
    Fault(Fault),
}

/// Looks for a head in the first 8,192 of `bytes` (RFC 9112, sections 2 to 7 and 9.6).
///
/// `lines` is room for the header lines, of no meaning before or after. The cost is one look at
/// each byte up to the end of the head.
pub fn look_at(bytes: &[u8], lines: &mut [HeaderSpan; 64]) -> Look
    ensures { Looks (heads.window bytes.now) result }
{
    if bytes.len() <= MOST_HEAD {
        look_within(bytes, lines)
    } else {
        look_within(&bytes[..MOST_HEAD], lines)
    }
}

fn look_within(text: &[u8], lines: &mut [HeaderSpan; 64]) -> Look
    requires { length text.now ≤ 8192 }
    ensures { Looks text.now result }
{
    match parse_request(text, lines) {
        Ok(Status::Complete(spans)) => judged(text, lines, spans),
        Ok(Status::Partial) => {
            if text.len() < MOST_HEAD {
                Look::More
            } else {
                Look::Fault(Fault::TooLong)
            }
        }
        Err(_) => Look::Fault(Fault::Head),
    }
}

/// What a whole head says.
fn judged(text: &[u8], lines: &[HeaderSpan], spans: RequestSpans) -> Look
    requires within { IsRequestWithin text.now lines.now spans }
    requires reads { IsRequestOf text.now lines.now spans }
    requires few { length lines.now ≤ 64 }
    ensures { Looks text.now result }
{
    if spans.version != 1 {
        return Look::Fault(Fault::Head);
    }
    let marks = marks_of(text, &lines[..spans.headers]);
    match body_length(&marks) {
        Ok(body) => Look::Head(Head {
            method: spans.method,
            target: spans.path,
            len: spans.len,
            body,
            close: marks.close,
        }),
        Err(NoLength::Bad) => Look::Fault(Fault::Length),
        Err(NoLength::Over) => Look::Fault(Fault::TooLong),
    }
}
