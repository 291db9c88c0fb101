//! Heads of requests, as others send them, and faults of heads.
use http_head::{Fault, Head, Look, MOST_BODY, look_at, path_of};
use httparse::spans::{HeaderSpan, Span};

const NO_SPAN: Span = Span { start: 0, end: 0 };

const NO_LINE: HeaderSpan = HeaderSpan {
    name: NO_SPAN,
    value: NO_SPAN,
};

/// What bytes begin with.
pub(super) fn seen(bytes: &[u8]) -> Look {
    look_at(bytes, &mut [NO_LINE; 64])
}

/// A whole head, with what is read of it: the method, the target, the path, how many bytes its body
/// takes, and whether it closes the connection.
type Sent = (
    &'static [u8],
    &'static [u8],
    &'static [u8],
    &'static [u8],
    usize,
    bool,
);

const SENT: [Sent; 9] = [
    (
        b"POST /v3/kv/put HTTP/1.1\r\nHost: t\r\nContent-Length: 29\r\n\r\n",
        b"POST",
        b"/v3/kv/put",
        b"/v3/kv/put",
        29,
        false,
    ),
    (
        b"POST /v3/kv/put HTTP/1.1\r\nHost: localhost:2379\r\nUser-Agent: curl/7.88.1\r\nAccept: */*\r\nContent-Length: 29\r\nContent-Type: application/x-www-form-urlencoded\r\n\r\n",
        b"POST",
        b"/v3/kv/put",
        b"/v3/kv/put",
        29,
        false,
    ),
    (
        b"GET /where?q=now HTTP/1.1\r\nHost: www.example.org\r\n\r\n",
        b"GET",
        b"/where?q=now",
        b"/where",
        0,
        false,
    ),
    (
        b"GET http://www.example.org/pub/WWW/TheProject.html HTTP/1.1\r\n\r\n",
        b"GET",
        b"http://www.example.org/pub/WWW/TheProject.html",
        b"http://www.example.org/pub/WWW/TheProject.html",
        0,
        false,
    ),
    (
        b"OPTIONS * HTTP/1.1\r\nHost: www.example.org:8001\r\n\r\n",
        b"OPTIONS",
        b"*",
        b"*",
        0,
        false,
    ),
    (
        b"CONNECT www.example.com:80 HTTP/1.1\r\nHost: www.example.com\r\n\r\n",
        b"CONNECT",
        b"www.example.com:80",
        b"www.example.com:80",
        0,
        false,
    ),
    (
        b"POST /a?b?c HTTP/1.1\r\nCONTENT-LENGTH: 1572864\r\nconnection: CLOSE\r\n\r\n",
        b"POST",
        b"/a?b?c",
        b"/a",
        1_572_864,
        true,
    ),
    (
        b"POST / HTTP/1.1\r\ncontent-length: 000000000000000001\r\nConnection: close\r\n\r\n",
        b"POST",
        b"/",
        b"/",
        1,
        true,
    ),
    (
        b"POST /? HTTP/1.1\r\nConnection: keep-alive\r\nExpect: 100-continue\r\n\r\n",
        b"POST",
        b"/?",
        b"/",
        0,
        false,
    ),
];

/// Whether the bytes of a span have that path.
fn has_path(bytes: &[u8], span: Span, path: &[u8]) -> bool {
    match bytes.get(span.start..span.end) {
        Some(target) => path_of(target) == path,
        None => false,
    }
}

/// Whether a head is read so, where these bytes stand.
fn is_read(bytes: &[u8], head: Head, sent: Sent) -> bool {
    let (text, method, target, path, body, close) = sent;
    bytes.get(head.method.start..head.method.end) == Some(method)
        && bytes.get(head.target.start..head.target.end) == Some(target)
        && has_path(bytes, head.target, path)
        && head.len == text.len()
        && head.body == body
        && head.close == close
}

/// The first head that is not read as what stands beside it.
fn first_misread(cases: &[Sent]) -> Option<&'static [u8]> {
    for sent in cases {
        let sent = *sent;
        let is = match seen(sent.0) {
            Look::Head(head) => is_read(sent.0, head, sent),
            _ => false,
        };
        if !is {
            return Some(sent.0);
        }
    }
    None
}

#[test]
fn heads_that_others_send(rt: HostRuntime) {
    assert_eq!(rt; first_misread(SENT.as_slice()), None);
    assert_eq!(rt; MOST_BODY, 1_572_864);
}

/// The first head of which a beginning is more than the beginning of a head.
fn first_too_early(cases: &[Sent]) -> Option<&'static [u8]> {
    for sent in cases {
        let sent = *sent;
        for end in 0..sent.0.len() {
            if seen(&sent.0[..end]) != Look::More {
                return Some(sent.0);
            }
        }
    }
    None
}

#[test]
fn heads_cut_at_each_byte(rt: HostRuntime) {
    assert_eq!(rt; first_too_early(SENT.as_slice()), None);
}

const FAULTS: [(&[u8], Fault); 17] = [
    (b"GET / HTTP/1.0\r\n\r\n", Fault::Head),
    (b"GET / HTTP/2.0\r\n\r\n", Fault::Head),
    (
        b"GET / HTTP/1.0\r\nTransfer-Encoding: chunked\r\n\r\n",
        Fault::Head,
    ),
    (b"GET /\r\n\r\n", Fault::Head),
    (b" GET / HTTP/1.1\r\n\r\n", Fault::Head),
    (b"GET / HTTP/1.1\r\nHost\r\n\r\n", Fault::Head),
    (b"GET / HTTP/1.1\r\nHost : t\r\n\r\n", Fault::Head),
    (b"\x16\x03\x01", Fault::Head),
    (
        b"POST / HTTP/1.1\r\nTransfer-Encoding: chunked\r\n\r\n",
        Fault::Length,
    ),
    (
        b"POST / HTTP/1.1\r\ncontent-length: 1\r\ntransfer-encoding: gzip\r\n\r\n",
        Fault::Length,
    ),
    (
        b"POST / HTTP/1.1\r\nContent-Length: 1\r\ncontent-length: 1\r\n\r\n",
        Fault::Length,
    ),
    (b"POST / HTTP/1.1\r\nContent-Length:\r\n\r\n", Fault::Length),
    (
        b"POST / HTTP/1.1\r\nContent-Length: 1x\r\n\r\n",
        Fault::Length,
    ),
    (
        b"POST / HTTP/1.1\r\nContent-Length: +1\r\n\r\n",
        Fault::Length,
    ),
    (
        b"POST / HTTP/1.1\r\nContent-Length: 0000000000000000001\r\n\r\n",
        Fault::Length,
    ),
    (
        b"POST / HTTP/1.1\r\nContent-Length: 1572865\r\n\r\n",
        Fault::TooLong,
    ),
    (
        b"POST / HTTP/1.1\r\nContent-Length: 999999999999999999\r\n\r\n",
        Fault::TooLong,
    ),
];

/// The first head that has not the fault beside it.
fn first_wrong(cases: &[(&'static [u8], Fault)]) -> Option<&'static [u8]> {
    for row in cases {
        let (text, fault) = *row;
        if seen(text) != Look::Fault(fault) {
            return Some(text);
        }
    }
    None
}

#[test]
fn faults_of_a_head(rt: HostRuntime) {
    assert_eq!(rt; first_wrong(FAULTS.as_slice()), None);
}
