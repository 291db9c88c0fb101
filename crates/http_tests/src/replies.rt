//! The texts that go out, byte for byte, and what goes out where a write fails.
use http_reply::{
    Counted, Front, ReplyBuffer, write_chunk, write_last_chunk, write_refusal, write_reply,
    write_stream_head,
};
use std::alloc::Global;
use std::io;
use std::io::{ErrorKind, Write};

/// What is written.
#[derive(Clone, Copy)]
enum Text {
    Reply(u16, &'static [u8], bool),
    Refusal(Front),
    StreamHead,
    Chunk(&'static [u8]),
    LastChunk,
}

/// Takes at most `most` bytes a write. Once it has `good` bytes it fails, or takes nothing, and
/// after that it would take all.
#[derive(Drop)]
struct Choppy {
    got: Vec<u8>,
    good: usize,
    most: usize,
    fails: bool,
    calls: u64,
}

impl Write for Choppy {
    fn write(&mut self, buf: &[u8]) -> io::Result<usize> {
        self.calls = self.calls.saturating_add(1);
        let room = self.good.saturating_sub(self.got.len());
        if room == 0 && !buf.is_empty() {
            self.good = usize::MAX;
            return if self.fails {
                Err(io::Error::from(ErrorKind::BrokenPipe))
            } else {
                Ok(0)
            };
        }
        let taken = buf.len().min(self.most).min(room);
        self.got.extend_from_slice(&buf[..taken])?;
        Ok(taken)
    }

    fn flush(&mut self) -> io::Result<()> {
        Ok(())
    }
}

fn writer(alloc: Global, good: usize, most: usize, fails: bool) -> Counted<Choppy> {
    Counted::new(Choppy {
        got: Vec::new(alloc),
        good,
        most,
        fails,
        calls: 0,
    })
}

/// Writes a text.
fn write(buffer: &mut ReplyBuffer, w: &mut Counted<Choppy>, text: Text) -> Result<(), Front> {
    match text {
        Text::Reply(status, body, close) => write_reply(buffer, w, status, body, close),
        Text::Refusal(front) => write_refusal(buffer, w, front),
        Text::StreamHead => write_stream_head(buffer, w),
        Text::Chunk(message) => write_chunk(buffer, w, message),
        Text::LastChunk => write_last_chunk(buffer, w),
    }
}

/// Whether a text is these bytes, and is written by one call.
fn is_written(alloc: Global, text: Text, expected: &[u8]) -> bool {
    let Ok(mut buffer) = ReplyBuffer::new(alloc) else {
        return false;
    };
    let mut w = writer(alloc, expected.len(), usize::MAX, true);
    let ended = write(&mut buffer, &mut w, text);
    let failures = w.failures();
    let left = w.into_inner();
    ended == Ok(()) && failures == 0 && left.calls == 1 && left.got.as_slice() == expected
}

/// Whether a text is these bytes where a write takes three of them at most.
fn is_written_in_pieces(alloc: Global, text: Text, expected: &[u8]) -> bool {
    let Ok(mut buffer) = ReplyBuffer::new(alloc) else {
        return false;
    };
    let mut w = writer(alloc, expected.len(), 3, true);
    let ended = write(&mut buffer, &mut w, text);
    let failures = w.failures();
    let left = w.into_inner();
    ended == Ok(()) && failures == 0 && left.got.as_slice() == expected
}

/// Whether these bytes alone go out where a write fails, or takes nothing, after them, and their
/// number is told.
fn is_cut(alloc: Global, text: Text, wanted: &[u8], most: usize, fails: bool) -> bool {
    let Ok(mut buffer) = ReplyBuffer::new(alloc) else {
        return false;
    };
    let mut w = writer(alloc, wanted.len(), most, fails);
    let ended = write(&mut buffer, &mut w, text);
    let failures = w.failures();
    let left = w.into_inner();
    ended == Err(Front::Write(wanted.len() as u64))
        && failures == 1
        && left.got.as_slice() == wanted
}

const PUT: &[u8] =
    b"{\"header\":{\"cluster_id\":\"1\",\"member_id\":\"1\",\"raft_term\":\"1\",\"revision\":\"2\"}}";

const PUT_REPLY: &[u8] =
    b"HTTP/1.1 200 OK\r\nContent-Type: application/json\r\nContent-Length: 76\r\n\r\n{\"header\":{\"cluster_id\":\"1\",\"member_id\":\"1\",\"raft_term\":\"1\",\"revision\":\"2\"}}";

const NO_PATH: &[u8] =
    b"{\"code\":5,\"error\":\"gateway: no such path\",\"message\":\"gateway: no such path\"}";

const CREATED: &[u8] =
    b"{\"result\":{\"created\":true,\"header\":{\"cluster_id\":\"1\",\"member_id\":\"1\",\"raft_term\":\"1\",\"revision\":\"2\"}}}";

const TEXTS: [(Text, &[u8]); 13] = [
    (Text::Reply(200, PUT, false), PUT_REPLY),
    (
        Text::Reply(404, NO_PATH, false),
        b"HTTP/1.1 404 Not Found\r\nContent-Type: application/json\r\nContent-Length: 76\r\n\r\n{\"code\":5,\"error\":\"gateway: no such path\",\"message\":\"gateway: no such path\"}",
    ),
    (
        Text::Reply(500, b"{}", true),
        b"HTTP/1.1 500 Internal Server Error\r\nContent-Type: application/json\r\nContent-Length: 2\r\nConnection: close\r\n\r\n{}",
    ),
    (
        Text::Reply(400, b"", false),
        b"HTTP/1.1 400 Bad Request\r\nContent-Type: application/json\r\nContent-Length: 0\r\n\r\n",
    ),
    (
        Text::Refusal(Front::Head),
        b"HTTP/1.1 400 Bad Request\r\nContent-Type: application/json\r\nContent-Length: 62\r\nConnection: close\r\n\r\n{\"code\":3,\"error\":\"http: bad head\",\"message\":\"http: bad head\"}",
    ),
    (
        Text::Refusal(Front::Length),
        b"HTTP/1.1 400 Bad Request\r\nContent-Type: application/json\r\nContent-Length: 66\r\nConnection: close\r\n\r\n{\"code\":3,\"error\":\"http: bad length\",\"message\":\"http: bad length\"}",
    ),
    (
        Text::Refusal(Front::TooLong),
        b"HTTP/1.1 400 Bad Request\r\nContent-Type: application/json\r\nContent-Length: 62\r\nConnection: close\r\n\r\n{\"code\":3,\"error\":\"http: too long\",\"message\":\"http: too long\"}",
    ),
    (
        Text::StreamHead,
        b"HTTP/1.1 200 OK\r\nContent-Type: application/json\r\nTransfer-Encoding: chunked\r\nConnection: close\r\n\r\n",
    ),
    (
        Text::Chunk(CREATED),
        b"67\r\n{\"result\":{\"created\":true,\"header\":{\"cluster_id\":\"1\",\"member_id\":\"1\",\"raft_term\":\"1\",\"revision\":\"2\"}}}\n\r\n",
    ),
    (Text::Chunk(b""), b"1\r\n\n\r\n"),
    (
        Text::Chunk(b"nine chars and 5"),
        b"11\r\nnine chars and 5\n\r\n",
    ),
    (Text::Chunk(b"fourteen bytes"), b"f\r\nfourteen bytes\n\r\n"),
    (Text::LastChunk, b"0\r\n\r\n"),
];

/// The first text that is not written as what stands beside it.
fn first_wrong(alloc: Global, cases: &[(Text, &'static [u8])]) -> Option<&'static [u8]> {
    for row in cases {
        let (text, expected) = *row;
        if !is_written(alloc, text, expected) || !is_written_in_pieces(alloc, text, expected) {
            return Some(expected);
        }
    }
    None
}

#[test]
fn texts(rt: HostRuntime) {
    assert_eq!(rt; first_wrong(rt.alloc(), TEXTS.as_slice()), None);
    assert_eq!(rt; PUT_REPLY.len(), 147);
}

/// The first number of bytes after which a failed write is not told as it is.
fn first_miscut(alloc: Global, text: Text, expected: &[u8]) -> Option<usize> {
    for good in 0..expected.len() {
        let wanted = &expected[..good];
        if !is_cut(alloc, text, wanted, usize::MAX, true)
            || !is_cut(alloc, text, wanted, usize::MAX, false)
            || !is_cut(alloc, text, wanted, 7, true)
            || !is_cut(alloc, text, wanted, 7, false)
        {
            return Some(good);
        }
    }
    None
}

/// The first text of which that is so.
fn first_cut(alloc: Global, cases: &[(Text, &'static [u8])]) -> Option<&'static [u8]> {
    for row in cases {
        let (text, expected) = *row;
        if first_miscut(alloc, text, expected).is_some() {
            return Some(expected);
        }
    }
    None
}

#[test]
fn texts_cut_at_each_byte(rt: HostRuntime) {
    assert_eq!(rt; first_cut(rt.alloc(), TEXTS.as_slice()), None);
}

/// Ends of which nothing is told.
const SILENT: [Front; 4] = [Front::Read, Front::End, Front::Memory, Front::Write(3)];

/// The first of them of which something is.
fn first_told(alloc: Global, cases: &[Front]) -> Option<Front> {
    let Ok(mut buffer) = ReplyBuffer::new(alloc) else {
        return Some(Front::Head);
    };
    for front in cases {
        let front = *front;
        let mut w = writer(alloc, 0, 3, true);
        let ended = write_refusal(&mut buffer, &mut w, front);
        let left = w.into_inner();
        if ended != Ok(()) || left.calls != 0 {
            return Some(front);
        }
    }
    None
}

#[test]
fn ends_without_a_reply(rt: HostRuntime) {
    assert_eq!(rt; first_told(rt.alloc(), SILENT.as_slice()), None);
}
