//! Requests that are read one after the other from a connection's bytes.
use crate::limits::of_lines;
use http_input::{Input, Request, next_request};
use http_reply::{Counted, Front};
use std::alloc::{AllocError, Global};
use std::io;
use std::io::{ErrorKind, Read};

/// The put of a connection's example: a head of 57 bytes, and a body of 29.
const PUT: &[u8] =
    b"POST /v3/kv/put HTTP/1.1\r\nHost: t\r\nContent-Length: 29\r\n\r\n{\"key\":\"Zm9v\",\"value\":\"YmFy\"}";

/// Gives some bytes with the first read and others with the second, and then ends or fails.
#[derive(Drop)]
struct Cut<'b> {
    first: &'b [u8],
    then: &'b [u8],
    fails: bool,
}

impl<'b> Read for Cut<'b> {
    fn read(&mut self, buf: &mut [u8]) -> io::Result<usize> {
        if self.first.is_empty() {
            self.first = self.then;
            self.then = b"";
        }
        if self.first.is_empty() && self.fails {
            return Err(io::Error::from(ErrorKind::ConnectionReset));
        }
        self.first.read(buf)
    }
}

/// Gives one byte with each read, for ever.
#[derive(Drop)]
struct Endless;

impl Read for Endless {
    fn read(&mut self, buf: &mut [u8]) -> io::Result<usize> {
        match buf.first_mut() {
            Some(room) => {
                *room = b'a';
                Ok(1)
            }
            None => Ok(0),
        }
    }
}

/// How reading a request came out.
#[derive(Clone, Copy, Debug, PartialEq, Eq)]
enum Told {
    /// It has a body of so many bytes.
    Body(usize),
    Nothing,
    Fails(Front),
    NoMemory,
}

/// Reads a request and moves past it: how that came out, and after how many reads and failures.
fn read<R: Read>(input: &mut Input, reader: &mut Counted<R>) -> (Told, u64, u64) {
    let told = match next_request(input, reader) {
        Ok(Some(head)) => {
            input.skip(head);
            Told::Body(head.body)
        }
        Ok(None) => Told::Nothing,
        Err(front) => Told::Fails(front),
    };
    (told, reader.reads(), reader.failures())
}

/// The same, of a connection's first request.
fn outcome<R: Read>(alloc: Global, reader: R) -> (Told, u64, u64)
where
    R: Drop,
{
    let mut reader = Counted::new(reader);
    match Input::new(alloc) {
        Ok(mut input) => read(&mut input, &mut reader),
        Err(AllocError) => (Told::NoMemory, 0, 0),
    }
}

/// How these bytes come out, where the reader then ends or fails.
fn begun(alloc: Global, first: &[u8], fails: bool) -> (Told, u64, u64) {
    let then = b"".as_slice();
    outcome(alloc, Cut { first, then, fails })
}

/// The first number of bytes at which a beginning of a request is answered otherwise than an input
/// that ends, or fails, within a request.
fn first_wrong_beginning(alloc: Global, bytes: &[u8]) -> Option<usize> {
    for count in 1..bytes.len() {
        let ends = begun(alloc, &bytes[..count], false) == (Told::Fails(Front::End), 2, 0);
        let fails = begun(alloc, &bytes[..count], true) == (Told::Fails(Front::Read), 2, 1);
        if !ends || !fails {
            return Some(count);
        }
    }
    None
}

#[test]
fn a_put_that_is_cut(rt: HostRuntime) {
    assert_eq!(rt; PUT.len(), 86);
    assert_eq!(rt; begun(rt.alloc(), b"", false), (Told::Nothing, 1, 0));
    assert_eq!(rt;
        begun(rt.alloc(), b"", true),
        (Told::Fails(Front::Read), 1, 1)
    );
    assert_eq!(rt; begun(rt.alloc(), PUT, false), (Told::Body(29), 1, 0));
    assert_eq!(rt; first_wrong_beginning(rt.alloc(), PUT), None);
}

/// After how many reads there is the put, and after how many the input ends behind it.
fn reads_of_put<R: Read>(alloc: Global, reader: R) -> Option<(u64, u64)>
where
    R: Drop,
{
    let mut reader = Counted::new(reader);
    let Ok(mut input) = Input::new(alloc) else {
        return None;
    };
    let Ok(Some(head)) = next_request(&mut input, &mut reader) else {
        return None;
    };
    let reads = reader.reads();
    let is_put = is_put(&input.request(head));
    input.skip(head);
    match read(&mut input, &mut reader) {
        (Told::Nothing, more, 0) if is_put => Some((reads, more)),
        _ => None,
    }
}

fn is_put(request: &Request<'_>) -> bool {
    request.method == b"POST".as_slice()
        && request.target == b"/v3/kv/put".as_slice()
        && request.body == b"{\"key\":\"Zm9v\",\"value\":\"YmFy\"}".as_slice()
        && !request.close
}

/// The first place at which the put, split into two reads, is not read by these.
fn first_wrong_split(alloc: Global, put: &[u8]) -> Option<usize> {
    for place in 1..put.len() {
        let first = &put[..place];
        let then = &put[place..];
        let fails = false;
        if reads_of_put(alloc, Cut { first, then, fails }) != Some((2, 3)) {
            return Some(place);
        }
    }
    None
}

#[test]
fn a_put_that_comes_in_two_reads(rt: HostRuntime) {
    assert_eq!(rt; reads_of_put(rt.alloc(), PUT), Some((1, 2)));
    assert_eq!(rt; first_wrong_split(rt.alloc(), PUT), None);
}

/// How three requests come out, one after the other.
fn three(alloc: Global, bytes: &[u8]) -> [(Told, u64, u64); 3] {
    let mut reader = Counted::new(bytes);
    match Input::new(alloc) {
        Ok(mut input) => {
            let first = read(&mut input, &mut reader);
            let second = read(&mut input, &mut reader);
            [first, second, read(&mut input, &mut reader)]
        }
        Err(AllocError) => [(Told::NoMemory, 0, 0); 3],
    }
}

#[test]
fn requests_that_come_together(rt: HostRuntime) {
    let bytes =
        b"GET /a HTTP/1.1\r\n\r\nPOST /b HTTP/1.1\r\nContent-Length: 3\r\n\r\nabcPOST /c HTTP/1.1\r\nContent-Length: 5\r\n\r\n1234";
    assert_eq!(rt;
        three(rt.alloc(), bytes),
        [
            (Told::Body(0), 1, 0),
            (Told::Body(3), 1, 0),
            (Told::Fails(Front::End), 2, 0),
        ]
    );
}

const HOSTILE: [(&[u8], Front); 7] = [
    (
        b"POST / HTTP/1.1\r\nContent-Length: 1572865\r\n\r\n",
        Front::TooLong,
    ),
    (
        b"POST / HTTP/1.1\r\nContent-Length: 1\r\nContent-Length: 1\r\n\r\nab",
        Front::Length,
    ),
    (
        b"POST / HTTP/1.1\r\nTransfer-Encoding: chunked\r\n\r\n0\r\n\r\n",
        Front::Length,
    ),
    (
        b"POST / HTTP/1.1\r\nContent-Length: 1x\r\n\r\n",
        Front::Length,
    ),
    (
        b"POST / HTTP/1.1\r\nContent-Length: 0000000000000000001\r\n\r\na",
        Front::Length,
    ),
    (b"GET / HTTP/1.0\r\n\r\n", Front::Head),
    (b"\x00\r\n\r\n", Front::Head),
];

/// The first place of a text whose fault comes out otherwise, or not with the first read.
fn first_wrong(alloc: Global, cases: &[(&'static [u8], Front)]) -> Option<usize> {
    for (index, (bytes, expected)) in cases.iter().enumerate() {
        if outcome(alloc, *bytes) != (Told::Fails(*expected), 1, 0) {
            return Some(index);
        }
    }
    None
}

/// How a head of so many header lines comes out.
fn told_of_lines(alloc: Global, count: usize) -> (Told, u64, u64) {
    match of_lines(alloc, count) {
        Ok(text) => outcome(alloc, text.as_slice()),
        Err(AllocError) => (Told::NoMemory, 0, 0),
    }
}

#[test]
fn hostile_heads(rt: HostRuntime) {
    assert_eq!(rt; first_wrong(rt.alloc(), HOSTILE.as_slice()), None);
    assert_eq!(rt; told_of_lines(rt.alloc(), 64), (Told::Body(0), 1, 0));
    assert_eq!(rt;
        told_of_lines(rt.alloc(), 65),
        (Told::Fails(Front::Head), 1, 0)
    );
    assert_eq!(rt;
        outcome(rt.alloc(), Endless),
        (Told::Fails(Front::TooLong), 8192, 0)
    );
}

/// A request with a body of so many bytes, which take more room than there is at first.
fn of_body(alloc: Global, count: usize) -> Result<Vec<u8>, AllocError> {
    let mut text = format!(in alloc;
        "POST / HTTP/1.1\r\nContent-Length: {count}\r\n\r\n"
    )?.into_bytes();
    for _ in 0..count {
        text.push(b'b')?;
    }
    Ok(text)
}

/// How such a request comes out.
fn told_of_body(alloc: Global, count: usize) -> (Told, u64, u64) {
    match of_body(alloc, count) {
        Ok(text) => outcome(alloc, text.as_slice()),
        Err(AllocError) => (Told::NoMemory, 0, 0),
    }
}

#[test]
fn long_bodies(rt: HostRuntime) {
    assert_eq!(rt;
        told_of_body(rt.alloc(), 16_000),
        (Told::Body(16_000), 1, 0)
    );
    assert_eq!(rt;
        told_of_body(rt.alloc(), 40_000),
        (Told::Body(40_000), 3, 0)
    );
    assert_eq!(rt;
        told_of_body(rt.alloc(), 1_572_864),
        (Told::Body(1_572_864), 8, 0)
    );
}
