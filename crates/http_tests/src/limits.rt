//! Heads of the most lines and of the most bytes.
use crate::heads::seen;
use http_head::{Fault, Look, MOST_HEAD, MOST_LINES};
use std::alloc::{AllocError, Global};

/// A head of so many header lines.
pub(super) fn of_lines(alloc: Global, count: usize) -> Result<Vec<u8>, AllocError> {
    let mut text = Vec::new(alloc);
    text.extend_from_slice(b"GET / HTTP/1.1\r\n")?;
    for _ in 0..count {
        text.extend_from_slice(b"A: b\r\n")?;
    }
    text.extend_from_slice(b"\r\n")?;
    Ok(text)
}

/// A head whose one header line has so many bytes, where it is whole.
fn of_bytes(alloc: Global, count: usize, is_whole: bool) -> Result<Vec<u8>, AllocError> {
    let mut text = Vec::new(alloc);
    text.extend_from_slice(b"GET / HTTP/1.1\r\nA: ")?;
    for _ in 0..count {
        text.extend_from_slice(b"b")?;
    }
    if is_whole {
        text.extend_from_slice(b"\r\n\r\n")?;
    }
    Ok(text)
}

/// What a text begins with, and how many bytes of it are the head.
fn told(text: Result<Vec<u8>, AllocError>) -> Option<(Look, usize)> {
    let Ok(text) = text else {
        return None;
    };
    let look = seen(text.as_slice());
    Some((look, text.len()))
}

/// Whether a text of so many bytes is a head from its first byte to its last.
fn is_head(text: Result<Vec<u8>, AllocError>, len: usize) -> bool {
    match told(text) {
        Some((Look::Head(head), all)) => head.len == len && all == len,
        _ => false,
    }
}

#[test]
fn header_lines(rt: HostRuntime) {
    assert_eq!(rt; MOST_LINES, 64);
    assert!(rt; is_head(of_lines(rt.alloc(), 0), 18));
    assert!(rt; is_head(of_lines(rt.alloc(), 64), 402));
    assert_eq!(rt;
        told(of_lines(rt.alloc(), 65)),
        Some((Look::Fault(Fault::Head), 408))
    );
}

#[test]
fn bytes_of_a_head(rt: HostRuntime) {
    assert_eq!(rt; MOST_HEAD, 8192);
    assert!(rt; is_head(of_bytes(rt.alloc(), 8169, true), 8192));
    assert_eq!(rt;
        told(of_bytes(rt.alloc(), 8170, true)),
        Some((Look::Fault(Fault::TooLong), 8193))
    );
    assert_eq!(rt;
        told(of_bytes(rt.alloc(), 8172, false)),
        Some((Look::More, 8191))
    );
    assert_eq!(rt;
        told(of_bytes(rt.alloc(), 8173, false)),
        Some((Look::Fault(Fault::TooLong), 8192))
    );
}
