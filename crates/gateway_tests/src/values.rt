//! Keys as base64, with the vectors of RFC 4648 (section 10).
use crate::reading::{RANGE, command};
use kv_model::call::Command;
use std::alloc::Global;

/// Whether a Range is read with this key.
fn is_key(alloc: Global, body: &str, expected: &[u8]) -> bool {
    let command = command(alloc, RANGE, body);
    let is = match &command {
        Ok(Command::Range(query)) => query.range.key.as_slice() == expected,
        _ => false,
    };
    drop(command);
    is
}

const KEYS: [(&str, &[u8]); 12] = [
    ("{\"key\":\"\"}", b""),
    ("{\"key\":\"Zg==\"}", b"f"),
    ("{\"key\":\"Zm8=\"}", b"fo"),
    ("{\"key\":\"Zm9v\"}", b"foo"),
    ("{\"key\":\"Zm9vYg==\"}", b"foob"),
    ("{\"key\":\"Zm9vYmE=\"}", b"fooba"),
    ("{\"key\":\"Zm9vYmFy\"}", b"foobar"),
    ("{\"key\":\"Zg\"}", b"f"),
    ("{\"key\":\"Zm8\"}", b"fo"),
    ("{\"key\":\"Zm9vYg\"}", b"foob"),
    ("{\"key\":\"+/-_\"}", b"\xfb\xff\xbf"),
    ("{\"key\":\"-_8=\"}", b"\xfb\xff"),
];

/// The first body that is not read with the key beside it.
fn first_other_key(alloc: Global, cases: &[(&'static str, &[u8])]) -> Option<&'static str> {
    for row in cases {
        let (body, expected) = *row;
        if !is_key(alloc, body, expected) {
            return Some(body);
        }
    }
    None
}

#[test]
fn base64_texts(rt: HostRuntime) {
    assert_eq!(rt; first_other_key(rt.alloc(), KEYS.as_slice()), None);
}
