//! Texts that are read, and written again.
use crate::samples::{TWO_KEYS, UNMET, is_written_as, prints, stops_at};
use std::alloc::Global;

/// Texts that come back as they stand.
const TEXTS: [&str; 6] = [
    TWO_KEYS,
    UNMET,
    // a fresh store
    "dump 2\nfloor 0\nrevision 1\nend\nneeds 2\nend\n",
    // one key, after trimming
    "dump 2\nfloor 4\nrevision 4\nput 4 0 :Yg== 4 1 0 :MQ==\nend\nneeds 2\nrange 4 0 4\nend\n",
    // a tombstone at the floor, and the put before it
    "dump 2\nfloor 3\nrevision 3\nput 2 0 :YQ== 2 1 0 :MQ==\ngone 3 0 :YQ==\nend\n\
needs 2\nprev 2 0 3\nwatch 3 0 3\nend\n",
    // the limits of each number, an empty key and an empty value, a floor above the revision
    "dump 2\nfloor 9223372036854775807\nrevision 0\nput 9223372036854775807 18446744073709551615 : \
9223372036854775807 9223372036854775807 -9223372036854775808 :\n\
put 0 0 : 0 0 9223372036854775807 :AA==\nend\nneeds 2\n\
watch 9223372036854775807 18446744073709551615 9223372036854775807\nrange 0 0 0\nend\n",
];

/// The first text that does not come back, with its last line feed and without.
fn first_lost(alloc: Global, texts: &[&'static str]) -> Option<&'static str> {
    for text in texts {
        let text = *text;
        let bytes = text.as_bytes();
        let Some((_, unended)) = bytes.split_last() else {
            return Some(text);
        };
        if !is_written_as(alloc, bytes, bytes) || !is_written_as(alloc, unended, bytes) {
            return Some(text);
        }
    }
    None
}

/// What is read is written again as it stood; a last line feed may be missing.
#[test]
fn come_back(rt: HostRuntime) {
    assert_eq!(&rt; first_lost(rt.alloc(), &TEXTS), None);
}

/// The text of two keys in format 1.
const OLDER: &[u8] = b"dump 1\nfloor 0\nrevision 2\nput 2 0 :eA== 2 1 0 :MQ==\n\
put 2 1 :eQ== 2 1 0 :Mg==\nend\nneeds 1\nrange 2 0 2\nrange 2 1 2\nend\n";

/// What is read in format 1 is written in format 2.
#[test]
fn older(rt: HostRuntime) {
    assert!(&rt; is_written_as(rt.alloc(), OLDER, TWO_KEYS.as_bytes()));
}

/// Each field goes to its place.
#[test]
fn fields(rt: HostRuntime) {
    let text = b"dump 2\nfloor 2\nrevision 9\nput 3 4 :a2V5 5 6 -7 :dmFs\ngone 8 1 :Zm9v\nend\n\
needs 2\nrange 3 4 5\nwatch 8 1 6\nprev 9 2 7\nend\n";
    let expected = "Dump { floor: 2, revision: 9, versions: [\
Version { rev: Rev { main: 3, sub: 4 }, key: b\"key\", \
body: Put { create: 5, version: 6, lease: -7, value: b\"val\" } }, \
Version { rev: Rev { main: 8, sub: 1 }, key: b\"foo\", body: Gone }] } \
Certificate { claims: [Claim { rev: Rev { main: 3, sub: 4 }, need: Range(5) }, \
Claim { rev: Rev { main: 8, sub: 1 }, need: Watch(6) }, \
Claim { rev: Rev { main: 9, sub: 2 }, need: Prev(7) }] }";
    assert!(&rt; prints(rt.alloc(), text, expected));
    assert_eq!(&rt; stops_at(rt.alloc(), text), Some(0));
}
