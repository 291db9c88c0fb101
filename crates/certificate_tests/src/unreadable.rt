//! Texts that are not read, and the line that is named.
use crate::samples::{TWO_KEYS, stops_at};
use certificate_text::Unreadable;
use std::alloc::{AllocError, Global};

/// A line of the text of two keys, what is put in its place, and the line that is unreadable then.
type Case = (usize, &'static str, u64);

const HEADS: [Case; 19] = [
    (1, "dump 1", 7),
    (1, "dump 3", 1),
    (1, "dump 2 ", 1),
    (1, " dump 2", 1),
    (1, "dump  2", 1),
    (1, "dump 2\r", 1),
    (1, "DUMP 2", 1),
    (1, "", 1),
    (2, "floor -1", 2),
    (2, "floor +1", 2),
    (2, "floor 00", 2),
    (2, "floor 9223372036854775808", 2),
    (2, "floor 18446744073709551616", 2),
    (2, "floor", 2),
    (2, "floor ", 2),
    (2, "floor 1 2", 2),
    (2, "revision 2", 2),
    (3, "revision 02", 3),
    (3, "floor 2", 3),
];

const VERSIONS: [Case; 25] = [
    (4, "put 2 0 :eA== 2 1 0", 4),
    (4, "put 2 0 :eA== 2 1 0 :MQ== ", 4),
    (4, "put 2 0  :eA== 2 1 0 :MQ==", 4),
    (4, "put 2 0 :eA== 2 1 0 :MQ==\r", 4),
    (4, "put 2 0 :eA== 2 1 0 :MQ== 0", 4),
    (4, "put 2 0 eA== 2 1 0 :MQ==", 4),
    (4, "put 2 0 :eA= 2 1 0 :MQ==", 4),
    (4, "put 2 0 :eA 2 1 0 :MQ==", 4),
    (4, "put 2 0 :eB== 2 1 0 :MQ==", 4),
    (4, "put 2 0 :-_8= 2 1 0 :MQ==", 4),
    (4, "put 2 0 :\u{e9}A== 2 1 0 :MQ==", 4),
    (4, "put 9223372036854775808 0 :eA== 2 1 0 :MQ==", 4),
    (4, "put 2 18446744073709551616 :eA== 2 1 0 :MQ==", 4),
    (4, "put 2 0 :eA== 9223372036854775808 1 0 :MQ==", 4),
    (4, "put 2 0 :eA== 2 9223372036854775808 0 :MQ==", 4),
    (4, "put 2 0 :eA== 2 1 9223372036854775808 :MQ==", 4),
    (4, "put 2 0 :eA== 2 1 -9223372036854775809 :MQ==", 4),
    (4, "put 2 0 :eA== 2 1 -0 :MQ==", 4),
    (4, "put 2 0 :eA== 2 1 -01 :MQ==", 4),
    (4, "put 2 0 :eA== 2 1 - :MQ==", 4),
    (4, "gone 2 0 :eA== 2", 4),
    (4, "gone 2 0", 4),
    (5, "Put 2 1 :eQ== 2 1 0 :Mg==", 5),
    (5, "range 2 0 2", 5),
    (6, "needs 2", 6),
];

const NEEDS: [Case; 15] = [
    (6, "End", 6),
    (7, "needs 1", 7),
    (7, "end", 7),
    (8, "range 2 0 9223372036854775808", 8),
    (8, "range 2 0", 8),
    (8, "range 2 0 2 2", 8),
    (8, "prev 2 0", 8),
    (8, "Prev 2 0 2", 8),
    (8, "gone 2 0 :eA==", 8),
    (9, "watch 2 01 2", 9),
    (9, "watch 2 1 2 ", 9),
    (10, "end ", 10),
    (10, "end\r", 10),
    (10, "end\n", 11),
    (10, "end\nrange 2 0 2", 11),
];

/// The text of two keys with another line in the place of one, counted from 1.
fn with_line(alloc: Global, number: usize, line: &str) -> Result<Vec<u8>, AllocError> {
    let mut text = Vec::new(alloc);
    for (index, old) in TWO_KEYS.lines().enumerate() {
        let new = if index + 1 == number { line } else { old };
        text.extend_from_slice(new.as_bytes())?;
        text.push(b'\n')?;
    }
    Ok(text)
}

/// The line at which the text of two keys is unreadable, with another line in the place of one.
fn stops_with(alloc: Global, number: usize, line: &str) -> Option<u64> {
    match with_line(alloc, number, line) {
        Ok(text) => stops_at(alloc, text.as_slice()),
        Err(_) => None,
    }
}

/// The first line that does not make its text unreadable where it should.
fn first_wrong(alloc: Global, cases: &[Case]) -> Option<&'static str> {
    for row in cases {
        let (number, line, expected) = *row;
        if stops_with(alloc, number, line) != Some(expected) {
            return Some(line);
        }
    }
    None
}

#[test]
fn heads(rt: HostRuntime) {
    assert_eq!(&rt; first_wrong(rt.alloc(), &HEADS), None);
}

#[test]
fn versions(rt: HostRuntime) {
    assert_eq!(&rt; first_wrong(rt.alloc(), &VERSIONS), None);
}

#[test]
fn needs(rt: HostRuntime) {
    assert_eq!(&rt; first_wrong(rt.alloc(), &NEEDS), None);
}

/// Format 1 has no line `prev`.
#[test]
fn previous(rt: HostRuntime) {
    assert_eq!(&rt;
        stops_at(
            rt.alloc(),
            b"dump 1\nfloor 3\nrevision 3\nput 2 0 :YQ== 2 1 0 :MQ==\ngone 3 0 :YQ==\nend\n\
needs 1\nprev 2 0 3\nwatch 3 0 3\nend\n"
        ),
        Some(8)
    );
}

/// A missing line is the one behind the last.
#[test]
fn missing(rt: HostRuntime) {
    assert_eq!(&rt; stops_at(rt.alloc(), b""), Some(1));
    assert_eq!(&rt; stops_at(rt.alloc(), b"\n"), Some(1));
    assert_eq!(&rt; stops_at(rt.alloc(), b"dump 2"), Some(2));
    assert_eq!(&rt;
        stops_at(rt.alloc(), b"dump 2\nfloor 0\nrevision 1\nend\nneeds 2"),
        Some(6)
    );
}

/// Whether a refusal is shown as this text.
fn is_shown(alloc: Global, refusal: Unreadable, text: &str) -> bool {
    let shown = format!(in alloc; "{refusal}");
    let is = match &shown {
        Ok(shown) => shown.as_str() == text,
        Err(_) => false,
    };
    drop(shown);
    is
}

static SHOWN: [(Unreadable, &str); 3] = [
    (Unreadable::Line(1), "unreadable: line 1"),
    (
        Unreadable::Line(1_000_000_007),
        "unreadable: line 1000000007",
    ),
    (Unreadable::Memory, "out of memory"),
];

/// The first text whose refusal is shown otherwise.
fn first_shown_wrong(alloc: Global, cases: &[(Unreadable, &'static str)]) -> Option<&'static str> {
    for row in cases {
        let (refusal, text) = *row;
        if !is_shown(alloc, refusal, text) {
            return Some(text);
        }
    }
    None
}

#[test]
fn shows_each_refusal(rt: HostRuntime) {
    assert_eq!(rt; first_shown_wrong(rt.alloc(), SHOWN.as_slice()), None);
}
