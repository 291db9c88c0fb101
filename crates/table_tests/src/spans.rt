//! The four kinds of a range of keys.
use bytes::Bytes;
use kv_model::span::Span;
use kv_model::version::KeyRange;

/// The kind of a range, by its place among `Span`'s, and whether a, b and c are in it.
fn seen(key: &'static [u8], end: &'static [u8]) -> (u8, [bool; 3]) {
    let range = KeyRange {
        key: Bytes::from_static(key),
        end: Bytes::from_static(end),
    };
    let kind = match range.span() {
        Span::Key(_) => 0,
        Span::All => 1,
        Span::From(_) => 2,
        Span::Interval { .. } => 3,
    };
    let has = [
        range.contains(b"a"),
        range.contains(b"b"),
        range.contains(b"c"),
    ];
    drop(range);
    (kind, has)
}

#[test]
fn a_range_has_its_keys(rt: HostRuntime) {
    let kinds = [
        seen(b"b", b""),
        seen(b"\0", b"\0"),
        seen(b"b", b"\0"),
        seen(b"a", b"c"),
    ];
    assert_eq!(rt;
        kinds,
        [
            (0, [false, true, false]),
            (1, [true, true, true]),
            (2, [false, true, true]),
            (3, [true, true, false])
        ]
    );
}
