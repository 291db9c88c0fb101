//! What a refusal is called, and its number.
use crate::reading::is_text;
use gateway_read::bad::Bad;
use gateway_read::field::Field;
use std::alloc::Global;

fn is_shown_as(alloc: Global, bad: Bad, expected: &str) -> bool {
    is_text(format!(in alloc; "{bad}"), expected)
}

const TEXTS: [(Bad, u8, &str); 6] = [
    (Bad::NotJson, 20, "gateway: body is not a JSON object"),
    (
        Bad::BadField(Field::SortOrder),
        21,
        "gateway: bad field sort_order",
    ),
    (Bad::BadBase64(Field::Key), 22, "gateway: bad base64 in key"),
    (Bad::NoPath, 23, "gateway: no such path"),
    (Bad::TooLong, 24, "gateway: body too long"),
    (Bad::Memory, 1, "etcdserver: out of memory"),
];

/// The first text whose refusal has another number or is shown otherwise.
fn first_shown_wrong(alloc: Global, cases: &[(Bad, u8, &'static str)]) -> Option<&'static str> {
    for row in cases {
        let (bad, number, text) = *row;
        if bad.number() != number || !is_shown_as(alloc, bad, text) {
            return Some(text);
        }
    }
    None
}

#[test]
fn texts_and_numbers_of_refusals(rt: HostRuntime) {
    assert_eq!(rt; first_shown_wrong(rt.alloc(), TEXTS.as_slice()), None);
}
