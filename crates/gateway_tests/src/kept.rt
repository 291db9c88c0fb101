//! Bodies that are read one after another through one kept [`Reading`]: none leaves a trace in the
//! next.
use gateway_read::Reading;
use gateway_read::bad::Bad;
use kv_model::call::Command;
use std::alloc::Global;

/// Whether a Range is read with this key, or refused as no JSON object where none is given.
fn is_read(alloc: Global, reading: &mut Reading, body: &str, expected: Option<&[u8]>) -> bool {
    let command = reading.read(alloc, b"/v3/kv/range", body.as_bytes());
    let is = match (&command, expected) {
        (Ok(Command::Range(query)), Some(key)) => query.range.key.as_slice() == key,
        (Err(Bad::NotJson), None) => true,
        _ => false,
    };
    drop(command);
    is
}

const BODIES: [(&str, Option<&[u8]>); 9] = [
    ("{\"\\u006bey\":\"Zm9vYmFy\"}", Some(b"foobar")),
    ("{\"k\\u0065y\":\"Zg==\"}", Some(b"f")),
    ("{\"key\":\"Zm9v\",\"x\":1e999}", None),
    ("{\"key\":\"Zm9v\",\"x\":[{\"y\":-1e999}]}", None),
    ("{\"key\":\"Zm9v\"} 1", None),
    ("{\"key\":\"Zm9v\",\"key\":\"Zm8=\"}", Some(b"fo")),
    ("", Some(b"")),
    ("[]", None),
    ("{\"key\":\"Zm9v\"}", Some(b"foo")),
];

/// The first body that is read otherwise than beside it.
fn first_other(alloc: Global, cases: &[(&'static str, Option<&[u8]>)]) -> Option<&'static str> {
    let mut reading = Reading::new(alloc);
    for row in cases {
        let (body, expected) = *row;
        if !is_read(alloc, &mut reading, body, expected) {
            return Some(body);
        }
    }
    None
}

#[test]
fn bodies_one_after_another(rt: HostRuntime) {
    assert_eq!(rt; first_other(rt.alloc(), BODIES.as_slice()), None);
}
