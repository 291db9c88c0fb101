//! The answer to a Range whose key-values come in parts: byte for byte that of the whole.
use gateway_text::{RangeText, range_text, room_of};
use kv_model::ids::Ids;
use range_view::reply::{KvRef, RangeReply};
use std::alloc::{AllocError, Global};

const IDS: Ids = Ids {
    cluster: 1,
    member: 2,
};

const REVISION: u64 = 41;

const A: KvRef<'static> = KvRef {
    key: b"a",
    value: b"1",
    create: 7,
    modified: 40,
    version: 3,
    lease: 0,
};

const B: KvRef<'static> = KvRef {
    key: b"b",
    value: b"",
    lease: -7,
    ..A
};

const C: KvRef<'static> = KvRef {
    key: b"a longer key, for a longer text of base64",
    value: b"\xff\x00\xfe",
    ..A
};

/// How many key-values the parts have.
fn count_of(parts: &[&[KvRef<'_>]]) -> u64 {
    let mut count: u64 = 0;
    for part in parts {
        count = count.saturating_add(part.len() as u64);
    }
    count
}

fn in_parts(alloc: Global, parts: &[&[KvRef<'_>]]) -> Result<Vec<u8>, AllocError> {
    let room = match parts.first() {
        Some(first) => room_of(first),
        None => 0,
    };
    let mut text = RangeText::new(alloc, &IDS, REVISION, count_of(parts), room)?;
    for part in parts {
        text.add(part)?;
    }
    text.finish()
}

fn whole(alloc: Global, parts: &[&[KvRef<'_>]]) -> Result<Vec<u8>, AllocError> {
    let mut kvs = Vec::new(alloc);
    for part in parts {
        for kv in part.iter() {
            let kv = *kv;
            kvs.push(kv)?;
        }
    }
    let reply = RangeReply {
        kvs,
        count: count_of(parts),
        more: false,
        revision: REVISION,
    };
    range_text(alloc, &reply, &IDS)
}

/// Whether both texts are the same; `Err` where one found no memory.
fn is_same(alloc: Global, parts: &[&[KvRef<'_>]]) -> Result<bool, AllocError> {
    let of_parts = in_parts(alloc, parts)?;
    let of_whole = whole(alloc, parts)?;
    Ok(of_parts.as_slice() == of_whole.as_slice())
}

/// No key-value, none in an empty part, one part, and three, of which one is empty.
#[test]
fn parts_and_whole(rt: HostRuntime) {
    let are = [
        is_same(rt.alloc(), &[]),
        is_same(rt.alloc(), &[&[]]),
        is_same(rt.alloc(), &[&[A, B, C]]),
        is_same(rt.alloc(), &[&[A], &[B, C], &[A]]),
        is_same(rt.alloc(), &[&[], &[C, A], &[], &[B]]),
    ];
    assert_eq!(rt; are, [Ok(true); 5]);
}
