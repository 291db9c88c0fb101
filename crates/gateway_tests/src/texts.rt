//! Each public call once, against bodies that were written by hand.
use gateway_text::{
    Wording, delete_text, granted_text, leases_text, lost_text, memory_text, put_text, range_text,
    refusal_text, refusal_wording, renewed_text, revoked_text, time_left_text, txn_text,
};
use kv_model::ids::Ids;
use kv_model::refusal::Refusal;
use range_view::reply::{KvRef, OpReply, RangeReply};
use std::alloc::{AllocError, Global};

const IDS: Ids = Ids {
    cluster: 1,
    member: 1,
};

fn put_once<'a>(key: &'a [u8], value: &'a [u8], revision: u64) -> KvRef<'a> {
    KvRef {
        key,
        value,
        create: revision,
        modified: revision,
        version: 1,
        lease: 0,
    }
}

fn says(text: Result<Vec<u8>, AllocError>, body: &str) -> bool {
    match text {
        Ok(text) => text.as_slice() == body.as_bytes(),
        Err(_) => false,
    }
}

/// Whether the text of a range's answer is this one.
fn range_says(
    alloc: Global,
    shown: &[KvRef<'_>],
    count: u64,
    more: bool,
    revision: u64,
    expected: &str,
) -> bool {
    let mut kvs = Vec::new(alloc);
    for kv in shown {
        let kv = *kv;
        let _ = kvs.push(kv);
    }
    let reply = RangeReply {
        kvs,
        count,
        more,
        revision,
    };
    let says = says(range_text(alloc, &reply, &IDS), expected);
    drop(reply);
    says
}

/// A range of one key, one that the limit cut, and one of keys alone.
#[test]
fn ranges(rt: HostRuntime) {
    let mut b = put_once(b"b", b"", 3);
    b.modified = 5;
    b.version = 2;
    b.lease = -7;
    let are = [
        range_says(
            rt.alloc(),
            &[put_once(b"foo", b"bar", 2)],
            1,
            false,
            2,
            "{\"count\":\"1\",\"header\":{\"cluster_id\":\"1\",\"member_id\":\"1\",\"raft_term\":\"1\",\"revision\":\"2\"},\"kvs\":[{\"create_revision\":\"2\",\"key\":\"Zm9v\",\"mod_revision\":\"2\",\"value\":\"YmFy\",\"version\":\"1\"}]}",
        ),
        range_says(
            rt.alloc(),
            &[put_once(b"a", b"1", 2)],
            3,
            true,
            5,
            "{\"count\":\"3\",\"header\":{\"cluster_id\":\"1\",\"member_id\":\"1\",\"raft_term\":\"1\",\"revision\":\"5\"},\"kvs\":[{\"create_revision\":\"2\",\"key\":\"YQ==\",\"mod_revision\":\"2\",\"value\":\"MQ==\",\"version\":\"1\"}],\"more\":true}",
        ),
        range_says(
            rt.alloc(),
            &[b, put_once(b"a", b"", 2)],
            2,
            false,
            5,
            "{\"count\":\"2\",\"header\":{\"cluster_id\":\"1\",\"member_id\":\"1\",\"raft_term\":\"1\",\"revision\":\"5\"},\"kvs\":[{\"create_revision\":\"3\",\"key\":\"Yg==\",\"lease\":\"-7\",\"mod_revision\":\"5\",\"version\":\"2\"},{\"create_revision\":\"2\",\"key\":\"YQ==\",\"mod_revision\":\"2\",\"version\":\"1\"}]}",
        ),
    ];
    assert_eq!(rt; are, [true; 3]);
}

/// A put, one over a value, and a delete.
#[test]
fn writes(rt: HostRuntime) {
    let are = [
        says(
            put_text(rt.alloc(), 2, None, &IDS),
            "{\"header\":{\"cluster_id\":\"1\",\"member_id\":\"1\",\"raft_term\":\"1\",\"revision\":\"2\"}}",
        ),
        says(
            put_text(rt.alloc(), 3, Some(put_once(b"foo", b"bar", 2)), &IDS),
            "{\"header\":{\"cluster_id\":\"1\",\"member_id\":\"1\",\"raft_term\":\"1\",\"revision\":\"3\"},\"prev_kv\":{\"create_revision\":\"2\",\"key\":\"Zm9v\",\"mod_revision\":\"2\",\"value\":\"YmFy\",\"version\":\"1\"}}",
        ),
        says(
            delete_text(rt.alloc(), 3, 1, &[put_once(b"foo", b"bar", 2)], &IDS),
            "{\"deleted\":\"1\",\"header\":{\"cluster_id\":\"1\",\"member_id\":\"1\",\"raft_term\":\"1\",\"revision\":\"3\"},\"prev_kvs\":[{\"create_revision\":\"2\",\"key\":\"Zm9v\",\"mod_revision\":\"2\",\"value\":\"YmFy\",\"version\":\"1\"}]}",
        ),
    ];
    assert_eq!(rt; are, [true; 3]);
}

#[test]
fn a_lease_granted_and_revoked(rt: HostRuntime) {
    assert!(rt;
        says(
            granted_text(rt.alloc(), 1, 7, 10, &IDS),
            "{\"ID\":\"7\",\"TTL\":\"10\",\"header\":{\"cluster_id\":\"1\",\"member_id\":\"1\",\"raft_term\":\"1\",\"revision\":\"1\"}}"
        )
    );
    assert!(rt;
        says(
            revoked_text(rt.alloc(), 2, &IDS),
            "{\"header\":{\"cluster_id\":\"1\",\"member_id\":\"1\",\"raft_term\":\"1\",\"revision\":\"2\"}}"
        )
    );
}

#[test]
fn a_lease_that_is_gone(rt: HostRuntime) {
    assert!(rt;
        says(
            renewed_text(rt.alloc(), 6, 7, 0, &IDS),
            "{\"result\":{\"ID\":\"7\",\"header\":{\"cluster_id\":\"1\",\"member_id\":\"1\",\"raft_term\":\"1\",\"revision\":\"6\"}}}"
        )
    );
    assert!(rt;
        says(
            time_left_text(rt.alloc(), 6, 7, None, 0, &[], &IDS),
            "{\"ID\":\"7\",\"TTL\":\"-1\",\"header\":{\"cluster_id\":\"1\",\"member_id\":\"1\",\"raft_term\":\"1\",\"revision\":\"6\"}}"
        )
    );
}

#[test]
fn the_keys_of_a_lease(rt: HostRuntime) {
    let keys: [&[u8]; 2] = [b"a", b"c"];
    assert!(rt;
        says(
            time_left_text(rt.alloc(), 5, 7, Some(10), 10, &keys, &IDS),
            "{\"ID\":\"7\",\"TTL\":\"10\",\"grantedTTL\":\"10\",\"header\":{\"cluster_id\":\"1\",\"member_id\":\"1\",\"raft_term\":\"1\",\"revision\":\"5\"},\"keys\":[\"YQ==\",\"Yw==\"]}"
        )
    );
}

#[test]
fn two_leases(rt: HostRuntime) {
    assert!(rt;
        says(
            leases_text(rt.alloc(), 1, &[-3, 7], &IDS),
            "{\"header\":{\"cluster_id\":\"1\",\"member_id\":\"1\",\"raft_term\":\"1\",\"revision\":\"1\"},\"leases\":[{\"ID\":\"-3\"},{\"ID\":\"7\"}]}"
        )
    );
}

fn is_worded(alloc: Global, wording: &Wording<'_>, status: u16, body: &str) -> bool {
    wording.status == status && says(refusal_text(alloc, wording), body)
}

#[test]
fn a_refused_put(rt: HostRuntime) {
    assert!(rt;
        is_worded(
            rt.alloc(),
            &refusal_wording(Refusal::NoKey),
            400,
            "{\"code\":3,\"error\":\"etcdserver: key is not provided\",\"message\":\"etcdserver: key is not provided\"}"
        )
    );
}

#[test]
fn bodies_that_cannot_be_read(rt: HostRuntime) {
    let are = [
        is_worded(
            rt.alloc(),
            &Wording::no_path(),
            404,
            "{\"code\":5,\"error\":\"gateway: no such path\",\"message\":\"gateway: no such path\"}",
        ),
        is_worded(
            rt.alloc(),
            &Wording::too_long(),
            400,
            "{\"code\":3,\"error\":\"gateway: body too long\",\"message\":\"gateway: body too long\"}",
        ),
        is_worded(
            rt.alloc(),
            &Wording::not_json(),
            400,
            "{\"code\":3,\"error\":\"gateway: body is not a JSON object\",\"message\":\"gateway: body is not a JSON object\"}",
        ),
        is_worded(
            rt.alloc(),
            &Wording::bad_field("range_end"),
            400,
            "{\"code\":3,\"error\":\"gateway: bad field range_end\",\"message\":\"gateway: bad field range_end\"}",
        ),
        is_worded(
            rt.alloc(),
            &Wording::bad_base64("key"),
            400,
            "{\"code\":3,\"error\":\"gateway: bad base64 in key\",\"message\":\"gateway: bad base64 in key\"}",
        ),
    ];
    assert_eq!(rt; are, [true; 5]);
}

fn is_memory_text(alloc: Global) -> bool {
    match refusal_text(alloc, &refusal_wording(Refusal::Memory)) {
        Ok(text) => text.as_slice() == memory_text(),
        Err(_) => false,
    }
}

#[test]
fn what_takes_no_memory(rt: HostRuntime) {
    let lost: &[u8] =
        b"{\"code\":13,\"error\":\"etcdserver: answer lost, the change stands\",\"message\":\"etcdserver: answer lost, the change stands\"}";
    assert_eq!(rt; (is_memory_text(rt.alloc()), lost_text()), (true, lost));
}

/// Puts of x and y, each before a range over all, in one transaction.
fn puts_and_ranges(alloc: Global) -> Result<Vec<u8>, AllocError> {
    let x = put_once(b"x", b"1", 2);
    let y = put_once(b"y", b"2", 2);
    let one = RangeReply {
        kvs: vec![in alloc; x]?,
        count: 1,
        more: false,
        revision: 2,
    };
    let both = RangeReply {
        kvs: vec![in alloc; x, y]?,
        count: 2,
        more: false,
        revision: 2,
    };
    let replies = [
        OpReply::Put(None),
        OpReply::Range(one),
        OpReply::Put(None),
        OpReply::Range(both),
    ];
    txn_text(alloc, 2, true, &replies, &IDS)
}

#[test]
fn a_transaction_of_puts_and_ranges(rt: HostRuntime) {
    assert!(rt;
        says(
            puts_and_ranges(rt.alloc()),
            "{\"header\":{\"cluster_id\":\"1\",\"member_id\":\"1\",\"raft_term\":\"1\",\"revision\":\"2\"},\"responses\":[{\"response_put\":{\"header\":{\"revision\":\"2\"}}},{\"response_range\":{\"count\":\"1\",\"header\":{\"revision\":\"2\"},\"kvs\":[{\"create_revision\":\"2\",\"key\":\"eA==\",\"mod_revision\":\"2\",\"value\":\"MQ==\",\"version\":\"1\"}]}},{\"response_put\":{\"header\":{\"revision\":\"2\"}}},{\"response_range\":{\"count\":\"2\",\"header\":{\"revision\":\"2\"},\"kvs\":[{\"create_revision\":\"2\",\"key\":\"eA==\",\"mod_revision\":\"2\",\"value\":\"MQ==\",\"version\":\"1\"},{\"create_revision\":\"2\",\"key\":\"eQ==\",\"mod_revision\":\"2\",\"value\":\"Mg==\",\"version\":\"1\"}]}}],\"succeeded\":true}"
        )
    );
}

/// A put, and a transaction within that puts.
fn a_put_within(alloc: Global) -> Result<Vec<u8>, AllocError> {
    let inner = OpReply::Inner {
        succeeded: true,
        replies: vec![in alloc; OpReply::Put(None)]?,
    };
    txn_text(alloc, 2, true, &[OpReply::Put(None), inner], &IDS)
}

/// Deletes of a key that was there and of nothing, in one transaction.
fn two_deletes(alloc: Global) -> Result<Vec<u8>, AllocError> {
    let replies = [
        OpReply::Delete {
            deleted: 1,
            previous: Vec::new(alloc),
        },
        OpReply::Delete {
            deleted: 0,
            previous: Vec::new(alloc),
        },
    ];
    txn_text(alloc, 3, true, &replies, &IDS)
}

#[test]
fn transactions_of_few_operations(rt: HostRuntime) {
    assert!(rt;
        says(
            a_put_within(rt.alloc()),
            "{\"header\":{\"cluster_id\":\"1\",\"member_id\":\"1\",\"raft_term\":\"1\",\"revision\":\"2\"},\"responses\":[{\"response_put\":{\"header\":{\"revision\":\"2\"}}},{\"response_txn\":{\"header\":{\"revision\":\"2\"},\"responses\":[{\"response_put\":{\"header\":{\"revision\":\"2\"}}}],\"succeeded\":true}}],\"succeeded\":true}"
        )
    );
    assert!(rt;
        says(
            two_deletes(rt.alloc()),
            "{\"header\":{\"cluster_id\":\"1\",\"member_id\":\"1\",\"raft_term\":\"1\",\"revision\":\"3\"},\"responses\":[{\"response_delete_range\":{\"deleted\":\"1\",\"header\":{\"revision\":\"3\"}}},{\"response_delete_range\":{\"header\":{\"revision\":\"3\"}}}],\"succeeded\":true}"
        )
    );
    assert!(rt;
        says(
            txn_text(rt.alloc(), 1, false, &[], &IDS),
            "{\"header\":{\"cluster_id\":\"1\",\"member_id\":\"1\",\"raft_term\":\"1\",\"revision\":\"1\"}}"
        )
    );
}
