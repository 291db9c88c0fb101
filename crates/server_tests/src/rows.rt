//! Connections over a store of their own: what comes, what goes, how it ends, and the store's
//! revision then (RFC 9112; the replies as the etcd documentation's JSON gateway has them).
use http_front::serve_alone;
use http_reply::{Counted, Front};
use request_core::store::Core;
use std::alloc::Global;

/// What comes, how many requests are answered at most, what goes, how it ends, and the revision.
type Row = (&'static [u8], u64, &'static [u8], Result<u64, Front>, u64);

const PUT: &[u8] =
    b"POST /v3/kv/put HTTP/1.1\r\nHost: t\r\nContent-Length: 29\r\n\r\n{\"key\":\"Zm9v\",\"value\":\"YmFy\"}";

const PUT_REPLY: &[u8] =
    b"HTTP/1.1 200 OK\r\nContent-Type: application/json\r\nContent-Length: 76\r\n\r\n{\"header\":{\"cluster_id\":\"1\",\"member_id\":\"1\",\"raft_term\":\"1\",\"revision\":\"2\"}}";

const ROWS: [Row; 14] = [
    (
        b"POST /v3/kv/put HTTP/1.1\r\nHost: t\r\nContent-Length: 29\r\n\r\n{\"key\":\"Zm9v\",\"value\":\"YmFy\"}",
        9,
        b"HTTP/1.1 200 OK\r\nContent-Type: application/json\r\nContent-Length: 76\r\n\r\n{\"header\":{\"cluster_id\":\"1\",\"member_id\":\"1\",\"raft_term\":\"1\",\"revision\":\"2\"}}",
        Ok(1),
        2,
    ),
    (b"", 9, b"", Ok(0), 1),
    (
        b"POST /v3/kv/put HTTP/1.1\r\nHost: t\r\nContent-Length: 29\r\n\r\n{\"key\":\"Zm9v\",\"value\":\"YmFy\"}",
        0,
        b"",
        Ok(0),
        1,
    ),
    (
        b"GET /v3/kv/range HTTP/1.1\r\nHost: t\r\n\r\n",
        9,
        b"HTTP/1.1 404 Not Found\r\nContent-Type: application/json\r\nContent-Length: 76\r\n\r\n{\"code\":5,\"error\":\"gateway: no such path\",\"message\":\"gateway: no such path\"}",
        Ok(1),
        1,
    ),
    (
        b"POST /v3/kv/put HTTP/1.1\r\nContent-Length: 1x\r\n\r\nPOST /v3/kv/put HTTP/1.1\r\nHost: t\r\nContent-Length: 29\r\n\r\n{\"key\":\"Zm9v\",\"value\":\"YmFy\"}",
        9,
        b"HTTP/1.1 400 Bad Request\r\nContent-Type: application/json\r\nContent-Length: 66\r\nConnection: close\r\n\r\n{\"code\":3,\"error\":\"http: bad length\",\"message\":\"http: bad length\"}",
        Err(Front::Length),
        1,
    ),
    (
        b"POST /v3/kv/put HTTP/1.1\r\nHost: t\r\nContent-Length: 29\r\n\r\n{\"key\":\"Zm9v\",\"value\":\"YmFy\"}GET /v3/kv/range HTTP/1.1\r\nHost: t\r\n\r\nPOST /v3/kv/put HTTP/1.1\r\nContent-Length: 1x\r\n\r\n",
        9,
        b"HTTP/1.1 200 OK\r\nContent-Type: application/json\r\nContent-Length: 76\r\n\r\n{\"header\":{\"cluster_id\":\"1\",\"member_id\":\"1\",\"raft_term\":\"1\",\"revision\":\"2\"}}HTTP/1.1 404 Not Found\r\nContent-Type: application/json\r\nContent-Length: 76\r\n\r\n{\"code\":5,\"error\":\"gateway: no such path\",\"message\":\"gateway: no such path\"}HTTP/1.1 400 Bad Request\r\nContent-Type: application/json\r\nContent-Length: 66\r\nConnection: close\r\n\r\n{\"code\":3,\"error\":\"http: bad length\",\"message\":\"http: bad length\"}",
        Err(Front::Length),
        2,
    ),
    (
        b"POST /v3/kv/put HTTP/1.1\r\nHost: t\r\nContent-Length: 29\r\n\r\n{\"key\":\"Zm9v\",\"value\":\"YmFy\"}POST /v3/watch HTTP/1.1\r\nHost: t\r\nContent-Length: 54\r\n\r\n{\"create_request\":{\"key\":\"Zm9v\",\"start_revision\":\"2\"}}POST /v3/kv/put HTTP/1.1\r\nHost: t\r\nContent-Length: 29\r\n\r\n{\"key\":\"Zm9v\",\"value\":\"YmFy\"}",
        9,
        b"HTTP/1.1 200 OK\r\nContent-Type: application/json\r\nContent-Length: 76\r\n\r\n{\"header\":{\"cluster_id\":\"1\",\"member_id\":\"1\",\"raft_term\":\"1\",\"revision\":\"2\"}}HTTP/1.1 200 OK\r\nContent-Type: application/json\r\nTransfer-Encoding: chunked\r\nConnection: close\r\n\r\n67\r\n{\"result\":{\"created\":true,\"header\":{\"cluster_id\":\"1\",\"member_id\":\"1\",\"raft_term\":\"1\",\"revision\":\"2\"}}}\n\r\nbf\r\n{\"result\":{\"events\":[{\"kv\":{\"create_revision\":\"2\",\"key\":\"Zm9v\",\"mod_revision\":\"2\",\"value\":\"YmFy\",\"version\":\"1\"}}],\"header\":{\"cluster_id\":\"1\",\"member_id\":\"1\",\"raft_term\":\"1\",\"revision\":\"2\"}}}\n\r\n0\r\n\r\n",
        Ok(2),
        2,
    ),
    (
        b"POST /v3/kv/put HTTP/1.1\r\nHost: t\r\nContent-Length: 29\r\n\r\n{\"key\":\"Zm9v\",\"value\":\"YmFy\"}POST /v3/kv/put HTTP/1.1\r\nHost: t\r\nContent-Length: 29\r\n\r\n{\"key\":\"Zm9v\",\"value\":\"YmFy\"}",
        1,
        b"HTTP/1.1 200 OK\r\nContent-Type: application/json\r\nContent-Length: 76\r\n\r\n{\"header\":{\"cluster_id\":\"1\",\"member_id\":\"1\",\"raft_term\":\"1\",\"revision\":\"2\"}}",
        Ok(1),
        2,
    ),
    (
        b"POST /v3/kv/put?x=/ HTTP/1.1\r\nHost: t\r\nConnection: CLOSE\r\nContent-Length: 29\r\n\r\n{\"key\":\"Zm9v\",\"value\":\"YmFy\"}POST /v3/kv/put HTTP/1.1\r\nHost: t\r\nContent-Length: 29\r\n\r\n{\"key\":\"Zm9v\",\"value\":\"YmFy\"}",
        9,
        b"HTTP/1.1 200 OK\r\nContent-Type: application/json\r\nContent-Length: 76\r\nConnection: close\r\n\r\n{\"header\":{\"cluster_id\":\"1\",\"member_id\":\"1\",\"raft_term\":\"1\",\"revision\":\"2\"}}",
        Ok(1),
        2,
    ),
    (
        b"GET / HTTP/1.0\r\n\r\n",
        9,
        b"HTTP/1.1 400 Bad Request\r\nContent-Type: application/json\r\nContent-Length: 62\r\nConnection: close\r\n\r\n{\"code\":3,\"error\":\"http: bad head\",\"message\":\"http: bad head\"}",
        Err(Front::Head),
        1,
    ),
    (
        b"POST / HTTP/1.1\r\nContent-Length: 1572865\r\n\r\n",
        9,
        b"HTTP/1.1 400 Bad Request\r\nContent-Type: application/json\r\nContent-Length: 62\r\nConnection: close\r\n\r\n{\"code\":3,\"error\":\"http: too long\",\"message\":\"http: too long\"}",
        Err(Front::TooLong),
        1,
    ),
    (
        b"POST / HTTP/1.1\r\nContent-Length: 1\r\nContent-Length: 1\r\n\r\n",
        9,
        b"HTTP/1.1 400 Bad Request\r\nContent-Type: application/json\r\nContent-Length: 66\r\nConnection: close\r\n\r\n{\"code\":3,\"error\":\"http: bad length\",\"message\":\"http: bad length\"}",
        Err(Front::Length),
        1,
    ),
    (
        b"POST / HTTP/1.1\r\nTransfer-Encoding: chunked\r\n\r\n",
        9,
        b"HTTP/1.1 400 Bad Request\r\nContent-Type: application/json\r\nContent-Length: 66\r\nConnection: close\r\n\r\n{\"code\":3,\"error\":\"http: bad length\",\"message\":\"http: bad length\"}",
        Err(Front::Length),
        1,
    ),
    (
        b"POST /v3/kv/put HTTP/1.1\r\nHost: t\r\nContent-Length: 406\r\n\r\n{\"a\":[[[[[[[[[[[[[[[[[[[[[[[[[[[[[[[[[[[[[[[[[[[[[[[[[[[[[[[[[[[[[[[[[[[[[[[[[[[[[[[[[[[[[[[[[[[[[[[[[[[[[[[[[[[[[[[[[[[[[[[[[[[[[[[[[[[[[[[[[[[[[[[[[[[[[[[[[[[[[[[[[[[[[[[[[[[[[[[[[[[[[[[[[[[[[[[[[[[[[[[[]]]]]]]]]]]]]]]]]]]]]]]]]]]]]]]]]]]]]]]]]]]]]]]]]]]]]]]]]]]]]]]]]]]]]]]]]]]]]]]]]]]]]]]]]]]]]]]]]]]]]]]]]]]]]]]]]]]]]]]]]]]]]]]]]]]]]]]]]]]]]]]]]]]]]]]]]]]]]]]]]]]]]]]]]]]]]]]]]]]]]]]]]]]]]]]]]]]]]]]]}",
        9,
        b"HTTP/1.1 400 Bad Request\r\nContent-Type: application/json\r\nContent-Length: 102\r\n\r\n{\"code\":3,\"error\":\"gateway: body is not a JSON object\",\"message\":\"gateway: body is not a JSON object\"}",
        Ok(1),
        1,
    ),
];

/// Whether a row holds.
fn holds(alloc: Global, row: &Row) -> bool {
    let (input, limit, output, ended, revision) = *row;
    let mut core = Core::new(alloc);
    let mut reader = Counted::new(input);
    let mut writer = Counted::new(Vec::new(alloc));
    let result = serve_alone(alloc, &mut core, &mut reader, &mut writer, limit);
    let at = core.status().revision;
    drop(core);
    let written = writer.into_inner();
    result == ended && at == revision && written.as_slice() == output
}

/// The first row that does not hold.
fn wrong_row(alloc: Global) -> Option<usize> {
    ROWS.iter().position(|row| !holds(alloc, row))
}

/// Whether the first put's request, ended behind so many bytes, is answered by nothing.
fn ends_within(alloc: Global, count: usize) -> bool {
    let count = count.min(PUT.len());
    holds(alloc, &(&PUT[..count], 9, b"", Err(Front::End), 1))
}

/// Whether of its reply, to a writer that takes so many bytes, just these go out, and the put stands.
fn is_cut(alloc: Global, count: usize) -> bool {
    let count = count.min(147);
    let mut core = Core::new(alloc);
    let mut room = [0; 147];
    let mut reader = Counted::new(PUT);
    let mut writer = Counted::new(&mut room[..count]);
    let result = serve_alone(alloc, &mut core, &mut reader, &mut writer, 9);
    let (at, failures) = (core.status().revision, writer.failures());
    drop(core);
    result == Err(Front::Write(count as u64))
        && at == 2
        && failures == 1
        && PUT_REPLY.starts_with(&room[..count])
}

#[test]
fn cut_input_and_output(rt: HostRuntime) {
    let alloc = rt.alloc();
    assert_eq!(rt;
        (1..PUT.len()).find(|count| !ends_within(alloc, *count)),
        None
    );
    assert_eq!(rt;
        (0..PUT_REPLY.len()).find(|count| !is_cut(alloc, *count)),
        None
    );
}

#[test]
fn rows(rt: HostRuntime) {
    assert_eq!(rt; wrong_row(rt.alloc()), None);
}
