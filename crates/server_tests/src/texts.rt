//! Requests and their replies, as bytes (RFC 9112; the etcd documentation's JSON gateway).
use http_front::Clock;
use json_gateway::Ids;

/// The member's numbers.
pub(crate) const ONES: Ids = Ids {
    cluster: 1,
    member: 1,
};

/// A put, after which the connection is kept.
pub(crate) const PUT: &[u8] = b"POST /v3/kv/put HTTP/1.1\r\nHost: t\r\nContent-Length: 29\r\n\r\n\
    {\"key\":\"Zm9v\",\"value\":\"YmFy\"}";

/// The first put's reply.
pub(crate) const PUT_REPLY: &[u8] =
    b"HTTP/1.1 200 OK\r\nContent-Type: application/json\r\nContent-Length: 76\r\n\r\n\
    {\"header\":{\"cluster_id\":\"1\",\"member_id\":\"1\",\"raft_term\":\"1\",\"revision\":\"2\"}}";

/// A put, after which the connection is closed.
pub(crate) const LAST_PUT: &[u8] =
    b"POST /v3/kv/put HTTP/1.1\r\nHost: t\r\nConnection: close\r\nContent-Length: 29\r\n\r\n\
    {\"key\":\"Zm9v\",\"value\":\"YmFy\"}";

/// Three puts of a key, a compaction at the last, and a read of it.
pub(crate) const COMPACTED_PUTS: &[u8] =
    b"POST /v3/kv/put HTTP/1.1\r\nHost: t\r\nContent-Length: 29\r\n\r\n\
    {\"key\":\"Zm9v\",\"value\":\"YmFy\"}\
    POST /v3/kv/put HTTP/1.1\r\nHost: t\r\nContent-Length: 29\r\n\r\n\
    {\"key\":\"Zm9v\",\"value\":\"YmFy\"}\
    POST /v3/kv/put HTTP/1.1\r\nHost: t\r\nContent-Length: 29\r\n\r\n\
    {\"key\":\"Zm9v\",\"value\":\"YmFy\"}\
    POST /v3/kv/compaction HTTP/1.1\r\nHost: t\r\nContent-Length: 16\r\n\r\n\
    {\"revision\":\"4\"}\
    POST /v3/kv/range HTTP/1.1\r\nHost: t\r\nContent-Length: 14\r\n\r\n\
    {\"key\":\"Zm9v\"}";

/// Its replies at the revisions 2 and 3.
pub(crate) const LAST_PUT_REPLIES: [&str; 2] = [
    "HTTP/1.1 200 OK\r\nContent-Type: application/json\r\nContent-Length: 76\r\n\
    Connection: close\r\n\r\n\
    {\"header\":{\"cluster_id\":\"1\",\"member_id\":\"1\",\"raft_term\":\"1\",\"revision\":\"2\"}}",
    "HTTP/1.1 200 OK\r\nContent-Type: application/json\r\nContent-Length: 76\r\n\
    Connection: close\r\n\r\n\
    {\"header\":{\"cluster_id\":\"1\",\"member_id\":\"1\",\"raft_term\":\"1\",\"revision\":\"3\"}}",
];

/// A clock that stands.
#[derive(Drop)]
pub(crate) struct Still;

impl Clock for Still {
    fn now(&self) -> u64 {
        1000
    }
}
